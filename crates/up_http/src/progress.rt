//! How far a run has come.
ghost use Rattle.std.specs.Prelude.{◌≡◌, ◌≤◌};
ghost use Rattle.up_http.specs.Requests.{most_requests};

use crate::conversation::Conversation;

/// How far a run has come.
#[derive(Drop)]
pub(crate) struct Progress {
    pub talk: Conversation,
    /// Whether the stream has ended.
    pub over: bool,
    /// How many requests were handed on as commands.
    pub called: u32,
    /// How many answers were written whole.
    pub answered: u32,
    ghost ends: { over ≡ talk.fed.ended },
    ghost few: { talk.fed.given ≤ most_requests },
    ghost in_order: { answered ≤ talk.fed.given },
    ghost fewer: { called ≤ talk.fed.given },
}
