//! The head at the front of bytes.
ghost use Rattle.std.specs.Prelude.{◌≤◌, length};
ghost use Rattle.httparse.specs.Grammar.{RequestHead};
ghost use Rattle.httparse.specs.Spans.{IsRequestAt, IsRequestWithin};
ghost use Rattle.up_heads.specs.Heads.{most_head};
ghost use Rattle.up_heads.specs.Fronts.{Fronts, IsFactsOf};

use crate::check::Check;
use crate::closing::closes;
use crate::framing::framing;
use crate::methods::{Verb, verb_of};
use httparse::Status;
use httparse::spans::{EMPTY_HEADER_SPAN, HeaderSpan, RequestSpans, Span, parse_request};

/// What a whole head says.
#[derive(Clone, Copy, Drop)]
pub struct Facts {
    /// The length of the body in bytes, none where it isn't stated; or the check of the head alone that fails.
    pub framing: Result<Option<usize>, Check>,
    /// The method.
    pub verb: Verb,
    /// Whether the connection is closed behind the request.
    pub closes: bool,
    /// Where the target stands.
    pub target: Span,
}

/// What is at the front of bytes.
#[derive(Clone, Copy, Drop)]
pub enum Front {
    /// A head, which says this.
    Whole(Facts),
    /// No head yet, but one may come.
    Cut,
    /// No head, whatever follows.
    Bad,
}

/// The head at the front of the bytes, of at most 16,384.
pub fn front_of(bytes: &[u8]) -> Front
    requires { length bytes.now ≤ most_head }
    ensures { Fronts bytes.now result }
{
    let mut fields = [EMPTY_HEADER_SPAN; 64];
    match parse_request(bytes, &mut fields) {
        Ok(Status::Complete(spans)) => Front::Whole(facts_of(bytes, &fields, &spans)),
        Ok(Status::Partial) => Front::Cut,
        Err(_) => Front::Bad,
    }
}

/// What the head with these spans says.
#[tactic(auto, unfolding(crate::specs::Framing::framing, crate::specs::Closing::closes))]
fn facts_of(bytes: &[u8], fields: &[HeaderSpan], spans: &RequestSpans) -> Facts
    requires { IsRequestWithin bytes.now fields.now spans.now }
    ensures { (head : RequestHead) → IsRequestAt bytes.now fields.now spans.now head → IsFactsOf bytes.now head result }
{
    let section = &fields[..spans.headers];
    Facts {
        framing: framing(bytes, section, spans.version),
        verb: verb_of(spans.method.of(bytes)),
        closes: spans.version == 0 || closes(bytes, section),
        target: spans.path,
    }
}
