//! What is brought of a repository's next Root.
use up_canon::bytes::Bytes;
use up_canon::listed::Listed;
use up_canon::text::Text;

/// A repository's next Root, signed elsewhere, and the secrets of its other roles, where they are given: of a role that is left
/// out those stay that are held.
#[derive(Drop)]
pub struct BroughtRoot {
    pub text: Text,
    pub targets: Option<Listed<Bytes>>,
    pub snapshot: Option<Listed<Bytes>>,
    pub timestamp: Option<Listed<Bytes>>,
}
