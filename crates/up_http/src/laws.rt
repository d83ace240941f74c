//! What holds of every stream.
ghost use Rattle.up_http.specs.Requests.{RequestsOnce};
ghost use Rattle.up_http.specs.Talks.{ConversationsKeepOrder};

/// The bytes of a stream have their requests once: no other list of requests is theirs.
pub fn requests_are_one()
    ensures { RequestsOnce }
{}

/// Whatever the pieces in which a conversation's bytes came, the requests that it gave are theirs, in order, and what was written
/// are their answers, in order, byte for byte.
pub fn conversations_keep_order()
    ensures { ConversationsKeepOrder }
{}
