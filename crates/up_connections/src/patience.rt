//! How long a connection is waited for.
ghost use Rattle.std.specs.Prelude.{◌≡◌, None, min};
ghost use Rattle.up_connections.specs.Moments.{left_of, left_since};

/// How long a connection may be silent, in milliseconds: it sends nothing, or takes nothing of an answer.
const MOST_SILENCE: u64 = 30_000;

/// How long a connection may last, in milliseconds.
const MOST_LIFE: u64 = 300_000;

/// How long a connection may be silent behind its last answer, in milliseconds.
const LAST_SILENCE: u64 = 2_000;

/// How long what a client still sends behind its last answer is dropped, in milliseconds.
const MOST_CLOSING: u64 = 10_000;

/// The moments of a connection, in milliseconds of one clock.
#[derive(Clone, Copy, Debug, PartialEq, Eq, Drop)]
pub struct Patience {
    /// When it was accepted.
    pub begun: u64,
    /// When bytes of it last came, or were taken.
    pub moved: u64,
    /// When it began to close, if it did: nothing more is written, and what still comes is dropped.
    pub closing: Option<u64>,
}

impl Patience {
    /// A connection that is accepted now.
    pub fn new(now: u64) -> Patience
        ensures { result ≡ record { begun = now; moved = now; closing = None } }
    {
        Patience {
            begun: now,
            moved: now,
            closing: None,
        }
    }

    /// For how many milliseconds it is still waited for: 0 once it was silent for 30 seconds, or lasted for 300, or, while it
    /// closes, once it was silent for 2, or closed for 10.
    pub fn left(&self, now: u64) -> u64
        ensures { result ≡ left_of self.now now }
    {
        match self.closing {
            None => shorter(
                left_since(MOST_SILENCE, self.moved, now),
                left_since(MOST_LIFE, self.begun, now),
            ),
            Some(since) => shorter(
                left_since(LAST_SILENCE, self.moved, now),
                left_since(MOST_CLOSING, since, now),
            ),
        }
    }
}

/// What is left of a time that began at a moment.
fn left_since(most: u64, begun: u64, now: u64) -> u64
    ensures { result ≡ left_since most begun now }
{
    most.saturating_sub(now.saturating_sub(begun))
}

/// The shorter of two times.
fn shorter(one: u64, other: u64) -> u64
    ensures { result ≡ min one other }
{
    if one < other { one } else { other }
}
