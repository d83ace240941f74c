//! Counts: counters, lengths, releases and versions.
ghost use Rattle.std.specs.Prelude.{◌≡◌, ◌<◌, ◌≤◌, MatchOption};
ghost use Rattle.up_canon.specs.Canon.{max_count};

use std::marker::Model;

/// The greatest whole number that every JSON reader takes exactly, 2^53-1 (RFC 8259, section 6).
pub const MAX_COUNT: u64 = 9_007_199_254_740_991;

/// A whole number from 0 to `MAX_COUNT`.
#[derive(Clone, Copy, Debug, PartialEq, Eq, PartialOrd, Ord)]
pub struct Count {
    number: u64,
}

impl Model for Count {
    ghost use Rattle.std.specs.Prelude.{ℕ, ◌≤◌};
    ghost use Rattle.up_canon.specs.Canon.{max_count};

    ghost Value = { ℕ };

    ghost view = { λ a. a.number };

    ghost inverse = { λ n. record { number = n } };

    ghost invariant = { λ a. a.number ≤ max_count };
}

impl Count {
    /// The number as a count, or none where it is above the limit.
    pub fn new(number: u64) -> Option<Count>
        ensures { MatchOption result (max_count < number) (λ count. (number ≤ max_count) × (count ≡ number)) }
    {
        if number <= MAX_COUNT {
            Some(Count { number })
        } else {
            None
        }
    }

    /// The number.
    pub fn get(self) -> u64
        ensures value { result ≡ self }
        ensures limit { result ≤ max_count }
    {
        self.number
    }
}
