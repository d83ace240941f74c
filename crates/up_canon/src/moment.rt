//! Moments: whole seconds since 1970-01-01T00:00:00Z.
ghost use Rattle.std.specs.Prelude.{◌≡◌, ◌≢◌, ℕ, ◌<◌, ◌≤◌, ◌+◌, IfOk, MatchOption, string_bytes};
ghost use Rattle.up_canon.specs.Moments.{last_moment, moment_text, read_moment, MomentTextIsPlain, MomentsAreRead, OnlyTextsAreRead, PartsAreRead};

use crate::calendar::{midnight_of, seconds_of, shown_at};
use crate::moment_form::{has_form, two_digits};
use std::alloc::{AllocError, Global};
use std::marker::Model;

/// The last moment, 9999-12-31T23:59:59Z.
pub const LAST_MOMENT: u64 = 253_402_300_799;

/// The last moment that a command may have, 2100-01-01T00:00:00Z.
pub const LAST_COMMAND_MOMENT: u64 = 4_102_444_800;

/// Whole seconds since 1970-01-01T00:00:00Z, up to `LAST_MOMENT`.
#[derive(Clone, Copy, Debug, PartialEq, Eq, PartialOrd, Ord)]
pub struct Moment {
    second: u64,
}

impl Model for Moment {
    ghost use Rattle.std.specs.Prelude.{ℕ, ◌≤◌};
    ghost use Rattle.up_canon.specs.Moments.{last_moment};

    ghost Value = { ℕ };

    ghost view = { λ a. a.second };

    ghost inverse = { λ n. record { second = n } };

    ghost invariant = { λ a. a.second ≤ last_moment };
}

impl Moment {
    /// The seconds as a moment, or none where it is past the last moment.
    pub fn new(second: u64) -> Option<Moment>
        ensures { MatchOption result (last_moment < second) (λ moment. (second ≤ last_moment) × (moment ≡ second)) }
    {
        if second <= LAST_MOMENT {
            Some(Moment { second })
        } else {
            None
        }
    }

    /// The seconds.
    pub fn get(self) -> u64
        ensures value { result ≡ self }
        ensures limit { result ≤ last_moment }
    {
        self.second
    }

    /// So many seconds later, which has to be a moment too.
    pub fn plus(self, seconds: u64) -> Moment
        requires { self + seconds ≤ last_moment }
        ensures { result ≡ self + seconds }
    {
        Moment {
            second: self.get() + seconds,
        }
    }

    /// The moment whose text it is, or none where it is no moment's text: 20 bytes
    /// `YYYY-MM-DDTHH:MM:SSZ` with a date from 1970 on that exists, the hour to 23, and the minute
    /// and the second to 59.
    pub fn read(text: &str) -> Option<Moment>
        ensures value { result ≡ read_moment text.now }
        ensures exact { MatchOption result ((m : ℕ) → m ≤ last_moment → text.now ≢ moment_text m)
            (λ m. text.now ≡ moment_text m) }
    {
        let bytes = text.as_bytes();
        if !has_form(bytes) {
            return None;
        }
        let year = two_digits(bytes, 0) * 100 + two_digits(bytes, 2);
        let midnight = midnight_of(year, two_digits(bytes, 5), two_digits(bytes, 8))?;
        let passed = seconds_of(
            two_digits(bytes, 11),
            two_digits(bytes, 14),
            two_digits(bytes, 17),
        )?;
        Some(Moment {
            second: midnight + passed,
        })
    }

    /// The text by RFC 3339, at UTC and in whole seconds, as `2026-01-01T00:00:00Z`.
    pub fn text(&self, alloc: Global) -> Result<String, AllocError>
        ensures { IfOk result (λ text. string_bytes text ≡ moment_text self.now) }
    {
        let shown = shown_at(self.get());
        format!(in alloc; "{shown}Z")
    }
}

/// A moment's text is 20 bytes of printable ASCII. It is read as the moment, whatever date from
/// 1970 on and time it shows, and nothing else is read.
pub fn moment_laws()
    ensures plain { MomentTextIsPlain }
    ensures read { MomentsAreRead }
    ensures only { OnlyTextsAreRead }
    ensures parts { PartsAreRead }
{}
