//! Moments that commands may have.
ghost use Rattle.std.specs.Prelude.{◌≡◌, ◌<◌, ◌≤◌, MatchOption};
ghost use Rattle.up_canon.specs.Moments.{last_command_moment};

use std::marker::Model;
use up_canon::moment::{LAST_COMMAND_MOMENT, Moment};

/// A moment that a command may have, which is at most 2100-01-01T00:00:00Z.
#[derive(Clone, Copy)]
pub struct CommandMoment {
    moment: Moment,
}

impl Model for CommandMoment {
    ghost use Rattle.std.specs.Prelude.{ℕ, ◌≤◌};
    ghost use Rattle.up_canon.specs.Moments.{last_command_moment};

    ghost Value = { ℕ };

    ghost view = { λ a. a.moment };

    ghost inverse = { λ n. record { moment = n } };

    ghost invariant = { λ a. a.moment ≤ last_command_moment };
}

impl CommandMoment {
    /// The seconds as such a moment, or none where it is past the last one.
    pub fn new(at: u64) -> Option<CommandMoment>
        ensures { MatchOption result (last_command_moment < at) (λ moment. (at ≤ last_command_moment) × (moment ≡ at)) }
    {
        if at > LAST_COMMAND_MOMENT {
            return None;
        }
        let moment = Moment::new(at)?;
        Some(CommandMoment { moment })
    }

    /// The moment.
    pub fn moment(self) -> Moment
        ensures value { result ≡ self }
        ensures limit { result ≤ last_command_moment }
    {
        self.moment
    }
}
