//! How many lines of one kind are written in a minute.
ghost use Rattle.std.specs.Prelude.{◌≡◌, ◌↔◌, ◌<◌, IsTrue};
ghost use Rattle.up_service.specs.Tallies.{lines_in, tally_behind};

/// The most lines of one kind in a minute.
const MOST_LINES: u32 = 60;

/// The lines of one kind that were written in one minute.
#[derive(Clone, Copy, Debug, PartialEq, Eq, Drop)]
pub struct Tally {
    /// The minute, counted from 1970-01-01T00:00:00Z.
    pub minute: u64,
    /// How many there were.
    pub lines: u32,
}

impl Tally {
    /// Whether a further line may be written in a minute: 60 may.
    pub fn allows(self, minute: u64) -> bool
        ensures { IsTrue result ↔ lines_in self minute < 60 }
    {
        self.minute != minute || self.lines < MOST_LINES
    }

    /// The tally behind one that may be written.
    pub fn behind(self, minute: u64) -> Tally
        requires { lines_in self minute < 60 }
        ensures { result ≡ tally_behind self minute }
    {
        let before = if self.minute == minute { self.lines } else { 0 };
        Tally {
            minute,
            lines: before + 1,
        }
    }
}
