//! What only the service knows of itself.
ghost use Rattle.std.specs.Prelude.{◌≡◌};
ghost use Rattle.up_program.specs.Messages.{status_line};

use crate::line::Line;
use itoa::Buffer;

/// How a service stands.
#[derive(Clone, Copy, Debug, PartialEq, Eq, Drop)]
pub struct Status {
    /// How many commands were carried out in groups.
    pub commands: u64,
    /// How many groups there were.
    pub groups: u64,
    /// How many connections are open.
    pub open: u64,
    /// The seconds since it began.
    pub seconds: u64,
    /// How many connections were served and closed.
    pub served: u64,
}

impl Status {
    /// The line that tells it, in JSON, its members sorted by name.
    pub fn line(&self) -> Line
        ensures { result.bytes ≡ status_line self.now }
    {
        let mut line = Line::new();
        line.push_str("{\"commands\":");
        line.push_str(Buffer::new().format(self.commands));
        line.push_str(",\"groups\":");
        line.push_str(Buffer::new().format(self.groups));
        line.push_str(",\"open\":");
        line.push_str(Buffer::new().format(self.open));
        line.push_str(",\"seconds\":");
        line.push_str(Buffer::new().format(self.seconds));
        line.push_str(",\"served\":");
        line.push_str(Buffer::new().format(self.served));
        line.push_str("}\n");
        line
    }
}
