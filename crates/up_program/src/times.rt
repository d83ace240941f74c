//! The moment of a connection.
ghost use Rattle.std.specs.Prelude.{◌≡◌};
ghost use Rattle.up_program.specs.Times.{seconds_at};

use std::io;
use std::time::{SystemTime, UNIX_EPOCH};

/// The seconds since 1970-01-01T00:00:00Z of what the system's clock tells, 0 where it tells a time before or none.
pub fn seconds(now: io::Result<SystemTime>) -> u64
    ensures { result ≡ seconds_at now }
{
    let Ok(now) = now else {
        return 0;
    };
    match now.duration_since(UNIX_EPOCH) {
        Ok(since) => since.as_secs(),
        Err(_) => 0,
    }
}
