//! The clock of connections.
use std::io;
use std::time::Instant;

/// A clock that counts milliseconds from its beginning, and never goes back.
#[derive(Drop)]
pub(crate) struct Clock {
    begun: Instant,
    last: u64,
}

impl Clock {
    pub(crate) fn new(rt: &HostRuntime) -> io::Result<Clock> {
        Ok(Clock {
            begun: Instant::now(rt)?,
            last: 0,
        })
    }

    /// The milliseconds from its beginning; the last ones that were read where the system's clock can't be.
    pub(crate) fn now(&mut self, rt: &HostRuntime) -> u64 {
        if let Ok(passed) = self.begun.elapsed(rt) {
            let now = whole(passed.as_millis());
            if now > self.last {
                self.last = now;
            }
        }
        self.last
    }
}

/// A number of milliseconds, or the greatest that is told.
fn whole(millis: u128) -> u64 {
    match u64::try_from(millis) {
        Ok(millis) => millis,
        Err(_) => u64::MAX,
    }
}
