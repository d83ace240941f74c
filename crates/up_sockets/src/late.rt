//! How often it is told that connections are refused room or time.

/// How long none is told behind one, in milliseconds.
const QUIET: u64 = 60_000;

/// When it was told last, in milliseconds of the clock of connections.
#[derive(Clone, Copy, Drop)]
pub(crate) struct Late {
    told: Option<u64>,
}

impl Late {
    pub(crate) fn new() -> Late {
        Late { told: None }
    }

    /// Whether one may be told now. It counts as told then.
    pub(crate) fn tells(&mut self, now: u64) -> bool {
        if let Some(told) = self.told {
            if now.saturating_sub(told) < QUIET {
                return false;
            }
        }
        self.told = Some(now);
        true
    }
}
