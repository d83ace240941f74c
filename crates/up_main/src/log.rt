//! The log of what is refused, on standard error.
use std::alloc::{AllocError, Global};
use std::cell::Cell;
use up_canon::refusal::Refusal;
use up_heads::check::Check;
use up_heads::responses::check_number;
use up_machine::command::Command;
use up_pieces::write_whole;
use up_service::refusals::{Hears, check_line, refusal_line};
use up_service::tally::Tally;

/// One more than the greatest number of a refusal.
const KINDS: usize = 32;

/// Writes a line of each refusal, as many a minute of each number as a tally allows.
#[derive(Drop)]
pub(crate) struct Log<'a> {
    rt: &'a HostRuntime,
    tallies: Cell<[Tally; KINDS]>,
}

impl<'a> Log<'a> {
    pub(crate) fn new(rt: &'a HostRuntime) -> Log<'a> {
        Log {
            rt,
            tallies: Cell::new([Tally {
                minute: 0,
                lines: 0,
            }; KINDS]),
        }
    }

    /// Whether one more line of this number may be written in a minute. It is counted then.
    fn counts(&self, number: u32, minute: u64) -> bool {
        let at = number as usize;
        if at >= KINDS {
            return false;
        }
        let mut tallies = self.tallies.get();
        let tally = tallies[at];
        if !tally.allows(minute) {
            return false;
        }
        tallies[at] = tally.behind(minute);
        self.tallies.set(tallies);
        true
    }

    /// A line that can't be made or written is left out.
    fn write(&self, line: Result<String, AllocError>) {
        if let Ok(line) = line {
            write_whole(&mut self.rt.stderr(), line.as_bytes()).ok();
        }
    }
}

impl Hears for Log<'_> {
    fn hear(&self, alloc: Global, at: u64, command: &Command, refusal: &Refusal) {
        if self.counts(refusal.number(), at / 60) {
            self.write(refusal_line(alloc, command, refusal));
        }
    }

    fn hear_check(&self, alloc: Global, at: u64, check: Check) {
        if self.counts(check_number(check), at / 60) {
            self.write(check_line(alloc, check));
        }
    }
}
