//! A reader and a writer that may not be used again once they failed, or gave or took nothing, and that show which it was.
ghost use Rattle.std.specs.Prelude.{◌≡◌, false};

use crate::lines::{Bracket, fault};
use std::alloc::Global;
use std::io;
use up_lines::fault::{ScriptCause as Cause, ScriptFault};
use up_lines::run;
use up_pieces::sink::Sink;
use up_pieces::source::Source;

/// Gives a byte at a time, and fails at one call. What asks it again afterwards isn't proved.
#[derive(Drop)]
struct Once<'a> {
    bytes: &'a [u8],
    calls: u32,
    fails_at: u32,
    failed: bool,
    ended: bool,
}

impl Source for Once<'_> {
    ghost use Rattle.std.specs.Prelude.{◌≡◌, None, false, true};

    ghost remaining = { λ _. None };

    ghost can_read = { λ s. (s.failed ≡ false) × (s.ended ≡ false) };

    ghost has_failed = { λ s. s.failed ≡ true };

    ghost has_ended = { λ s. (s.ended ≡ true) × (s.failed ≡ false) };

    fn read_some(&mut self, buffer: &mut [u8]) -> io::Result<usize> {
        let is_open = !self.failed && !self.ended;
        prove!(is_open);
        self.calls = self.calls.saturating_add(1);
        if self.calls == self.fails_at {
            self.failed = true;
            return Err(io::Error::from(io::ErrorKind::Other));
        }
        if buffer.is_empty() {
            return Ok(0);
        }
        if self.bytes.is_empty() {
            self.ended = true;
            return Ok(0);
        }
        buffer[0] = self.bytes[0];
        self.bytes = &self.bytes[1..];
        Ok(1)
    }
}

/// Takes a byte at a time, and fails at one call. What writes to it afterwards isn't proved.
#[derive(Drop)]
struct Last {
    written: u32,
    fails_at: u32,
    failed: bool,
}

impl Sink for Last {
    ghost use Rattle.std.specs.Prelude.{◌≡◌, None, false, true};

    ghost contents = { λ _. None };

    ghost can_write = { λ s. s.failed ≡ false };

    ghost has_failed = { λ s. s.failed ≡ true };

    fn write_some(&mut self, bytes: &[u8]) -> io::Result<usize> {
        let is_open = !self.failed;
        prove!(is_open);
        if bytes.is_empty() {
            return Ok(0);
        }
        if self.written == self.fails_at {
            self.failed = true;
            return Err(io::Error::from(io::ErrorKind::Other));
        }
        self.written = self.written.saturating_add(1);
        Ok(1)
    }
}

/// What `run` tells of the two, as they show it themselves: that it is so isn't tested, but proved.
fn run_once(
    alloc: Global,
    state: &mut u32,
    reader: &mut Once,
    writer: &mut Last,
) -> Result<u32, ScriptFault>
    requires can_read { (reader.old.failed ≡ false) × (reader.old.ended ≡ false) }
    requires can_write { writer.old.failed ≡ false }
{
    let told = run(alloc, &Bracket, state, reader, writer);
    match told {
        Ok(_) => {
            let is_so = reader.ended && !reader.failed && !writer.failed;
            prove!(is_so);
        }
        Err(
            ScriptFault {
                cause: Cause::Read,
                lines: _,
            },
        ) => {
            let is_so = reader.failed && !writer.failed;
            prove!(is_so);
        }
        Err(
            ScriptFault {
                cause: Cause::Write,
                lines: _,
            },
        ) => {
            let is_so = writer.failed && !reader.failed;
            prove!(is_so);
        }
        Err(_) => {
            let is_so = !writer.failed && !reader.failed;
            prove!(is_so);
        }
    }
    told
}

// promise: tried-once, faults-located, lines-causes
#[test]
fn ends_at_the_first_failure(rt: HostRuntime) {
    // What fails, the answer, how often was read, and how many bytes were written.
    let table: [((u32, u32), Result<u32, ScriptFault>, (u32, u32)); 4] = [
        ((0, 99), Ok(2), (6, 9)),
        ((3, 99), fault(Cause::Read, 1), (3, 4)),
        ((6, 99), fault(Cause::Read, 2), (6, 9)),
        ((0, 6), fault(Cause::Write, 1), (5, 6)),
    ];
    for ((reads, writes), wanted, (calls, written)) in table {
        let mut state = 0;
        let mut reader = Once {
            bytes: b"a\nbc\n",
            calls: 0,
            fails_at: reads,
            failed: false,
            ended: false,
        };
        let mut writer = Last {
            written: 0,
            fails_at: writes,
            failed: false,
        };
        let result = run_once(rt.alloc(), &mut state, &mut reader, &mut writer);
        assert_eq!(rt; result, wanted);
        assert_eq!(rt; reader.calls, calls);
        assert_eq!(rt; writer.written, written);
        assert_eq!(rt; reader.failed, reads > 0);
        assert_eq!(rt; reader.ended, wanted == Ok(2));
        assert_eq!(rt; writer.failed, writes == 6);
    }
}
