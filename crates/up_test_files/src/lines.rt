//! Lines, readers and writers that fail, and limits.
ghost use Rattle.std.specs.Prelude.{◌≡◌, ◌++◌, ℕ, List, OnOk};
ghost use Rattle.up_lines.specs.LineRuns.{print};

use std::alloc::{AllocError, Global};
use std::io;
use std::io::{Read, Write};
use std::test::Fail;
use up_lines::fault::{ScriptCause as Cause, ScriptFault};
use up_lines::interpret::Interpret;
use up_lines::limits::MOST_LINE_BYTES;
use up_lines::run;

/// Answers each line by itself in brackets, and counts the lines.
pub(crate) struct Bracket;

impl Interpret<u32> for Bracket {
    ghost use Rattle.std.proofs.Common.{ap₂, length-append, sym, ◌∙◌};
    ghost use Rattle.std.specs.Prelude.{◌≡◌, ◌+◌, length, refl};

    ghost gives = { λ _ lines texts _. length texts ≡ length lines };

    fn interpret(
        &self,
        _alloc: Global,
        state: &mut u32,
        lines: &[&[u8]],
        answers: &mut Vec<u8>,
    ) -> Result<usize, AllocError> {
        push_bracketed(answers, lines[0])?;
        *state = state.saturating_add(1);
        Ok(1)
    }

    ghost composes = { record {
      each = λ _ _ _ _ h. h;
      none = λ _. refl;
      both = λ _ _ _ some more texts others p q.
          length-append texts others ∙ ap₂ (λ a b. a + b) p q ∙ sym (length-append some more);
    } };
}

/// Appends a line in brackets, and a newline.
fn push_bracketed(answers: &mut Vec<u8>, line: &[u8]) -> Result<(), AllocError>
    ensures { OnOk result ((text : List ℕ) × (answers.new.items ≡ answers.old.items ++ print text)) }
{
    answers.push(b'[')?;
    answers.extend_from_slice(line)?;
    answers.push(b']')?;
    answers.push(b'\n')?;
    Ok(())
}

/// Gives a few bytes at a time, and fails once, at one call.
#[derive(Drop)]
struct Slow<'a> {
    bytes: &'a [u8],
    step: usize,
    calls: u32,
    fails_at: u32,
}

impl Read for Slow<'_> {
    fn read(&mut self, buf: &mut [u8]) -> io::Result<usize> {
        self.calls = self.calls.saturating_add(1);
        if self.calls == self.fails_at {
            return Err(io::Error::from(io::ErrorKind::Other));
        }
        let n = self.step.min(self.bytes.len()).min(buf.len());
        let (taken, rest) = self.bytes.split_at(n);
        buf[..n].copy_from_slice(taken);
        self.bytes = rest;
        Ok(n)
    }
}

/// Keeps what is written, at most so many bytes a call, and fails once, or takes nothing once.
#[derive(Drop)]
pub(crate) struct Shaky {
    pub written: Vec<u8>,
    pub step: usize,
    pub calls: u32,
    pub fails_at: u32,
    pub takes_none_at: u32,
}

impl Write for Shaky {
    fn write(&mut self, buf: &[u8]) -> io::Result<usize> {
        self.calls = self.calls.saturating_add(1);
        if self.calls == self.fails_at {
            return Err(io::Error::from(io::ErrorKind::Other));
        }
        if self.calls == self.takes_none_at {
            return Ok(0);
        }
        let n = self.step.min(buf.len());
        self.written.extend_from_slice(&buf[..n])?;
        Ok(n)
    }

    fn flush(&mut self) -> io::Result<()> {
        Ok(())
    }
}

pub(crate) fn fault(cause: Cause, lines: u32) -> Result<u32, ScriptFault> {
    Err(ScriptFault { cause, lines })
}

// promise: lines-answered
#[test]
fn answers_each_line(rt: HostRuntime) -> Result<(), Fail> {
    let table: [(&[u8], &[u8], u32); 7] = [
        (b"", b">", 0),
        (b"a", b">[a]\n", 1),
        (b"a\n", b">[a]\n", 1),
        (b"\n\n", b">", 0),
        (b"a\n\nbc\nd", b">[a]\n[bc]\n[d]\n", 3),
        (b"\r\n \n", b">[\r]\n[ ]\n", 2),
        (b"\na", b">[a]\n", 1),
    ];
    for (input, output, answered) in table {
        let mut state = 0;
        let mut written = vec![in rt.alloc(); b'>']?;
        let mut reader = input;
        let result = run(rt.alloc(), &Bracket, &mut state, &mut reader, &mut written);
        assert_eq!(rt; result, Ok(answered));
        assert_eq!(rt; written.as_slice(), output);
        assert_eq!(rt; state, answered);
    }
    Ok(())
}

/// A run over `a`, an empty line, `bc` and `d`, with a reader and a writer that may fail.
fn shaky_run(
    alloc: Global,
    reads: (usize, u32),
    writes: (usize, u32, u32),
) -> (Result<u32, ScriptFault>, Vec<u8>, u32) {
    let mut state = 0;
    let mut reader = Slow {
        bytes: b"a\n\nbc\nd",
        step: reads.0,
        calls: 0,
        fails_at: reads.1,
    };
    let mut writer = Shaky {
        written: Vec::new(alloc),
        step: writes.0,
        calls: 0,
        fails_at: writes.1,
        takes_none_at: writes.2,
    };
    let result = run(alloc, &Bracket, &mut state, &mut reader, &mut writer);
    (result, writer.written, state)
}

// promise: lines-prefix, lines-causes
#[test]
fn ends_at_one_failure(rt: HostRuntime) {
    let table: [(
        (usize, u32),
        (usize, u32, u32),
        Result<u32, ScriptFault>,
        &[u8],
        u32,
    ); 12] = [
        // Any pieces of the input, and of what is written.
        ((1, 0), (9, 0, 0), Ok(3), b"[a]\n[bc]\n[d]\n", 3),
        ((3, 0), (9, 0, 0), Ok(3), b"[a]\n[bc]\n[d]\n", 3),
        ((9, 0), (1, 0, 0), Ok(3), b"[a]\n[bc]\n[d]\n", 3),
        // A read fails at once, amid a line, behind a newline, and before the end is told.
        ((1, 1), (9, 0, 0), fault(Cause::Read, 0), b"", 0),
        ((1, 5), (9, 0, 0), fault(Cause::Read, 1), b"[a]\n", 1),
        ((1, 7), (9, 0, 0), fault(Cause::Read, 2), b"[a]\n[bc]\n", 2),
        ((1, 8), (9, 0, 0), fault(Cause::Read, 2), b"[a]\n[bc]\n", 2),
        // A write fails, or takes nothing: the line's command was done.
        ((9, 0), (9, 1, 0), fault(Cause::Write, 0), b"", 1),
        ((9, 0), (9, 2, 0), fault(Cause::Write, 1), b"[a]\n", 2),
        ((9, 0), (9, 0, 3), fault(Cause::Write, 2), b"[a]\n[bc]\n", 3),
        ((9, 0), (3, 3, 0), fault(Cause::Write, 1), b"[a]\n", 2),
        ((9, 0), (3, 0, 4), fault(Cause::Write, 1), b"[a]\n[bc", 2),
    ];
    for (reads, writes, wanted, output, answered) in table {
        let (result, written, state) = shaky_run(rt.alloc(), reads, writes);
        assert_eq!(rt; result, wanted);
        assert_eq!(rt; written.as_slice(), output);
        assert_eq!(rt; state, answered);
    }
}

#[test]
fn reads_no_more_behind_the_end(rt: HostRuntime) {
    let table: [(&[u8], u32, u32); 4] = [
        (b"", 1, 0),
        (b"a\n", 3, 1),
        (b"a\n\n", 4, 1),
        (b"a\nb", 4, 2),
    ];
    for (input, reads, answered) in table {
        let mut state = 0;
        let mut reader = Slow {
            bytes: input,
            step: 1,
            calls: 0,
            fails_at: 0,
        };
        let mut written = Vec::new(rt.alloc());
        let result = run(rt.alloc(), &Bracket, &mut state, &mut reader, &mut written);
        assert_eq!(rt; result, Ok(answered));
        assert_eq!(rt; reader.calls, reads);
    }
}

// promise: lines-limits
#[test]
fn counts_empty_lines(rt: HostRuntime) -> Result<(), Fail> {
    for (newlines, more, wanted) in [
        (100_000, b"".as_slice(), Ok(1)),
        (100_000, b"\n".as_slice(), fault(Cause::TooLong, 1)),
        (100_000, b"b".as_slice(), fault(Cause::TooLong, 1)),
        (99_999, b"b".as_slice(), Ok(2)),
    ] {
        let mut state = 0;
        let mut input = vec![in rt.alloc(); b'a']?;
        input.extend_from_slice(vec![in rt.alloc(); b'\n'; newlines]?.as_slice())?;
        input.extend_from_slice(more)?;
        let mut written = Vec::new(rt.alloc());
        let mut reader = input.as_slice();
        let result = run(rt.alloc(), &Bracket, &mut state, &mut reader, &mut written);
        assert_eq!(rt; result, wanted);
    }
    Ok(())
}

// promise: lines-answered, lines-limits
#[test]
fn measures_lines(rt: HostRuntime) -> Result<(), Fail> {
    for (long, wanted, written_len) in [
        (MOST_LINE_BYTES, Ok(2), MOST_LINE_BYTES + 7),
        (MOST_LINE_BYTES + 1, fault(Cause::TooLong, 1), 4),
    ] {
        let mut state = 0;
        let mut input = vec![in rt.alloc(); b'a', b'\n']?;
        input.extend_from_slice(vec![in rt.alloc(); b' '; long]?.as_slice())?;
        let mut written = Vec::new(rt.alloc());
        let mut reader = input.as_slice();
        let result = run(rt.alloc(), &Bracket, &mut state, &mut reader, &mut written);
        assert_eq!(rt; result, wanted);
        assert_eq!(rt; written.len(), written_len);
    }
    Ok(())
}
