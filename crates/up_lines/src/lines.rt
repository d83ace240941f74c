//! Lines cut from a reader, and their answers written to a writer.
ghost use Rattle.std.specs.Prelude.{◌≡◌, ◌⊎◌, ◌<◌, ◌≤◌, [], length, MatchBool, false, true};
ghost use Rattle.up_lines.specs.LineRuns.{RanLines, RunsLines};
ghost use Rattle.up_lines.specs.Lines.{most_lines, piece_bytes};
ghost use Rattle.up_lines.specs.Progress.{Settles, BreaksOff, Takes, Stops, Completes, Step, IsFresh, run_result};
ghost use Rattle.up_lines.specs.Runs.{EndsRun};

use crate::cut::has_line;
use crate::ending::{end_line, end_lines};
use crate::fault::{ScriptCause, ScriptFault};
use crate::interpret::Interpret;
use crate::limits::{MOST_BYTES, MOST_LINES, PIECE_BYTES};
use crate::part::{behind_empty, take_bytes};
use crate::progress::Progress;
use std::alloc::Global;
use up_pieces::read_piece;
use up_pieces::sink::Sink;
use up_pieces::source::Source;

/// Takes the bytes of a piece: answers the lines that are whole then, in order and up to 64 together, and writes each answer and a
/// newline. Nothing is taken after an error.
pub fn take_piece<S, I: Interpret<S>, W: Sink>(
    alloc: Global,
    interpreter: &I,
    state: &mut S,
    writer: &mut W,
    progress: &mut Progress,
    piece: &[u8],
) -> Result<(), ScriptCause>
    requires few { length piece.now ≤ piece_bytes }
    requires can_write { W.can_write writer.old }
    ensures { Step (Takes I.gives piece.now) (λ cause. Stops I.gives cause false piece.now)
        progress.old (record { state = state.old; held = W.contents writer.old })
        progress.new (record { state = state.new; held = W.contents writer.new })
        (W.has_failed writer.new) (W.can_write writer.new) result }
{
    let mut rest = piece;
    while let Some(behind) = behind_empty(progress, rest) {
        progress.counted += 1;
        rest = behind;
    }
    take_bytes(progress, rest)?;
    answer_whole(alloc, interpreter, state, writer, progress)
}

/// Answers the lines that are whole.
fn answer_whole<S, I: Interpret<S>, W: Sink>(
    alloc: Global,
    interpreter: &I,
    state: &mut S,
    writer: &mut W,
    progress: &mut Progress,
) -> Result<(), ScriptCause>
    requires { W.can_write writer.old }
    ensures { Step (Settles I.gives) (BreaksOff I.gives)
        progress.old (record { state = state.old; held = W.contents writer.old })
        progress.new (record { state = state.new; held = W.contents writer.new })
        (W.has_failed writer.new) (W.can_write writer.new) result }
{
    while has_line(progress.line.as_slice()) {
        if progress.counted == MOST_LINES {
            return Err(ScriptCause::TooLong);
        }
        end_lines(alloc, interpreter, state, writer, progress)?;
    }
    if is_past(progress) {
        return Err(ScriptCause::TooLong);
    }
    Ok(())
}

/// Whether a line is begun behind the last one.
fn is_past(progress: &Progress) -> bool
    ensures { MatchBool result ((progress.now.counted ≡ most_lines) × (0 < length progress.now.line.items))
        (progress.now.counted ≡ most_lines → progress.now.line.items ≡ []) }
{
    progress.counted == MOST_LINES && !progress.line.is_empty()
}

/// Ends the line that the input's end ends, if one is begun.
fn finish<S, I: Interpret<S>, W: Sink>(
    alloc: Global,
    interpreter: &I,
    state: &mut S,
    writer: &mut W,
    progress: &mut Progress,
) -> Result<(), ScriptCause>
    requires { W.can_write writer.old }
    ensures { Step (Completes I.gives) (λ cause. Stops I.gives cause true [])
        progress.old (record { state = state.old; held = W.contents writer.old })
        progress.new (record { state = state.new; held = W.contents writer.new })
        (W.has_failed writer.new) (W.can_write writer.new) result }
{
    if progress.line.is_empty() {
        return Ok(());
    }
    if progress.counted == MOST_LINES {
        return Err(ScriptCause::TooLong);
    }
    end_line(alloc, interpreter, state, writer, progress)
}

/// Reads and takes the bytes, to the input's end.
fn read_lines<S, I: Interpret<S>, R: Source, W: Sink>(
    alloc: Global,
    interpreter: &I,
    state: &mut S,
    reader: &mut R,
    writer: &mut W,
    progress: &mut Progress,
) -> Result<(), ScriptCause>
    requires fresh { IsFresh progress.old }
    requires can_read { R.can_read reader.old }
    requires can_write { W.can_write writer.old }
    ensures ran { RanLines I.gives (R.remaining reader.old) (R.remaining reader.new)
        (record { state = state.old; held = W.contents writer.old })
        (record { state = state.new; held = W.contents writer.new }) (run_result result progress.new.answered) }
    ensures ends { EndsRun (λ cause. cause) (R.has_ended reader.new)
        (R.has_failed reader.new) (R.can_read reader.new ⊎ R.has_ended reader.new)
        (W.has_failed writer.new) (W.can_write writer.new) result }
{
    let mut buffer = [0; PIECE_BYTES];
    let mut most = MOST_BYTES;
    while most > 0 {
        match read_piece(reader, &mut buffer, most) {
            Ok(0) => return finish(alloc, interpreter, state, writer, progress),
            Ok(n) => {
                take_piece(alloc, interpreter, state, writer, progress, &buffer[..n])?;
                most -= n as u64;
            }
            Err(_) => return Err(ScriptCause::Read),
        }
    }
    Err(ScriptCause::TooLong)
}

/// Answers each line of what the reader has, in order, as soon as it is whole, and writes each answer and a newline.
///
/// A line ends with a newline (byte 10), or with the input where any byte stands behind the last newline.
/// An empty line is counted and not answered. The number is that of the lines answered. There are at most 100,000 lines, of at
/// most 2,097,152 bytes each without the newline; past that comes `TooLong`. Of a reader whose bytes are known at most
/// 209,715,300,001 are read: so many lines of so many bytes, their newlines, and one byte more. Nothing is read behind what ends
/// it early, but the piece of at most 8,192 bytes in which that lay. Nothing is tried twice: after
/// a read that failed or gave no byte the reader isn't read, nor is the writer written after a write that failed or took none.
/// A fault tells how many answers were written whole; lines that were answered before it stay answered. `Read` is told only
/// where the reader failed, `Write` where the writer failed or took none, `Memory` where neither did, and only where a line that
/// was read or begun is still to be answered: so neither for a limit nor behind the last answer. The first byte of the first line
/// that isn't empty takes memory for the longest line there may be, once: where it is refused, no line is handed on. Behind it
/// `Memory` is told only of a line that was handed on, and nothing of its answer is written.
pub fn run<S, I: Interpret<S>, R: Source, W: Sink>(
    alloc: Global,
    interpreter: &I,
    state: &mut S,
    reader: &mut R,
    writer: &mut W,
) -> Result<u32, ScriptFault>
    requires can_read { R.can_read reader.old }
    requires can_write { W.can_write writer.old }
    ensures lines { RunsLines I.gives (R.remaining reader.old) (R.remaining reader.new)
        (record { state = state.old; held = W.contents writer.old })
        (record { state = state.new; held = W.contents writer.new }) result }
    ensures ends { EndsRun (λ fault. fault.cause) (R.has_ended reader.new)
        (R.has_failed reader.new) (R.can_read reader.new ⊎ R.has_ended reader.new)
        (W.has_failed writer.new) (W.can_write writer.new) result }
{
    let mut progress = Progress::new(alloc);
    match read_lines(alloc, interpreter, state, reader, writer, &mut progress) {
        Ok(()) => Ok(progress.answered),
        Err(cause) => Err(ScriptFault {
            cause,
            lines: progress.answered,
        }),
    }
}
