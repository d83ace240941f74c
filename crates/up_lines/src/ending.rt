//! The end of lines.
ghost use Rattle.std.specs.Prelude.{◌≡◌, ◌<◌, ◌≤◌, drop, length, true, vec_len, vec_capacity};
ghost use Rattle.std.specs.List.{list_all};
ghost use Rattle.up_lines.specs.Lines.{most_lines};
ghost use Rattle.up_lines.specs.Progress.{Closes, ClosesLines, Fails, FailsLines, Step, is_inside};

use crate::answered::{answer_lines, answer_some};
use crate::cut::cut_lines;
use crate::fault::ScriptCause;
use crate::interpret::Interpret;
use crate::limits::MOST_LINES;
use crate::progress::Progress;
use std::alloc::Global;
use up_pieces::sink::Sink;

/// Counts the line that is begun, and answers it if it has any byte.
pub(crate) fn end_line<S, I: Interpret<S>, W: Sink>(
    alloc: Global,
    interpreter: &I,
    state: &mut S,
    writer: &mut W,
    progress: &mut Progress,
) -> Result<(), ScriptCause>
    requires few { progress.old.counted < most_lines }
    requires can_write { W.can_write writer.old }
    ensures { Step (Closes I.gives) (Fails I.gives)
        progress.old (record { state = state.old; held = W.contents writer.old })
        progress.new (record { state = state.new; held = W.contents writer.new })
        (W.has_failed writer.new) (W.can_write writer.new) result }
{
    if progress.line.is_empty() {
        progress.counted += 1;
        return Ok(());
    }
    let lines = [progress.line.as_slice()];
    answer_some(alloc, interpreter, state, writer, &lines)?;
    progress.line.clear();
    progress.counted += 1;
    progress.answered += 1;
    Ok(())
}

/// Counts whole lines, one at least, answers those that have any byte, and keeps what stands behind them.
pub(crate) fn end_lines<S, I: Interpret<S>, W: Sink>(
    alloc: Global,
    interpreter: &I,
    state: &mut S,
    writer: &mut W,
    progress: &mut Progress,
) -> Result<(), ScriptCause>
    requires few { progress.old.counted < most_lines }
    requires whole { list_all is_inside progress.old.line.items ≡ true → ⊥ }
    requires can_write { W.can_write writer.old }
    ensures step { Step (ClosesLines I.gives) (FailsLines I.gives)
        progress.old (record { state = state.old; held = W.contents writer.old })
        progress.new (record { state = state.new; held = W.contents writer.new })
        (W.has_failed writer.new) (W.can_write writer.new) result }
    ensures less { length progress.new.line.items < length progress.old.line.items }
{
    let mut answered = 0;
    let cut = cut_lines(progress.line.as_slice(), MOST_LINES - progress.counted);
    let ended = answer_lines(
        alloc,
        interpreter,
        state,
        writer,
        &cut.listed[..cut.some],
        &mut answered,
    );
    let taken = cut.taken;
    let counted = cut.counted;
    keep_behind(&mut progress.line, taken);
    progress.counted += counted;
    progress.answered += answered;
    ended
}

/// Takes so many bytes from the front.
fn keep_behind(line: &mut Vec<u8>, taken: usize)
    requires { taken ≤ vec_len line.old }
    ensures left { line.new.items ≡ drop taken line.old.items }
    ensures capacity { vec_capacity line.new ≡ vec_capacity line.old }
{
    line.drain(..taken);
}
