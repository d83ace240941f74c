//! Lines, answered together.
ghost use Rattle.std.specs.Prelude.{◌≡◌, ◌<◌, ◌≤◌, length};
ghost use Rattle.up_lines.specs.Lines.{most_together};
ghost use Rattle.up_lines.specs.Together.{WritesEach, WritesSome, bytes_of};

use crate::fault::ScriptCause;
use crate::interpret::Interpret;
use std::alloc::Global;
use up_pieces::sink::Sink;
use up_pieces::write_whole;

/// Answers lines, and writes the answers of those that are answered together at once; counts those of which the answers were
/// written.
pub(crate) fn answer_lines<S, I: Interpret<S>, W: Sink>(
    alloc: Global,
    interpreter: &I,
    state: &mut S,
    writer: &mut W,
    lines: &[&[u8]],
    answered: &mut u32,
) -> Result<(), ScriptCause>
    requires none { answered.old ≡ 0 }
    requires few { length lines.now ≤ most_together }
    requires can_write { W.can_write writer.old }
    ensures { WritesEach I.gives (bytes_of lines.now) answered.new (record { state = state.old; held = W.contents writer.old })
        (record { state = state.new; held = W.contents writer.new }) (W.has_failed writer.new) (W.can_write writer.new)
        result }
{
    let mut rest = lines;
    while !rest.is_empty() {
        let n = answer_some(alloc, interpreter, state, writer, rest)?;
        *answered += n as u32;
        rest = &rest[n..];
    }
    Ok(())
}

/// Answers some of the first lines, one at least, and writes their answers at once: how many lines they are.
pub(crate) fn answer_some<S, I: Interpret<S>, W: Sink>(
    alloc: Global,
    interpreter: &I,
    state: &mut S,
    writer: &mut W,
    lines: &[&[u8]],
) -> Result<usize, ScriptCause>
    requires some { 0 < length lines.now }
    requires can_write { W.can_write writer.old }
    ensures { WritesSome I.gives (bytes_of lines.now) (record { state = state.old; held = W.contents writer.old })
        (record { state = state.new; held = W.contents writer.new }) (W.has_failed writer.new) (W.can_write writer.new)
        result }
{
    let mut text = Vec::new(alloc);
    match interpreter.interpret(alloc, state, lines, &mut text) {
        Ok(n) => match write_whole(writer, text.as_slice()) {
            Ok(()) => Ok(n),
            Err(_) => Err(ScriptCause::Write),
        },
        Err(_) => Err(ScriptCause::Memory),
    }
}
