//! The answer to a line of a script.
ghost use Rattle.std.specs.Prelude.{◌≡◌, ◌<◌, ◌++◌, List, ℕ, IsTrue, IfNone, IfOk, IfSome, Ok, OnErr, OnOk, [], ◌∷◌, length, map, take, string_bytes};
ghost use Rattle.up_lines.specs.LineRuns.{print};
ghost use Rattle.up_lines.specs.Runs.{written};
ghost use Rattle.up_lines.specs.Together.{bytes_of};
ghost use Rattle.up_machine.specs.Commands.{opens_running};
ghost use Rattle.up_script.specs.AskedLines.{asks_running};
ghost use Rattle.up_script.specs.PrintedLines.{answer_text as answer_text_of};
ghost use Rattle.up_script.specs.declared.asked.What.TheVariants.{Call};
ghost use Rattle.up_service.specs.Together.{CallsSome, ReadsSome};
ghost use Rattle.up_service.specs.Told.{TellsLine, TellsView, TellsWhat};

use crate::desk::{Asks, Called, Viewed};
use crate::show::shown;
use std::alloc::{AllocError, Global};
use up_canon::ident::Ident;
use up_lines::interpret::Interpret;
use up_machine::answer::Answer;
use up_machine::command::Command;
use up_script::asked::{Asked, What};
use up_script::printed::{answer_text, refused_text};

/// Answers the lines of a script at a desk.
#[derive(Clone, Copy, Debug)]
pub struct Scripter;

impl<C: Called + Asks + Viewed> Interpret<C> for Scripter {
    ghost use Rattle.up_service.specs.Told.{TellsLine};
    ghost use Rattle.up_service.specs.Together.{AreCalledAsOne, InParts, parts_compose};

    ghost gives = { InParts (TellsLine C.asks C.gives C.finds C.finds_plan) (AreCalledAsOne C.asks C.gives_each) };

    fn interpret(
        &self,
        alloc: Global,
        desk: &mut C,
        lines: &[&[u8]],
        answers: &mut Vec<u8>,
    ) -> Result<usize, AllocError> {
        match call_some(alloc, desk, lines) {
            Some(told) => push_answers(alloc, answers, told.as_slice()),
            None => answer_first(alloc, desk, lines, answers),
        }
    }

    ghost composes = { parts_compose (TellsLine C.asks C.gives C.finds C.finds_plan) (AreCalledAsOne C.asks C.gives_each) };
}

/// Calls the commands that the first lines ask, as one list, and tells what they were answered. None where fewer than two ask
/// a command other than for a file, or where there is no room for more: then nothing was done.
fn call_some<C: Called + Asks>(alloc: Global, desk: &mut C, lines: &[&[u8]]) -> Option<Vec<Answer>>
    ensures some { IfSome result (λ told. CallsSome C.asks C.gives_each desk.old (bytes_of lines.now) told.items desk.new) }
    ensures none { IfNone result (desk.new ≡ desk.old) }
{
    // A line by itself isn't read twice.
    if lines.len() < 2 {
        return None;
    }
    match read_some(alloc, desk, lines) {
        Some(commands) => match desk.call_each(alloc, commands.as_slice()) {
            Ok(told) => Some(told),
            Err(_) => None,
        },
        None => None,
    }
}

/// The commands that the first lines ask, with their moments, up to the first line that asks none or a file. None where they are
/// fewer than two, or there is no room for them.
fn read_some<A: Asks>(alloc: Global, desk: &A, lines: &[&[u8]]) -> Option<Vec<(u64, Command)>>
    ensures { IfSome result (λ commands. ReadsSome (A.asks desk.now) (bytes_of lines.now) commands.items) }
{
    let mut commands = Vec::new(alloc);
    for line in lines {
        match read_command(alloc, desk, line) {
            Some(command) => {
                if commands.push(command).is_err() {
                    return None;
                }
            }
            None => return several(commands),
        }
    }
    several(commands)
}

/// These, where they are two or more.
fn several(commands: Vec<(u64, Command)>) -> Option<Vec<(u64, Command)>>
    ensures { IfSome result (λ same. (same.items ≡ commands.items) × (0 < length commands.items)) }
{
    if commands.as_slice().len() < 2 {
        return None;
    }
    Some(commands)
}

/// The command that a line asks, with its moment, unless it is for a file.
fn read_command<A: Asks>(alloc: Global, desk: &A, line: &[u8]) -> Option<(u64, Command)>
    ensures { IfSome result (λ c. A.asks desk.now line.now (Ok (record { at = c.0; what = Call c.1 })) × IsTrue (opens_running c.1)) }
{
    match desk.asked(alloc, line) {
        Ok(asked) => command_of(asked),
        Err(_) => None,
    }
}

/// The command that is asked, with its moment, unless it is for a file.
fn command_of(asked: Asked) -> Option<(u64, Command)>
    ensures { IfSome result (λ c. asked ≡ record { at = c.0; what = Call c.1 }) }
{
    let Asked { at, what } = asked;
    match what {
        What::Call(Command::Fetch(_, _)) => None,
        What::Call(command) => Some((at.get(), command)),
        What::Show(_) => None,
    }
}

/// Appends the lines that tell answers: how many these are.
fn push_answers(alloc: Global, answers: &mut Vec<u8>, told: &[Answer]) -> Result<usize, AllocError>
    ensures { IfOk result (λ n. (n ≡ length told.now)
        × (answers.new.items ≡ answers.old.items ++ written print (map answer_text_of told.now))) }
{
    for answer in told {
        push_answer(alloc, answers, answer)?;
    }
    Ok(told.len())
}

/// Appends the line that tells an answer.
fn push_answer(alloc: Global, answers: &mut Vec<u8>, answer: &Answer) -> Result<(), AllocError>
    ensures { OnOk result (answers.new.items ≡ answers.old.items ++ print (answer_text_of answer.now)) }
{
    let text = answer_text(alloc, answer)?;
    push_line(answers, text.as_bytes())
}

/// Appends a text and a newline.
fn push_line(answers: &mut Vec<u8>, text: &[u8]) -> Result<(), AllocError>
    ensures { OnOk result (answers.new.items ≡ answers.old.items ++ print text.now) }
{
    answers.extend_from_slice(text)?;
    answers.push(b'\n')?;
    Ok(())
}

/// Answers the first line by itself, and appends its answer: one.
fn answer_first<C: Called + Asks + Viewed>(
    alloc: Global,
    desk: &mut C,
    lines: &[&[u8]],
    answers: &mut Vec<u8>,
) -> Result<usize, AllocError>
    requires { 0 < length lines.now }
    ensures ok { IfOk result (λ n. (n ≡ 1) × ((line text : List ℕ) × (take 1 (bytes_of lines.now) ≡ line ∷ [])
        × TellsLine C.asks C.gives C.finds C.finds_plan desk.old line text desk.new
        × (answers.new.items ≡ answers.old.items ++ print text))) }
    ensures err { OnErr result ((line text : List ℕ) × (take 1 (bytes_of lines.now) ≡ line ∷ [])
        × TellsLine C.asks C.gives C.finds C.finds_plan desk.old line text desk.new) }
{
    answer_line(alloc, desk, lines[0], answers)?;
    Ok(1)
}

/// Answers a line by itself, and appends its answer.
fn answer_line<C: Called + Asks + Viewed>(
    alloc: Global,
    desk: &mut C,
    line: &[u8],
    answers: &mut Vec<u8>,
) -> Result<(), AllocError>
    ensures ok { OnOk result ((text : List ℕ)
        × TellsLine C.asks C.gives C.finds C.finds_plan desk.old line.now text desk.new
        × (answers.new.items ≡ answers.old.items ++ print text)) }
    ensures err { OnErr result
        ((text : List ℕ) × TellsLine C.asks C.gives C.finds C.finds_plan desk.old line.now text desk.new) }
{
    let text = line_text(alloc, desk, line)?;
    push_line(answers, text.as_bytes())
}

/// The line that answers a line, which is carried out at the desk.
fn line_text<C: Called + Asks + Viewed>(
    alloc: Global,
    desk: &mut C,
    line: &[u8],
) -> Result<String, AllocError>
    ensures ok { IfOk result
        (λ t. TellsLine C.asks C.gives C.finds C.finds_plan desk.old line.now (string_bytes t) desk.new) }
    ensures err { OnErr result
        ((text : List ℕ) × TellsLine C.asks C.gives C.finds C.finds_plan desk.old line.now text desk.new) }
{
    match desk.asked(alloc, line) {
        Ok(asked) => carry_out(alloc, desk, &asked),
        Err(refusal) => refused_text(alloc, &refusal),
    }
}

/// The line that answers what is asked.
fn carry_out<C: Called + Viewed>(
    alloc: Global,
    desk: &mut C,
    asked: &Asked,
) -> Result<String, AllocError>
    requires { IsTrue (asks_running asked.now.what) }
    ensures ok { IfOk result
        (λ t. TellsWhat C.gives C.finds C.finds_plan desk.old asked.now.at asked.now.what (string_bytes t) desk.new) }
    ensures err { OnErr result
        ((text : List ℕ) × TellsWhat C.gives C.finds C.finds_plan desk.old asked.now.at asked.now.what text desk.new) }
{
    match &asked.what {
        What::Call(command) => {
            let answer = desk.call(alloc, asked.at.get(), command);
            answer_text(alloc, &answer)
        }
        What::Show(vehicle) => shown_text(alloc, desk, vehicle),
    }
}

/// The line that shows a vehicle, or its refusal.
fn shown_text<V: Viewed>(alloc: Global, desk: &mut V, vehicle: &Ident) -> Result<String, AllocError>
    ensures ok { IfOk result (λ t. TellsView V.finds V.finds_plan desk.old vehicle.now (string_bytes t) desk.new) }
    ensures err { OnErr result ((text : List ℕ) × TellsView V.finds V.finds_plan desk.old vehicle.now text desk.new) }
{
    match shown(alloc, desk, vehicle) {
        Ok(text) => Ok(text),
        Err(refusal) => refused_text(alloc, &refusal),
    }
}
