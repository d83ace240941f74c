//! Rows as runs and as calls, beside what the row says of them. Behind the line of a reply stands the reply's text.
ghost use Rattle.std.specs.Prelude.{IsTrue};
ghost use Rattle.std.specs.List.{AllByRecursion};
ghost use Rattle.up_machine.specs.Commands.{opens_running};
ghost use Rattle.up_script.specs.AskedLines.{asks_running};

use crate::commands::commands_of;
use crate::compared::compared;
use crate::marked::push_line;
use crate::media::{files_again, memory_again};
use crate::row::Row;
use sqlite::{Alter, FileStore, MemStore};
use sqlite_disk::Memory;
use std::alloc::{AllocError, Global};
use up_canon::ident::Ident;
use up_canon::listed::Duplicate;
use up_canon::refusal::Refusal;
use up_desk::desk::Desk;
use up_machine::answer::Answer;
use up_machine::command::Command;
use up_script::asked::{Asked, What, asked_by};
use up_script::printed::{answer_text, push_ecu, refused_text, vehicle_text};
use up_sign::scheme::Scheme;
use up_store::store::{Store, StoreFault};

/// The answers of one run over the commands.
pub(crate) fn by_run<K: Scheme, D: Alter>(
    alloc: Global,
    desk: &mut Desk<K, D>,
    row: &Row,
) -> Result<String, AllocError> {
    let commands = commands_of(alloc, desk.scheme(), row.commands.as_str())?;
    let had = run_at(alloc, desk, commands.as_slice())?;
    compared(alloc, had.as_str(), row.answered.as_str())
}

fn run_at<K: Scheme, D: Alter>(
    alloc: Global,
    desk: &mut Desk<K, D>,
    commands: &[(u64, Command)],
) -> Result<String, AllocError>
    requires { AllByRecursion (λ c. IsTrue (opens_running c.1)) commands.now }
{
    let mut answers = Vec::new(alloc);
    match desk.run(alloc, commands, &mut answers) {
        Ok(()) => all_answers(alloc, answers.as_slice()),
        Err(refused) => Err(refused),
    }
}

fn all_answers(alloc: Global, answers: &[Answer]) -> Result<String, AllocError> {
    let mut out = String::new(alloc);
    for answer in answers {
        push_answer(alloc, &mut out, answer)?;
    }
    Ok(out)
}

fn push_answer(alloc: Global, out: &mut String, answer: &Answer) -> Result<(), AllocError> {
    push_line(out, answer_text(alloc, answer)?.as_str())?;
    match answer {
        Answer::Reply(reply) => push_line(out, reply.text.as_str()),
        _ => Ok(()),
    }
}

/// The answers of one call after another, a view by the calls that read.
pub(crate) fn by_calls<K: Scheme, D: Alter>(
    alloc: Global,
    desk: &mut Desk<K, D>,
    row: &Row,
) -> Result<String, AllocError> {
    let mut out = String::new(alloc);
    for line in row.asked.lines() {
        if !line.is_empty() {
            push_called(alloc, desk, &mut out, line)?;
        }
    }
    compared(alloc, out.as_str(), row.called.as_str())
}

/// The same, where before each line the database in memory is let go of and taken again by another desk.
pub(crate) fn by_turns_in_memory<K: Scheme + Copy>(
    alloc: Global,
    scheme: K,
    mut store: Store<MemStore>,
    row: &Row,
) -> Result<String, AllocError> {
    let mut out = String::new(alloc);
    for line in row.asked.lines() {
        if !line.is_empty() {
            store = turn(alloc, scheme, memory_again(store)?, &mut out, line)?;
        }
    }
    drop(store);
    compared(alloc, out.as_str(), row.called.as_str())
}

/// The same, where before each line the files are closed and opened again.
pub(crate) fn by_turns_in_files<K: Scheme + Copy>(
    alloc: Global,
    scheme: K,
    mut store: Store<FileStore<Memory>>,
    row: &Row,
) -> Result<String, AllocError> {
    let mut out = String::new(alloc);
    for line in row.asked.lines() {
        if !line.is_empty() {
            store = turn_in_files(alloc, scheme, store, &mut out, line)?;
        }
    }
    drop(store);
    compared(alloc, out.as_str(), row.called.as_str())
}

fn turn_in_files<K: Scheme>(
    alloc: Global,
    scheme: K,
    store: Store<FileStore<Memory>>,
    out: &mut String,
    line: &str,
) -> Result<Store<FileStore<Memory>>, AllocError> {
    turn(alloc, scheme, files_again(alloc, store)?, out, line)
}

fn turn<K: Scheme, D: Alter + Drop>(
    alloc: Global,
    scheme: K,
    store: Store<D>,
    out: &mut String,
    line: &str,
) -> Result<Store<D>, AllocError> {
    let mut desk = Desk::new(scheme, store);
    match push_called(alloc, &mut desk, out, line) {
        Ok(()) => Ok(desk.release()),
        Err(refused) => {
            drop(desk);
            Err(refused)
        }
    }
}

fn push_called<K: Scheme, D: Alter>(
    alloc: Global,
    desk: &mut Desk<K, D>,
    out: &mut String,
    line: &str,
) -> Result<(), AllocError> {
    match asked_by(alloc, desk.scheme(), line.as_bytes()) {
        Ok(asked) => push_asked(alloc, desk, out, asked),
        Err(refusal) => push_refused(alloc, out, refusal),
    }
}

fn push_refused(alloc: Global, out: &mut String, refusal: Refusal) -> Result<(), AllocError> {
    push_line(out, refused_text(alloc, &refusal)?.as_str())
}

fn push_asked<K: Scheme, D: Alter>(
    alloc: Global,
    desk: &mut Desk<K, D>,
    out: &mut String,
    asked: Asked,
) -> Result<(), AllocError>
    requires { IsTrue (asks_running asked.what) }
{
    let Asked { at, what } = asked;
    match what {
        What::Call(command) => {
            let pushed = push_answered(alloc, desk, out, at.get(), &command);
            drop(command);
            pushed
        }
        What::Show(vehicle) => push_view(alloc, desk, out, &vehicle),
    }
}

/// Calls the desk with a copy of the command, and tells a copy of its answer.
fn push_answered<K: Scheme, D: Alter>(
    alloc: Global,
    desk: &mut Desk<K, D>,
    out: &mut String,
    at: u64,
    command: &Command,
) -> Result<(), AllocError>
    requires { IsTrue (opens_running command.now) }
{
    let copied = command.copy(alloc)?;
    let answer = call_again(alloc, desk, at, &copied);
    drop(copied);
    let pushed = push_copy(alloc, out, &answer);
    drop(answer);
    pushed
}

fn push_copy(alloc: Global, out: &mut String, answer: &Answer) -> Result<(), AllocError> {
    let copied = answer.copy(alloc)?;
    push_answer(alloc, out, &copied)
}

/// The desk's answer, and where memory was refused that of the same command called once more.
fn call_again<K: Scheme, D: Alter>(
    alloc: Global,
    desk: &mut Desk<K, D>,
    at: u64,
    command: &Command,
) -> Answer
    requires { IsTrue (opens_running command.now) }
{
    match desk.call(alloc, at, command) {
        Answer::Refused(Refusal::Memory) => desk.call(alloc, at, command),
        answer => answer,
    }
}

fn push_view<K: Scheme, D: Alter>(
    alloc: Global,
    desk: &mut Desk<K, D>,
    out: &mut String,
    vehicle: &Ident,
) -> Result<(), AllocError> {
    let version = told(desk.version(alloc, vehicle))?;
    let ecus = told(desk.ecus(alloc, vehicle))?;
    let (Some(version), Some(ecus)) = (version, ecus) else {
        return push_line(out, refused_text(alloc, &Refusal::UnknownVehicle)?.as_str());
    };
    let mut line = vehicle_text(alloc, vehicle, version)?;
    push_ecus(alloc, desk, &mut line, vehicle, ecus.as_slice())?;
    push_line(out, line.as_str())
}

fn push_ecus<K: Scheme, D: Alter>(
    alloc: Global,
    desk: &mut Desk<K, D>,
    line: &mut String,
    vehicle: &Ident,
    ecus: &[Ident],
) -> Result<(), AllocError> {
    let plan = told(desk.assigned(alloc, vehicle))?;
    for ecu in ecus {
        let installed = told(desk.installed(alloc, ecu))?;
        push_ecu(line, &plan, ecu, &installed)?;
    }
    Ok(())
}

/// What was read. With memory at hand there is no fault.
fn told<T>(read: Result<T, StoreFault>) -> Result<T, AllocError> {
    match read {
        Ok(value) => Ok(value),
        Err(_) => Err(AllocError),
    }
}
