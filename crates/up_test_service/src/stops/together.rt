//! The commands of a section in one run, whose answers are told row by row.
ghost use Rattle.std.specs.Prelude.{IsTrue, IfOk, IfSome};
ghost use Rattle.std.specs.List.{AllByRecursion};
ghost use Rattle.up_machine.specs.Commands.{opens_running};
ghost use Rattle.up_script.specs.AskedLines.{asks_running};

use crate::stops::answers::{Answers, answer_told};
use crate::stops::cases::{Before, Ended, all_of, carried_out, so_many};
use sqlite::{Alter, Connection};
use std::alloc::{AllocError, Global};
use up_canon::refusal::Refusal;
use up_desk::desk::Desk;
use up_machine::answer::Answer;
use up_machine::command::Command;
use up_script::asked::{Asked, What, asked_by};
use up_sign::hmac_sha256::HmacSha256;
use up_store::store::Store;

/// A desk, what it answered to the commands of a section, and how many of these answers are told.
pub(crate) struct Together<D: Alter> {
    desk: Desk<HmacSha256, D>,
    answers: Vec<Answer>,
    told: usize,
}

impl<D: Alter> Together<D> {
    pub(crate) fn new(alloc: Global, store: Store<D>) -> Together<D> {
        Together {
            desk: Desk::new(HmacSha256, store),
            answers: Vec::new(alloc),
            told: 0,
        }
    }

    /// Carries out the rows of a section. Where it stops, all of them were asked.
    pub(crate) fn carried_out(
        &mut self,
        alloc: Global,
        section: &str,
        before: Before,
    ) -> Result<Ended, AllocError> {
        let commands = commands_of(alloc, section)?;
        self.desk
            .run(alloc, commands.as_slice(), &mut self.answers)?;
        match carried_out(alloc, self, section, before)? {
            Ended::Stopped(at) => Ok(Ended::Stopped(so_many(at.answered, all_of(section).asked))),
            ended => Ok(ended),
        }
    }

    pub(crate) fn release(self) -> Connection<D> {
        let Together {
            desk,
            answers,
            told: _,
        } = self;
        drop(answers);
        desk.release().release()
    }
}

impl<D: Alter> Answers for Together<D> {
    fn answer(&mut self, alloc: Global, asked: &str) -> Result<String, AllocError> {
        let (word, _) = asked.split_once(' ').unwrap_or((asked, ""));
        if word != "do" {
            return self.desk.answer(alloc, asked);
        }
        let at = self.told;
        self.told = at.saturating_add(1);
        match self.answers.get(at) {
            Some(answer) => answer_told(alloc, answer),
            None => "no answer".to_string(alloc),
        }
    }
}

/// The commands of a section, each with its moment.
fn commands_of(alloc: Global, section: &str) -> Result<Vec<(u64, Command)>, AllocError>
    ensures { IfOk result (λ r. AllByRecursion (λ c. IsTrue (opens_running c.1)) r.items) }
{
    let mut commands = Vec::new(alloc);
    for row in section.lines() {
        if let Some(command) = command_of(alloc, row)? {
            commands.push(command)?;
        }
    }
    Ok(commands)
}

fn command_of(alloc: Global, row: &str) -> Result<Option<(u64, Command)>, AllocError>
    ensures { IfOk result (λ found. IfSome found (λ c. IsTrue (opens_running c.1))) }
{
    match asked_by(alloc, &HmacSha256, line_of(row).as_bytes()) {
        Ok(asked) => Ok(asked_command(asked)),
        Err(Refusal::Memory) => Err(AllocError),
        Err(_) => Ok(None),
    }
}

/// The line that a row asks, and an empty one where it asks a view.
fn line_of(row: &str) -> &str {
    let (asked, _) = row.split_once(" => ").unwrap_or((row, ""));
    let (word, line) = asked.split_once(' ').unwrap_or((asked, ""));
    if word == "do" { line } else { "" }
}

fn asked_command(asked: Asked) -> Option<(u64, Command)>
    requires { IsTrue (asks_running asked.what) }
    ensures { IfSome result (λ c. IsTrue (opens_running c.1)) }
{
    let Asked { at, what } = asked;
    match what {
        What::Call(command) => Some((at.get(), command)),
        What::Show(_) => None,
    }
}
