//! The commands of lines.
ghost use Rattle.std.specs.Prelude.{IsTrue, IfOk, IfSome};
ghost use Rattle.std.specs.List.{AllByRecursion};
ghost use Rattle.up_machine.specs.Commands.{opens_running};
ghost use Rattle.up_script.specs.AskedLines.{asks_running};

use std::alloc::{AllocError, Global};
use up_canon::refusal::Refusal;
use up_machine::command::Command;
use up_script::asked::{Asked, What, asked_by};
use up_sign::scheme::Scheme;

/// The commands of these lines, each with its moment. Lines that are none are left out.
pub(crate) fn commands_of<K: Scheme>(
    alloc: Global,
    scheme: &K,
    lines: &str,
) -> Result<Vec<(u64, Command)>, AllocError>
    ensures { IfOk result (λ r. AllByRecursion (λ c. IsTrue (opens_running c.1)) r.items) }
{
    let mut commands = Vec::new(alloc);
    for line in lines.lines() {
        if let Some(command) = command_of(alloc, scheme, line)? {
            commands.push(command)?;
        }
    }
    Ok(commands)
}

fn command_of<K: Scheme>(
    alloc: Global,
    scheme: &K,
    line: &str,
) -> Result<Option<(u64, Command)>, AllocError>
    ensures { IfOk result (λ found. IfSome found (λ c. IsTrue (opens_running c.1))) }
{
    match asked_by(alloc, scheme, line.as_bytes()) {
        Ok(asked) => Ok(asked_command(asked)),
        Err(Refusal::Memory) => Err(AllocError),
        Err(_) => Ok(None),
    }
}

fn asked_command(asked: Asked) -> Option<(u64, Command)>
    requires { IsTrue (asks_running asked.what) }
    ensures { IfSome result (λ c. IsTrue (opens_running c.1)) }
{
    let Asked { at, what } = asked;
    match what {
        What::Call(command) => Some((at.get(), command)),
        What::Show(_) => None,
    }
}
