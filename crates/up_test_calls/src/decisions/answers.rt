//! What is answered to lines of scripts.
ghost use Rattle.std.specs.Prelude.{◌≤◌};
ghost use Rattle.up_canon.specs.Moments.{last_command_moment};

use crate::decisions::campaigns::{close, open};
use crate::decisions::conditions::command_moment;
use crate::decisions::files::fetch;
use crate::decisions::images::{new_image, refresh};
use crate::decisions::manifests::deliver;
use crate::decisions::refused::unread;
use crate::decisions::register::Register;
use crate::decisions::replacements::replace_ecu;
use crate::decisions::roots::{found, rotate};
use crate::decisions::vehicles::add_vehicle;
use std::alloc::{AllocError, Global};
use up_canon::moment::Moment;
use up_machine::command::Command;
use up_script::asked::{Asked, What, asked_by};
use up_sign::scheme::Scheme;

/// The answer to a line, or why it is unread.
pub(crate) fn answer<K: Scheme>(
    alloc: Global,
    scheme: &K,
    register: &mut Register,
    line: &str,
) -> Result<String, AllocError> {
    match asked_by(alloc, scheme, line.as_bytes()) {
        Ok(asked) => asked_answer(alloc, scheme, register, asked),
        Err(refusal) => unread(alloc, refusal),
    }
}

fn asked_answer<K: Scheme>(
    alloc: Global,
    scheme: &K,
    register: &mut Register,
    asked: Asked,
) -> Result<String, AllocError> {
    let Asked { at, what } = asked;
    let at = command_moment(at.get());
    match what {
        What::Call(command) => command_answer(alloc, scheme, at, register, command),
        What::Show(_) => "no command".to_string(alloc),
    }
}

/// Each part of a command is moved on, so that no function drops a command.
fn command_answer<K: Scheme>(
    alloc: Global,
    scheme: &K,
    at: Moment,
    register: &mut Register,
    command: Command,
) -> Result<String, AllocError>
    requires { at ≤ last_command_moment }
{
    match command {
        Command::Found(keys) => found(alloc, scheme, at, register, keys),
        Command::Rotate(keys) => rotate(alloc, scheme, at, register, keys),
        Command::AddImage(image) => new_image(alloc, scheme, at, register, image),
        Command::Refresh(version) => refresh(alloc, scheme, at, register, version),
        Command::AddVehicle(new) => add_vehicle(alloc, scheme, at, register, new),
        Command::ReplaceEcu(replacement) => {
            replace_ecu(alloc, scheme, at, register, replacement)
        }
        Command::OpenCampaign(campaign) => open(alloc, at, register, campaign),
        Command::CloseCampaign(name) => close(alloc, at, register, name),
        Command::Deliver(body) => deliver(alloc, scheme, at, register, body),
        Command::Fetch(_, _) => fetch(alloc, at, register),
    }
}
