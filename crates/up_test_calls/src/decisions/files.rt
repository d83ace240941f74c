//! Files that are fetched.
ghost use Rattle.std.specs.Prelude.{◌≤◌};
ghost use Rattle.up_canon.specs.Moments.{last_command_moment};

use crate::decisions::refused::refused;
use crate::decisions::register::Register;
use std::alloc::{AllocError, Global};
use up_canon::listed::Duplicate;
use up_canon::moment::Moment;
use up_canon::refusal::Refusal;
use up_canon::text::Text;
use up_machine::decide_fetch::decide_fetch;

/// The text that is there for a file that is fetched, from here on; no text where it is empty.
pub(crate) fn set_text(
    alloc: Global,
    register: &mut Register,
    text: &str,
) -> Result<String, AllocError> {
    register.text = if text.is_empty() {
        None
    } else {
        Some(Text::new(text.to_string(alloc)?))
    };
    "set".to_string(alloc)
}

/// The answer to a file that is fetched.
pub(crate) fn fetch(alloc: Global, at: Moment, register: &Register) -> Result<String, AllocError>
    requires { at ≤ last_command_moment }
{
    let text = register.text.copy(alloc)?;
    decided_on(alloc, decide_fetch(at, register.founding.is_some(), text))
}

fn decided_on(alloc: Global, decided: Result<Text, Refusal>) -> Result<String, AllocError> {
    match decided {
        Ok(text) => text.as_str().to_string(alloc),
        Err(refusal) => refused(alloc, refusal),
    }
}
