//! What a desk answers to what a row asks.
ghost use Rattle.std.specs.Prelude.{IsTrue};
ghost use Rattle.up_machine.specs.Commands.{opens_running};
ghost use Rattle.up_script.specs.AskedLines.{asks_running};

use sqlite::Alter;
use std::alloc::{AllocError, Global};
use up_canon::ident::Ident;
use up_desk::desk::Desk;
use up_machine::answer::Answer;
use up_machine::command::Command;
use up_manifest::report::Installed;
use up_script::asked::{Asked, What, asked_by};
use up_script::printed::{answer_text, refused_text};
use up_sign::hmac_sha256::HmacSha256;
use up_store::store::StoreFault;

/// What is answered where the database fails.
pub(crate) const STOPPED: &str = "refused 2 Store";

/// What answers rows.
pub(crate) trait Answers {
    /// The answer to `do LINE`, `version VEHICLE` or `installed ECU`.
    fn answer(&mut self, alloc: Global, asked: &str) -> Result<String, AllocError>;
}

impl<D: Alter> Answers for Desk<HmacSha256, D> {
    fn answer(&mut self, alloc: Global, asked: &str) -> Result<String, AllocError> {
        let (word, rest) = asked.split_once(' ').unwrap_or((asked, ""));
        match word {
            "do" => line_answered(alloc, self, rest),
            "version" => version_told(alloc, self, rest),
            "installed" => installed_told(alloc, self, rest),
            _ => "no row".to_string(alloc),
        }
    }
}

fn line_answered<D: Alter>(
    alloc: Global,
    desk: &mut Desk<HmacSha256, D>,
    line: &str,
) -> Result<String, AllocError> {
    match asked_by(alloc, desk.scheme(), line.as_bytes()) {
        Ok(asked) => {
            let answered = asked_answered(alloc, desk, &asked);
            drop(asked);
            answered
        }
        Err(refusal) => refused_text(alloc, &refusal),
    }
}

fn asked_answered<D: Alter>(
    alloc: Global,
    desk: &mut Desk<HmacSha256, D>,
    asked: &Asked,
) -> Result<String, AllocError>
    requires { IsTrue (asks_running asked.now.what) }
{
    match &asked.what {
        What::Call(command) => called(alloc, desk, asked.at.get(), command),
        What::Show(_) => "no command".to_string(alloc),
    }
}

fn called<D: Alter>(
    alloc: Global,
    desk: &mut Desk<HmacSha256, D>,
    at: u64,
    command: &Command,
) -> Result<String, AllocError>
    requires { IsTrue (opens_running command.now) }
{
    let answer = desk.call(alloc, at, command);
    answer_told(alloc, &answer)
}

/// The line of an answer, and behind that of a reply its text.
pub(crate) fn answer_told(alloc: Global, answer: &Answer) -> Result<String, AllocError> {
    let mut out = answer_text(alloc, answer)?;
    if let Answer::Reply(reply) = answer {
        out.push(' ')?;
        out.push_str(reply.text.as_str())?;
    }
    Ok(out)
}

fn version_told<D: Alter>(
    alloc: Global,
    desk: &mut Desk<HmacSha256, D>,
    name: &str,
) -> Result<String, AllocError> {
    let Some(vehicle) = Ident::new(name.to_string(alloc)?) else {
        return "no name".to_string(alloc);
    };
    version_text(alloc, desk.version(alloc, &vehicle))
}

fn version_text(
    alloc: Global,
    version: Result<Option<u64>, StoreFault>,
) -> Result<String, AllocError> {
    match version {
        Ok(Some(version)) => format!(in alloc; "{version}"),
        Ok(None) => "none".to_string(alloc),
        Err(_) => STOPPED.to_string(alloc),
    }
}

fn installed_told<D: Alter>(
    alloc: Global,
    desk: &mut Desk<HmacSha256, D>,
    name: &str,
) -> Result<String, AllocError> {
    let Some(ecu) = Ident::new(name.to_string(alloc)?) else {
        return "no name".to_string(alloc);
    };
    installed_text(alloc, desk.installed(alloc, &ecu))
}

fn installed_text(
    alloc: Global,
    installed: Result<Option<Installed>, StoreFault>,
) -> Result<String, AllocError> {
    match installed {
        Ok(Some(image)) => image_text(alloc, &image),
        Ok(None) => "none".to_string(alloc),
        Err(_) => STOPPED.to_string(alloc),
    }
}

/// The image's file, its length and its SHA-256.
fn image_text(alloc: Global, image: &Installed) -> Result<String, AllocError> {
    let digits = hex::encode(alloc, &image.sha256)?;
    let (file, length) = (image.file.text(), image.length.get());
    format!(in alloc; "{file} {length} {}", digits.as_str())
}
