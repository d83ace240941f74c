//! What is told of refusals while requests are answered.
ghost use Rattle.std.specs.Prelude.{◌≡◌, ◌++◌, IfOk, None, Some, string_bytes};
ghost use Rattle.up_service.specs.Refusals.{check_line_of, line_of, refusal_line_of, refused_of, vehicle_in};

use std::alloc::{AllocError, Global};
use up_canon::ident::Ident;
use up_canon::refusal::Refusal;
use up_heads::check::Check;
use up_heads::responses::{check_number, check_text};
use up_machine::answer::Answer;
use up_machine::command::Command;
use up_manifest::manifest_read::read_manifest;

/// What hears of each request that is refused, at its moment in seconds since 1970-01-01T00:00:00Z. It changes nothing of what is
/// answered.
pub trait Hears {
    /// Hears of a command that is refused.
    fn hear(&self, alloc: Global, at: u64, command: &Command, refusal: &Refusal);

    /// Hears of a request that fails a check.
    fn hear_check(&self, alloc: Global, at: u64, check: Check);
}

/// What hears of none.
#[derive(Clone, Copy, Debug, Drop)]
pub struct Deaf;

impl Hears for Deaf {
    fn hear(&self, _: Global, _: u64, _: &Command, _: &Refusal) {}

    fn hear_check(&self, _: Global, _: u64, _: Check) {}
}

/// Tells of an answer, where it is a refusal.
pub fn tell<L: Hears>(alloc: Global, log: &L, at: u64, command: &Command, answer: &Answer) {
    if let Answer::Refused(refusal) = answer {
        log.hear(alloc, at, command, refusal);
    }
}

/// The line that tells a refusal: `uptane_desk: refused N NAME VALUE`, with the vehicle that a manifest names before it, where
/// it could be read, as `uptane_desk: vehicle V1: refused 13 Stale 7`.
pub fn refusal_line(
    alloc: Global,
    command: &Command,
    refusal: &Refusal,
) -> Result<String, AllocError>
    ensures { IfOk result (λ line. string_bytes line ≡ refusal_line_of (vehicle_in command.now) refusal.now) }
{
    let vehicle = vehicle_of(alloc, command)?;
    let text = refusal.text(alloc)?;
    match vehicle {
        Some(vehicle) => { vehicle_line(alloc, vehicle.text(), refusal.number(), text.as_str()) }
        None => line(alloc, refusal.number(), text.as_str()),
    }
}

/// The line that tells a check which a request failed: `uptane_desk: refused N TEXT`, as `uptane_desk: refused 4 TooLarge`.
pub fn check_line(alloc: Global, check: Check) -> Result<String, AllocError>
    ensures { IfOk result (λ line. string_bytes line ≡ check_line_of check) }
{
    line(alloc, check_number(check), check_text(check))
}

/// The line that tells a number and its text.
fn line(alloc: Global, number: u32, text: &str) -> Result<String, AllocError>
    ensures { IfOk result (λ line. string_bytes line ≡ line_of None number text.now) }
{
    let mut line = String::from_str(alloc, "uptane_desk: ")?;
    push_refused(&mut line, number, text)?;
    Ok(line)
}

/// The line that tells a number and its text, of a vehicle.
fn vehicle_line(alloc: Global, vehicle: &str, number: u32, text: &str) -> Result<String, AllocError>
    ensures { IfOk result (λ line. string_bytes line ≡ line_of (Some vehicle.now) number text.now) }
{
    let mut line = String::from_str(alloc, "uptane_desk: vehicle ")?;
    line.push_str(vehicle)?;
    line.push_str(": ")?;
    push_refused(&mut line, number, text)?;
    Ok(line)
}

/// Appends a number and its text.
fn push_refused(line: &mut String, number: u32, text: &str) -> Result<(), AllocError>
    ensures { IfOk result (λ _. string_bytes line.new ≡ string_bytes line.old ++ refused_of number text.now) }
{
    line.push_str("refused ")?;
    write!(line, "{number} ")?;
    line.push_str(text)?;
    line.push_str("\n")
}

/// The vehicle of which the command is a manifest; none where it is none, or can't be read.
fn vehicle_of(alloc: Global, command: &Command) -> Result<Option<Ident>, AllocError>
    ensures { IfOk result (λ vehicle. vehicle ≡ vehicle_in command.now) }
{
    let Command::Deliver(body) = command else {
        return Ok(None);
    };
    match read_manifest(alloc, body.as_slice()) {
        Ok(incoming) => Ok(Some(incoming.manifest.vehicle)),
        Err(Refusal::Memory) => Err(AllocError),
        Err(_) => Ok(None),
    }
}
