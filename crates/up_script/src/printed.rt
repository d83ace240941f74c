//! What is printed for an answer, and for a view of a vehicle.
ghost use Rattle.std.specs.Prelude.{◌≡◌, ◌++◌, IfOk, string_bytes, option_map, find, bytes_eq, codes};
ghost use Rattle.up_script.specs.PrintedLines.{answer_text as answer_text_of, reply_text as reply_text_of, refused_text as refused_text_of, withheld_text, vehicle_text as vehicle_text_of, installed_text, file_for as file_for_of, assigned_file as assigned_file_of, assigned_text, ecu_text};

use std::alloc::{AllocError, Global};
use up_canon::ident::Ident;
use up_canon::refusal::Refusal;
use up_canon::writing::push_number;
use up_machine::answer::{Answer, Reply};
use up_manifest::report::Installed;
use up_plan::assigned::{Assigned, Cause, Plan};

/// The line that shows an answer, without its newline.
#[tactic(auto, unfolding(crate::specs::PrintedLines::answer_text))]
pub fn answer_text(alloc: Global, answer: &Answer) -> Result<String, AllocError>
    ensures { IfOk result (λ t. string_bytes t ≡ answer_text_of answer.now) }
{
    match answer {
        Answer::Done => "done".to_string(alloc),
        Answer::Already => "already".to_string(alloc),
        Answer::Reply(reply) => reply_text(alloc, reply),
        Answer::File(text) => format!(in alloc; "file {}", text.as_str()),
        Answer::Refused(refusal) => refused_text(alloc, refusal),
    }
}

/// Bytes of room that the line of a reply gets, so that it seldom grows while it is written.
const ROOM_OF_A_REPLY: usize = 128;

fn reply_text(alloc: Global, reply: &Reply) -> Result<String, AllocError>
    ensures { IfOk result (λ t. string_bytes t ≡ reply_text_of reply.now) }
{
    let mut out = String::with_capacity(alloc, ROOM_OF_A_REPLY)?;
    out.push_str("reply ")?;
    out.push_str(reply.vehicle.text())?;
    out.push_str(" version ")?;
    push_number(&mut out, reply.version)?;
    out.push_str(" targets ")?;
    push_number(&mut out, u64::from(reply.targets))?;
    push_withheld(&mut out, &reply.withheld)?;
    Ok(out)
}

fn push_withheld(out: &mut String, withheld: &Option<Cause>) -> Result<(), AllocError>
    ensures { IfOk result (λ _. string_bytes out.new ≡ string_bytes out.old ++ withheld_text withheld.now) }
{
    match withheld {
        Some(Cause::Need { ecu, hardware }) => push_cause(
            out,
            ecu.text(),
            " need ",
            hardware.text(),
        ),
        Some(Cause::Conflict { ecu, file }) => push_cause(
            out,
            ecu.text(),
            " conflict ",
            file.text(),
        ),
        None => Ok(()),
    }
}

fn push_cause(out: &mut String, ecu: &str, kind: &str, name: &str) -> Result<(), AllocError>
    ensures { IfOk result
        (λ _. string_bytes out.new ≡ string_bytes out.old ++ codes " withheld " ++ ecu.now ++ kind.now ++ name.now) }
{
    out.push_str(" withheld ")?;
    out.push_str(ecu)?;
    out.push_str(kind)?;
    out.push_str(name)
}

/// The line that shows a refusal, without its newline.
pub fn refused_text(alloc: Global, refusal: &Refusal) -> Result<String, AllocError>
    ensures { IfOk result (λ t. string_bytes t ≡ refused_text_of refusal.now) }
{
    let text = refusal.text(alloc)?;
    format!(in alloc; "refused {} {}", refusal.number(), text)
}

/// Bytes of room that the line of a view gets.
const ROOM_OF_A_VIEW: usize = 256;

/// The beginning of the line that shows a vehicle: its name and version.
pub fn vehicle_text(alloc: Global, vehicle: &Ident, version: u64) -> Result<String, AllocError>
    ensures { IfOk result (λ t. string_bytes t ≡ vehicle_text_of vehicle.now version) }
{
    let mut out = String::with_capacity(alloc, ROOM_OF_A_VIEW)?;
    out.push_str("vehicle ")?;
    out.push_str(vehicle.text())?;
    out.push_str(" version ")?;
    push_number(&mut out, version)?;
    Ok(out)
}

/// Appends an ECU of the line that shows its vehicle: the file that is installed, and the file that the plan assigns to it. On
/// an error `out` may hold any text.
#[tactic(auto, unfolding(crate::specs::PrintedLines::ecu_text))]
pub fn push_ecu(
    out: &mut String,
    plan: &Option<Plan>,
    ecu: &Ident,
    installed: &Option<Installed>,
) -> Result<(), AllocError>
    ensures { IfOk result
        (λ _. string_bytes out.new ≡ string_bytes out.old ++ ecu_text plan.now ecu.now installed.now) }
{
    out.push(' ')?;
    out.push_str(ecu.text())?;
    out.push('=')?;
    push_installed(out, installed)?;
    push_assigned(out, plan, ecu.text())
}

fn push_installed(out: &mut String, installed: &Option<Installed>) -> Result<(), AllocError>
    ensures { IfOk result (λ _. string_bytes out.new ≡ string_bytes out.old ++ installed_text installed.now) }
{
    match installed {
        Some(image) => out.push_str(image.file.text()),
        None => out.push('-'),
    }
}

fn push_assigned(out: &mut String, plan: &Option<Plan>, ecu: &str) -> Result<(), AllocError>
    ensures { IfOk result
        (λ _. string_bytes out.new ≡ string_bytes out.old ++ assigned_text (assigned_file_of ecu.now plan.now)) }
{
    match assigned_file(plan, ecu) {
        Some(file) => {
            out.push('>')?;
            out.push_str(file)
        }
        None => Ok(()),
    }
}

fn assigned_file<'a>(plan: &'a Option<Plan>, ecu: &str) -> Option<&'a str>
    ensures { option_map (λ file. file.now) result ≡ assigned_file_of ecu.now plan.now }
{
    match plan {
        Some(plan) => file_for(plan.assigned.as_slice(), ecu),
        None => None,
    }
}

fn file_for<'a>(assigned: &'a [Assigned], ecu: &str) -> Option<&'a str>
    ensures { option_map (λ file. file.now) result ≡ file_for_of ecu.now assigned.now }
{
    match find_for(assigned, ecu) {
        Some(found) => Some(found.file.text()),
        None => None,
    }
}

fn find_for<'a>(assigned: &'a [Assigned], ecu: &str) -> Option<&'a Assigned>
    ensures { option_map (λ a. a.now) result ≡ find (λ a. bytes_eq a.ecu ecu.now) assigned.now }
{
    assigned.iter().find(|a| a.ecu.text() == ecu)
}
