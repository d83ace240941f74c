//! Images, campaigns and plans as texts.
use std::alloc::{AllocError, Global};
use up_plan::assigned::{Assigned, Cause, Plan};
use up_plan::campaign::{Campaign, Item, Reach};
use up_plan::image::{Image, Need};

/// A filename, length and release, and names of hardware, needs and conflicts.
pub(crate) fn image_text(alloc: Global, image: &Image) -> Result<String, AllocError> {
    let (file, length, release) = (image.file.text(), image.length.get(), image.release.get());
    let mut text = format!(in alloc; "{file} {length} {release} for")?;
    for hardware in image.hardware.as_slice() {
        push_word(&mut text, hardware.text())?;
    }
    push_needs(alloc, &mut text, image.needs.as_slice())?;
    text.push_str(" conflicts")?;
    for file in image.conflicts.as_slice() {
        push_word(&mut text, file.text())?;
    }
    Ok(text)
}

fn push_word(text: &mut String, word: &str) -> Result<(), AllocError> {
    text.push(' ')?;
    text.push_str(word)
}

fn push_needs(alloc: Global, text: &mut String, needs: &[Need]) -> Result<(), AllocError> {
    text.push_str(" needs")?;
    for need in needs {
        let (hardware, release) = (need.hardware.text(), need.release.get());
        let part = format!(in alloc; " {hardware}>{release}")?;
        text.push_str(part.as_str())?;
    }
    Ok(())
}

/// A name, whether it runs, for how many vehicles, and its items.
pub(crate) fn campaign_text(alloc: Global, campaign: &Campaign) -> Result<String, AllocError> {
    let state = if campaign.running {
        "running"
    } else {
        "closed"
    };
    let reach = reach_text(alloc, &campaign.reach)?;
    let mut text = format!(in alloc; "{} {state} for {reach}", campaign.name.text())?;
    for item in campaign.items.as_slice() {
        push_item(alloc, &mut text, item)?;
    }
    Ok(text)
}

fn reach_text(alloc: Global, reach: &Reach) -> Result<String, AllocError> {
    match reach {
        Reach::All => "all".to_string(alloc),
        Reach::Named(vehicles) => format!(in alloc; "{} vehicles", vehicles.as_slice().len()),
    }
}

fn push_item(alloc: Global, text: &mut String, item: &Item) -> Result<(), AllocError> {
    let part = format!(in alloc; " {}={}", item.hardware.text(), item.file.text())?;
    text.push_str(part.as_str())
}

/// `ECU=FILE` of each update, the cause as `ECU need HARDWARE` or `ECU conflict FILE`, or `nothing`.
pub(crate) fn plan_text(alloc: Global, plan: &Plan) -> Result<String, AllocError> {
    match &plan.withheld {
        None => updates(alloc, plan.assigned.as_slice()),
        Some(Cause::Need { ecu, hardware }) => {
            format!(in alloc; "{} need {}", ecu.text(), hardware.text())
        }
        Some(Cause::Conflict { ecu, file }) => {
            format!(in alloc; "{} conflict {}", ecu.text(), file.text())
        }
    }
}

fn updates(alloc: Global, assigned: &[Assigned]) -> Result<String, AllocError> {
    let [first, more @ ..] = assigned else {
        return "nothing".to_string(alloc);
    };
    let mut text = update_text(alloc, first)?;
    for update in more {
        let part = update_text(alloc, update)?;
        push_word(&mut text, part.as_str())?;
    }
    Ok(text)
}

fn update_text(alloc: Global, update: &Assigned) -> Result<String, AllocError> {
    format!(in alloc; "{}={}", update.ecu.text(), update.file.text())
}
