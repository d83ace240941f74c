//! Campaigns that are opened and closed.
ghost use Rattle.std.specs.Prelude.{◌≤◌};
ghost use Rattle.up_canon.specs.Moments.{last_command_moment};

use crate::decisions::refused::refused;
use crate::decisions::register::{Register, put_campaign};
use std::alloc::{AllocError, Global};
use up_canon::ident::Ident;
use up_canon::moment::Moment;
use up_canon::refusal::Refusal;
use up_canon::table::Table;
use up_machine::decide_campaign::{decide_close, decide_open};
use up_machine::decision::Decision;
use up_machine::rows::VehicleRows;
use up_plan::campaign::{Campaign, Reach};

/// The answer to opening a campaign.
pub(crate) fn open(
    alloc: Global,
    at: Moment,
    register: &mut Register,
    campaign: Campaign,
) -> Result<String, AllocError>
    requires { at ≤ last_command_moment }
{
    let known = known_vehicles(alloc, &register.vehicles, &campaign.reach)?;
    let name = &campaign.name;
    let decided = decide_open(
        alloc,
        at,
        &campaign,
        register.founding.is_some(),
        register.campaigns.get(name.text()),
        known.as_slice(),
        &register.images,
    );
    decided_on(alloc, register, decided)
}

/// For each vehicle that a campaign names whether it is among these.
fn known_vehicles(
    alloc: Global,
    vehicles: &Table<VehicleRows>,
    reach: &Reach,
) -> Result<Vec<bool>, AllocError> {
    let mut known = Vec::new(alloc);
    if let Reach::Named(names) = reach {
        for name in names.as_slice() {
            known.push(vehicles.contains(name.text()))?;
        }
    }
    Ok(known)
}

/// The answer to closing a campaign.
pub(crate) fn close(
    alloc: Global,
    at: Moment,
    register: &mut Register,
    name: Ident,
) -> Result<String, AllocError>
    requires { at ≤ last_command_moment }
{
    let old = register.campaigns.get(name.text());
    let decided = decide_close(alloc, at, &name, register.founding.is_some(), old);
    decided_on(alloc, register, decided)
}

fn decided_on(
    alloc: Global,
    register: &mut Register,
    decided: Result<Decision<Campaign>, Refusal>,
) -> Result<String, AllocError> {
    match decided {
        Ok(Decision::Already) => "already".to_string(alloc),
        Ok(Decision::New(row)) => changed(alloc, register, row),
        Err(refusal) => refused(alloc, refusal),
    }
}

fn changed(alloc: Global, register: &mut Register, row: Campaign) -> Result<String, AllocError> {
    let text = campaign_text(alloc, &row);
    put_campaign(alloc, &mut register.campaigns, row)?;
    text
}

/// A campaign's name, whether it is running, and its items.
fn campaign_text(alloc: Global, row: &Campaign) -> Result<String, AllocError> {
    let state = if row.running { "running" } else { "closed" };
    let name = &row.name;
    let mut text = format!(in alloc; "{} {state}", name.text())?;
    for item in row.items.as_slice() {
        text.push(' ')?;
        text.push_str(item.file.text())?;
    }
    Ok(text)
}
