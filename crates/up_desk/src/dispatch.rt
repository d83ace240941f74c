//! Commands over the records.
ghost use Rattle.std.specs.Prelude.{◌≡◌, if◌then◌else◌, IsTrue, IfSome, Some, None};
ghost use Rattle.up_machine.specs.Commands.{is_command, opens_running};
ghost use Rattle.up_records.specs.Catalogs.{CanDecide};
ghost use Rattle.up_records.specs.Senders.{RefusesUnread};
ghost use Rattle.up_records.specs.Standing.{CanUse, over, state};
ghost use Rattle.up_desk.specs.Carrying.{CarriesIn};
ghost use Rattle.up_desk.specs.Serving.{Carries, CarriesOut, outcome_due, outright as outright_of, outright_in_time, told};

use crate::campaigns::{close, open};
use crate::carried::{Carried, finish};
use crate::command_moment::CommandMoment;
use crate::deliveries::deliver;
use crate::files::fetch;
use crate::inventory::{add_vehicle, keys_fit};
use crate::register::{add_image, refresh};
use crate::replacements::{key_fits, replace_ecu};
use crate::roots::{found, rotate};
use sqlite::{Alter, Transaction};
use std::alloc::Global;
use up_canon::refusal::Refusal;
use up_machine::answer::Answer;
use up_machine::command::Command;
use up_manifest::body::LARGEST_BODY;
use up_records::catalog::Catalog;
use up_records::records::Records;
use up_sign::key_cache::KeyCache;
use up_sign::scheme::Scheme;
use up_store::store::Store;

/// What a command comes to, whose moment is checked first. For a moment that is too late, a body that is too large and a key that
/// doesn't fit nothing is read of the tables.
pub fn dispatch<K: Scheme, D: Alter>(
    records: &mut Records<D>,
    alloc: Global,
    scheme: &K,
    at: u64,
    command: &Command,
) -> Result<Answer, Refusal>
    requires { CanUse (K.rules scheme.now) (state D.Store records.old) }
    ensures carries { Carries D.Store (K.rules scheme.now) (λ s. outcome_due (K.rules scheme.now) s at command.now)
        records.old records.new result }
    ensures outright { IfSome (outright_of (K.rules scheme.now) at command.now)
        (RefusesUnread records.old records.new result) }
{
    let Some(at) = CommandMoment::new(at) else {
        return Err(Refusal::MomentOutOfRange);
    };
    match outright(scheme, command) {
        Some(refusal) => Err(refusal),
        None => run(
            &mut records.store,
            &mut records.catalog,
            &mut records.keys,
            alloc,
            scheme,
            at,
            command,
        ),
    }
}

/// The refusal of a command in time that is told before anything is read.
pub fn outright<K: Scheme>(scheme: &K, command: &Command) -> Option<Refusal>
    ensures { result ≡ outright_in_time (K.rules scheme.now) command.now }
{
    match command {
        Command::Deliver(body) => refused_if(
            body.as_slice().len() > LARGEST_BODY,
            Refusal::TooLarge,
        ),
        Command::AddVehicle(new) => refused_if(!keys_fit(scheme, new), Refusal::from("key")),
        Command::ReplaceEcu(new) => refused_if(!key_fits(scheme, new), Refusal::from("key")),
        Command::Found(_) => None,
        Command::Rotate(_) => None,
        Command::AddImage(_) => None,
        Command::Refresh(_) => None,
        Command::OpenCampaign(_) => None,
        Command::CloseCampaign(_) => None,
        Command::Fetch(_, _) => None,
    }
}

fn refused_if(is: bool, refusal: Refusal) -> Option<Refusal>
    ensures { result ≡ (if is then Some refusal else None) }
{
    if is { Some(refusal) } else { None }
}

/// Carries out a command in one session: its rows are read, and what it comes to is put and committed.
fn run<K: Scheme, D: Alter>(
    store: &mut Store<D>,
    catalog: &mut Option<Catalog>,
    keys: &mut KeyCache,
    alloc: Global,
    scheme: &K,
    at: CommandMoment,
    command: &Command,
) -> Result<Answer, Refusal>
    requires { IfSome catalog.old (CanDecide (K.rules scheme.now)) }
    ensures { CarriesOut (K.rules scheme.now) (λ s. outcome_due (K.rules scheme.now) s at command.now)
        (over D.Store store.old catalog.old) (over D.Store store.new catalog.new) result }
{
    let mut tx = store.conn.transaction();
    let carried = carry(&mut tx, catalog, keys, alloc, scheme, at, command);
    finish(tx, carried)
}

/// What it comes to within its session.
pub fn carry<K: Scheme, D: Alter>(
    tx: &mut Transaction<'_, D>,
    catalog: &mut Option<Catalog>,
    keys: &mut KeyCache,
    alloc: Global,
    scheme: &K,
    at: CommandMoment,
    command: &Command,
) -> Result<Carried, Refusal>
    requires { IfSome catalog.old (CanDecide (K.rules scheme.now)) }
    ensures { CarriesIn D.Store (K.rules scheme.now) (λ s. outcome_due (K.rules scheme.now) s at command.now)
        tx.old.conn tx.new.conn catalog.old catalog.new result }
{
    match command {
        Command::Found(key_set) => found(tx, catalog, alloc, scheme, at, key_set),
        Command::Rotate(key_set) => rotate(tx, catalog, alloc, scheme, at, key_set),
        Command::AddImage(image) => add_image(tx, catalog, alloc, scheme, at, image),
        Command::Refresh(version) => refresh(tx, catalog, alloc, scheme, at, *version),
        Command::AddVehicle(new) => add_vehicle(tx, catalog, alloc, scheme, at, new),
        Command::ReplaceEcu(new) => replace_ecu(tx, catalog, alloc, scheme, at, new),
        Command::OpenCampaign(campaign) => open(tx, catalog, alloc, at, campaign),
        Command::CloseCampaign(name) => close(tx, catalog, alloc, at, name),
        Command::Deliver(body) => deliver(tx, catalog, keys, alloc, scheme, at, body),
        Command::Fetch(repository, name) => fetch(tx, alloc, at, *repository, name),
    }
}

/// The answer that a result is told as.
pub fn answer_of(given: Result<Answer, Refusal>) -> Answer
    ensures { result ≡ told given }
{
    match given {
        Ok(answer) => answer,
        Err(refusal) => Answer::Refused(refusal),
    }
}

/// A command of these types is within the limits of commands.
pub fn keeps_limits(command: &Command)
    requires { IsTrue (opens_running command.now) }
    ensures { IsTrue (is_command command.now) }
{
    match command {
        Command::AddImage(image) => {
            let _ = &image.file;
        }
        Command::Refresh(version) => {
            let _ = version.get();
        }
        Command::AddVehicle(new) => {
            let _ = &new.vehicle;
        }
        Command::OpenCampaign(campaign) => {
            let _ = &campaign.name;
        }
        _ => {}
    }
}
