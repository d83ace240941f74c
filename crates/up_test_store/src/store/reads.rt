//! The twelve reads by their words, each in a session of its own and told as a line of text.
ghost use Rattle.std.specs.Prelude.{◌≡◌, false};

use crate::store::campaigns::{campaign_text, campaigns_text};
use crate::store::fault::Fault;
use crate::store::images::{image_text, images_text};
use crate::store::manifests::kept_text;
use crate::store::roots::founding_text;
use crate::store::vehicles::{ecus_text, vehicle_text};
use crate::store::words::{count, file_name, first_of, ident};
use sqlite::{Alter, Transaction};
use std::alloc::{AllocError, Global};
use up_canon::file_name::FileName;
use up_canon::ident::Ident;
use up_canon::text::Text;
use up_machine::rows::Kept;
use up_plan::campaign::Campaign;
use up_roles::repository::Repository;
use up_store::campaigns::{find_campaign, find_running};
use up_store::images::{find_image, find_images};
use up_store::manifests::{find_kept, find_latest};
use up_store::roots::{find_file, find_founding, find_whether_founded};
use up_store::store::{Store, StoreFault};
use up_store::vehicles::{find_ecus, find_owner, find_vehicle};

/// What a read answers: `founding`, `founded`, `file REPOSITORY NAME`, `image FILE`, `images`, `running`, `campaign NAME`,
/// `vehicle VEHICLE`, `ecus VEHICLE`, `owner ECU`, `kept VEHICLE COUNTER` or `latest VEHICLE`.
pub(crate) fn read<S: Alter>(
    alloc: Global,
    store: &mut Store<S>,
    given: &str,
) -> Result<String, Fault> {
    let (word, rest) = first_of(given);
    match word {
        "founding" => founding(alloc, store),
        "founded" => founded(alloc, store),
        "file" => file(alloc, store, rest),
        "image" => image(alloc, store, rest),
        "images" => images(alloc, store),
        "running" => running(alloc, store),
        "kept" => kept(alloc, store, rest),
        _ => read_of_name(alloc, store, word, rest),
    }
}

/// A session that put nothing ends.
fn undone<S: Alter>(_tx: Transaction<'_, S>)
    ensures { _tx.exit.0.now.in_transaction ≡ false }
{}

fn read_of_name<S: Alter>(
    alloc: Global,
    store: &mut Store<S>,
    word: &str,
    rest: &str,
) -> Result<String, Fault> {
    let name = ident(alloc, rest)?;
    match word {
        "vehicle" => vehicle(alloc, store, &name),
        "ecus" => ecus(alloc, store, &name),
        "owner" => owner(alloc, store, &name),
        "latest" => latest(alloc, store, &name),
        "campaign" => campaign(alloc, store, &name),
        _ => Err(Fault::Misspelled),
    }
}

fn none(alloc: Global) -> Result<String, Fault> {
    made("none".to_string(alloc))
}

/// The text of a list.
fn listed(text: Result<String, AllocError>) -> Result<String, Fault> {
    match text {
        Ok(text) => {
            if text.is_empty() {
                let mut out = text;
                out.push_str("no rows")?;
                return Ok(out);
            }
            Ok(text)
        }
        Err(_) => Err(Fault::Memory),
    }
}

fn made(text: Result<String, AllocError>) -> Result<String, Fault> {
    match text {
        Ok(text) => Ok(text),
        Err(_) => Err(Fault::Memory),
    }
}

fn founding<S: Alter>(alloc: Global, store: &mut Store<S>) -> Result<String, Fault> {
    let mut tx = store.conn.transaction();
    let found = find_founding(&mut tx, alloc);
    undone(tx);
    match found {
        Ok(Some(row)) => made(founding_text(alloc, &row)),
        Ok(None) => none(alloc),
        Err(fault) => Err(Fault::from(fault)),
    }
}

fn founded<S: Alter>(alloc: Global, store: &mut Store<S>) -> Result<String, Fault> {
    let mut tx = store.conn.transaction();
    let found = find_whether_founded(&mut tx, alloc);
    undone(tx);
    match found {
        Ok(true) => made("yes".to_string(alloc)),
        Ok(false) => made("no".to_string(alloc)),
        Err(fault) => Err(Fault::from(fault)),
    }
}

fn file<S: Alter>(alloc: Global, store: &mut Store<S>, given: &str) -> Result<String, Fault> {
    let (repository, name) = first_of(given);
    let name = file_name(alloc, name)?;
    match repository {
        "director" => file_of(alloc, store, Repository::Director, &name),
        "image" => file_of(alloc, store, Repository::Image, &name),
        _ => Err(Fault::Misspelled),
    }
}

fn file_of<S: Alter>(
    alloc: Global,
    store: &mut Store<S>,
    repository: Repository,
    name: &FileName,
) -> Result<String, Fault> {
    let mut tx = store.conn.transaction();
    let found = find_file(&mut tx, alloc, repository, name);
    undone(tx);
    one_file(alloc, found)
}

fn one_file(alloc: Global, found: Result<Option<Text>, StoreFault>) -> Result<String, Fault> {
    match found {
        Ok(Some(text)) => Ok(text.into_string()),
        Ok(None) => none(alloc),
        Err(fault) => Err(Fault::from(fault)),
    }
}

fn image<S: Alter>(alloc: Global, store: &mut Store<S>, name: &str) -> Result<String, Fault> {
    let name = file_name(alloc, name)?;
    image_of(alloc, store, &name)
}

fn image_of<S: Alter>(
    alloc: Global,
    store: &mut Store<S>,
    name: &FileName,
) -> Result<String, Fault> {
    let mut tx = store.conn.transaction();
    let found = find_image(&mut tx, alloc, name);
    undone(tx);
    match found {
        Ok(Some(found)) => made(image_text(alloc, &found)),
        Ok(None) => none(alloc),
        Err(fault) => Err(Fault::from(fault)),
    }
}

fn images<S: Alter>(alloc: Global, store: &mut Store<S>) -> Result<String, Fault> {
    let mut tx = store.conn.transaction();
    let found = find_images(&mut tx, alloc);
    undone(tx);
    match found {
        Ok(found) => listed(images_text(alloc, found.values())),
        Err(fault) => Err(Fault::from(fault)),
    }
}

fn running<S: Alter>(alloc: Global, store: &mut Store<S>) -> Result<String, Fault> {
    let mut tx = store.conn.transaction();
    let found = find_running(&mut tx, alloc);
    undone(tx);
    match found {
        Ok(found) => listed(campaigns_text(alloc, found.values())),
        Err(fault) => Err(Fault::from(fault)),
    }
}

fn campaign<S: Alter>(alloc: Global, store: &mut Store<S>, name: &Ident) -> Result<String, Fault> {
    let mut tx = store.conn.transaction();
    let found = find_campaign(&mut tx, alloc, name);
    undone(tx);
    one_campaign(alloc, found)
}

fn one_campaign(
    alloc: Global,
    found: Result<Option<Campaign>, StoreFault>,
) -> Result<String, Fault> {
    match found {
        Ok(Some(campaign)) => made(campaign_text(alloc, &campaign)),
        Ok(None) => none(alloc),
        Err(fault) => Err(Fault::from(fault)),
    }
}

fn vehicle<S: Alter>(alloc: Global, store: &mut Store<S>, name: &Ident) -> Result<String, Fault> {
    let mut tx = store.conn.transaction();
    let found = find_vehicle(&mut tx, alloc, name);
    undone(tx);
    match found {
        Ok(Some(row)) => made(vehicle_text(alloc, &row)),
        Ok(None) => none(alloc),
        Err(fault) => Err(Fault::from(fault)),
    }
}

fn ecus<S: Alter>(alloc: Global, store: &mut Store<S>, vehicle: &Ident) -> Result<String, Fault> {
    let mut tx = store.conn.transaction();
    let found = find_ecus(&mut tx, alloc, vehicle);
    undone(tx);
    match found {
        Ok(found) => listed(ecus_text(alloc, found.as_slice())),
        Err(fault) => Err(Fault::from(fault)),
    }
}

fn owner<S: Alter>(alloc: Global, store: &mut Store<S>, ecu: &Ident) -> Result<String, Fault> {
    let mut tx = store.conn.transaction();
    let found = find_owner(&mut tx, ecu);
    undone(tx);
    match found {
        Ok(Some(vehicle)) => made(vehicle.text().to_string(alloc)),
        Ok(None) => none(alloc),
        Err(fault) => Err(Fault::from(fault)),
    }
}

fn kept<S: Alter>(alloc: Global, store: &mut Store<S>, given: &str) -> Result<String, Fault> {
    let (vehicle, counter) = first_of(given);
    let counter = count(counter)?;
    let vehicle = ident(alloc, vehicle)?;
    let mut tx = store.conn.transaction();
    let found = find_kept(&mut tx, alloc, &vehicle, counter);
    undone(tx);
    one_kept(alloc, found)
}

fn latest<S: Alter>(alloc: Global, store: &mut Store<S>, vehicle: &Ident) -> Result<String, Fault> {
    let mut tx = store.conn.transaction();
    let found = find_latest(&mut tx, alloc, vehicle);
    undone(tx);
    one_kept(alloc, found)
}

fn one_kept(alloc: Global, found: Result<Option<Kept>, StoreFault>) -> Result<String, Fault> {
    match found {
        Ok(Some(row)) => made(kept_text(alloc, &row)),
        Ok(None) => none(alloc),
        Err(fault) => Err(Fault::from(fault)),
    }
}
