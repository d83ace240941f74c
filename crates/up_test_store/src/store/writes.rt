//! The nine writes by their words, each in a session of its own.
ghost use Rattle.std.specs.Prelude.{◌≡◌, false};

use crate::store::campaigns::campaign;
use crate::store::fault::Fault;
use crate::store::images::image;
use crate::store::manifests::accepted_rows;
use crate::store::roots::{register_rows, root_rows};
use crate::store::vehicles::{replacement, vehicle_rows};
use crate::store::words::{first_of, parts_of};
use sqlite::{Alter, Transaction};
use std::alloc::Global;
use up_store::campaigns::{put_campaign, put_closed};
use up_store::images::put_image;
use up_store::manifests::put_accepted;
use up_store::replaced::put_replaced;
use up_store::roots::{put_register, put_root};
use up_store::store::{Store, StoreFault, end};
use up_store::vehicles::put_vehicle;

/// Carries out a write: `found`, `rotate`, `refresh`, `image`, `vehicle`, `replace`, `campaign`, `close` or `accept`, with its rows.
pub(crate) fn write<S: Alter>(
    alloc: Global,
    store: &mut Store<S>,
    given: &str,
) -> Result<(), Fault> {
    let (word, rest) = first_of(given);
    match word {
        "found" | "rotate" => write_root(alloc, store, rest),
        "refresh" => write_refresh(alloc, store, rest),
        "image" => write_image(alloc, store, rest),
        _ => write_of_fleet(alloc, store, word, rest),
    }
}

fn write_of_fleet<S: Alter>(
    alloc: Global,
    store: &mut Store<S>,
    word: &str,
    rest: &str,
) -> Result<(), Fault> {
    match word {
        "vehicle" => write_vehicle(alloc, store, rest),
        "replace" => write_replace(alloc, store, rest),
        "campaign" => write_campaign(alloc, store, rest),
        "close" => write_close(alloc, store, rest),
        "accept" => write_accept(alloc, store, rest),
        _ => Err(Fault::Misspelled),
    }
}

/// What was put is committed, and a fault undoes it.
fn ended<S: Alter>(tx: Transaction<'_, S>, put: Result<(), StoreFault>) -> Result<(), Fault>
    ensures { tx.exit.0.now.in_transaction ≡ false }
{
    match end(tx, put) {
        Ok(()) => Ok(()),
        Err(fault) => Err(Fault::from(fault)),
    }
}

fn write_root<S: Alter>(alloc: Global, store: &mut Store<S>, given: &str) -> Result<(), Fault> {
    match root_rows(alloc, given) {
        Ok(rows) => {
            let mut tx = store.conn.transaction();
            let put = put_root(&mut tx, alloc, &rows);
            ended(tx, put)
        }
        Err(fault) => Err(fault),
    }
}

fn write_refresh<S: Alter>(alloc: Global, store: &mut Store<S>, given: &str) -> Result<(), Fault> {
    match register_rows(alloc, given) {
        Ok(rows) => {
            let mut tx = store.conn.transaction();
            let put = put_register(&mut tx, &rows);
            ended(tx, put)
        }
        Err(fault) => Err(fault),
    }
}

/// `IMAGE ; FOUNDING ; TEXTS`
fn write_image<S: Alter>(alloc: Global, store: &mut Store<S>, given: &str) -> Result<(), Fault> {
    let (new, rest) = parts_of(given);
    let image = image(alloc, new)?;
    match register_rows(alloc, rest) {
        Ok(rows) => {
            let mut tx = store.conn.transaction();
            let put = put_image(&mut tx, alloc, &image, &rows);
            ended(tx, put)
        }
        Err(fault) => Err(fault),
    }
}

fn write_vehicle<S: Alter>(alloc: Global, store: &mut Store<S>, given: &str) -> Result<(), Fault> {
    match vehicle_rows(alloc, given) {
        Ok(rows) => {
            let mut tx = store.conn.transaction();
            let put = put_vehicle(&mut tx, &rows);
            ended(tx, put)
        }
        Err(fault) => Err(fault),
    }
}

fn write_replace<S: Alter>(alloc: Global, store: &mut Store<S>, given: &str) -> Result<(), Fault> {
    match replacement(alloc, given) {
        Ok(new) => {
            let mut tx = store.conn.transaction();
            let put = put_replaced(&mut tx, &new);
            ended(tx, put)
        }
        Err(fault) => Err(fault),
    }
}

fn write_campaign<S: Alter>(alloc: Global, store: &mut Store<S>, given: &str) -> Result<(), Fault> {
    match campaign(alloc, given) {
        Ok(new) => {
            let mut tx = store.conn.transaction();
            let put = put_campaign(&mut tx, alloc, &new);
            ended(tx, put)
        }
        Err(fault) => Err(fault),
    }
}

fn write_close<S: Alter>(alloc: Global, store: &mut Store<S>, given: &str) -> Result<(), Fault> {
    match campaign(alloc, given) {
        Ok(closed) => {
            let mut tx = store.conn.transaction();
            let put = put_closed(&mut tx, &closed);
            ended(tx, put)
        }
        Err(fault) => Err(fault),
    }
}

fn write_accept<S: Alter>(alloc: Global, store: &mut Store<S>, given: &str) -> Result<(), Fault> {
    match accepted_rows(alloc, given) {
        Ok(rows) => {
            let mut tx = store.conn.transaction();
            let put = put_accepted(&mut tx, alloc, &rows);
            ended(tx, put)
        }
        Err(fault) => Err(fault),
    }
}
