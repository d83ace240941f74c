//! Statements that write.
//!
//! `put image`, `put sha512 FILE HASH`, `put campaign`, `put vehicle VEHICLE ; ECU ; ..`, `put retired ECU VEHICLE`, `put shut_out VEHICLE`,
//! `put root META ; KEY ; ..`, which leaves no other keys, `set ecu OLD ECU HARDWARE KEY`, which puts an ECU in the place of the old one, `set
//! numbers ROOT TARGETS`, `set files META ; FILE ; ..` and `set manifest VEHICLE ; KEPT ; ECU ; ..`, which puts in the kept row and sets the others.
ghost use Rattle.std.specs.Prelude.{◌<◌, ◌^◌, IfOk};

use crate::tables::spelled::{
    campaign, ecu, file, image, installed_hash, kept, numbers, own_numbers, role_key, vehicle,
};
use crate::tables::words::{bytes, first_of, parts_of, word};
use sqlite::{Alter, Transaction};
use std::alloc::Global;
use up_tables::campaign::{close_campaign, insert_campaign};
use up_tables::ecu::{insert_ecu, update_ecu};
use up_tables::image::insert_image;
use up_tables::image_repository::update_image_repository;
use up_tables::image_sha512::insert_image_sha512;
use up_tables::kept::insert_kept;
use up_tables::meta::update_meta;
use up_tables::replace::replace_ecu;
use up_tables::repo_file::upsert_files;
use up_tables::retired::insert_retired;
use up_tables::retired_vehicle::insert_retired_vehicle;
use up_tables::role_key::{insert_role_keys, replace_role_keys};
use up_tables::values::StoreFault;
use up_tables::vehicle::{insert_vehicle, upsert_vehicle};

/// What is told of a statement that is carried out, if it is committed.
pub(crate) fn write<S: Alter>(
    tx: &mut Transaction<'_, S>,
    alloc: Global,
    given: &str,
) -> Result<&'static str, StoreFault> {
    let (word, rest) = first_of(given);
    match word {
        "put" => put(tx, alloc, rest),
        "set" => set(tx, alloc, rest),
        _ => told(close_campaign(tx, rest)),
    }
}

fn told(done: Result<(), StoreFault>) -> Result<&'static str, StoreFault> {
    match done {
        Ok(()) => Ok("done"),
        Err(fault) => Err(fault),
    }
}

fn put<S: Alter>(
    tx: &mut Transaction<'_, S>,
    alloc: Global,
    given: &str,
) -> Result<&'static str, StoreFault> {
    let (word, rest) = first_of(given);
    match word {
        "image" => told(put_image(tx, alloc, rest)),
        "campaign" => told(insert_campaign(tx, &campaign(rest))),
        "root" => told(put_root(tx, alloc, rest)),
        "vehicle" => told(put_vehicle(tx, alloc, rest)),
        "sha512" => told(put_sha512(tx, alloc, rest)),
        "retired" => told(put_retired(tx, rest)),
        "shut_out" => told(insert_retired_vehicle(tx, rest)),
        _ => Ok("no such statement"),
    }
}

fn set<S: Alter>(
    tx: &mut Transaction<'_, S>,
    alloc: Global,
    given: &str,
) -> Result<&'static str, StoreFault> {
    let (word, rest) = first_of(given);
    match word {
        "files" => told(set_files(tx, rest)),
        "manifest" => told(set_manifest(tx, alloc, rest)),
        "ecu" => told(set_ecu(tx, alloc, rest)),
        "numbers" => told(update_image_repository(tx, &own_numbers(rest))),
        _ => Ok("no such statement"),
    }
}

fn put_image<S: Alter>(
    tx: &mut Transaction<'_, S>,
    alloc: Global,
    given: &str,
) -> Result<(), StoreFault> {
    match bytes(alloc, word(given, 2)) {
        Ok(hash) => insert_image(tx, &image(given, hash.as_slice())),
        Err(_) => Err(StoreFault::Memory),
    }
}

fn put_sha512<S: Alter>(
    tx: &mut Transaction<'_, S>,
    alloc: Global,
    given: &str,
) -> Result<(), StoreFault> {
    let (file, digits) = first_of(given);
    match bytes(alloc, digits) {
        Ok(hash) => insert_image_sha512(tx, file, hash.as_slice()),
        Err(_) => Err(StoreFault::Memory),
    }
}

fn put_retired<S: Alter>(tx: &mut Transaction<'_, S>, given: &str) -> Result<(), StoreFault> {
    let (ecu, vehicle) = first_of(given);
    insert_retired(tx, ecu, vehicle)
}

/// Puts an ECU in the place of another one.
fn set_ecu<S: Alter>(
    tx: &mut Transaction<'_, S>,
    alloc: Global,
    given: &str,
) -> Result<(), StoreFault> {
    let (old, new) = first_of(given);
    match bytes(alloc, word(new, 2)) {
        Ok(key) => replace_ecu(tx, old, word(new, 0), word(new, 1), key.as_slice()),
        Err(_) => Err(StoreFault::Memory),
    }
}

/// The numbers and the keys of a root version.
fn put_root<S: Alter>(
    tx: &mut Transaction<'_, S>,
    alloc: Global,
    given: &str,
) -> Result<(), StoreFault> {
    let (row, keys) = parts_of(given);
    set_numbers(tx, row)?;
    put_keys(tx, alloc, keys)
}

fn set_numbers<S: Alter>(tx: &mut Transaction<'_, S>, given: &str) -> Result<(), StoreFault> {
    update_meta(tx, &numbers(given))
}

fn put_keys<S: Alter>(
    tx: &mut Transaction<'_, S>,
    alloc: Global,
    given: &str,
) -> Result<(), StoreFault> {
    let (first, others) = parts_of(given);
    put_first_key(tx, alloc, first)?;
    if others.is_empty() {
        return Ok(());
    }
    for part in others.split(" ; ") {
        put_key(tx, alloc, part)?;
    }
    Ok(())
}

/// The key, in the place of all that were there.
fn put_first_key<S: Alter>(
    tx: &mut Transaction<'_, S>,
    alloc: Global,
    given: &str,
) -> Result<(), StoreFault> {
    match bytes(alloc, word(given, 4)) {
        Ok(secret) => replace_role_keys(tx, &[role_key(given, secret.as_slice())]),
        Err(_) => Err(StoreFault::Memory),
    }
}

/// One key more.
fn put_key<S: Alter>(
    tx: &mut Transaction<'_, S>,
    alloc: Global,
    given: &str,
) -> Result<(), StoreFault> {
    match bytes(alloc, word(given, 4)) {
        Ok(secret) => insert_role_keys(tx, &[role_key(given, secret.as_slice())]),
        Err(_) => Err(StoreFault::Memory),
    }
}

/// The numbers and files.
fn set_files<S: Alter>(tx: &mut Transaction<'_, S>, given: &str) -> Result<(), StoreFault> {
    let (row, files) = parts_of(given);
    set_numbers(tx, row)?;
    for part in files.split(" ; ") {
        upsert_files(tx, &[file(part)])?;
    }
    Ok(())
}

/// A vehicle with its ECUs.
fn put_vehicle<S: Alter>(
    tx: &mut Transaction<'_, S>,
    alloc: Global,
    given: &str,
) -> Result<(), StoreFault> {
    let (row, ecus) = parts_of(given);
    put_vehicle_row(tx, row)?;
    let mut place = 0;
    for part in ecus.split(" ; ") {
        put_ecu(tx, alloc, word(row, 0), place, part)?;
        place = next(place)?;
    }
    Ok(())
}

fn put_vehicle_row<S: Alter>(tx: &mut Transaction<'_, S>, given: &str) -> Result<(), StoreFault> {
    insert_vehicle(tx, &vehicle(given))
}

/// The place behind it; `Store` where a column has none.
fn next(place: u64) -> Result<u64, StoreFault>
    ensures { IfOk result (λ behind. behind < 2 ^ 63) }
{
    if place < (1 << 63) - 1 {
        Ok(place + 1)
    } else {
        Err(StoreFault::Store)
    }
}

fn put_ecu<S: Alter>(
    tx: &mut Transaction<'_, S>,
    alloc: Global,
    vehicle: &str,
    place: u64,
    given: &str,
) -> Result<(), StoreFault>
    requires place { place < 2 ^ 63 }
{
    let key = bytes(alloc, word(given, 2))?;
    let hash = bytes(alloc, installed_hash(given))?;
    insert_ecu(
        tx,
        vehicle,
        place,
        &ecu(given, key.as_slice(), hash.as_slice()),
    )
}

fn set_one<S: Alter>(
    tx: &mut Transaction<'_, S>,
    alloc: Global,
    vehicle: &str,
    place: u64,
    given: &str,
) -> Result<(), StoreFault>
    requires place { place < 2 ^ 63 }
{
    let key = bytes(alloc, word(given, 2))?;
    let hash = bytes(alloc, installed_hash(given))?;
    update_ecu(
        tx,
        vehicle,
        place,
        &ecu(given, key.as_slice(), hash.as_slice()),
    )
}

/// The vehicle's numbers, what its ECUs reported, and the kept row of a manifest.
fn set_manifest<S: Alter>(
    tx: &mut Transaction<'_, S>,
    alloc: Global,
    given: &str,
) -> Result<(), StoreFault> {
    let (row, rest) = parts_of(given);
    let (row_kept, ecus) = parts_of(rest);
    set_vehicle(tx, row)?;
    set_ecus(tx, alloc, word(row, 0), ecus)?;
    insert_kept(tx, &kept(row_kept))
}

fn set_vehicle<S: Alter>(tx: &mut Transaction<'_, S>, given: &str) -> Result<(), StoreFault> {
    upsert_vehicle(tx, &vehicle(given))
}

fn set_ecus<S: Alter>(
    tx: &mut Transaction<'_, S>,
    alloc: Global,
    vehicle: &str,
    given: &str,
) -> Result<(), StoreFault> {
    let mut place = 0;
    for part in given.split(" ; ") {
        set_one(tx, alloc, vehicle, place, part)?;
        place = next(place)?;
    }
    Ok(())
}
