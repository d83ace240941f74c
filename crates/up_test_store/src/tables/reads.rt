//! Statements that read.

use crate::tables::shown::{Columns, row_text};
use crate::tables::texts::{all, one};
use crate::tables::words::{first_of, number, word};
use sqlite::{Alter, Error, Row, Transaction};
use std::alloc::Global;
use up_tables::campaign::{campaign, running_campaigns};
use up_tables::ecu::{ecu_owner, ecus};
use up_tables::image::{image, images};
use up_tables::image_repository::image_repository;
use up_tables::image_sha512::{image_sha512, image_sha512s};
use up_tables::kept::kept;
use up_tables::meta::meta;
use up_tables::repo_file::file;
use up_tables::retired::retired_owner;
use up_tables::retired_vehicle::retired_vehicle;
use up_tables::role_key::role_keys;
use up_tables::values::{StoreFault, fault_of};
use up_tables::vehicle::vehicle;

/// What a statement reads.
pub(crate) fn read<S: Alter>(
    tx: &mut Transaction<'_, S>,
    alloc: Global,
    given: &str,
) -> Result<String, StoreFault> {
    let (word, rest) = first_of(given);
    match word {
        "meta" => one(alloc, meta::<S, Columns>(tx, alloc)),
        "numbers" => one(alloc, image_repository::<S, Columns>(tx, alloc)),
        "keys" => all(alloc, role_keys::<S, Columns>(tx, alloc)),
        "shut_out" => one(alloc, retired_vehicle::<S, Columns>(tx, alloc, rest)),
        "file" => read_file(tx, alloc, rest),
        _ => read_image(tx, alloc, word, rest),
    }
}

fn read_file<S: Alter>(
    tx: &mut Transaction<'_, S>,
    alloc: Global,
    given: &str,
) -> Result<String, StoreFault> {
    let (repository, name) = first_of(given);
    one(alloc, file::<S, Columns>(tx, alloc, repository, name))
}

fn read_image<S: Alter>(
    tx: &mut Transaction<'_, S>,
    alloc: Global,
    word: &str,
    given: &str,
) -> Result<String, StoreFault> {
    match word {
        "image" => one(alloc, image::<S, Columns>(tx, alloc, given)),
        "images" => all(alloc, images::<S, Columns>(tx, alloc)),
        "campaign" => one(alloc, campaign::<S, Columns>(tx, alloc, given)),
        "running" => all(alloc, running_campaigns::<S, Columns>(tx, alloc)),
        "sha512" => one(alloc, image_sha512::<S, Columns>(tx, alloc, given)),
        "sha512s" => all(alloc, image_sha512s::<S, Columns>(tx, alloc)),
        _ => read_vehicle(tx, alloc, word, given),
    }
}

fn read_vehicle<S: Alter>(
    tx: &mut Transaction<'_, S>,
    alloc: Global,
    word: &str,
    given: &str,
) -> Result<String, StoreFault> {
    match word {
        "vehicle" => one(alloc, vehicle::<S, Columns>(tx, alloc, given)),
        "ecus" => all(alloc, ecus::<S, Columns>(tx, alloc, given)),
        "owner" => one(alloc, ecu_owner(tx, given)),
        "retired" => one(alloc, retired_owner(tx, given)),
        "kept" => read_kept(tx, alloc, given),
        "ask" => answered(alloc, tx.query_all(given, &[])),
        _ => Ok("no such statement".to_string(alloc)?),
    }
}

fn read_kept<S: Alter>(
    tx: &mut Transaction<'_, S>,
    alloc: Global,
    given: &str,
) -> Result<String, StoreFault> {
    one(
        alloc,
        kept::<S, Columns>(tx, alloc, word(given, 0), number(given, 1)),
    )
}

/// The rows that a query of one's own answers.
fn answered(alloc: Global, answer: Result<Vec<Row>, Error>) -> Result<String, StoreFault> {
    match answer {
        Ok(rows) => all(alloc, told(alloc, rows.as_slice())),
        Err(error) => Err(fault_of(error)),
    }
}

fn told(alloc: Global, rows: &[Row]) -> Result<Vec<String>, StoreFault> {
    let mut texts = Vec::new(alloc);
    for row in rows {
        texts.push(row_text(alloc, row)?)?;
    }
    Ok(texts)
}
