//! Rows of tables as statements spell them: their columns in order, a space between, bytes in hex. What an ECU has installed is
//! `FILE:LENGTH:SHA256`, and a `-` stands for nothing. A word that is left out is empty, and a number 0.
ghost use Rattle.std.specs.Prelude.{◌<◌, ◌^◌, IfSome};
ghost use Rattle.up_tables.specs.Ecus.{FitEcu};
ghost use Rattle.up_tables.specs.Forms.{FitImage, FitImageRepository, FitKept, FitMeta, FitRoleKey, FitVehicle};

use crate::tables::words::{number, word};
use up_tables::campaign::CampaignRow;
use up_tables::ecu::{EcuRow, Installed};
use up_tables::image::ImageRow;
use up_tables::image_repository::ImageRepositoryRow;
use up_tables::kept::KeptRow;
use up_tables::meta::MetaRow;
use up_tables::repo_file::FileRow;
use up_tables::role_key::RoleKeyRow;
use up_tables::vehicle::VehicleRow;

pub(crate) fn numbers(text: &str) -> MetaRow
    ensures { FitMeta result }
{
    MetaRow {
        root: number(text, 0),
        image_version: number(text, 1),
        stamp: number(text, 2),
    }
}

pub(crate) fn own_numbers(text: &str) -> ImageRepositoryRow
    ensures { FitImageRepository result }
{
    ImageRepositoryRow {
        root: number(text, 0),
        targets: number(text, 1),
    }
}

pub(crate) fn role_key<'a>(text: &'a str, secret: &'a [u8]) -> RoleKeyRow<'a>
    ensures { FitRoleKey result }
{
    RoleKeyRow {
        root: number(text, 0),
        repository: word(text, 1),
        role: word(text, 2),
        place: number(text, 3),
        secret,
        threshold: number(text, 5),
    }
}

pub(crate) fn file<'a>(text: &'a str) -> FileRow<'a> {
    FileRow {
        repository: word(text, 0),
        name: word(text, 1),
        body: word(text, 2),
    }
}

pub(crate) fn image<'a>(text: &'a str, sha256: &'a [u8]) -> ImageRow<'a>
    ensures { FitImage result }
{
    ImageRow {
        file: word(text, 0),
        length: number(text, 1),
        sha256,
        hardware: word(text, 3),
        release_count: number(text, 4),
        needs: word(text, 5),
        conflicts: word(text, 6),
    }
}

pub(crate) fn campaign<'a>(text: &'a str) -> CampaignRow<'a> {
    CampaignRow {
        name: word(text, 0),
        reach: word(text, 1),
        items: word(text, 2),
        running: word(text, 3) == "1",
    }
}

pub(crate) fn vehicle<'a>(text: &'a str) -> VehicleRow<'a>
    ensures { FitVehicle result }
{
    VehicleRow {
        vehicle: word(text, 0),
        primary_ecu: word(text, 1),
        version: number(text, 2),
        last_counter: number(text, 3),
    }
}

/// The key and the hash are the bytes of its words.
pub(crate) fn ecu<'a>(text: &'a str, public_key: &'a [u8], sha256: &'a [u8]) -> EcuRow<'a>
    ensures { FitEcu result }
{
    EcuRow {
        ecu: word(text, 0),
        hardware: word(text, 1),
        public_key,
        installed: installed(word(text, 3), sha256),
        counter: number(text, 4),
        report: report(word(text, 5)),
    }
}

fn installed<'a>(word: &'a str, sha256: &'a [u8]) -> Option<Installed<'a>>
    ensures { IfSome result (λ s. s.length < 2 ^ 63) }
{
    match word.split_once(':') {
        Some((file, rest)) => Some(Installed {
            file,
            length: number(length_of(rest), 0),
            sha256,
        }),
        None => None,
    }
}

fn length_of<'a>(rest: &'a str) -> &'a str {
    rest.split_once(':').unwrap_or((rest, "")).0
}

/// The hash that is installed, in hex.
pub(crate) fn installed_hash<'a>(text: &'a str) -> &'a str {
    word(text, 3).rsplit_once(':').unwrap_or(("", "")).1
}

fn report<'a>(word: &'a str) -> Option<&'a str> {
    match word {
        "-" => None,
        text => Some(text),
    }
}

pub(crate) fn kept<'a>(text: &'a str) -> KeptRow<'a>
    ensures { FitKept result }
{
    KeptRow {
        vehicle: word(text, 0),
        counter: number(text, 1),
        version: number(text, 2),
        moment: number(text, 3),
        root: number(text, 4),
        signed: word(text, 5),
        plan_text: word(text, 6),
        reply: word(text, 7),
    }
}
