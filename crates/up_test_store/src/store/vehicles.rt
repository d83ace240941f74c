//! Vehicles, as rows spell them: `VEHICLE PRIMARY VERSION LAST`; and ECUs: `ECU HARDWARE PUBLIC_KEY INSTALLED COUNTER REPORT`, in which
//! what is installed is `FILE:LENGTH:SHA256` or `FILE:LENGTH:SHA256+SHA512`, and a `-` stands for nothing. And replacements:
//! `VEHICLE OLD ECU HARDWARE PUBLIC_KEY`.
use crate::store::fault::Fault;
use crate::store::words::{
    bytes, count, file_name, hashes, hashes_digits, ident, number, parts_of, push_bytes,
    push_number, push_part, push_word, text, word,
};
use std::alloc::{AllocError, Global};
use up_canon::listed::Listed;
use up_canon::text::Text;
use up_machine::rows::{EcuRow, VehicleRow, VehicleRows};
use up_machine::vehicle::{NewEcu, Replacement};
use up_manifest::report::Installed;

/// `VEHICLE ; ECU ; ECU ..`
pub(crate) fn vehicle_rows(alloc: Global, given: &str) -> Result<VehicleRows, Fault> {
    let (numbers, rows) = parts_of(given);
    Ok(VehicleRows {
        vehicle: vehicle(alloc, numbers)?,
        ecus: Listed::new(ecus(alloc, rows)?),
    })
}

fn vehicle(alloc: Global, given: &str) -> Result<VehicleRow, Fault> {
    Ok(VehicleRow {
        version: number(word(given, 2))?,
        last: count(word(given, 3))?,
        vehicle: ident(alloc, word(given, 0))?,
        primary: ident(alloc, word(given, 1))?,
    })
}

fn ecus(alloc: Global, rows: &str) -> Result<Vec<EcuRow>, Fault> {
    let mut ecus = Vec::new(alloc);
    for row in rows.split(" ; ") {
        ecus.push(ecu(alloc, row)?)?;
    }
    Ok(ecus)
}

fn ecu(alloc: Global, given: &str) -> Result<EcuRow, Fault> {
    Ok(EcuRow {
        counter: count(word(given, 4))?,
        ecu: ident(alloc, word(given, 0))?,
        hardware: ident(alloc, word(given, 1))?,
        public: bytes(alloc, word(given, 2))?,
        installed: installed(alloc, word(given, 3))?,
        report: report(alloc, word(given, 5))?,
    })
}

pub(crate) fn replacement(alloc: Global, given: &str) -> Result<Replacement, Fault> {
    Ok(Replacement {
        vehicle: ident(alloc, word(given, 0))?,
        old: ident(alloc, word(given, 1))?,
        ecu: NewEcu {
            ecu: ident(alloc, word(given, 2))?,
            hardware: ident(alloc, word(given, 3))?,
            public: bytes(alloc, word(given, 4))?,
        },
    })
}

fn installed(alloc: Global, word: &str) -> Result<Option<Installed>, Fault> {
    match word.split_once(':') {
        Some((file, rest)) => Ok(Some(image(alloc, file, rest)?)),
        None => Ok(None),
    }
}

fn image(alloc: Global, file: &str, rest: &str) -> Result<Installed, Fault> {
    let (length, digits) = rest.split_once(':').unwrap_or((rest, ""));
    let (sha256, sha512) = hashes(alloc, digits)?;
    Ok(Installed {
        length: count(length)?,
        sha256,
        sha512,
        file: file_name(alloc, file)?,
    })
}

fn report(alloc: Global, word: &str) -> Result<Option<Text>, AllocError> {
    match word {
        "-" => Ok(None),
        signed => Ok(Some(text(alloc, signed)?)),
    }
}

/// A vehicle as it is told.
pub(crate) fn vehicle_text(alloc: Global, row: &VehicleRow) -> Result<String, AllocError> {
    let mut out = String::new(alloc);
    push_word(&mut out, row.vehicle.text())?;
    push_word(&mut out, row.primary.text())?;
    push_number(alloc, &mut out, row.version)?;
    push_number(alloc, &mut out, row.last.get())?;
    Ok(out)
}

/// ECUs as they are told, with ` ; ` between.
pub(crate) fn ecus_text(alloc: Global, rows: &[EcuRow]) -> Result<String, AllocError> {
    let mut out = String::new(alloc);
    for row in rows {
        push_part(&mut out)?;
        push_ecu(alloc, &mut out, row)?;
    }
    Ok(out)
}

fn push_ecu(alloc: Global, out: &mut String, row: &EcuRow) -> Result<(), AllocError> {
    push_word(out, row.ecu.text())?;
    push_word(out, row.hardware.text())?;
    push_bytes(alloc, out, row.public.as_slice())?;
    push_installed(alloc, out, &row.installed)?;
    push_number(alloc, out, row.counter.get())?;
    push_report(out, &row.report)
}

fn push_installed(
    alloc: Global,
    out: &mut String,
    installed: &Option<Installed>,
) -> Result<(), AllocError> {
    match installed {
        Some(image) => push_image(alloc, out, image),
        None => push_word(out, "-"),
    }
}

fn push_image(alloc: Global, out: &mut String, image: &Installed) -> Result<(), AllocError> {
    let (file, length) = (image.file.text(), image.length.get());
    let digits = hashes_digits(alloc, &image.sha256, &image.sha512)?;
    let words = format!(in alloc; "{file}:{length}:{digits}")?;
    push_word(out, words.as_str())
}

fn push_report(out: &mut String, report: &Option<Text>) -> Result<(), AllocError> {
    match report {
        Some(text) => push_word(out, text.as_str()),
        None => push_word(out, "-"),
    }
}
