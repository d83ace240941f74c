//! The rows of a vehicle's ECUs, read and written.
ghost use Rattle.std.specs.Prelude.{◌≡◌, ◌<◌, ◌^◌, ⊤, ℕ, List, Option, None, Ok, Err, IfOk, IfErr, IfSome, IsUtf8, MatchOption, OnOk, length, map};
ghost use Rattle.std.specs.Prelude.{◌≢◌, ◌++◌};
ghost use Rattle.std.specs.List.{AllByRecursion};
ghost use Rattle.sqlite.specs.Order.{column};
ghost use Rattle.sqlite.specs.declared.types.Value.TheVariants.{Null, Text as TextValue};
ghost use Rattle.up_manifest.specs.declared.report.Installed.{Installed as InstalledData};
ghost use Rattle.up_tables.specs.declared.values.StoreFault.TheVariants.{Store};
ghost use Rattle.up_tables.specs.Ecus.{FitEcu, line};
ghost use Rattle.up_tables.specs.Lines.{ecu_row};
ghost use Rattle.up_tables.specs.Rows.{changed_at};
ghost use Rattle.up_tables.specs.Statements.{AltersRows, SetsEcus, WhereOpen};
ghost use Rattle.up_tables.specs.Stored.{AreWritten};
ghost use Rattle.up_tables.specs.Tables.{ecu_table};
ghost use Rattle.up_tables.specs.Texts.{insert_ecu_text, update_ecu_text};
ghost use Rattle.up_store.specs.Lines.{ecu_line, ecu_lines};
ghost use Rattle.up_store.specs.ReadAs.{IsPartlyNull, SaysInstalled};
ghost use Rattle.up_store.specs.Shown.{reported_sha512};
ghost use Rattle.up_store.specs.Typed.{IsTypedEcu, IsTypedInstalled};

use crate::column_values::{count_at, file_name_at, ident_at, sha256_at, words_or_null_at};
use crate::store::StoreFault;
use sqlite::{Alter, Row, Transaction};
use std::alloc::{AllocError, Global};
use up_canon::bytes::Bytes;
use up_canon::ident::Ident;
use up_canon::text::Text;
use up_machine::rows::EcuRow;
use up_manifest::manifest_read::report_sha512;
use up_manifest::report::Installed;
use up_tables::ecu::{EcuRow as EcuShown, Installed as InstalledShown, insert_ecu, update_ecu};
use up_tables::reading::RowReading;
use up_tables::values::{bytes_at, is_null};

/// How a row of `ecu` is read.
pub struct EcuReading;

impl RowReading for EcuReading {
    ghost use Rattle.up_store.specs.Lines.{ecu_shown};
    ghost use Rattle.up_store.specs.ReadAs.{SaysEcu};
    ghost use Rattle.up_store.specs.Typed.{IsToldEcu};

    type Item = EcuRow;

    ghost says = { SaysEcu };

    ghost fits = { IsToldEcu };

    ghost line = { ecu_shown };

    fn read(alloc: Global, row: &Row) -> Result<EcuRow, StoreFault> {
        // The number first: where it is damaged, no text was copied yet.
        let counter = count_at(row, 6)?;
        let report = words_or_null_at(row, 7)?;
        let installed = installed_at(alloc, row, &report)?;
        Ok(EcuRow {
            ecu: ident_at(row, 0)?,
            hardware: ident_at(row, 1)?,
            public: Bytes::new(bytes_at(row, 2)?),
            installed,
            counter,
            report,
        })
    }
}

/// What is installed, which three columns say or none, with the second hash that the report has; `Store` where one of them is null and another
/// isn't.
fn installed_at(
    alloc: Global,
    row: &Row,
    report: &Option<Text>,
) -> Result<Option<Installed>, StoreFault>
    ensures said { IfOk result (SaysInstalled row.now) }
    ensures sha512 { IfOk result (λ installed. IfSome installed (λ i. i.sha512 ≡ reported_sha512 report.now)) }
    ensures fault { IfErr result (λ fault. fault ≡ Store
        → (installed : Option InstalledData) → IfSome installed IsTypedInstalled → ¬ SaysInstalled row.now installed) }
    ensures none { SaysInstalled row.now None → result ≡ Ok None }
    ensures mixed { IsPartlyNull row.now → result ≡ Err Store }
    ensures kind { column row.now 3 ≢ Null → ((s : List ℕ) → IsUtf8 s → column row.now 3 ≢ TextValue s)
        → result ≡ Err Store }
{
    match (is_null(row, 3), is_null(row, 4), is_null(row, 5)) {
        (false, false, false) => Ok(Some(Installed {
            file: file_name_at(row, 3)?,
            length: count_at(row, 4)?,
            sha256: sha256_at(row, 5)?,
            sha512: told_sha512(alloc, report)?,
        })),
        (true, true, true) => Ok(None),
        _ => Err(StoreFault::Store),
    }
}

/// The second hash that the text of a report has; of no report none, which takes no memory.
fn told_sha512(alloc: Global, report: &Option<Text>) -> Result<Option<[u8; 64]>, AllocError>
    ensures same { IfOk result (λ hash. hash ≡ reported_sha512 report.now) }
    ensures none { report.now ≡ None → result ≡ Ok None }
{
    match report {
        Some(text) => report_sha512(alloc, text.as_str()),
        None => Ok(None),
    }
}

/// What is installed, as a row has it.
fn installed_of<'a>(row: &'a EcuRow) -> Option<InstalledShown<'a>>
    ensures same { MatchOption row.now.installed (result ≡ None)
        (λ i. IfSome result (λ s. (s.file.now ≡ i.file) × (s.length ≡ i.length) × (s.sha256.now ≡ i.sha256)) ×
        (result ≢ None)) }
    ensures fit { IfSome result (λ s. s.length < 2 ^ 63) }
    ensures typed { IfSome row.now.installed IsTypedInstalled }
{
    match &row.installed {
        Some(image) => Some(InstalledShown {
            file: image.file.text(),
            length: image.length.get(),
            sha256: &image.sha256[..],
        }),
        None => None,
    }
}

/// The text of the last report, as a row has it.
fn report_of<'a>(row: &'a EcuRow) -> Option<&'a str>
    ensures same { MatchOption row.now.report (result ≡ None) (λ t. IfSome result (λ s. s.now ≡ t) × (result ≢ None)) }
    ensures typed { IfSome row.now.report IsUtf8 }
{
    match &row.report {
        Some(text) => Some(text.as_str()),
        None => None,
    }
}

/// The row of an ECU.
fn ecu_of<'a>(row: &'a EcuRow) -> EcuShown<'a>
    ensures is { (vehicle : List ℕ) (place : ℕ) → line vehicle place result ≡ ecu_line vehicle place row.now }
    ensures fit { FitEcu result }
    ensures typed { IsTypedEcu row.now }
{
    EcuShown {
        ecu: row.ecu.text(),
        hardware: row.hardware.text(),
        public_key: row.public.as_slice(),
        installed: installed_of(row),
        counter: row.counter.get(),
        report: report_of(row),
    }
}

/// Sets what the ECUs of a vehicle reported, in inventory order.
pub(crate) fn set_ecus<D: Alter>(
    tx: &mut Transaction<'_, D>,
    vehicle: &Ident,
    ecus: &[EcuRow],
) -> Result<(), StoreFault>
    requires few { length ecus.now < 2 ^ 63 }
    ensures set { WhereOpen D.Store tx.old.conn (AreWritten D.Store (map (λ e. (update_ecu_text, ecu_row e))
        (ecu_lines vehicle.now 0 ecus.now)) (λ _. ⊤) (SetsEcus vehicle.now (ecu_lines vehicle.now 0 ecus.now))
        tx.old.conn tx.new.conn result) }
    ensures typed { OnOk result (AllByRecursion IsTypedEcu ecus.now) }
{
    for (place, row) in ecus.iter().enumerate() {
        update_ecu(tx, vehicle.text(), place as u64, &ecu_of(row))?;
    }
    Ok(())
}

/// Puts in the rows of a vehicle's ECUs, in inventory order, their places counted from 0; `Store` where one has the name of an ECU that is there.
pub(crate) fn add_ecus<D: Alter>(
    tx: &mut Transaction<'_, D>,
    vehicle: &Ident,
    ecus: &[EcuRow],
) -> Result<(), StoreFault>
    requires few { length ecus.now < 2 ^ 63 }
    ensures added { WhereOpen D.Store tx.old.conn (AreWritten D.Store (map (λ e. (insert_ecu_text, ecu_row e))
        (ecu_lines vehicle.now 0 ecus.now)) (λ _. ⊤)
        (AltersRows ecu_table 2 (changed_at vehicle.now (λ were. were ++ map ecu_row
        (ecu_lines vehicle.now 0 ecus.now)))) tx.old.conn tx.new.conn result) }
    ensures typed { OnOk result (AllByRecursion IsTypedEcu ecus.now) }
{
    for (place, row) in ecus.iter().enumerate() {
        insert_ecu(tx, vehicle.text(), place as u64, &ecu_of(row))?;
    }
    Ok(())
}
