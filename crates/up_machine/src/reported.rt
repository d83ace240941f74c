//! The rows of ECUs after their reports.
ghost use Rattle.std.specs.Prelude.{◌≡◌, None, Ok, map, option_copied, option_map, unwrap_or, IfOk};
ghost use Rattle.up_machine.specs.ManifestRows.{fitted_in, fitted_with, reported_row as reported_row_of};
ghost use Rattle.up_machine.specs.State.{report_of as report_in};

use crate::new_vehicle::zero;
use crate::rows::EcuRow;
use std::alloc::{AllocError, Global};
use up_canon::count::Count;
use up_canon::ident::Ident;
use up_canon::listed::{Duplicate, Listed};
use up_canon::text::Text;
use up_manifest::report::{Installed, SignedReport};
use up_plan::assigned::Fitted;

/// The ECUs, in inventory order, with the images that they report.
pub(crate) fn fitted_ecus(
    alloc: Global,
    rows: &[EcuRow],
    reports: &[SignedReport],
) -> Result<Vec<Fitted>, AllocError>
    ensures { IfOk result (λ fitted. fitted.items ≡ fitted_in reports.now rows.now) }
{
    let mut fitted = Vec::with_capacity(alloc, rows.len())?;
    for row in rows {
        let Some(report) = report_of(reports, &row.ecu) else {
            continue;
        };
        fitted.push(fitted_ecu(alloc, row, report)?)?;
    }
    Ok(fitted)
}

fn fitted_ecu(alloc: Global, row: &EcuRow, report: &SignedReport) -> Result<Fitted, AllocError>
    ensures { IfOk result (λ fitted. fitted ≡ fitted_with row.now report.now) }
{
    Ok(Fitted {
        ecu: row.ecu.copy(alloc)?,
        hardware: row.hardware.copy(alloc)?,
        image: report.report.image.copy(alloc)?,
    })
}

/// The rows of the ECUs with what they report.
pub(crate) fn reported_rows(
    alloc: Global,
    rows: &[EcuRow],
    reports: &[SignedReport],
) -> Result<Listed<EcuRow>, AllocError>
    ensures { IfOk result (λ reported. reported ≡ map (reported_row_of reports.now) rows.now) }
{
    let mut reported = Vec::with_capacity(alloc, rows.len())?;
    for row in rows {
        reported.push(reported_row(alloc, row, reports)?)?;
    }
    Ok(Listed::new(reported))
}

fn reported_row(alloc: Global, row: &EcuRow, reports: &[SignedReport]) -> Result<EcuRow, AllocError>
    ensures { IfOk result (λ reported. reported ≡ reported_row_of reports.now row.now) }
{
    let report = report_of(reports, &row.ecu);
    Ok(EcuRow {
        ecu: row.ecu.copy(alloc)?,
        hardware: row.hardware.copy(alloc)?,
        public: row.public.copy(alloc)?,
        installed: installed(alloc, report)?,
        counter: counter(report),
        report: signed_text(alloc, report)?,
    })
}

fn installed(alloc: Global, report: Option<&SignedReport>) -> Result<Option<Installed>, AllocError>
    ensures value { IfOk result (λ image. image ≡ option_map (λ r. r.report.image) (option_copied report.entry)) }
    ensures none { option_copied report.entry ≡ None → result ≡ Ok None }
{
    match report {
        Some(report) => Ok(Some(report.report.image.copy(alloc)?)),
        None => Ok(None),
    }
}

fn counter(report: Option<&SignedReport>) -> Count
    ensures { result ≡ unwrap_or (option_map (λ r. r.report.counter) (option_copied report.entry)) 0 }
{
    match report {
        Some(report) => report.report.counter,
        None => zero(),
    }
}

fn signed_text(alloc: Global, report: Option<&SignedReport>) -> Result<Option<Text>, AllocError>
    ensures value { IfOk result (λ text. text ≡ option_map (λ r. r.envelope.signed) (option_copied report.entry)) }
    ensures none { option_copied report.entry ≡ None → result ≡ Ok None }
{
    match report {
        Some(report) => Ok(Some(report.envelope.signed.copy(alloc)?)),
        None => Ok(None),
    }
}

/// The report of the ECU.
fn report_of<'a>(reports: &'a [SignedReport], ecu: &Ident) -> Option<&'a SignedReport>
    ensures { option_copied result ≡ report_in ecu.now reports.now }
{
    reports.iter().find(|r| r.report.ecu == *ecu)
}
