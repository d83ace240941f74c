//! The checks of a manifest over the rows of its vehicle.
ghost use Rattle.std.specs.Prelude.{◌≡◌, ◌∷◌, [], Ok, find, not, option_copied};
ghost use Rattle.up_canon.specs.Refusals.{Gives};
ghost use Rattle.up_sign.specs.Envelopes.{is_accepted};
ghost use Rattle.up_machine.specs.Deliveries.{report_name};
ghost use Rattle.up_machine.specs.Primaries.{check_sent};
ghost use Rattle.up_machine.specs.ManifestRows.{row_of as row_in, has_row as has_row_in, is_signed_by_row, is_reported_in, follows as follows_row, follows_its_row, check_primary as check_primary_in, check_reports_of};

use crate::primary::Primary;
use crate::rows::{EcuRow, VehicleRows};
use std::alloc::Global;
use up_canon::ident::Ident;
use up_canon::listed::Duplicate;
use up_canon::named::{first_repeated, has_name};
use up_canon::refusal::Refusal;
use up_manifest::manifest::Incoming;
use up_manifest::report::SignedReport;
use up_sign::envelope::Envelope;
use up_sign::key_cache::KeyCache;
use up_sign::key_id::HashedKey;
use up_sign::scheme::Scheme;
use up_sign::threshold::accepts_by;

/// Tests that the manifest names the vehicle's Primary, and that its Primary signed it.
#[tactic(auto, unfolding(crate::specs::ManifestRows::check_primary, up_canon::specs::Steps::and_then))]
pub(crate) fn check_primary<K: Scheme>(
    scheme: &K,
    rows: &VehicleRows,
    keys: &KeyCache,
    incoming: &Incoming,
) -> Result<(), Refusal>
    ensures { result ≡ check_primary_in (K.rules scheme.now) rows.now incoming.now }
{
    let primary = &rows.vehicle.primary;
    if incoming.manifest.primary != *primary {
        return Err(Refusal::WrongPrimary);
    }
    let ecus = rows.ecus.as_slice();
    if !is_signed_by(scheme, ecus, keys, primary, &incoming.envelope) {
        return Err(Refusal::BadManifestSignature);
    }
    Ok(())
}

/// The same by what is kept of the vehicle's Primary, without its rows.
#[tactic(auto, unfolding(crate::specs::Primaries::check_sent, up_canon::specs::Steps::and_then))]
pub(crate) fn check_kept_primary<K: Scheme>(
    scheme: &K,
    primary: &Primary,
    keys: &KeyCache,
    incoming: &Incoming,
) -> Result<(), Refusal>
    ensures { result ≡ check_sent (K.rules scheme.now) primary.now incoming.now }
{
    if incoming.manifest.primary != primary.ecu {
        return Err(Refusal::WrongPrimary);
    }
    if !is_signed_with(scheme, keys, primary.public.as_slice(), &incoming.envelope) {
        return Err(Refusal::BadManifestSignature);
    }
    Ok(())
}

/// Tests that the reports are of the vehicle's ECUs, none twice and all of them, each signed by its ECU, and none older
/// than the ECU's last report or another with its counter. Each test runs over the whole list before the next.
#[tactic(auto, unfolding(crate::specs::ManifestRows::check_reports_of, up_canon::specs::Steps::and_then))]
pub(crate) fn check_reports<K: Scheme>(
    alloc: Global,
    scheme: &K,
    rows: &[EcuRow],
    keys: &KeyCache,
    reports: &[SignedReport],
) -> Result<(), Refusal>
    ensures given { Gives result (check_reports_of (K.rules scheme.now) rows.now reports.now) }
    ensures passed { check_reports_of (K.rules scheme.now) rows.now reports.now ≡ Ok tt → result ≡ Ok tt }
{
    if let Some(unknown) = first_unknown(rows, reports) {
        return Err(Refusal::UnknownEcu(unknown.report.ecu.copy(alloc)?));
    }
    if let Some(repeated) = first_repeated(reports) {
        return Err(Refusal::DuplicateEcu(repeated.report.ecu.copy(alloc)?));
    }
    if let Some(row) = first_missing(rows, reports) {
        return Err(Refusal::MissingEcu(row.ecu.copy(alloc)?));
    }
    if let Some(unsigned) = first_unsigned(scheme, rows, keys, reports) {
        let ecu = unsigned.report.ecu.copy(alloc)?;
        return Err(Refusal::BadReportSignature(ecu));
    }
    if let Some(replayed) = first_replayed(rows, reports) {
        return Err(Refusal::ReportReplayed(replayed.report.ecu.copy(alloc)?));
    }
    Ok(())
}

fn first_unknown<'a>(rows: &[EcuRow], reports: &'a [SignedReport]) -> Option<&'a SignedReport>
    ensures { option_copied result ≡ find (λ r. not (has_row_in rows.now r)) reports.now }
{
    reports.iter().find(|r| !has_row(rows, r))
}

fn first_missing<'a>(rows: &'a [EcuRow], reports: &[SignedReport]) -> Option<&'a EcuRow>
    ensures { option_copied result ≡ find (λ row. not (is_reported_in reports.now row)) rows.now }
{
    rows.iter().find(|row| !is_reported(reports, row))
}

fn first_unsigned<'a, K: Scheme>(
    scheme: &K,
    rows: &[EcuRow],
    keys: &KeyCache,
    reports: &'a [SignedReport],
) -> Option<&'a SignedReport>
    ensures { option_copied result ≡ find
        (λ r. not (is_signed_by_row (K.rules scheme.now) rows.now (report_name r) r.envelope)) reports.now }
{
    reports.iter().find(|r| !is_signed(scheme, rows, keys, r))
}

fn first_replayed<'a>(rows: &[EcuRow], reports: &'a [SignedReport]) -> Option<&'a SignedReport>
    ensures { option_copied result ≡ find (λ r. not (follows_its_row rows.now r)) reports.now }
{
    reports.iter().find(|r| !follows_last(rows, r))
}

fn has_row(rows: &[EcuRow], report: &SignedReport) -> bool
    ensures { result ≡ has_row_in rows.now report.now }
{
    rows.iter().any(|row| row.ecu == report.report.ecu)
}

fn is_reported(reports: &[SignedReport], row: &EcuRow) -> bool
    ensures { result ≡ is_reported_in reports.now row.now }
{
    has_name(reports, row.ecu.text())
}

/// Whether the ECU that it names signed the report.
fn is_signed<K: Scheme>(scheme: &K, rows: &[EcuRow], keys: &KeyCache, report: &SignedReport) -> bool
    ensures { result ≡ is_signed_by_row (K.rules scheme.now) rows.now (report_name report.now) report.now.envelope }
{
    is_signed_by(scheme, rows, keys, &report.report.ecu, &report.envelope)
}

/// Whether the ECU of the name signed it.
fn is_signed_by<K: Scheme>(
    scheme: &K,
    rows: &[EcuRow],
    keys: &KeyCache,
    name: &Ident,
    envelope: &Envelope,
) -> bool
    ensures { result ≡ is_signed_by_row (K.rules scheme.now) rows.now name.now envelope.now }
{
    match row_of(rows, name) {
        Some(row) => is_signed_with(scheme, keys, row.public.as_slice(), envelope),
        None => false,
    }
}

/// Whether the key of the public part signed it. Where it isn't kept it is hashed.
fn is_signed_with<K: Scheme>(
    scheme: &K,
    keys: &KeyCache,
    public: &[u8],
    envelope: &Envelope,
) -> bool
    ensures { result ≡ is_accepted (K.rules scheme.now) (public.now ∷ []) 1 envelope.now }
{
    match keys.find(public) {
        Some(key) => accepts_by(scheme, key, public, envelope),
        None => accepts_by(scheme, &HashedKey::new(public), public, envelope),
    }
}

pub(crate) fn row_of<'a>(rows: &'a [EcuRow], name: &Ident) -> Option<&'a EcuRow>
    ensures { option_copied result ≡ row_in rows.now name.now }
{
    rows.iter().find(|row| row.ecu == *name)
}

fn follows_last(rows: &[EcuRow], report: &SignedReport) -> bool
    ensures { result ≡ follows_its_row rows.now report.now }
{
    match row_of(rows, &report.report.ecu) {
        Some(row) => follows(row, report),
        None => true,
    }
}

/// Whether the report is later than the ECU's last one, or the same again.
fn follows(row: &EcuRow, report: &SignedReport) -> bool
    ensures { result ≡ follows_row row.now report.now }
{
    let Some(last) = &row.report else {
        return true;
    };
    let (before, counter) = (row.counter.get(), report.report.counter.get());
    before < counter || before == counter && *last == report.envelope.signed
}
