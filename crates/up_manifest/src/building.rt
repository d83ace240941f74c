//! Building reports and manifests, as an ECU and a Primary send them.
ghost use Rattle.std.specs.Prelude.{◌≡◌, IsTrue};
ghost use Rattle.up_sign.specs.Envelopes.{key_block};
ghost use Rattle.up_manifest.specs.Building.{BuildsReport, CanBuild, BuildsManifest};

use crate::report::Report;
use crate::writing::{keeps_limits, manifest_text, report_text};
use std::alloc::{AllocError, Global};
use up_canon::ident::Ident;
use up_canon::moment::moment_laws;
use up_sign::envelope::Envelope;
use up_sign::key_id::HashedKey;
use up_sign::laws::envelope_laws;
use up_sign::scheme::Scheme;
use up_sign::seal::{hashed_key_of, seal_one};

/// The report in an envelope that the ECU's secret signs. What its text reads as means the report.
pub fn build_report<K: Scheme>(
    alloc: Global,
    scheme: &K,
    secret: &[u8],
    report: &Report,
) -> Result<Envelope, AllocError>
    requires { IsTrue ((K.rules scheme.now).secret_fits secret.now) }
    ensures { BuildsReport (K.rules scheme.now) secret.now report.now result }
{
    let key = hashed_key_of(alloc, scheme, secret)?;
    build_report_by(alloc, scheme, secret, &key, report)
}

/// As `build_report`, with the secret's key hashed already (`up_sign::seal::hashed_key_of`).
pub fn build_report_by<K: Scheme>(
    alloc: Global,
    scheme: &K,
    secret: &[u8],
    key: &HashedKey,
    report: &Report,
) -> Result<Envelope, AllocError>
    requires fits { IsTrue ((K.rules scheme.now).secret_fits secret.now) }
    requires hashed { key.now ≡ key_block (K.rules scheme.now) secret.now }
    ensures { BuildsReport (K.rules scheme.now) secret.now report.now result }
{
    envelope_laws();
    moment_laws();
    keeps_limits(report);
    let signed = report_text(alloc, report)?;
    let envelope = seal_one(alloc, scheme, secret, key, signed)?;
    Ok(envelope)
}

/// The body of a vehicle version manifest with a counter from 1 on: at most 64 reports in order, signed by the Primary's
/// secret. Where each report is an envelope of `build_report`, the body means the manifest that it was built of; of other
/// envelopes within their limits only the text of the body is said.
pub fn build_manifest<K: Scheme>(
    alloc: Global,
    scheme: &K,
    secret: &[u8],
    vehicle: &Ident,
    primary: &Ident,
    counter: u64,
    reports: &[Envelope],
) -> Result<String, AllocError>
    requires fits { IsTrue ((K.rules scheme.now).secret_fits secret.now) }
    requires manifest { CanBuild counter reports.now }
    ensures { BuildsManifest (K.rules scheme.now) secret.now vehicle.now primary.now counter reports.now result }
{
    let key = hashed_key_of(alloc, scheme, secret)?;
    build_manifest_by(
        alloc, scheme, secret, &key, vehicle, primary, counter, reports,
    )
}

/// As `build_manifest`, with the secret's key hashed already.
pub fn build_manifest_by<K: Scheme>(
    alloc: Global,
    scheme: &K,
    secret: &[u8],
    key: &HashedKey,
    vehicle: &Ident,
    primary: &Ident,
    counter: u64,
    reports: &[Envelope],
) -> Result<String, AllocError>
    requires fits { IsTrue ((K.rules scheme.now).secret_fits secret.now) }
    requires hashed { key.now ≡ key_block (K.rules scheme.now) secret.now }
    requires manifest { CanBuild counter reports.now }
    ensures { BuildsManifest (K.rules scheme.now) secret.now vehicle.now primary.now counter reports.now result }
{
    envelope_laws();
    moment_laws();
    // Noted for the proof: what identifiers are.
    vehicle.text();
    primary.text();
    let signed = manifest_text(alloc, vehicle, primary, counter, reports)?;
    let envelope = seal_one(alloc, scheme, secret, key, signed)?;
    let body = envelope.text(alloc)?;
    Ok(body)
}
