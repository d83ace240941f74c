//! Tests of what decisions ask for.
ghost use Rattle.std.specs.Prelude.{◌≤◌, IfOk, IfSome, IsTrue, OnOk, option_copied};
ghost use Rattle.up_canon.specs.Moments.{last_command_moment};
ghost use Rattle.up_machine.specs.Decisions.{IsRead};
ghost use Rattle.up_machine.specs.RowsFit.{founding_fits as founding_fits_in, rows_fit as rows_fit_in};

use std::alloc::Global;
use up_canon::moment::Moment;
use up_canon::refusal::Refusal;
use up_machine::rows::{Founding, VehicleRows};
use up_machine::rows_fit::{founding_fits, rows_fit};
use up_manifest::manifest::Incoming;
use up_manifest::manifest_read::read_manifest;
use up_sign::scheme::Scheme;

/// The moment of a command, at most the last one.
pub(crate) fn command_moment(second: u64) -> Moment
    ensures { result ≤ last_command_moment }
{
    match Moment::new(second.min(4102444800)) {
        Some(at) => at,
        None => unreachable!(),
    }
}

/// Tests the founding's row.
pub(crate) fn check_founding<K: Scheme>(
    scheme: &K,
    founding: &Option<Founding>,
) -> Result<(), Refusal>
    ensures { OnOk result (IfSome founding.now (λ f. IsTrue (founding_fits_in (K.rules scheme.now) f))) }
{
    match founding {
        Some(row) if !founding_fits(scheme, row) => Err(Refusal::Store),
        _ => Ok(()),
    }
}

/// Reads the body of a manifest.
#[tactic(auto, using(crate::proofs::Passed::read_is))]
pub(crate) fn read(alloc: Global, body: &[u8]) -> Result<Incoming, Refusal>
    ensures { IfOk result (λ incoming. IsRead incoming) }
{
    read_manifest(alloc, body)
}

/// Tests the rows of a vehicle.
pub(crate) fn check_rows(rows: Option<&VehicleRows>) -> Result<(), Refusal>
    ensures { OnOk result (IfSome (option_copied rows.entry) (λ rows. IsTrue (rows_fit_in rows))) }
{
    match rows {
        Some(rows) if !rows_fit(rows) => Err(Refusal::Store),
        _ => Ok(()),
    }
}
