//! What decisions ask of the rows that they are given. Those of a sound state have it (`laws::rows_are_sound`), and a caller
//! that can't know whether its rows are such a state's can test them.
ghost use Rattle.std.specs.Prelude.{◌≡◌};
ghost use Rattle.up_machine.specs.RowsFit.{founding_fits as founding_fits_in, rows_fit as rows_fit_in};

use crate::rows::{Founding, VehicleRows};
use up_canon::named::are_distinct;
use up_metadata::key_checks::all_can_sign;
use up_sign::scheme::Scheme;

/// Whether each role of both repositories has 1 to 4 secrets that the scheme takes. Identifiers and thresholds are not looked
/// at, so no hash is computed.
pub fn founding_fits<K: Scheme>(scheme: &K, founding: &Founding) -> bool
    ensures { result ≡ founding_fits_in (K.rules scheme.now) founding.now }
{
    all_can_sign(scheme, &founding.keys)
}

/// Whether the vehicle's version is at most its last counter, and no ECU stands twice in it.
pub fn rows_fit(rows: &VehicleRows) -> bool
    ensures { result ≡ rows_fit_in rows.now }
{
    rows.vehicle.version <= rows.vehicle.last.get() && are_distinct(rows.ecus.as_slice())
}
