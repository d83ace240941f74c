//! Whether a vehicle that is added is there already.
ghost use Rattle.std.specs.Prelude.{◌≡◌};
ghost use Rattle.std.specs.Cmp.Lexicographic.{pointwise};
ghost use Rattle.up_machine.specs.Rows.{same_ecu_row, same_rows};

use crate::rows::{EcuRow, VehicleRows};
use crate::vehicle::{NewEcu, NewVehicle};

/// Whether the vehicle that stands has the same Primary and the same ECUs in the same order, whatever manifests it had.
pub(crate) fn same_vehicle(new: &NewVehicle, old: &VehicleRows) -> bool
    ensures { result ≡ same_rows new.now old.now }
{
    new.primary == old.vehicle.primary && same_ecus(new.ecus.as_slice(), old.ecus.as_slice())
}

fn same_ecus(new: &[NewEcu], old: &[EcuRow]) -> bool
    ensures { result ≡ pointwise same_ecu_row new.now old.now }
{
    match (new, old) {
        ([], []) => true,
        ([a, new @ ..], [b, old @ ..]) => same_ecu(a, b) && same_ecus(new, old),
        ([], [_, ..]) => false,
        ([_, ..], []) => false,
    }
}

fn same_ecu(new: &NewEcu, old: &EcuRow) -> bool
    ensures { result ≡ same_ecu_row new.now old.now }
{
    new.ecu == old.ecu && new.hardware == old.hardware && new.public == old.public
}
