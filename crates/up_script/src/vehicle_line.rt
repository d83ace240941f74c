//! Lines that add a vehicle or replace an ECU.
ghost use Rattle.up_canon.specs.Members.{object_of_map};
ghost use Rattle.up_canon.specs.Refusals.{Gives};
ghost use Rattle.up_script.specs.VehicleLines.{new_ecu_in, replacement_in, vehicle_in};

use serde_json::{Map, Value};
use std::alloc::Global;
use up_canon::each::{Reading, each_of};
use up_canon::fields::list_at;
use up_canon::hex_text::hex_at;
use up_canon::kinds::object_of;
use up_canon::readers::ident_at;
use up_canon::refusal::Refusal;
use up_machine::vehicle::{NewEcu, NewVehicle, Replacement};

/// The ECUs of a vehicle, `{"ecu","hardware","key"}`.
struct EcuReading;

impl Reading for EcuReading {
    ghost use Rattle.up_script.specs.VehicleLines.{ecu_of};

    type Item = NewEcu;

    ghost meaning = { ecu_of };

    #[tactic(auto, unfolding(crate::specs::VehicleLines::ecu_of, up_canon::specs::Steps::and_then))]
    fn read(alloc: Global, value: &Value, place: &'static str) -> Result<NewEcu, Refusal> {
        new_ecu_at(alloc, object_of(value, place)?)
    }
}

/// The ECU that an object's members tell, or their first fault.
#[tactic(auto, unfolding(crate::specs::VehicleLines::new_ecu_in, up_canon::specs::Steps::and_then))]
fn new_ecu_at(alloc: Global, members: &Map<String, Value>) -> Result<NewEcu, Refusal>
    ensures { Gives result (new_ecu_in (object_of_map members.now.entries)) }
{
    let ecu = ident_at(alloc, members, "ecu")?;
    let hardware = ident_at(alloc, members, "hardware")?;
    let public = hex_at(alloc, members, "key", 2, 512)?;
    Ok(NewEcu {
        ecu,
        hardware,
        public,
    })
}

/// The vehicle that a line adds, or the first fault of its members.
#[tactic(auto, unfolding(crate::specs::VehicleLines::vehicle_in, up_canon::specs::Steps::and_then))]
pub fn vehicle_at(alloc: Global, line: &Map<String, Value>) -> Result<NewVehicle, Refusal>
    ensures { Gives result (vehicle_in (object_of_map line.now.entries)) }
{
    let vehicle = ident_at(alloc, line, "vehicle")?;
    let primary = ident_at(alloc, line, "primary")?;
    let ecus = each_of::<EcuReading>(alloc, list_at(line, "ecus")?.as_slice(), "ecus")?;
    Ok(NewVehicle::new(vehicle, primary, ecus)?)
}

/// The replacement that a line asks, or the first fault of its members.
#[tactic(auto, unfolding(crate::specs::VehicleLines::replacement_in, up_canon::specs::Steps::and_then))]
pub fn replacement_at(alloc: Global, line: &Map<String, Value>) -> Result<Replacement, Refusal>
    ensures { Gives result (replacement_in (object_of_map line.now.entries)) }
{
    let vehicle = ident_at(alloc, line, "vehicle")?;
    let old = ident_at(alloc, line, "old")?;
    let ecu = new_ecu_at(alloc, line)?;
    Ok(Replacement { vehicle, old, ecu })
}
