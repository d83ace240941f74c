//! Keys of ECUs, kept hashed from one delivery to the next.
use std::alloc::Global;
use up_machine::primary::Primary;
use up_machine::rows::VehicleRows;
use up_machine::sender::Sender;
use up_sign::key_cache::KeyCache;

/// Keeps the key of the vehicle's Primary, with which a manifest is tested first. So one that is forged has no other key hashed.
pub(crate) fn keep_primary(keys: &mut KeyCache, alloc: Global, vehicle: &VehicleRows) {
    for row in vehicle.ecus.as_slice() {
        if row.ecu == vehicle.vehicle.primary {
            keep(keys, alloc, row.public.as_slice());
        }
    }
}

/// Keeps the key of a Primary that is kept itself.
pub(crate) fn keep_key(keys: &mut KeyCache, alloc: Global, primary: &Primary) {
    keep(keys, alloc, primary.public.as_slice());
}

/// Keeps the keys of the sender's ECUs, with which their reports are tested.
pub(crate) fn keep_ecus(keys: &mut KeyCache, alloc: Global, sender: &Sender) {
    for row in sender.vehicle.ecus.as_slice() {
        keep(keys, alloc, row.public.as_slice());
    }
}

/// Keeps the key of an ECU. Where memory is refused it isn't kept, and whoever asks for it hashes it.
fn keep(keys: &mut KeyCache, alloc: Global, public: &[u8]) {
    let _kept = keys.keep(alloc, public);
}
