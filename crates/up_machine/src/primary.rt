//! A vehicle's Primary, as it may be kept from one delivery to the next: it tells who sent a manifest, and no row has to be read.
ghost use Rattle.std.specs.Prelude.{◌≡◌, true, Some, is_some, MatchResult};
ghost use Rattle.up_canon.specs.Names.{Name};
ghost use Rattle.up_machine.specs.declared.rows.Founding.{Founding};
ghost use Rattle.up_machine.specs.ManifestRows.{row_of as row_in};
ghost use Rattle.up_machine.specs.Primaries.{GivesSent, check_sent, primary_of};
ghost use Rattle.up_machine.specs.Rows.{founding_row, vehicle_rows};
ghost use Rattle.up_machine.specs.State.{State};

use crate::manifest_checks::{check_kept_primary, row_of};
use crate::rows::VehicleRows;
use std::alloc::{AllocError, Global};
use up_canon::bytes::Bytes;
use up_canon::ident::Ident;
use up_canon::listed::Duplicate;
use up_canon::refusal::Refusal;
use up_manifest::manifest::Incoming;
use up_sign::key_cache::KeyCache;
use up_sign::scheme::Scheme;

/// A vehicle's Primary, and the public part of its key. The type doesn't say of which vehicle.
#[derive(Drop)]
pub struct Primary {
    pub ecu: Ident,
    pub public: Bytes,
}

/// The Primary of a vehicle, copied from its rows. There is none where it is none of the vehicle's ECUs; that takes no memory.
pub fn primary_in(alloc: Global, rows: &VehicleRows) -> Result<Option<Primary>, AllocError>
    ensures { MatchResult result
        (λ found. (s : State) (name : Name) → vehicle_rows s name ≡ Some rows.now → found ≡ primary_of s name)
        (λ _. is_some (row_in rows.now.ecus rows.now.vehicle.primary) ≡ true) }
{
    let ecu = &rows.vehicle.primary;
    let Some(row) = row_of(rows.ecus.as_slice(), ecu) else {
        return Ok(None);
    };
    Ok(Some(Primary {
        ecu: ecu.copy(alloc)?,
        public: row.public.copy(alloc)?,
    }))
}

/// Tests who sent a manifest by the Primary of its vehicle alone, where repositories are founded: `WrongPrimary`;
/// `BadManifestSignature`. It takes no memory. Where the Primary's key isn't among `keys`, it is hashed.
pub fn decide_sent_by<K: Scheme>(
    scheme: &K,
    incoming: &Incoming,
    primary: &Primary,
    keys: &KeyCache,
) -> Result<(), Refusal>
    ensures checked { result ≡ check_sent (K.rules scheme.now) primary.now incoming.now }
    ensures sent { (s : State) (founding : Founding) → founding_row s ≡ Some founding
        → primary_of s incoming.now.manifest.vehicle ≡ Some primary.now
        → GivesSent (K.rules scheme.now) s incoming.now result }
{
    check_kept_primary(scheme, primary, keys, incoming)
}
