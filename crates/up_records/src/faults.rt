//! Faults of the store, told as refusals.
ghost use Rattle.std.specs.Prelude.{◌≡◌};
ghost use Rattle.up_records.specs.Connected.{refusal_told};

use up_canon::refusal::Refusal;
use up_store::store::StoreFault;

/// A fault of the store as a refusal.
pub fn refusal_of(fault: StoreFault) -> Refusal
    ensures { result ≡ refusal_told fault }
{
    match fault {
        StoreFault::Memory => Refusal::Memory,
        StoreFault::Store => Refusal::Store,
    }
}
