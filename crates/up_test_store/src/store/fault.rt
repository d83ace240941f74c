//! Why a call answers nothing.
use std::alloc::{AllocError, AllocFailed};
use up_store::store::{OpenFault, StoreFault};

/// Memory was refused, the store refused, the row is spelled wrong, or a refusal changed something.
#[derive(Clone, Copy, Debug, PartialEq, Eq)]
pub(crate) enum Fault {
    Memory,
    Store,
    Misspelled,
    Changed,
}

impl From<AllocError> for Fault {
    fn from(_: AllocError) -> Fault {
        Fault::Memory
    }
}

impl<T: Drop> From<AllocFailed<T>> for Fault {
    fn from(_: AllocFailed<T>) -> Fault {
        Fault::Memory
    }
}

impl From<StoreFault> for Fault {
    fn from(fault: StoreFault) -> Fault {
        match fault {
            StoreFault::Memory => Fault::Memory,
            StoreFault::Store => Fault::Store,
        }
    }
}

/// What is told of a database that isn't taken: `not ours`, or a fault.
pub(crate) fn opening(fault: OpenFault) -> Result<&'static str, Fault> {
    match fault {
        OpenFault::NotOurs => Ok("not ours"),
        OpenFault::Memory => Err(Fault::Memory),
        OpenFault::Store => Err(Fault::Store),
    }
}

/// The word of a fault.
pub(crate) fn fault_word(fault: Fault) -> &'static str {
    match fault {
        Fault::Memory => "memory",
        Fault::Store => "store",
        Fault::Misspelled => "misspelled",
        Fault::Changed => "changed by a refusal",
    }
}
