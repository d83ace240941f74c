//! Why a run ended before its input did.
use std::alloc::{AllocError, AllocFailed};

/// What ended a run.
#[derive(Clone, Copy, Debug, PartialEq, Eq, Drop)]
pub enum Fault {
    /// Memory was refused.
    Memory,
    /// The reader failed.
    Read,
    /// The writer failed, or took no byte of what it was handed.
    Write,
}

/// What ended a run, and what stands before it.
#[derive(Clone, Copy, Debug, PartialEq, Eq, Drop)]
pub struct ServeFault {
    /// What ended the run.
    pub cause: Fault,
    /// How many requests were handed on as commands.
    pub called: u32,
    /// How many answers were written whole.
    pub answered: u32,
}

impl From<AllocError> for Fault {
    ghost use Rattle.std.specs.Prelude.{◌≡◌};
    ghost use Rattle.up_http.specs.declared.fault.Fault.TheVariants.{Memory};

    ghost from_gives = { λ _ e. e ≡ Memory };

    fn from(_: AllocError) -> Self {
        Fault::Memory
    }
}

impl<T: Drop> From<AllocFailed<T>> for Fault {
    ghost use Rattle.std.specs.Prelude.{◌≡◌};
    ghost use Rattle.up_http.specs.declared.fault.Fault.TheVariants.{Memory};

    ghost from_gives = { λ _ e. e ≡ Memory };

    fn from(_: AllocFailed<T>) -> Self {
        Fault::Memory
    }
}
