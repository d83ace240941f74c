//! Why a run ended before its input did.
use std::alloc::{AllocError, AllocFailed};

/// What ended a run.
#[derive(Clone, Copy, Debug, PartialEq, Eq, Drop)]
pub enum ScriptCause {
    /// Memory was refused.
    Memory,
    /// The reader failed.
    Read,
    /// The writer failed, or took no byte of what it was handed.
    Write,
    /// The input has a line, or lines, past a limit.
    TooLong,
}

/// What ended a run, and how many answers were written whole before it.
#[derive(Clone, Copy, Debug, PartialEq, Eq, Drop)]
pub struct ScriptFault {
    /// What ended the run.
    pub cause: ScriptCause,
    /// How many answers were written whole.
    pub lines: u32,
}

impl From<AllocError> for ScriptCause {
    ghost use Rattle.std.specs.Prelude.{◌≡◌};
    ghost use Rattle.up_lines.specs.declared.fault.ScriptCause.TheVariants.{Memory};

    ghost from_gives = { λ _ e. e ≡ Memory };

    fn from(_: AllocError) -> Self {
        ScriptCause::Memory
    }
}

impl<T: Drop> From<AllocFailed<T>> for ScriptCause {
    ghost use Rattle.std.specs.Prelude.{◌≡◌};
    ghost use Rattle.up_lines.specs.declared.fault.ScriptCause.TheVariants.{Memory};

    ghost from_gives = { λ _ e. e ≡ Memory };

    fn from(_: AllocFailed<T>) -> Self {
        ScriptCause::Memory
    }
}
