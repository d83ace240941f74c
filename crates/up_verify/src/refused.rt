//! Why what was served isn't accepted.
use std::alloc::AllocError;
use up_canon::file_name::FileName;
use up_canon::ident::Ident;
use up_canon::refusal::Refusal;
use up_roles::repository::Repository;

/// The roles of a repository.
#[derive(Clone, Copy)]
pub enum Role {
    Root,
    Timestamp,
    Snapshot,
    Targets,
}

/// What is wrong with a file.
#[derive(Drop)]
pub enum Fault {
    /// It is no file of its role; this is its first fault.
    Unread(Refusal),
    /// It is the other repository's.
    OtherRepository,
    /// It is for another vehicle.
    OtherVehicle,
    /// A Root that isn't of the next version.
    NotNext,
    /// A Root with a key that can't be read.
    UnknownKey,
    /// A Root that too few keys of the Root before it have signed.
    NotSignedBefore,
    /// Too few keys of its role have signed it.
    NotSigned,
    /// It isn't the one that the file before it names.
    NotNamed,
    /// It is of a lower version than was verified before.
    GoesBack,
    /// It has expired.
    Expired,
}

impl From<Refusal> for Fault {
    ghost use Rattle.std.specs.Prelude.{◌≡◌};
    ghost use Rattle.up_verify.specs.declared.refused.Fault.TheVariants.{Unread};

    ghost from_gives = { λ r e. e ≡ Unread r };

    fn from(refusal: Refusal) -> Self {
        Fault::Unread(refusal)
    }
}

impl From<AllocError> for Fault {
    ghost use Rattle.std.specs.Prelude.{◌≡◌};
    ghost use Rattle.up_canon.specs.declared.refusal.Refusal.TheVariants.{Memory};
    ghost use Rattle.up_verify.specs.declared.refused.Fault.TheVariants.{Unread};

    ghost from_gives = { λ _ e. e ≡ Unread Memory };

    fn from(_: AllocError) -> Self {
        Fault::Unread(Refusal::Memory)
    }
}

/// Why what was served isn't accepted.
#[derive(Drop)]
pub enum Refused {
    /// There is no memory.
    Memory,
    /// A file has a fault.
    File(Repository, Role, Fault),
    /// The reply is for another vehicle.
    WrongVehicle,
    /// The reply is of a root version that isn't served.
    UnknownRoot,
    /// The reply is of an older root version: a new manifest brings a new one.
    OldRoot,
    /// The reply's files aren't all of its version.
    MixedVersions,
    /// A target names no ECU. The reader of the Director's Targets gives none such.
    UnnamedEcu,
    /// A target is for an ECU that was replaced: a new manifest brings another reply.
    ReplacedEcu(Ident),
    /// A target is for an ECU that the vehicle never had.
    UnknownEcu(Ident),
    /// The Image repository has no such target.
    UnknownImage(FileName),
    /// A target isn't for the hardware of its ECU.
    WrongHardware(Ident),
    /// A target has a lower release counter than its ECU's image.
    LowerRelease(Ident),
}

impl From<AllocError> for Refused {
    ghost use Rattle.std.specs.Prelude.{◌≡◌};
    ghost use Rattle.up_verify.specs.declared.refused.Refused.TheVariants.{Memory};

    ghost from_gives = { λ _ e. e ≡ Memory };

    fn from(_: AllocError) -> Self {
        Refused::Memory
    }
}
