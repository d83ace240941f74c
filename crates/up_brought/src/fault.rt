//! Why what was signed elsewhere is refused.
use std::alloc::AllocError;
use up_canon::refusal::{Field, Refusal};

/// Why a publication is refused.
#[derive(Debug, Drop)]
pub enum Fault {
    /// What other commands are refused for too.
    Known(Refusal),
    /// The command needs the keys of this role, which are kept offline.
    OfflineRole(Field),
    /// A file has another version than may follow: of a Root the only one stands here, of Targets the greatest.
    WrongVersion(u64),
    /// A file of this role has expired at the command's moment.
    Expired(Field),
    /// A file isn't signed by enough keys of this role; `before` is the root role of the version before.
    BadSignature(Field),
    /// The secrets of this role aren't those of the keys that a Root lists for it.
    OtherKeys(Field),
    /// Targets list other images than the register.
    OtherImages,
}

impl From<Refusal> for Fault {
    ghost use Rattle.std.specs.Prelude.{◌≡◌};
    ghost use Rattle.up_brought.specs.declared.fault.Fault.TheVariants.{Known};

    ghost from_gives = { λ refusal e. e ≡ Known refusal };

    fn from(refusal: Refusal) -> Self {
        Fault::Known(refusal)
    }
}

impl From<AllocError> for Fault {
    ghost use Rattle.std.specs.Prelude.{◌≡◌};
    ghost use Rattle.up_canon.specs.declared.refusal.Refusal.TheVariants.{Memory};
    ghost use Rattle.up_brought.specs.declared.fault.Fault.TheVariants.{Known};

    ghost from_gives = { λ _ e. e ≡ Known Memory };

    fn from(_: AllocError) -> Self {
        Fault::Known(Refusal::Memory)
    }
}
