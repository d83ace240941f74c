//! Refusals: what a call answers in place of a value, and why.
use crate::count::Count;
use crate::ident::Ident;
use crate::listed::Duplicate;
use std::alloc::{AllocError, AllocFailed, Global};
use std::marker::Model;

/// The name of a member that is missing, of a wrong kind or outside its limits.
#[derive(Debug, Drop)]
pub struct Field {
    name: &'static str,
}

impl Model for Field {
    ghost use Rattle.std.specs.Prelude.{ℕ, List};

    ghost Value = { List ℕ };

    ghost view = { λ a. a.name.now };
}

impl Field {
    ghost use Rattle.std.specs.Prelude.{◌≡◌};

    /// The field of that name.
    pub fn new(name: &'static str) -> Field
        ensures { result ≡ name.now }
    {
        Field { name }
    }

    /// Its name.
    pub fn name(&self) -> &'static str
        ensures { result.now ≡ self.now }
    {
        self.name
    }
}

/// Why a command, a reader or a decision refused.
#[derive(Debug, Drop)]
pub enum Refusal {
    /// Memory was refused.
    Memory,
    /// The database refused a call, a fault has shut its connection, or it holds what no call of this product leaves.
    Store,
    /// The moment of a command is past 2100-01-01T00:00:00Z.
    MomentOutOfRange,
    /// The text is longer than its limit.
    TooLarge,
    /// The text is no JSON.
    NotJson,
    /// The signed value has no canonical text.
    NotCanonical,
    /// A member is missing, of a wrong kind or outside its limits.
    BadShape(Field),
    /// The repositories are not founded.
    NotFounded,
    /// The repositories are founded already.
    AlreadyFounded,
    /// The inventory has no such vehicle.
    UnknownVehicle,
    /// The manifest names another Primary than the inventory.
    WrongPrimary,
    /// The manifest's signature is not the Primary's.
    BadManifestSignature,
    /// The manifest's counter is not above the last one, which stands here.
    Stale(Count),
    /// A report of an ECU that the vehicle does not have.
    UnknownEcu(Ident),
    /// An ECU that stands twice.
    DuplicateEcu(Ident),
    /// An ECU of the vehicle without a report.
    MissingEcu(Ident),
    /// A report's signature is not its ECU's.
    BadReportSignature(Ident),
    /// A report that is older than the last one of its ECU, or another with the same counter.
    ReportReplayed(Ident),
    /// Another image has the filename.
    ImageTaken,
    /// The register of images is full.
    RegisterFull,
    /// The image repository's version is at its limit.
    VersionLimit,
    /// Another vehicle has the identifier.
    VehicleTaken,
    /// An ECU that is recorded already.
    EcuTaken(Ident),
    /// Another campaign, or a closed one, has the name.
    CampaignTaken,
    /// There is no such campaign.
    UnknownCampaign,
    /// An item names an image that is not registered.
    UnknownImage,
    /// An item's image is not for its hardware.
    WrongHardware,
    /// The version is not above the present one.
    VersionNotGreater,
    /// There is no such file.
    UnknownFile,
    /// There are as many root versions as there may be.
    RootFull,
    /// The Primary of a vehicle is never replaced.
    PrimaryFixed,
}

impl From<AllocError> for Refusal {
    ghost use Rattle.std.specs.Prelude.{◌≡◌};
    ghost use Rattle.up_canon.specs.declared.refusal.Refusal.TheVariants.{Memory};

    ghost from_gives = { λ _ e. e ≡ Memory };

    fn from(_: AllocError) -> Self {
        Refusal::Memory
    }
}

impl<T: Drop> From<AllocFailed<T>> for Refusal {
    ghost use Rattle.std.specs.Prelude.{◌≡◌};
    ghost use Rattle.up_canon.specs.declared.refusal.Refusal.TheVariants.{Memory};

    ghost from_gives = { λ _ e. e ≡ Memory };

    fn from(_: AllocFailed<T>) -> Self {
        Refusal::Memory
    }
}

impl From<&'static str> for Refusal {
    ghost use Rattle.std.specs.Prelude.{◌≡◌};
    ghost use Rattle.up_canon.specs.declared.refusal.Refusal.TheVariants.{BadShape};

    ghost from_gives = { λ name e. e ≡ BadShape name.now };

    fn from(name: &'static str) -> Self {
        Refusal::BadShape(Field::new(name))
    }
}

impl Duplicate for Field {
    fn copy(&self, _: Global) -> Result<Field, AllocError> {
        Ok(Field { name: self.name })
    }
}

impl Duplicate for Refusal {
    fn copy(&self, alloc: Global) -> Result<Refusal, AllocError> {
        match self {
            Refusal::Memory => Ok(Refusal::Memory),
            Refusal::Store => Ok(Refusal::Store),
            Refusal::MomentOutOfRange => Ok(Refusal::MomentOutOfRange),
            Refusal::TooLarge => Ok(Refusal::TooLarge),
            Refusal::NotJson => Ok(Refusal::NotJson),
            Refusal::NotCanonical => Ok(Refusal::NotCanonical),
            Refusal::BadShape(field) => Ok(Refusal::BadShape(field.copy(alloc)?)),
            Refusal::NotFounded => Ok(Refusal::NotFounded),
            Refusal::AlreadyFounded => Ok(Refusal::AlreadyFounded),
            Refusal::UnknownVehicle => Ok(Refusal::UnknownVehicle),
            Refusal::WrongPrimary => Ok(Refusal::WrongPrimary),
            Refusal::BadManifestSignature => Ok(Refusal::BadManifestSignature),
            Refusal::Stale(last) => Ok(Refusal::Stale(*last)),
            Refusal::UnknownEcu(ecu) => Ok(Refusal::UnknownEcu(ecu.copy(alloc)?)),
            Refusal::DuplicateEcu(ecu) => Ok(Refusal::DuplicateEcu(ecu.copy(alloc)?)),
            Refusal::MissingEcu(ecu) => Ok(Refusal::MissingEcu(ecu.copy(alloc)?)),
            Refusal::BadReportSignature(ecu) => Ok(Refusal::BadReportSignature(ecu.copy(alloc)?)),
            Refusal::ReportReplayed(ecu) => Ok(Refusal::ReportReplayed(ecu.copy(alloc)?)),
            Refusal::ImageTaken => Ok(Refusal::ImageTaken),
            Refusal::RegisterFull => Ok(Refusal::RegisterFull),
            Refusal::VersionLimit => Ok(Refusal::VersionLimit),
            Refusal::VehicleTaken => Ok(Refusal::VehicleTaken),
            Refusal::EcuTaken(ecu) => Ok(Refusal::EcuTaken(ecu.copy(alloc)?)),
            Refusal::CampaignTaken => Ok(Refusal::CampaignTaken),
            Refusal::UnknownCampaign => Ok(Refusal::UnknownCampaign),
            Refusal::UnknownImage => Ok(Refusal::UnknownImage),
            Refusal::WrongHardware => Ok(Refusal::WrongHardware),
            Refusal::VersionNotGreater => Ok(Refusal::VersionNotGreater),
            Refusal::UnknownFile => Ok(Refusal::UnknownFile),
            Refusal::RootFull => Ok(Refusal::RootFull),
            Refusal::PrimaryFixed => Ok(Refusal::PrimaryFixed),
        }
    }
}
