//! Refusals as they are printed.
use std::alloc::{AllocError, Global};
use up_canon::count::Count;
use up_canon::ident::Ident;
use up_canon::listed::Duplicate;
use up_canon::refusal::{Field, Refusal};

/// What is printed of the refusal of that name. Where it has a value, that is `signatures`, the greatest count or
/// the identifier S2.
pub(crate) fn refusal(alloc: Global, name: &str) -> Result<String, AllocError> {
    match bare(name) {
        Some(refusal) => printed(alloc, &refusal),
        None => valued_text(alloc, name),
    }
}

fn valued_text(alloc: Global, name: &str) -> Result<String, AllocError> {
    match Ident::new("S2".to_string(alloc)?) {
        Some(ecu) => of_ecu(alloc, name, ecu),
        None => "no identifier".to_string(alloc),
    }
}

fn of_ecu(alloc: Global, name: &str, ecu: Ident) -> Result<String, AllocError> {
    match valued(name, ecu) {
        Some(refusal) => printed(alloc, &refusal),
        None => "no such refusal".to_string(alloc),
    }
}

fn valued(name: &str, ecu: Ident) -> Option<Refusal> {
    Some(match name {
        "BadShape" => Refusal::BadShape(Field::new("signatures")),
        "Stale" => return stale(),
        "UnknownEcu" => Refusal::UnknownEcu(ecu),
        "DuplicateEcu" => Refusal::DuplicateEcu(ecu),
        "MissingEcu" => Refusal::MissingEcu(ecu),
        "BadReportSignature" => Refusal::BadReportSignature(ecu),
        "ReportReplayed" => Refusal::ReportReplayed(ecu),
        "EcuTaken" => Refusal::EcuTaken(ecu),
        _ => return None,
    })
}

fn stale() -> Option<Refusal> {
    match Count::new(9007199254740991) {
        Some(count) => Some(Refusal::Stale(count)),
        None => None,
    }
}

fn bare(name: &str) -> Option<Refusal> {
    Some(match name {
        "Memory" => Refusal::Memory,
        "Store" => Refusal::Store,
        "MomentOutOfRange" => Refusal::MomentOutOfRange,
        "TooLarge" => Refusal::TooLarge,
        "NotJson" => Refusal::NotJson,
        "NotCanonical" => Refusal::NotCanonical,
        "NotFounded" => Refusal::NotFounded,
        "AlreadyFounded" => Refusal::AlreadyFounded,
        "UnknownVehicle" => Refusal::UnknownVehicle,
        "WrongPrimary" => Refusal::WrongPrimary,
        "BadManifestSignature" => Refusal::BadManifestSignature,
        "ImageTaken" => Refusal::ImageTaken,
        "RegisterFull" => Refusal::RegisterFull,
        "VersionLimit" => Refusal::VersionLimit,
        "VehicleTaken" => Refusal::VehicleTaken,
        "CampaignTaken" => Refusal::CampaignTaken,
        "UnknownCampaign" => Refusal::UnknownCampaign,
        "UnknownImage" => Refusal::UnknownImage,
        "WrongHardware" => Refusal::WrongHardware,
        "VersionNotGreater" => Refusal::VersionNotGreater,
        "UnknownFile" => Refusal::UnknownFile,
        "RootFull" => Refusal::RootFull,
        "PrimaryFixed" => Refusal::PrimaryFixed,
        _ => return None,
    })
}

/// The number, the name and the text of the refusal and of its copy.
fn printed(alloc: Global, refusal: &Refusal) -> Result<String, AllocError> {
    let own = parts(alloc, refusal)?;
    let copied = parts(alloc, &refusal.copy(alloc)?)?;
    format!(in alloc; "{own}, copied {copied}")
}

fn parts(alloc: Global, refusal: &Refusal) -> Result<String, AllocError> {
    let text = refusal.text(alloc)?;
    format!(in alloc; "{} {}: {text}", refusal.number(), refusal.name())
}
