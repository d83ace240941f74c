//! Number, name and text of a refusal.
ghost use Rattle.std.specs.Prelude.{◌≡◌, ◌++◌, ◌∷◌, IfOk, string_bytes};
ghost use Rattle.up_canon.specs.Refusals.{row, refusal_text, NumbersAreApart};

use crate::refusal::Refusal;
use std::alloc::{AllocError, Global};

impl Refusal {
    /// The number, 1 to 31.
    pub fn number(&self) -> u32
        ensures { result ≡ (row self.now).number }
    {
        match self {
            Refusal::Memory => 1,
            Refusal::Store => 2,
            Refusal::MomentOutOfRange => 3,
            Refusal::TooLarge => 4,
            Refusal::NotJson => 5,
            Refusal::NotCanonical => 6,
            Refusal::BadShape(_) => 7,
            Refusal::NotFounded => 8,
            Refusal::AlreadyFounded => 9,
            Refusal::UnknownVehicle => 10,
            Refusal::WrongPrimary => 11,
            Refusal::BadManifestSignature => 12,
            Refusal::Stale(_) => 13,
            Refusal::UnknownEcu(_) => 14,
            Refusal::DuplicateEcu(_) => 15,
            Refusal::MissingEcu(_) => 16,
            Refusal::BadReportSignature(_) => 17,
            Refusal::ReportReplayed(_) => 18,
            Refusal::ImageTaken => 19,
            Refusal::RegisterFull => 20,
            Refusal::VersionLimit => 21,
            Refusal::VehicleTaken => 22,
            Refusal::EcuTaken(_) => 23,
            Refusal::CampaignTaken => 24,
            Refusal::UnknownCampaign => 25,
            Refusal::UnknownImage => 26,
            Refusal::WrongHardware => 27,
            Refusal::VersionNotGreater => 28,
            Refusal::UnknownFile => 29,
            Refusal::RootFull => 30,
            Refusal::PrimaryFixed => 31,
        }
    }

    /// The name, as in `NotJson`.
    pub fn name(&self) -> &'static str
        ensures { result.now ≡ (row self.now).name }
    {
        match self {
            Refusal::Memory => "Memory",
            Refusal::Store => "Store",
            Refusal::MomentOutOfRange => "MomentOutOfRange",
            Refusal::TooLarge => "TooLarge",
            Refusal::NotJson => "NotJson",
            Refusal::NotCanonical => "NotCanonical",
            Refusal::BadShape(_) => "BadShape",
            Refusal::NotFounded => "NotFounded",
            Refusal::AlreadyFounded => "AlreadyFounded",
            Refusal::UnknownVehicle => "UnknownVehicle",
            Refusal::WrongPrimary => "WrongPrimary",
            Refusal::BadManifestSignature => "BadManifestSignature",
            Refusal::Stale(_) => "Stale",
            Refusal::UnknownEcu(_) => "UnknownEcu",
            Refusal::DuplicateEcu(_) => "DuplicateEcu",
            Refusal::MissingEcu(_) => "MissingEcu",
            Refusal::BadReportSignature(_) => "BadReportSignature",
            Refusal::ReportReplayed(_) => "ReportReplayed",
            Refusal::ImageTaken => "ImageTaken",
            Refusal::RegisterFull => "RegisterFull",
            Refusal::VersionLimit => "VersionLimit",
            Refusal::VehicleTaken => "VehicleTaken",
            Refusal::EcuTaken(_) => "EcuTaken",
            Refusal::CampaignTaken => "CampaignTaken",
            Refusal::UnknownCampaign => "UnknownCampaign",
            Refusal::UnknownImage => "UnknownImage",
            Refusal::WrongHardware => "WrongHardware",
            Refusal::VersionNotGreater => "VersionNotGreater",
            Refusal::UnknownFile => "UnknownFile",
            Refusal::RootFull => "RootFull",
            Refusal::PrimaryFixed => "PrimaryFixed",
        }
    }

    /// The name and, behind a space, the value where there is one, as in `MissingEcu S2`.
    pub fn text(&self, alloc: Global) -> Result<String, AllocError>
        ensures { IfOk result (λ text. string_bytes text ≡ refusal_text self.now) }
    {
        match self {
            Refusal::BadShape(field) => with_value(alloc, self.name(), field.name()),
            Refusal::Stale(last) => format!(in alloc; "{} {}", self.name(), last.get()),
            Refusal::UnknownEcu(ecu) => with_value(alloc, self.name(), ecu.text()),
            Refusal::DuplicateEcu(ecu) => with_value(alloc, self.name(), ecu.text()),
            Refusal::MissingEcu(ecu) => with_value(alloc, self.name(), ecu.text()),
            Refusal::BadReportSignature(ecu) => with_value(alloc, self.name(), ecu.text()),
            Refusal::ReportReplayed(ecu) => with_value(alloc, self.name(), ecu.text()),
            Refusal::EcuTaken(ecu) => with_value(alloc, self.name(), ecu.text()),
            _ => self.name().to_string(alloc),
        }
    }
}

fn with_value(alloc: Global, name: &str, value: &str) -> Result<String, AllocError>
    ensures { IfOk result (λ text. string_bytes text ≡ name.now ++ 32 ∷ value.now) }
{
    format!(in alloc; "{name} {value}")
}

/// Refusals of one number are of one name.
pub fn refusal_numbers()
    ensures { NumbersAreApart }
{}
