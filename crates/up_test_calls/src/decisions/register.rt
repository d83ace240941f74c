//! The rows that decisions read and leave.
use std::alloc::{AllocError, Global};
use up_canon::ident::Ident;
use up_canon::listed::Duplicate;
use up_canon::table::Table;
use up_canon::text::Text;
use up_machine::rows::{Founding, Kept, VehicleRows};
use up_plan::campaign::Campaign;
use up_plan::image::Image;

/// All rows; images, vehicles and campaigns by their names.
#[derive(Drop)]
pub(crate) struct Register {
    pub(crate) founding: Option<Founding>,
    pub(crate) images: Table<Image>,
    pub(crate) vehicles: Table<VehicleRows>,
    /// The identifiers of replaced ECUs.
    pub(crate) retired: Vec<Ident>,
    pub(crate) campaigns: Table<Campaign>,
    pub(crate) kept: Vec<Kept>,
    /// The text of the file that is fetched.
    pub(crate) text: Option<Text>,
    /// Whether a new image is put without a decision.
    pub(crate) puts_images: bool,
    /// Whether a manifest is given spaces round its commas.
    pub(crate) respells: bool,
}

impl Register {
    /// A register before the founding.
    pub(crate) fn new(alloc: Global) -> Register {
        Register {
            founding: None,
            images: Table::new(alloc),
            vehicles: Table::new(alloc),
            retired: Vec::new(alloc),
            campaigns: Table::new(alloc),
            kept: Vec::new(alloc),
            text: None,
            puts_images: false,
            respells: false,
        }
    }
}

/// Keeps a copy of the founding's row.
pub(crate) fn keep_founding(
    alloc: Global,
    register: &mut Register,
    row: &Founding,
) -> Result<(), AllocError> {
    let copy = row.copy(alloc)?;
    replace_founding(register, copy);
    Ok(())
}

fn replace_founding(register: &mut Register, row: Founding) {
    register.founding = Some(row);
}

/// The founding's row, with a digest of the files that were made with it.
pub(crate) fn founding_text(
    alloc: Global,
    row: &Founding,
    files: &str,
) -> Result<String, AllocError> {
    let at = row.stamp.get();
    format!(in alloc;
        "root {} version {} at {at} {files}",
        row.root, row.image_version
    )
}

pub(crate) fn put_image(
    alloc: Global,
    images: &mut Table<Image>,
    image: Image,
) -> Result<(), AllocError> {
    let name = Text::new(image.file.text().to_string(alloc)?);
    images.insert(name, image)
}

pub(crate) fn put_campaign(
    alloc: Global,
    campaigns: &mut Table<Campaign>,
    campaign: Campaign,
) -> Result<(), AllocError> {
    let name = Text::new(campaign.name.text().to_string(alloc)?);
    campaigns.insert(name, campaign)
}

pub(crate) fn put_vehicle(
    alloc: Global,
    vehicles: &mut Table<VehicleRows>,
    rows: VehicleRows,
) -> Result<(), AllocError> {
    let row = &rows.vehicle;
    let name = Text::new(row.vehicle.text().to_string(alloc)?);
    vehicles.insert(name, rows)
}

/// Sets the founding's root versions and the image repository's versions.
pub(crate) fn set_versions(founding: &mut Option<Founding>, root: u64, image_version: u64) {
    if let Some(row) = founding {
        row.root = root;
        row.image_root = root;
        row.image_version = image_version;
        row.targets_version = image_version;
    }
}
