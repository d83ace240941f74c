//! Lines that add an image.
ghost use Rattle.up_canon.specs.Members.{object_of_map};
ghost use Rattle.up_canon.specs.Refusals.{Gives};
ghost use Rattle.up_script.specs.ImageLines.{image_in, hardware_in, needs_in, conflicts_in};

use crate::optional::{optional_list_at, optional_sha512_at};
use serde_json::{Map, Value};
use std::alloc::Global;
use up_canon::each::each_of;
use up_canon::fields::{count_at, list_at};
use up_canon::file_name::FileName;
use up_canon::hex_text::sha256_at;
use up_canon::ident::Ident;
use up_canon::listed::Listed;
use up_canon::name_readings::{FileNameReading, IdentReading};
use up_canon::readers::file_name_at;
use up_canon::refusal::Refusal;
use up_columns::needs::NeedReading;
use up_plan::image::{Image, Need};

/// The image that a line adds, or the first fault of its members.
#[tactic(auto, unfolding(crate::specs::ImageLines::image_in, up_canon::specs::Steps::and_then))]
pub fn image_at(alloc: Global, line: &Map<String, Value>) -> Result<Image, Refusal>
    ensures { Gives result (image_in (object_of_map line.now.entries)) }
{
    let file = file_name_at(alloc, line, "file")?;
    let length = count_at(line, "length")?;
    let sha256 = sha256_at(line, "sha256")?;
    let sha512 = optional_sha512_at(line)?;
    let hardware = hardware_at(alloc, line)?;
    let release = count_at(line, "release")?;
    let needs = needs_at(alloc, line)?;
    let conflicts = conflicts_at(alloc, line)?;
    Ok(Image::new(
        file,
        length,
        sha256,
        sha512,
        hardware.into_vec(),
        release,
        needs.into_vec(),
        conflicts.into_vec(),
    )?)
}

#[tactic(auto, unfolding(crate::specs::ImageLines::hardware_in, up_canon::specs::Steps::and_then))]
fn hardware_at(alloc: Global, line: &Map<String, Value>) -> Result<Listed<Ident>, Refusal>
    ensures { Gives result (hardware_in (object_of_map line.now.entries)) }
{
    let values = list_at(line, "hardware")?;
    each_of::<IdentReading>(alloc, values.as_slice(), "hardware")
}

#[tactic(auto, unfolding(crate::specs::ImageLines::needs_in, up_canon::specs::Steps::and_then))]
fn needs_at(alloc: Global, line: &Map<String, Value>) -> Result<Listed<Need>, Refusal>
    ensures { Gives result (needs_in (object_of_map line.now.entries)) }
{
    let values = optional_list_at(line, "needs")?;
    each_of::<NeedReading>(alloc, values, "needs")
}

#[tactic(auto, unfolding(crate::specs::ImageLines::conflicts_in, up_canon::specs::Steps::and_then))]
fn conflicts_at(alloc: Global, line: &Map<String, Value>) -> Result<Listed<FileName>, Refusal>
    ensures { Gives result (conflicts_in (object_of_map line.now.entries)) }
{
    let values = optional_list_at(line, "conflicts")?;
    each_of::<FileNameReading>(alloc, values, "conflicts")
}
