//! Images of the register.
ghost use Rattle.std.specs.Prelude.{◌≡◌};
ghost use Rattle.up_plan.specs.Images.{conflicts_fit as conflicts_fit_limits};

use std::alloc::{AllocError, Global};
use std::marker::Model;
use up_canon::count::Count;
use up_canon::file_name::FileName;
use up_canon::ident::Ident;
use up_canon::listed::{Duplicate, Listed};
use up_canon::named::{hardware_fits, has_name};

/// A need of an image: every ECU of the vehicle with the hardware has at least the release.
#[derive(Debug, Drop)]
pub struct Need {
    pub hardware: Ident,
    pub release: Count,
}

impl Duplicate for Need {
    fn copy(&self, alloc: Global) -> Result<Need, AllocError> {
        Ok(Need {
            hardware: self.hardware.copy(alloc)?,
            release: self.release,
        })
    }
}

/// How many needs, and how many conflicts, an image may have.
const MAX_DEMANDS: usize = 16;

/// A registered image: filename, length in bytes, SHA-256, SHA-512 where it has one, the hardware that it is for (1 to 16,
/// distinct), its release counter, and its needs and conflicts (0 to 16 each; its own filename is no conflict).
#[derive(Debug, Drop)]
pub struct Image {
    pub file: FileName,
    pub length: Count,
    pub sha256: [u8; 32],
    pub sha512: Option<[u8; 64]>,
    pub hardware: Listed<Ident>,
    pub release: Count,
    pub needs: Listed<Need>,
    pub conflicts: Listed<FileName>,
}

impl Model for Image {
    ghost use Rattle.std.specs.Prelude.{◌≡◌, true};
    ghost use Rattle.up_plan.specs.Images.{ImageData, image_fits};

    ghost Value = { ImageData };

    ghost view = { λ a. record {
      file = a.file;
      length = a.length;
      sha256 = a.sha256;
      sha512 = a.sha512;
      hardware = a.hardware;
      release = a.release;
      needs = a.needs;
      conflicts = a.conflicts;
    } };

    ghost invariant = { λ a. image_fits (record {
      file = a.file;
      length = a.length;
      sha256 = a.sha256;
      sha512 = a.sha512;
      hardware = a.hardware;
      release = a.release;
      needs = a.needs;
      conflicts = a.conflicts;
    }) ≡ true };
}

impl Image {
    ghost use Rattle.std.specs.Prelude.{◌≡◌, Some, true, MatchResult};
    ghost use Rattle.up_plan.specs.Images.{ImageData, image_fits, image_fault};

    /// The image of these parts, or the name of the first member that breaks its limit: `hardware`, `needs` or `conflicts`.
    pub fn new(
        file: FileName,
        length: Count,
        sha256: [u8; 32],
        sha512: Option<[u8; 64]>,
        hardware: Vec<Ident>,
        release: Count,
        needs: Vec<Need>,
        conflicts: Vec<FileName>,
    ) -> Result<Image, &'static str>
        ensures { let given : ImageData = record {
          file = file;
          length = length;
          sha256 = sha256;
          sha512 = sha512;
          hardware = hardware.items;
          release = release;
          needs = needs.items;
          conflicts = conflicts.items;
        } in
            MatchResult result (λ image. (image_fits given ≡ true) × (image ≡ given))
            (λ fault. image_fault given ≡ Some fault.now) }
    {
        if !hardware_fits(hardware.as_slice()) {
            return Err("hardware");
        }
        if needs.len() > MAX_DEMANDS {
            return Err("needs");
        }
        if !conflicts_fit(&file, conflicts.as_slice()) {
            return Err("conflicts");
        }
        Ok(Image {
            file,
            length,
            sha256,
            sha512,
            hardware: Listed::new(hardware),
            release,
            needs: Listed::new(needs),
            conflicts: Listed::new(conflicts),
        })
    }
}

impl Duplicate for Image {
    fn copy(&self, alloc: Global) -> Result<Image, AllocError> {
        Ok(Image {
            file: self.file.copy(alloc)?,
            length: self.length,
            sha256: self.sha256,
            sha512: self.sha512,
            hardware: self.hardware.copy(alloc)?,
            release: self.release,
            needs: self.needs.copy(alloc)?,
            conflicts: self.conflicts.copy(alloc)?,
        })
    }
}

fn conflicts_fit(file: &FileName, conflicts: &[FileName]) -> bool
    ensures { result ≡ conflicts_fit_limits file.now conflicts.now }
{
    conflicts.len() <= MAX_DEMANDS && !has_name(conflicts, file.text())
}
