//! Needs and conflicts over the resulting set.
ghost use Rattle.std.specs.Prelude.{◌≡◌, [], Some, find, not, option_copied, IfOk, IsOk};
ghost use Rattle.up_canon.specs.Steps.{first_or_none};
ghost use Rattle.up_plan.specs.Planning.{is_apart as is_apart_in, is_met as is_met_in, unmet, unmet_by as unmet_of};

use crate::assigned::Cause;
use crate::image::{Image, Need};
use crate::resulting::Resulting;
use std::alloc::{AllocError, Global};
use up_canon::file_name::FileName;
use up_canon::ident::Ident;
use up_canon::listed::Duplicate;

/// The first need or conflict that isn't met, in inventory order.
pub(crate) fn first_unmet(alloc: Global, set: &[Resulting]) -> Result<Option<Cause>, AllocError>
    ensures value { IfOk result (λ cause. cause ≡ first_or_none (unmet set.now)) }
    ensures none { unmet set.now ≡ [] → IsOk result }
{
    for r in set {
        let Some(image) = r.image else {
            continue;
        };
        if let Some(cause) = unmet_by(alloc, set, r.ecu, image)? {
            return Ok(Some(cause));
        }
    }
    Ok(None)
}

fn unmet_by(
    alloc: Global,
    set: &[Resulting],
    ecu: &Ident,
    image: &Image,
) -> Result<Option<Cause>, AllocError>
    ensures value { IfOk result (λ cause. cause ≡ first_or_none (unmet_of set.now ecu.now (Some image.now))) }
    ensures none { unmet_of set.now ecu.now (Some image.now) ≡ [] → IsOk result }
{
    if let Some(need) = first_need(set, image.needs.as_slice()) {
        return Ok(Some(Cause::Need {
            ecu: ecu.copy(alloc)?,
            hardware: need.hardware.copy(alloc)?,
        }));
    }
    match first_conflict(set, image.conflicts.as_slice()) {
        Some(file) => Ok(Some(Cause::Conflict {
            ecu: ecu.copy(alloc)?,
            file: file.copy(alloc)?,
        })),
        None => Ok(None),
    }
}

fn first_need<'a>(set: &[Resulting], needs: &'a [Need]) -> Option<&'a Need>
    ensures { option_copied result ≡ find (λ need. not (is_met_in set.now need)) needs.now }
{
    needs.iter().find(|need| !is_met(set, need))
}

fn first_conflict<'a>(set: &[Resulting], conflicts: &'a [FileName]) -> Option<&'a FileName>
    ensures { option_copied result ≡ find (λ file. not (is_apart_in set.now file)) conflicts.now }
{
    conflicts.iter().find(|file| !is_apart(set, file))
}

fn is_met(set: &[Resulting], need: &Need) -> bool
    ensures { result ≡ is_met_in set.now need.now }
{
    set.iter().all(|r| r.hardware.text() != need.hardware.text() || need.release.get() <= r.level)
}

fn is_apart(set: &[Resulting], file: &FileName) -> bool
    ensures { result ≡ is_apart_in set.now file.now }
{
    set.iter().all(|r| r.file.text() != file.text())
}
