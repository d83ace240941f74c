//! What the Director assigns, over what the Image repository has.
ghost use Rattle.std.specs.Prelude.{◌≡◌, IfOk, bytes_eq, option_copied};
ghost use Rattle.std.specs.Cmp.Lexicographic.{pointwise};
ghost use Rattle.std.specs.List.{list_any};
ghost use Rattle.std.specs.Option.{option_eq};
ghost use Rattle.up_canon.specs.Steps.{each};
ghost use Rattle.up_verify.specs.Results.{Passes};
ghost use Rattle.up_verify.specs.Verify.{same_target as same_target_as, own_ecu as own_ecu_in, not_own as not_own_of, check_target_for as check_target_for_of, check_target as check_target_of};

use crate::refused::Refused;
use crate::trust::{OwnEcu, Primary};
use std::alloc::{AllocError, Global};
use up_canon::ident::Ident;
use up_canon::listed::Duplicate;
use up_roles::targets::Target;

/// Whether each target suits its ECU, and is one of these images. Else the first refusal.
#[tactic(auto, unfolding(up_canon::specs::Steps::each, up_canon::specs::Steps::and_then))]
pub(crate) fn check_each(
    alloc: Global,
    primary: &Primary,
    images: &[Target],
    targets: &[Target],
) -> Result<(), Refused>
    ensures { Passes targets.now result (each (check_target_of primary.now images.now) targets.now) }
{
    match targets {
        [] => Ok(()),
        [target, more @ ..] => {
            check_target(alloc, primary, images, target)?;
            check_each(alloc, primary, images, more)
        }
    }
}

#[tactic(auto, unfolding(crate::specs::Verify::check_target, up_canon::specs::Steps::and_then))]
fn check_target(
    alloc: Global,
    primary: &Primary,
    images: &[Target],
    target: &Target,
) -> Result<(), Refused>
    ensures { Passes target.now result (check_target_of primary.now images.now target.now) }
{
    match &target.ecu {
        Some(name) => check_target_for(alloc, primary, images, target, name),
        None => Err(Refused::UnnamedEcu),
    }
}

/// Whether the vehicle has the ECU, and the target is one of these images, for its hardware, of no lower release.
#[tactic(auto, unfolding(crate::specs::Verify::check_target_for, up_canon::specs::Steps::and_then))]
fn check_target_for(
    alloc: Global,
    primary: &Primary,
    images: &[Target],
    target: &Target,
    name: &Ident,
) -> Result<(), Refused>
    ensures { Passes target.now result (check_target_for_of primary.now images.now target.now name.now) }
{
    let Some(own) = own_ecu(primary.ecus.as_slice(), name) else {
        return Err(not_own(alloc, primary.replaced.as_slice(), name)?);
    };
    if !is_image(images, target) {
        return Err(Refused::UnknownImage(target.file.copy(alloc)?));
    }
    if !is_among(target.hardware.as_slice(), &own.hardware) {
        return Err(Refused::WrongHardware(name.copy(alloc)?));
    }
    if own.release.get() > target.release.get() {
        return Err(Refused::LowerRelease(name.copy(alloc)?));
    }
    Ok(())
}

/// The vehicle's ECU of this name.
fn own_ecu<'a>(ecus: &'a [OwnEcu], name: &Ident) -> Option<&'a OwnEcu>
    ensures { option_copied result ≡ own_ecu_in ecus.now name.now }
{
    for own in ecus {
        if own.ecu.text() == name.text() {
            return Some(own);
        }
    }
    None
}

/// Of an ECU that the vehicle hasn't: whether it was replaced, or never there.
fn not_own(alloc: Global, replaced: &[Ident], name: &Ident) -> Result<Refused, AllocError>
    ensures { IfOk result (λ refused. refused ≡ not_own_of replaced.now name.now) }
{
    let named = name.copy(alloc)?;
    if is_among(replaced, name) {
        Ok(Refused::ReplacedEcu(named))
    } else {
        Ok(Refused::UnknownEcu(named))
    }
}

/// Whether the name is one of these.
fn is_among(names: &[Ident], name: &Ident) -> bool
    ensures { result ≡ list_any (bytes_eq name.now) names.now }
{
    for other in names {
        if name.text() == other.text() {
            return true;
        }
    }
    false
}

/// Whether it is one of these images.
fn is_image(images: &[Target], target: &Target) -> bool
    ensures { result ≡ list_any (same_target_as target.now) images.now }
{
    for image in images {
        if same_target(target, image) {
            return true;
        }
    }
    false
}

fn same_target(a: &Target, b: &Target) -> bool
    ensures { result ≡ same_target_as a.now b.now }
{
    a.file.text() == b.file.text()
        && a.length == b.length
        && a.sha256[..] == b.sha256[..]
        && same_hash(&a.sha512, &b.sha512)
        && same_names(a.hardware.as_slice(), b.hardware.as_slice())
        && a.release == b.release
}

/// Whether both have no second hash, or both the same one.
fn same_hash(a: &Option<[u8; 64]>, b: &Option<[u8; 64]>) -> bool
    ensures { result ≡ option_eq bytes_eq a.now b.now }
{
    match (a, b) {
        (None, None) => true,
        (Some(a), Some(b)) => a[..] == b[..],
        _ => false,
    }
}

fn same_names(a: &[Ident], b: &[Ident]) -> bool
    ensures { result ≡ pointwise bytes_eq a.now b.now }
{
    match (a, b) {
        ([], []) => true,
        ([x, xs @ ..], [y, ys @ ..]) => x.text() == y.text() && same_names(xs, ys),
        _ => false,
    }
}
