//! New images and new files of the image repository.
ghost use Rattle.std.specs.Prelude.{◌≤◌};
ghost use Rattle.up_canon.specs.Moments.{last_command_moment};

use crate::decisions::conditions::check_founding;
use crate::decisions::digests::digest_of;
use crate::decisions::refused::refused;
use crate::decisions::register::{Register, founding_text, keep_founding, put_image};
use std::alloc::{AllocError, Global};
use up_canon::count::Count;
use up_canon::listed::Duplicate;
use up_canon::moment::Moment;
use up_canon::refusal::Refusal;
use up_machine::decide_register::{decide_image, decide_new_image, decide_refresh};
use up_machine::decision::{Decision, RegisterRows};
use up_machine::new_files::register_rows;
use up_plan::image::Image;
use up_sign::scheme::Scheme;

/// The answer to a new image; none where images are put without a decision.
pub(crate) fn new_image<K: Scheme>(
    alloc: Global,
    scheme: &K,
    at: Moment,
    register: &mut Register,
    image: Image,
) -> Result<String, AllocError>
    requires { at ≤ last_command_moment }
{
    if register.puts_images {
        put_image(alloc, &mut register.images, image)?;
        Ok(String::new(alloc))
    } else {
        add_image(alloc, scheme, at, register, image)
    }
}

fn add_image<K: Scheme>(
    alloc: Global,
    scheme: &K,
    at: Moment,
    register: &mut Register,
    image: Image,
) -> Result<String, AllocError>
    requires { at ≤ last_command_moment }
{
    let decided = addition(alloc, scheme, at, register, &image);
    added(alloc, register, image, decided)
}

fn addition<K: Scheme>(
    alloc: Global,
    scheme: &K,
    at: Moment,
    register: &Register,
    image: &Image,
) -> Result<Decision<RegisterRows>, Refusal>
    requires { at ≤ last_command_moment }
{
    let founding = register.founding.copy(alloc)?;
    check_founding(scheme, &founding)?;
    let old = register.images.get(image.file.text());
    match decide_image(at, image, founding, old)? {
        Decision::Already => Ok(Decision::Already),
        Decision::New(founding) => {
            let rows = decide_new_image(alloc, scheme, at, image, founding, &register.images)?;
            Ok(Decision::New(rows))
        }
    }
}

fn added(
    alloc: Global,
    register: &mut Register,
    image: Image,
    decided: Result<Decision<RegisterRows>, Refusal>,
) -> Result<String, AllocError> {
    match decided {
        Ok(Decision::Already) => "already".to_string(alloc),
        Ok(Decision::New(rows)) => {
            let text = new_files(alloc, register, rows);
            put_image(alloc, &mut register.images, image)?;
            text
        }
        Err(refusal) => refused(alloc, refusal),
    }
}

/// The answer to a refresh.
pub(crate) fn refresh<K: Scheme>(
    alloc: Global,
    scheme: &K,
    at: Moment,
    register: &mut Register,
    version: Count,
) -> Result<String, AllocError>
    requires { at ≤ last_command_moment }
{
    match refreshed(alloc, scheme, at, register, version) {
        Ok(rows) => new_files(alloc, register, rows),
        Err(refusal) => refused(alloc, refusal),
    }
}

fn refreshed<K: Scheme>(
    alloc: Global,
    scheme: &K,
    at: Moment,
    register: &Register,
    version: Count,
) -> Result<RegisterRows, Refusal>
    requires { at ≤ last_command_moment }
{
    let founding = register.founding.copy(alloc)?;
    check_founding(scheme, &founding)?;
    let new = decide_refresh(at, version, founding)?;
    Ok(register_rows(alloc, scheme, new, &register.images)?)
}

/// Tells a new version of the image repository.
fn new_files(
    alloc: Global,
    register: &mut Register,
    rows: RegisterRows,
) -> Result<String, AllocError> {
    kept_files(alloc, register, &rows)
}

/// Keeps a new version of the image repository, and tells it with a digest of its three files.
fn kept_files(
    alloc: Global,
    register: &mut Register,
    rows: &RegisterRows,
) -> Result<String, AllocError> {
    keep_founding(alloc, register, &rows.founding)?;
    let files = &rows.files;
    let texts = [&files.targets, &files.snapshot, &files.timestamp];
    let digest = digest_of(alloc, &texts[..])?;
    founding_text(alloc, &rows.founding, digest.as_str())
}
