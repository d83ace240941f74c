//! Whether an image is registered already, to the last member.
ghost use Rattle.std.specs.Prelude.{◌≡◌, bytes_eq};
ghost use Rattle.std.specs.Cmp.Lexicographic.{pointwise};
ghost use Rattle.up_machine.specs.Repositories.{same_hash as same_hash_of, same_need as same_need_of, same_image as same_image_of};

use up_canon::file_name::FileName;
use up_canon::ident::Ident;
use up_plan::image::{Image, Need};

/// Whether the images are equal, with both hashes and their lists in order.
pub(crate) fn same_image(a: &Image, b: &Image) -> bool
    ensures { result ≡ same_image_of a.now b.now }
{
    a.file.text() == b.file.text()
        && a.length == b.length
        && a.sha256[..] == b.sha256[..]
        && same_hash(&a.sha512, &b.sha512)
        && same_names(a.hardware.as_slice(), b.hardware.as_slice())
        && a.release == b.release
        && same_needs(a.needs.as_slice(), b.needs.as_slice())
        && same_files(a.conflicts.as_slice(), b.conflicts.as_slice())
}

/// Whether both images have no second hash, or both the same one.
fn same_hash(a: &Option<[u8; 64]>, b: &Option<[u8; 64]>) -> bool
    ensures { result ≡ same_hash_of a.now b.now }
{
    match (a, b) {
        (None, None) => true,
        (Some(a), Some(b)) => a[..] == b[..],
        _ => false,
    }
}

fn same_names(a: &[Ident], b: &[Ident]) -> bool
    ensures { result ≡ pointwise bytes_eq a.now b.now }
{
    match (a, b) {
        ([], []) => true,
        ([x, xs @ ..], [y, ys @ ..]) => x.text() == y.text() && same_names(xs, ys),
        _ => false,
    }
}

fn same_files(a: &[FileName], b: &[FileName]) -> bool
    ensures { result ≡ pointwise bytes_eq a.now b.now }
{
    match (a, b) {
        ([], []) => true,
        ([x, xs @ ..], [y, ys @ ..]) => x.text() == y.text() && same_files(xs, ys),
        _ => false,
    }
}

fn same_needs(a: &[Need], b: &[Need]) -> bool
    ensures { result ≡ pointwise same_need_of a.now b.now }
{
    match (a, b) {
        ([], []) => true,
        ([x, xs @ ..], [y, ys @ ..]) => same_need(x, y) && same_needs(xs, ys),
        _ => false,
    }
}

fn same_need(a: &Need, b: &Need) -> bool
    ensures { result ≡ same_need_of a.now b.now }
{
    a.hardware.text() == b.hardware.text() && a.release == b.release
}
