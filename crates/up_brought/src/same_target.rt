//! Whether Targets list just the images that are registered.
ghost use Rattle.std.specs.Prelude.{◌≡◌, bytes_eq};
ghost use Rattle.std.specs.Cmp.Lexicographic.{pointwise};
ghost use Rattle.std.specs.Option.{option_eq};
ghost use Rattle.up_brought.specs.Brought.{same_target as same_target_in};

use up_canon::ident::Ident;
use up_roles::targets::Target;

/// Whether both lists have the same images, in the same order. Which ECU installs one isn't compared: the image repository
/// names none.
pub(crate) fn same_targets(a: &[Target], b: &[Target]) -> bool
    ensures { result ≡ pointwise same_target_in a.now b.now }
{
    match (a, b) {
        ([], []) => true,
        ([x, xs @ ..], [y, ys @ ..]) => same_target(x, y) && same_targets(xs, ys),
        _ => false,
    }
}

fn same_target(a: &Target, b: &Target) -> bool
    ensures { result ≡ same_target_in a.now b.now }
{
    a.file.text() == b.file.text()
        && a.length == b.length
        && a.sha256[..] == b.sha256[..]
        && same_hash(&a.sha512, &b.sha512)
        && same_names(a.hardware.as_slice(), b.hardware.as_slice())
        && a.release == b.release
}

/// Whether both have no second hash, or both the same one.
fn same_hash(a: &Option<[u8; 64]>, b: &Option<[u8; 64]>) -> bool
    ensures { result ≡ option_eq bytes_eq a.now b.now }
{
    match (a, b) {
        (None, None) => true,
        (Some(a), Some(b)) => a[..] == b[..],
        _ => false,
    }
}

fn same_names(a: &[Ident], b: &[Ident]) -> bool
    ensures { result ≡ pointwise bytes_eq a.now b.now }
{
    match (a, b) {
        ([], []) => true,
        ([x, xs @ ..], [y, ys @ ..]) => x.text() == y.text() && same_names(xs, ys),
        _ => false,
    }
}
