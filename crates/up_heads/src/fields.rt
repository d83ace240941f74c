//! The fields of a head.
ghost use Rattle.std.specs.Prelude.{◌≡◌, All, length, map, IfSome, IfNone, ℕ, List, [], ◌∷◌};
ghost use Rattle.httparse.specs.Spans.{IsHeaderWithin, header_bytes};
ghost use Rattle.up_heads.specs.Fields.{is_named as named, values};

use httparse::spans::HeaderSpan;

/// Whether a field has this name; case is ignored.
pub(crate) fn is_named(bytes: &[u8], field: &HeaderSpan, name: &[u8]) -> bool
    requires { IsHeaderWithin (length bytes.now) field.now }
    ensures { result ≡ named name.now (header_bytes bytes.now field.now) }
{
    field.name.of(bytes).eq_ignore_ascii_case(name)
}

/// How many fields have this name.
pub(crate) fn count_of(bytes: &[u8], fields: &[HeaderSpan], name: &[u8]) -> usize
    requires { All (IsHeaderWithin (length bytes.now)) fields.now }
    ensures { result ≡ length (values name.now (map (header_bytes bytes.now) fields.now)) }
{
    let mut count = 0;
    for field in fields {
        if is_named(bytes, field, name) {
            count += 1;
        }
    }
    count
}

/// The value of the first field of this name.
pub(crate) fn value_of<'b>(bytes: &'b [u8], fields: &[HeaderSpan], name: &[u8]) -> Option<&'b [u8]>
    requires { All (IsHeaderWithin (length bytes.now)) fields.now }
    ensures some { IfSome result (λ value. (rest : List (List ℕ))
        × (values name.now (map (header_bytes bytes.now) fields.now) ≡ value.now ∷ rest)) }
    ensures none { IfNone result (values name.now (map (header_bytes bytes.now) fields.now) ≡ []) }
{
    for field in fields {
        if is_named(bytes, field, name) {
            return Some(field.value.of(bytes));
        }
    }
    None
}
