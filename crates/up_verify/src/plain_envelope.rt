//! Envelopes in canonical text: their signatures, and the text that is signed.
ghost use Rattle.std.specs.Prelude.{◌≡◌, ◌++◌, ◌&&◌, List, ℕ, IsTrue, IfOk, length};
ghost use Rattle.std.specs.List.{list_all};
ghost use Rattle.up_canon.specs.Canon.{text};
ghost use Rattle.up_canon.specs.Names.{is_from_to};
ghost use Rattle.up_manifest.specs.Plain.{signatures_text};
ghost use Rattle.up_sign.specs.Formats.{signature_fits, signature_value};
ghost use Rattle.up_sign.specs.Schemes.{is_byte};

use crate::plain_list::{Item, listed};
use crate::plain_members::{bytes_behind, short_text_behind};
use std::alloc::Global;
use up_canon::listed::Listed;
use up_canon::text::Text;
use up_manifest::cursor::{Cursor, Unread};
use up_sign::envelope::Signature;

/// Takes the signatures of an envelope, up to the text that is signed.
pub(crate) fn signatures(
    alloc: Global,
    cursor: &mut Cursor<'_>,
) -> Result<Listed<Signature>, Unread>
    ensures text { IfOk result (λ ss. cursor.old.rest.now ≡ signatures_text ss ++ cursor.new.rest.now) }
    ensures number { IfOk result (λ ss. IsTrue (is_from_to 1 8 (length ss))) }
    ensures fits { IfOk result (λ ss. IsTrue (list_all (λ s. signature_fits s && list_all is_byte s.sig) ss)) }
{
    cursor.pass("{\"signatures\":")?;
    let signatures = listed::<Signature>(alloc, cursor)?;
    cursor.pass(",\"signed\":")?;
    let number = signatures.as_slice().len();
    if number < 1 || number > 8 {
        return Err(Unread);
    }
    Ok(signatures)
}

/// A copy of the text up to where the rest begins.
pub(crate) fn text_before(alloc: Global, begun: &str, rest: &str) -> Result<Text, Unread>
    ensures { IfOk result (λ t. (part : List ℕ) → begun.now ≡ part ++ rest.now → t ≡ part) }
{
    let size = begun.len().saturating_sub(rest.len());
    let taken = Cursor::new(begun).cut(size)?;
    Ok(Text::new(taken.to_string(alloc)?))
}

impl Item for Signature {
    ghost use Rattle.std.specs.Prelude.{◌&&◌};
    ghost use Rattle.std.specs.List.{list_all};
    ghost use Rattle.up_sign.specs.Formats.{signature_fits, signature_value};
    ghost use Rattle.up_sign.specs.Schemes.{is_byte};

    ghost value_of = { signature_value };

    ghost is_fit = { λ s. signature_fits s && list_all is_byte s.sig };

    fn take(alloc: Global, cursor: &mut Cursor<'_>) -> Result<Signature, Unread> {
        signature(alloc, cursor)
    }
}

fn signature(alloc: Global, cursor: &mut Cursor<'_>) -> Result<Signature, Unread>
    ensures text { IfOk result (λ s. cursor.old.rest.now ≡ text (signature_value s) ++ cursor.new.rest.now) }
    ensures fits { IfOk result (λ s. IsTrue (signature_fits s && list_all is_byte s.sig)) }
{
    let keyid = short_text_behind(alloc, cursor, "{\"keyid\":", 128)?;
    let method = short_text_behind(alloc, cursor, ",\"method\":", 64)?;
    let sig = bytes_behind(alloc, cursor, ",\"sig\":", 512)?;
    cursor.pass("}")?;
    Ok(Signature { keyid, method, sig })
}
