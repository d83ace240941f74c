//! Writing the signatures of an envelope.
ghost use Rattle.std.specs.Prelude.{◌≡◌, ◌++◌, IsTrue, IfOk, OnOk, string_bytes, map, true};
ghost use Rattle.std.specs.List.{list_all};
ghost use Rattle.up_canon.specs.Build.{list_with};
ghost use Rattle.up_canon.specs.Canon.{text};
ghost use Rattle.up_sign.specs.Formats.{signature_fits, signature_value};
ghost use Rattle.up_sign.specs.Schemes.{is_byte};

use crate::envelope::Signature;
use std::alloc::{AllocError, Global};
use up_canon::writing::{push_hex, push_quoted};

/// Appends the list of the signatures.
pub(crate) fn push_signatures(
    alloc: Global,
    out: &mut String,
    signatures: &[Signature],
) -> Result<(), AllocError>
    requires { IsTrue (list_all signature_fits signatures.now) }
    ensures value { IfOk result
        (λ _. string_bytes out.new ≡ string_bytes out.old ++ text (list_with (map signature_value signatures.now))) }
    ensures bytes { OnOk result (list_all (λ s. list_all is_byte s.sig) signatures.now ≡ true) }
{
    out.push('[')?;
    let mut separator = "";
    for signature in signatures.iter() {
        out.push_str(separator)?;
        push_signature(alloc, out, signature)?;
        separator = ",";
    }
    out.push(']')?;
    Ok(())
}

#[tactic(auto, unfolding(crate::specs::Formats::signature_value))]
fn push_signature(alloc: Global, out: &mut String, signature: &Signature) -> Result<(), AllocError>
    requires { IsTrue (signature_fits signature.now) }
    ensures value { IfOk result
        (λ _. string_bytes out.new ≡ string_bytes out.old ++ text (signature_value signature.now)) }
    ensures bytes { OnOk result (list_all is_byte signature.now.sig ≡ true) }
{
    out.push_str("{\"keyid\":")?;
    push_quoted(out, signature.keyid.as_str())?;
    out.push_str(",\"method\":")?;
    push_quoted(out, signature.method.as_str())?;
    out.push_str(",\"sig\":")?;
    let sig = signature.sig.as_slice();
    push_hex(alloc, out, sig)?;
    out.push('}')?;
    Ok(())
}
