//! Envelopes: a signed text with its signatures.
ghost use Rattle.std.specs.Prelude.{◌≡◌, ◌++◌, IsTrue, IfOk, OnOk, string_bytes, true};
ghost use Rattle.up_sign.specs.Formats.{envelope_fits, has_bytes, envelope_text};

use crate::writing::push_signatures;
use std::alloc::{AllocError, Global};
use up_canon::bytes::Bytes;
use up_canon::listed::{Duplicate, Listed};
use up_canon::text::Text;

/// Bytes of room that a text gets for each signature, so that it doesn't grow while it is written. One of the shipped scheme
/// takes 172.
const ROOM_OF_A_SIGNATURE: usize = 256;

/// A signature over the signed text, with the identifier of its key and the name of its method. The type bounds none of
/// them: what is read and what is sealed keeps the limits of the format (`envelope_fits`), which `Envelope::text` asks for.
#[derive(Debug, Drop)]
pub struct Signature {
    pub keyid: Text,
    pub method: Text,
    pub sig: Bytes,
}

impl Duplicate for Signature {
    fn copy(&self, alloc: Global) -> Result<Signature, AllocError> {
        Ok(Signature {
            keyid: self.keyid.copy(alloc)?,
            method: self.method.copy(alloc)?,
            sig: self.sig.copy(alloc)?,
        })
    }
}

/// A signed text and its signatures. Any text and any number of signatures may stand in it: `read_envelope` gives only
/// 1 to 8 signatures over the canonical text of an object, and `seal` one for each of 1 to 8 secrets.
#[derive(Debug, Drop)]
pub struct Envelope {
    pub signatures: Listed<Signature>,
    pub signed: Text,
}

impl Envelope {
    /// Its JSON text, in which the signed text stands as it is. Its signatures are bytes, so that by `envelope_laws` the
    /// text is read as the same envelope.
    pub fn text(&self, alloc: Global) -> Result<String, AllocError>
        requires limits { IsTrue (envelope_fits self.now) }
        ensures value { IfOk result (λ text. string_bytes text ≡ envelope_text self.now) }
        ensures bytes { OnOk result (has_bytes self.now ≡ true) }
    {
        let (signed, signatures) = (self.signed.as_str(), self.signatures.as_slice());
        let room = signed
            .len()
            .saturating_add(ROOM_OF_A_SIGNATURE * signatures.len());
        let mut out = String::with_capacity(alloc, room)?;
        self.push_to(alloc, &mut out)?;
        Ok(out)
    }

    /// Appends its JSON text. On an error `out` may hold any text.
    #[tactic(auto, unfolding(crate::specs::Formats::envelope_text))]
    pub fn push_to(&self, alloc: Global, out: &mut String) -> Result<(), AllocError>
        requires limits { IsTrue (envelope_fits self.now) }
        ensures value { IfOk result (λ _. string_bytes out.new ≡ string_bytes out.old ++ envelope_text self.now) }
        ensures bytes { OnOk result (has_bytes self.now ≡ true) }
    {
        out.push_str("{\"signatures\":")?;
        push_signatures(alloc, out, self.signatures.as_slice())?;
        out.push_str(",\"signed\":")?;
        out.push_str(self.signed.as_str())?;
        out.push('}')?;
        Ok(())
    }
}

impl Duplicate for Envelope {
    fn copy(&self, alloc: Global) -> Result<Envelope, AllocError> {
        Ok(Envelope {
            signatures: self.signatures.copy(alloc)?,
            signed: self.signed.copy(alloc)?,
        })
    }
}
