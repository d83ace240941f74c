//! The texts of files: envelopes over payloads.
ghost use Rattle.std.specs.Prelude.{◌≡◌, IfOk, map, string_bytes};
ghost use Rattle.up_sign.specs.Envelopes.{key_block, sealed_envelope};
ghost use Rattle.up_sign.specs.Formats.{envelope_text};
ghost use Rattle.up_roles.specs.Writing.{CanSeal};

use std::alloc::{AllocError, Global};
use up_canon::bytes::Bytes;
use up_sign::key_id::HashedKey;
use up_sign::scheme::Scheme;
use up_sign::seal::seal_by;

/// The text of the envelope over a payload's text, with a signature for each secret in order, whose keys, hashed, are these.
pub(crate) fn sealed_text<K: Scheme>(
    alloc: Global,
    scheme: &K,
    secrets: &[Bytes],
    keys: &[HashedKey],
    signed: String,
) -> Result<String, AllocError>
    requires signers { CanSeal (K.rules scheme.now) secrets.now }
    requires hashed { keys.now ≡ map (key_block (K.rules scheme.now)) secrets.now }
    ensures { IfOk result (λ t. string_bytes t ≡ envelope_text
        (sealed_envelope (K.rules scheme.now) secrets.now (string_bytes signed))) }
{
    seal_by(alloc, scheme, secrets, keys, signed)?.text(alloc)
}
