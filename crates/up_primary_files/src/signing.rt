//! Secrets that sign.
ghost use Rattle.std.specs.Prelude.{◌≡◌, IfOk, IsTrue};
ghost use Rattle.up_canon.specs.Members.{object_of_map};
ghost use Rattle.up_canon.specs.Refusals.{Gives};
ghost use Rattle.up_primary_files.specs.Manifests.{secret_in};

use serde_json::{Map, Value};
use std::alloc::Global;
use up_canon::bytes::Bytes;
use up_canon::hex_text::hex_at;
use up_canon::refusal::Refusal;
use up_sign::scheme::Scheme;

/// The secret of the member `key`, of 64 hexadecimal digits, where it is one of the scheme.
#[tactic(auto, unfolding(crate::specs::Manifests::secret_in, up_canon::specs::Steps::and_then))]
pub(crate) fn secret_at<K: Scheme>(
    alloc: Global,
    scheme: &K,
    map: &Map<String, Value>,
) -> Result<Bytes, Refusal>
    ensures value { Gives result (secret_in (K.rules scheme.now) (object_of_map map.now.entries)) }
    ensures fits { IfOk result (λ secret. IsTrue ((K.rules scheme.now).secret_fits secret)) }
{
    let secret = hex_at(alloc, map, "key", 64, 64)?;
    if scheme.secret_fits(secret.as_slice()) {
        Ok(secret)
    } else {
        Err(Refusal::from("key"))
    }
}
