//! Public parts that are read back from what a Root shows of them.
ghost use Rattle.std.specs.Prelude.{◌≡◌, IfOk, List, Option, ℕ};
ghost use Rattle.up_shown.specs.Showing.{ReadsShown, showing, reads_none};

use std::alloc::{AllocError, Global};
use up_canon::bytes::Bytes;
use up_sign::hmac_sha256::HmacSha256;
use up_sign::scheme::Scheme;

/// A scheme, with the way back from the text that Root metadata shows of a key.
pub trait Shows: Scheme {
    /// The public part that a shown text means, if any.
    ghost reading: { Self → List ℕ → Option (List ℕ) };

    /// The public part that Root metadata shows by this text. None where the text shows none: so with each text of a scheme
    /// whose public parts are secret.
    fn read_shown(&self, alloc: Global, shown: &str) -> Result<Option<Bytes>, AllocError>
        ensures { IfOk result (λ p. p ≡ reading self.now shown.now) };

    /// What is read is a public part that fits and is shown so.
    ghost reads_shown: { (k : Self) → ReadsShown (showing (Self.rules k) (reading k)) };
}

impl Shows for HmacSha256 {
    ghost use Rattle.up_shown.specs.Showing.{none_is_read};
    ghost use Rattle.up_sign.specs.Hmac.{hmac_sha256};

    ghost reading = { λ _. reads_none };

    fn read_shown(&self, _alloc: Global, _shown: &str) -> Result<Option<Bytes>, AllocError> {
        Ok(None)
    }

    ghost reads_shown = { λ _. none_is_read hmac_sha256 };
}
