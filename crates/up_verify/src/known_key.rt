//! Public parts that a Primary holds, with what is computed of them once.
ghost use Rattle.std.specs.Prelude.{◌≡◌, IfOk, bytes_eq};
ghost use Rattle.up_sign.specs.Hmac.{block_key, key_id};

use std::alloc::{AllocError, Global};
use std::marker::Model;
use up_canon::bytes::Bytes;
use up_canon::text::Text;
use up_sign::key_id::HashedKey;

/// A public part, its identifier and its hashed key. Contracts see it as the public part.
#[derive(Drop)]
pub struct KnownKey {
    public: Bytes,
    key: HashedKey,
    id: Text,
}

impl Model for KnownKey {
    ghost use Rattle.std.specs.Prelude.{◌≡◌, ℕ, List};
    ghost use Rattle.up_sign.specs.Hmac.{block_key, key_id};

    ghost Value = { List ℕ };

    ghost view = { λ k. k.public };

    ghost invariant = { λ k. (k.key ≡ block_key k.public) × (k.id ≡ key_id k.public) };
}

impl KnownKey {
    /// Of this public part.
    pub fn new(alloc: Global, public: Bytes) -> Result<KnownKey, AllocError>
        ensures { IfOk result (λ key. key ≡ public) }
    {
        let key = HashedKey::new(public.as_slice());
        let id = key.id(alloc)?;
        Ok(KnownKey { public, key, id })
    }

    /// The public part.
    pub fn public(&self) -> &[u8]
        ensures { result.now ≡ self.now }
    {
        self.public.as_slice()
    }

    /// Whether this is its identifier.
    pub fn has_id(&self, id: &str) -> bool
        ensures { result ≡ bytes_eq (key_id self.now) id.now }
    {
        self.id.as_str() == id
    }

    /// Its hashed key.
    pub(crate) fn hashed(&self) -> &HashedKey
        ensures { result.now ≡ block_key self.now }
    {
        &self.key
    }
}
