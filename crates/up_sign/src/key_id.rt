//! Identifiers of keys.
ghost use Rattle.std.specs.Prelude.{◌≡◌, List, ℕ, IfOk, bytes_eq, codes};
ghost use Rattle.hex.specs.Hex.{encode_lower};
ghost use Rattle.up_sign.specs.Hmac.{hmac as hmac_of, hmac_under, block_key, key_id as key_id_of};

use crate::hmac_sha256::HmacKey;
use std::alloc::{AllocError, Global};
use std::marker::Model;
use up_canon::listed::Duplicate;
use up_canon::text::Text;

/// The bytes whose lower case hex is the identifier of a public part, in every scheme.
#[tactic(auto, unfolding(crate::specs::Hmac::hmac))]
pub fn key_id(public: &[u8]) -> [u8; 32]
    ensures bytes { result ≡ hmac_of public.now (codes "uptane-key-id") }
    ensures identifier { encode_lower result ≡ key_id_of public.now }
{
    HashedKey::new(public).id
}

/// The identifier of a public part: 64 lower case hex digits.
pub fn key_id_text(alloc: Global, public: &[u8]) -> Result<Text, AllocError>
    ensures { IfOk result (λ text. text ≡ key_id_of public.now) }
{
    Ok(Text::new(hex::encode(alloc, key_id(public))?))
}

/// A public part's identifier and the HMAC key that computes it, made once for all that is signed or checked with it.
/// Contracts see it as that key's block (RFC 2104, section 2).
#[derive(Drop)]
pub struct HashedKey {
    mac: HmacKey,
    id: [u8; 32],
}

impl Model for HashedKey {
    ghost Value = { List ℕ };

    ghost view = { λ k. k.mac };

    ghost invariant = { λ k. k.id ≡ hmac_under k.mac (codes "uptane-key-id") };
}

impl HashedKey {
    /// Computes both of a public part; takes no memory.
    pub fn new(public: &[u8]) -> HashedKey
        ensures { result ≡ block_key public.now }
    {
        let mac = HmacKey::new(public);
        let id = mac.tag("uptane-key-id".as_bytes());
        HashedKey { mac, id }
    }

    /// The identifier: 64 lower case hex digits.
    #[tactic(auto, unfolding(crate::specs::Hmac::hmac))]
    pub fn id(&self, alloc: Global) -> Result<Text, AllocError>
        ensures { (public : List ℕ) → self.now ≡ block_key public → IfOk result (λ id. id ≡ key_id_of public) }
    {
        Ok(Text::new(hex::encode(alloc, self.id)?))
    }

    /// Whether it is of this public part.
    pub(crate) fn is_of(&self, public: &[u8]) -> bool
        ensures { result ≡ bytes_eq self.now (block_key public.now) }
    {
        self.mac.is_of(public)
    }

    /// The HMAC key.
    pub(crate) fn mac(&self) -> &HmacKey
        ensures { result.now ≡ self.now }
    {
        &self.mac
    }

    /// The digits of the identifier, as a signature names it.
    #[tactic(auto, unfolding(crate::specs::Hmac::hmac))]
    pub(crate) fn digits(&self) -> [u8; 64]
        ensures { (public : List ℕ) → self.now ≡ block_key public → result ≡ key_id_of public }
    {
        digits_of(&self.id)
    }
}

impl Duplicate for HashedKey {
    fn copy(&self, alloc: Global) -> Result<HashedKey, AllocError> {
        Ok(HashedKey {
            mac: self.mac.copy(alloc)?,
            id: self.id,
        })
    }
}

fn digits_of(key_id: &[u8; 32]) -> [u8; 64]
    ensures { result ≡ encode_lower key_id.now }
{
    let mut digits = [0; 64];
    let _written = hex::encode_to_slice(*key_id, &mut digits[..]);
    digits
}
