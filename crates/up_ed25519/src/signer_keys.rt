//! Public keys of secrets that sign, at hand in a table of bounded size.
ghost use Rattle.std.specs.Prelude.{◌≡◌, IfSome, OnSome, bytes_eq, length};
ghost use Rattle.up_curve.specs.Signatures.{public_of as public_of_secret};

use crate::signing::public_of;
use std::alloc::{AllocError, Global};
use std::cell::{Cell, RefCell};
use std::marker::Model;

/// How many there are at most: the roles' of both repositories, and as many more.
const SLOTS: usize = 16;

/// A secret and its public key. Contracts see it as the secret.
#[derive(Drop)]
struct SignerKey {
    secret: [u8; 32],
    public: [u8; 32],
}

impl Model for SignerKey {
    ghost use Rattle.std.specs.Prelude.{◌≡◌, List, ℕ};
    ghost use Rattle.up_curve.specs.Signatures.{public_of};

    ghost Value = { List ℕ };

    ghost view = { λ k. k.secret };

    ghost invariant = { λ k. k.public ≡ public_of k.secret };
}

impl SignerKey {
    /// The public key of a secret of 32 bytes, computed.
    fn new(secret: &[u8]) -> SignerKey
        requires { length secret.now ≡ 32 }
        ensures { result ≡ secret.now }
    {
        let mut bytes = [0; 32];
        bytes.copy_from_slice(secret);
        SignerKey {
            secret: bytes,
            public: public_of(secret),
        }
    }

    /// Its public key.
    fn public(&self) -> [u8; 32]
        ensures { result ≡ public_of_secret self.now }
    {
        self.public
    }

    /// Whether it is of this secret. Each byte is looked at, so that the time doesn't say where they differ.
    fn is_of(&self, secret: &[u8]) -> bool
        ensures { result ≡ bytes_eq self.now secret.now }
    {
        are_same(&self.secret, secret)
    }
}

/// The public keys of the last secrets. Each is right by its type.
#[derive(Drop)]
pub(crate) struct SignerKeys {
    slots: RefCell<Vec<Option<SignerKey>>>,
    next: Cell<usize>,
}

impl SignerKeys {
    /// A table that keeps none; one without slots where memory for them is refused.
    pub(crate) fn new(alloc: Global) -> SignerKeys {
        let slots = match empty_slots(alloc) {
            Ok(slots) => slots,
            Err(_) => Vec::new(alloc),
        };
        SignerKeys {
            slots: RefCell::new(slots),
            next: Cell::new(0),
        }
    }

    /// The public key of a secret, which is kept.
    pub(crate) fn public_of(&self, secret: &[u8]) -> [u8; 32]
        ensures { result ≡ public_of_secret secret.now }
    {
        match self.find(secret) {
            Some(public) => public,
            None => self.computed(secret),
        }
    }

    /// The public key of a secret, where it is kept.
    fn find(&self, secret: &[u8]) -> Option<[u8; 32]>
        ensures { IfSome result (λ public. public ≡ public_of_secret secret.now) }
    {
        let slots = self.slots.try_borrow().ok()?;
        found(slots.as_slice(), secret)
    }

    /// The public key of a secret, which is kept from now on.
    fn computed(&self, secret: &[u8]) -> [u8; 32]
        ensures { result ≡ public_of_secret secret.now }
    {
        if secret.len() != 32 {
            return public_of(secret);
        }
        let key = SignerKey::new(secret);
        let public = key.public();
        self.keep(key);
        public
    }

    /// Keeps a key in the place of the one that was kept first.
    fn keep(&self, key: SignerKey) {
        let slot = self.next.get() % SLOTS;
        self.next.set(slot + 1);
        if let Ok(mut slots) = self.slots.try_borrow_mut() {
            if slot < slots.len() {
                slots[slot] = Some(key);
            }
        }
    }
}

/// The public key of a secret among those that are kept. All are looked at.
fn found(slots: &[Option<SignerKey>], secret: &[u8]) -> Option<[u8; 32]>
    ensures { IfSome result (λ public. public ≡ public_of_secret secret.now) }
{
    let mut public = None;
    for slot in slots {
        public = found_or(slot, secret, public);
    }
    public
}

/// A key's public key where it is of this secret, and else what was found before.
fn found_or(slot: &Option<SignerKey>, secret: &[u8], before: Option<[u8; 32]>) -> Option<[u8; 32]>
    requires { IfSome before (λ public. public ≡ public_of_secret secret.now) }
    ensures { IfSome result (λ public. public ≡ public_of_secret secret.now) }
{
    match slot {
        Some(key) if key.is_of(secret) => Some(key.public()),
        _ => before,
    }
}

/// All slots, without keys.
fn empty_slots(alloc: Global) -> Result<Vec<Option<SignerKey>>, AllocError> {
    let mut slots = Vec::with_capacity(alloc, SLOTS)?;
    for _ in 0..SLOTS {
        slots.push(None)?;
    }
    Ok(slots)
}

/// Whether the two are the same bytes. Where they are of one length, each byte is looked at.
fn are_same(one: &[u8], other: &[u8]) -> bool
    ensures { result ≡ bytes_eq one.now other.now }
{
    if one.len() != other.len() {
        return false;
    }
    let mut difference = 0;
    for (i, byte) in one.iter().enumerate() {
        difference |= *byte ^ other[i];
    }
    difference == 0
}
