//! Public keys that stay decoded, in a table of bounded size.
ghost use Rattle.std.specs.Prelude.{◌≡◌, ◌<◌, IfSome, length};
ghost use Rattle.up_curve.specs.Signatures.{is_valid};

use crate::ready_key::ReadyKey;
use crate::verification::verify;
use std::alloc::{AllocError, Global};
use std::cell::RefCell;

/// How many slots there are.
const SLOTS: usize = 4_093;

/// Public keys that signatures were verified with, each in one slot; who has the same slot puts the other out. The slots take 32 KB,
/// and each that is filled 2 KB more. Contracts can't see what is kept: each key that is taken out of it is right by its type.
#[derive(Drop)]
pub(crate) struct ReadyKeys {
    alloc: Global,
    slots: RefCell<Vec<Option<Box<ReadyKey>>>>,
}

impl ReadyKeys {
    /// A table that keeps no key; one without slots where memory for them is refused.
    pub(crate) fn new(alloc: Global) -> ReadyKeys {
        let slots = match empty_slots(alloc) {
            Ok(slots) => slots,
            Err(_) => Vec::new(alloc),
        };
        ReadyKeys {
            alloc,
            slots: RefCell::new(slots),
        }
    }

    /// Whether the signature of a message is valid under a public key, which is kept.
    pub(crate) fn verify(&self, public: &[u8], message: &[u8], signature: &[u8]) -> bool
        ensures { result ≡ is_valid public.now message.now signature.now }
    {
        match self.by_kept(public, message, signature) {
            Some(valid) => valid,
            None => self.by_new(public, message, signature),
        }
    }

    /// Keeps a public key whose slot is free, so that its first signature finds it.
    pub(crate) fn prepare(&self, public: &[u8]) {
        if public.len() != 32 || !self.is_free(slot_of(public)) {
            return;
        }
        if let Some(key) = ReadyKey::new(public) {
            self.keep(key);
        }
    }

    /// Whether there is such a slot, without a key.
    fn is_free(&self, slot: usize) -> bool {
        match self.slots.try_borrow() {
            Ok(slots) => slot < slots.len() && slots[slot].is_none(),
            Err(_) => false,
        }
    }

    /// Whether the signature is valid, by a key that is kept.
    fn by_kept(&self, public: &[u8], message: &[u8], signature: &[u8]) -> Option<bool>
        ensures { IfSome result (λ valid. valid ≡ is_valid public.now message.now signature.now) }
    {
        let slots = self.slots.try_borrow().ok()?;
        let key = slots.get(slot_of(public))?.as_ref()?;
        if &key.bytes()[..] == public {
            Some(key.verify(message, signature))
        } else {
            None
        }
    }

    /// Whether the signature is valid, by a key that is kept from now on.
    fn by_new(&self, public: &[u8], message: &[u8], signature: &[u8]) -> bool
        ensures { result ≡ is_valid public.now message.now signature.now }
    {
        if public.len() != 32 {
            return verify(public, message, signature);
        }
        let Some(key) = ReadyKey::new(public) else {
            return verify(public, message, signature);
        };
        let valid = key.verify(message, signature);
        self.keep(key);
        valid
    }

    /// Keeps a key, where memory and the table allow it.
    fn keep(&self, key: ReadyKey) {
        let slot = slot_of(key.bytes());
        let Ok(key) = Box::new(self.alloc, key) else {
            return;
        };
        if let Ok(mut slots) = self.slots.try_borrow_mut() {
            if slot < slots.len() {
                slots[slot] = Some(key);
            }
        }
    }
}

/// All slots, without keys.
fn empty_slots(alloc: Global) -> Result<Vec<Option<Box<ReadyKey>>>, AllocError> {
    let mut slots = Vec::with_capacity(alloc, SLOTS)?;
    for _ in 0..SLOTS {
        slots.push(None)?;
    }
    Ok(slots)
}

/// The slot of a public key: keys are drawn evenly, so that three bytes are enough.
fn slot_of(public: &[u8]) -> usize {
    match public {
        [a, b, c, ..] => (*a as usize + *b as usize * 256 + *c as usize * 65_536) % SLOTS,
        _ => 0,
    }
}
