//! Hashed keys, kept in a table of bounded size.
ghost use Rattle.std.specs.Prelude.{◌≡◌, ◌<◌, [], None, IfOk, IfSome, OnErr, OnOk, length, option_copied};
ghost use Rattle.std.specs.List.{slice_index_or};
ghost use Rattle.up_sign.specs.Hmac.{block_key};
ghost use Rattle.up_sign.specs.KeyCaches.{empty_slots as all_empty, key_in, slots_of, slot_count, slot_of as slot_of_public, with_key};

use crate::key_id::HashedKey;
use std::alloc::{AllocError, Global};
use std::marker::Model;

/// How many slots a cache has. It is a prime, so that each byte of a public part counts in `slot_of`.
const SLOTS: usize = 4_093;

/// Hashed keys by their public parts, so that they needn't be hashed again. Each public part has one slot, and who has the same
/// slot puts the other out. There are no slots until the first key is kept: a new cache takes no memory, and afterwards it has 4,093
/// slots of 312 bytes, however many keys are kept.
#[derive(Drop)]
pub struct KeyCache {
    slots: Option<Vec<Option<HashedKey>>>,
}

impl Model for KeyCache {
    ghost use Rattle.std.specs.Prelude.{◌≡◌, IfSome, [], length, option_map, unwrap_or};
    ghost use Rattle.up_sign.specs.KeyCaches.{Slots, slot_count};

    ghost Value = { Slots };

    ghost view = { λ c. unwrap_or (option_map (λ v. v.items) c.slots) [] };

    ghost invariant = { λ c. IfSome c.slots (λ v. length v.items ≡ slot_count) };
}

impl KeyCache {
    /// A cache that keeps no key.
    pub fn new() -> KeyCache
        ensures { result ≡ [] }
    {
        KeyCache { slots: None }
    }

    /// The hashed key of this public part, where it is kept. What is compared is the whole key, and in a time that depends on the
    /// bytes: so the public part is to come from whoever knows it, and not from who sent a message.
    pub fn find(&self, public: &[u8]) -> Option<&HashedKey>
        ensures key { IfSome (option_copied result) (λ key. key ≡ block_key public.now) }
        ensures found { option_copied result ≡ key_in self.now public.now }
    {
        let key = self.key_at(slot_of(public))?;
        if !key.is_of(public) {
            return None;
        }
        Some(key)
    }

    /// Keeps the hashed key of this public part, in the place of whichever was in its slot. On an error all are kept that were.
    pub fn keep(&mut self, alloc: Global, public: &[u8]) -> Result<(), AllocError>
        ensures ok { OnOk result (self.new ≡ with_key self.old public.now) }
        ensures err { OnErr result (self.new ≡ self.old) }
    {
        if let Some(_) = self.find(public) {
            return Ok(());
        }
        let mut slots = self.take_slots(alloc)?;
        slots[slot_of(public)] = Some(HashedKey::new(public));
        self.slots = Some(slots);
        Ok(())
    }

    /// The slots, made where there are none yet. There are none until they are put back; on an error all is as it was.
    fn take_slots(&mut self, alloc: Global) -> Result<Vec<Option<HashedKey>>, AllocError>
        ensures value { IfOk result (λ taken. taken.items ≡ slots_of self.old) }
        ensures number { IfOk result (λ taken. length taken.items ≡ slot_count) }
        ensures err { OnErr result (self.new ≡ self.old) }
    {
        match self.slots.take() {
            Some(slots) => Ok(slots),
            None => empty_slots(alloc),
        }
    }

    /// The key in a slot.
    fn key_at(&self, slot: usize) -> Option<&HashedKey>
        requires { slot < slot_count }
        ensures { option_copied result ≡ slice_index_or self.now slot None }
    {
        match &self.slots {
            Some(slots) => slots[slot].as_ref(),
            None => None,
        }
    }
}

/// All slots, without keys.
fn empty_slots(alloc: Global) -> Result<Vec<Option<HashedKey>>, AllocError>
    ensures value { IfOk result (λ empty. empty.items ≡ all_empty) }
    ensures number { IfOk result (λ empty. length empty.items ≡ slot_count) }
{
    let mut empty = Vec::with_capacity(alloc, SLOTS)?;
    for _ in 0..SLOTS {
        empty.push(None)?;
    }
    Ok(empty)
}

/// The slot of a public part: the number that its bytes write, modulo the number of slots.
fn slot_of(public: &[u8]) -> usize
    ensures slot { result ≡ slot_of_public public.now }
    ensures within { result < slot_count }
{
    let mut slot = 0;
    for byte in public {
        slot = (slot * 256 + *byte as usize) % SLOTS;
    }
    slot
}
