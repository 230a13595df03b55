//! The table of objects.
ghost use Rattle.std.specs.Prelude.{◌≡◌, ◌<◌, ◌≤◌, ◌+◌, ◌^◌, ℕ, [], Some, IsSome, IfSome};
ghost use Rattle.std.specs.Option.{option_copied};
ghost use Rattle.ash_host.specs.Objects.{Lives};
ghost use Rattle.ash_objects.specs.Table.{slot_of, body_of, count_of, holds_of, field_of, IsInUse};
ghost use Rattle.ash_objects.specs.Table.{HasFieldIn, IsAlive, held, unheld};
ghost use Rattle.ash_objects.specs.Table.{with_object, with_field};

use crate::marked_slots::MarkedSlots;
use ash_host::{HostObject, Word};
use ash_slots::{
    Body, Store, add_ref, decrement_count, increment_count, read_word, remove_ref, write_word,
};
use std::alloc::Global;
use std::marker::Model;

/// The live objects of a host by their numbers, with their counts; the boxes that are free; the services.
///
/// An object is in a slot while it lives, and a call that takes a slot does what the call that takes the object's
/// number does, with no look-up. That a number or a slot handed in is that of a live object is for the caller to know.
#[derive(Drop)]
pub struct Objects<B = Box<dyn HostObject>> {
    pub(crate) store: Store<B>,
    pub(crate) pool: Vec<B>,
    pub(crate) services: Vec<B>,
    pub(crate) last: u64,
    pub(crate) settled: u64,
    pub(crate) gone: Vec<u64>,
    /// The slots of all objects that were made or changed, and of some where such an object was.
    pub(crate) marks: MarkedSlots,
}

impl<B> Model for Objects<B> {
    ghost use Rattle.ash_objects.specs.Table.{Table};
    ghost use Rattle.ash_objects.specs.Counting.{living_in};
    ghost use Rattle.ash_objects.specs.Listing.{IsInListing};

    ghost Value = { Table B };

    ghost view = { λ s. record {
      objects = living_in s.store.objects;
      pool = s.pool.items;
      services = s.services.items;
      last = s.last;
      settled = s.settled;
      gone = s.gone.items;
    } };

    ghost invariant = { λ s. IsInListing s.store.objects s.last s.settled s.marks };
}

impl<B> Objects<B> {
    /// A table without objects, over these free boxes and these services, each in order. It takes no memory.
    pub fn new(alloc: Global, pool: Vec<B>, services: Vec<B>) -> Objects<B>
        ensures objects { result.objects ≡ [] }
        ensures pool { result.pool ≡ pool.items }
        ensures services { result.services ≡ services.items }
        ensures last { result.last ≡ 0 }
        ensures settled { result.settled ≡ 0 }
        ensures gone { result.gone ≡ [] }
    {
        Objects {
            store: Store::new(alloc),
            pool,
            services,
            last: 0,
            settled: 0,
            gone: Vec::new(alloc),
            marks: MarkedSlots::new(alloc),
        }
    }

    /// The slot of an object, if it lives. It takes no memory.
    #[inline(always)]
    pub fn slot(&self, number: u64) -> Option<usize>
        ensures slot { result ≡ slot_of number self.now }
    {
        self.store.slot(number)
    }

    /// The slot of an object, if it lives. It is found sooner if it was found or made a short time ago. It takes no
    /// memory.
    #[inline(always)]
    pub fn find(&mut self, number: u64) -> Option<usize>
        ensures slot { result ≡ slot_of number self.old }
        ensures same { self.new ≡ self.old }
    {
        self.store.find(number)
    }

    /// The word at a place of the object in a slot, if it has such a place. It takes no memory.
    #[inline(always)]
    pub fn word_at(&self, slot: usize, place: usize) -> Option<Word>
        requires lives { IsInUse slot self.now }
        ensures word { (number : ℕ) → slot_of number self.now ≡ Some slot
            → result ≡ field_of number place self.now }
    {
        self.store.item(slot).body.words().get(place).copied()
    }

    /// The number of the object in a slot. It takes no memory.
    pub fn number(&self, slot: usize) -> u64
        requires lives { IsInUse slot self.now }
        ensures number { (number : ℕ) → slot_of number self.now ≡ Some slot → result ≡ number }
    {
        self.store.number(slot)
    }

    /// What an object is, if it lives. It takes no memory.
    #[inline(always)]
    pub fn body(&self, number: u64) -> Option<&Body<B>>
        ensures body { option_copied result ≡ body_of number self.now }
    {
        let slot = self.store.slot(number)?;
        Some(&self.store.item(slot).body)
    }

    /// The count of an object: the fields and elements that hold it, and one for each `hold` that was not undone. It
    /// is 0 where none lives. It takes no memory.
    pub fn count(&self, number: u64) -> u128
        ensures count { result ≡ count_of number self.now }
    {
        match self.store.slot(number) {
            Some(slot) => self.store.item(slot).count,
            None => 0,
        }
    }

    /// Holds the object in a slot once more. It takes no memory.
    #[inline(always)]
    pub fn hold_at(&mut self, slot: usize)
        requires few { (number : ℕ) × (slot_of number self.old ≡ Some slot)
            × (holds_of number self.old < 2 ^ 127) }
        ensures held { (number : ℕ) → slot_of number self.old ≡ Some slot
            → self.new ≡ with_object number held self.old }
    {
        increment_count(&mut self.store, slot);
    }

    /// Holds an object once more. It takes no memory.
    #[inline(always)]
    pub fn hold(&mut self, number: u64)
        requires lives { Lives self.old.objects number }
        requires few { holds_of number self.old < 2 ^ 127 }
        ensures held { self.new ≡ with_object number held self.old }
    {
        let Some(slot) = self.find(number) else {
            unreachable!()
        };
        self.hold_at(slot);
    }

    /// Undoes a hold of the object in a slot. It takes no memory.
    #[inline(always)]
    pub fn unhold_at(&mut self, slot: usize)
        requires held { (number : ℕ) × (slot_of number self.old ≡ Some slot)
            × (0 < holds_of number self.old) }
        ensures unheld { (number : ℕ) → slot_of number self.old ≡ Some slot
            → self.new ≡ with_object number unheld self.old }
    {
        decrement_count(&mut self.store, slot);
    }

    /// Undoes a hold of an object. It takes no memory.
    #[inline(always)]
    pub fn unhold(&mut self, number: u64)
        requires held { 0 < holds_of number self.old }
        ensures unheld { self.new ≡ with_object number unheld self.old }
    {
        let Some(slot) = self.find(number) else {
            unreachable!()
        };
        self.unhold_at(slot);
    }

    /// The word at a place of the object in a slot. It takes no memory.
    pub fn field_at(&self, slot: usize, place: usize) -> Word
        requires there { HasFieldIn slot place self.now }
        ensures field { (number : ℕ) → slot_of number self.now ≡ Some slot
            → field_of number place self.now ≡ Some result }
    {
        read_word(&self.store, slot, place)
    }

    /// The word at a place of an object. It takes no memory.
    pub fn field(&self, number: u64, place: usize) -> Word
        requires there { IsSome (field_of number place self.now) }
        ensures field { field_of number place self.now ≡ Some result }
    {
        let Some(slot) = self.slot(number) else {
            unreachable!()
        };
        self.field_at(slot, place)
    }

    /// Writes a word at a place of the object in a slot. It takes no memory.
    pub fn set_field_at(&mut self, slot: usize, place: usize, word: Word)
        requires there { HasFieldIn slot place self.old }
        requires alive { IsAlive word self.old }
        ensures written { (number : ℕ) → slot_of number self.old ≡ Some slot
            → self.new ≡ with_object number (with_field place word) self.old }
    {
        add_ref(&mut self.store, word);
        let before = write_word(&mut self.store, slot, place, word);
        self.marks.mark(slot);
        remove_ref(&mut self.store, before);
    }

    /// Writes a word at a place of an object. It takes no memory.
    pub fn set_field(&mut self, number: u64, place: usize, word: Word)
        requires there { IsSome (field_of number place self.old) }
        requires alive { IsAlive word self.old }
        ensures written { self.new ≡ with_object number (with_field place word) self.old }
    {
        let Some(slot) = self.find(number) else {
            unreachable!()
        };
        self.set_field_at(slot, place, word);
    }
}
