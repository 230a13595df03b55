//! Objects in slots, found by their numbers.
ghost use Rattle.std.specs.Prelude.{◌≡◌, ◌≤◌, ◌+◌, ◌↔◌, []};
ghost use Rattle.std.specs.Prelude.{IsTrue, ℕ, true, false, length, option_map};
ghost use Rattle.std.specs.Prelude.{nat_eq, IsSomeAnd, IfSome, IfNone, OnSome};
ghost use Rattle.std.specs.Prelude.{IfOk, IfErr, OnErr, Some, None};
ghost use Rattle.std.specs.Map.{remove_entry};
ghost use Rattle.ash_host.specs.Objects.{object_at, with_at, numbers, IsInOrder};
ghost use Rattle.std.specs.Borrow.{sem};
ghost use Rattle.ash_slots.specs.Store.{IsIn, IsOccupied, AreStored, IsIdle};
ghost use Rattle.ash_slots.specs.Store.{NoneWaits, change_in, with_waiting};

use crate::entry::{Entry, Occupant};
use crate::guesses::Guesses;
use slab::Slab;
use std::alloc::{AllocFailed, Global};
use std::collections::BTreeMap;
use std::collections::btree_map::Keys;
use std::marker::Model;

/// Objects in slots, found by their numbers, and a list of those that the next sweep looks at.
#[derive(Drop)]
pub struct Store<B> {
    entries: Slab<Entry<B>>,
    /// The slot of each number.
    index: BTreeMap<u64, usize>,
    /// The slots that numbers are looked for in before the index is asked.
    guesses: Guesses,
    /// The slots that the next sweep looks at. Each entry has room in it.
    idle: Vec<usize>,
}

impl<B> Model for Store<B> {
    ghost use Rattle.std.specs.Prelude.{length, vec_capacity};
    ghost use Rattle.ash_slots.specs.Store.{Store as StoreModel, placed_in, IsStored};

    ghost Value = { StoreModel B };

    ghost view = { λ s. record {
      objects = placed_in s.entries s.index.entries;
      pending = length s.idle.items;
      room = vec_capacity s.idle;
      vacant = s.entries.vacant_key;
    } };

    ghost invariant = { λ s. IsStored s.entries s.index.entries s.idle.items
        (vec_capacity s.idle) };
}

impl<B> Store<B> {
    ghost use Rattle.ash_slots.specs.Lending.{lends_item};

    /// No objects.
    pub fn new(alloc: Global) -> Store<B>
        ensures objects { result.objects ≡ [] }
    {
        Store {
            entries: Slab::new(alloc),
            index: BTreeMap::new(alloc),
            guesses: Guesses::new(alloc),
            idle: Vec::new(alloc),
        }
    }

    /// The slot of the object of a number.
    #[inline(always)]
    pub fn slot(&self, number: u64) -> Option<usize>
        ensures slot { result
            ≡ option_map (λ object. object.slot) (object_at number self.now.objects) }
    {
        let guess = self.guesses.guess(number);
        if self.is_in(number, guess) {
            return Some(guess);
        }
        self.slot_by_index(number)
    }

    /// The slot of the object of a number, which is remembered. It takes no memory.
    #[inline(always)]
    pub fn find(&mut self, number: u64) -> Option<usize>
        ensures slot { result
            ≡ option_map (λ object. object.slot) (object_at number self.old.objects) }
        ensures same { self.new ≡ self.old }
    {
        let guess = self.guesses.guess(number);
        if self.is_in(number, guess) {
            return Some(guess);
        }
        self.find_by_index(number)
    }

    /// Whether the object of a number is in a slot.
    #[inline(always)]
    fn is_in(&self, number: u64, slot: usize) -> bool
        ensures is_in { IsTrue result ↔ IsIn number slot self.now.objects }
    {
        match self.entries.get(slot) {
            Some(entry) => entry.number == number,
            None => false,
        }
    }

    /// The slot of the object of a number, with no guess.
    #[inline(never)]
    fn slot_by_index(&self, number: u64) -> Option<usize>
        ensures slot { result
            ≡ option_map (λ object. object.slot) (object_at number self.now.objects) }
    {
        self.index.get(&number).copied()
    }

    /// The slot of the object of a number, with no guess. It is remembered.
    #[inline(never)]
    fn find_by_index(&mut self, number: u64) -> Option<usize>
        ensures slot { result
            ≡ option_map (λ object. object.slot) (object_at number self.old.objects) }
        ensures same { self.new ≡ self.old }
    {
        let slot = self.slot_by_index(number)?;
        self.guesses.remember(number, slot);
        Some(slot)
    }

    /// The object in a slot.
    pub fn item(&self, slot: usize) -> &Occupant<B>
        requires occupied { IsOccupied slot self.now.objects }
        ensures value { (number : ℕ) → IsIn number slot self.now.objects
            → IsSomeAnd (object_at number self.now.objects) (λ object. object.item ≡ result.now) }
    {
        let Some(entry) = self.entries.get(slot) else {
            unreachable!()
        };
        &entry.item
    }

    /// The object in a slot, to change it.
    pub fn item_mut(&mut self, slot: usize) -> &mut Occupant<B>
        requires occupied { IsOccupied slot self.old.objects }
        ensures* writes_back { sem 𝓛 (lends_item B.row self.entry slot result) }
        ensures value { (number : ℕ) → IsIn number slot self.old.objects
            → IsSomeAnd (object_at number self.old.objects) (λ object. object.item ≡ result.now) }
        ensures stored { AreStored self.old.objects }
    {
        let Some(entry) = self.entries.get_mut(slot) else {
            unreachable!()
        };
        &mut entry.item
    }

    /// How many objects there are.
    pub fn len(&self) -> usize
        ensures len { result ≡ length self.now.objects }
        ensures stored { AreStored self.now.objects }
    {
        self.index.len()
    }

    /// The numbers of the objects, in ascending order.
    pub fn numbers(&self) -> Keys<'_, u64, usize>
        ensures numbers { result ≡ numbers self.now.objects }
    {
        self.index.keys()
    }

    /// The number of the object in a slot.
    pub fn number(&self, slot: usize) -> u64
        requires occupied { IsOccupied slot self.now.objects }
        ensures number { (number : ℕ) → IsIn number slot self.now.objects → result ≡ number }
    {
        let Some(entry) = self.entries.get(slot) else {
            unreachable!()
        };
        entry.number
    }

    /// The number of the object in a slot. The slot may be empty.
    pub fn number_in(&self, slot: usize) -> Option<u64>
        ensures some { IfSome result (λ number. IsIn number slot self.now.objects) }
        ensures none { IfNone result (IsOccupied slot self.now.objects → ⊥) }
    {
        Some(self.entries.get(slot)?.number)
    }

    /// Whether the object in a slot is counted nowhere. The slot may be empty.
    pub fn is_idle(&self, slot: usize) -> bool
        ensures idle { IsTrue result ↔ IsIdle slot self.now.objects }
    {
        match self.entries.get(slot) {
            Some(entry) => entry.item.count == 0,
            None => false,
        }
    }

    /// Has the next sweep look at a slot.
    pub fn queue_for_sweep(&mut self, slot: usize)
        requires occupied { IsOccupied slot self.old.objects }
        ensures objects { self.new.objects ≡ change_in slot (with_waiting true) self.old.objects }
        ensures room { self.new.room ≡ self.old.room }
        ensures fits { self.new.pending ≤ self.new.room }
        ensures stored { AreStored self.old.objects }
    {
        let Some(entry) = self.entries.get_mut(slot) else {
            unreachable!()
        };
        if !entry.waiting {
            entry.waiting = true;
            self.idle.push_reserved(slot);
        }
    }

    /// Whether no slot is listed for the next sweep.
    pub fn none_waits(&self) -> bool
        ensures none { IsTrue result → NoneWaits self.now.objects }
    {
        self.idle.is_empty()
    }

    /// Takes a slot from the list of those that the next sweep looks at. The slot may be empty.
    pub fn next_waiting(&mut self) -> Option<usize>
        ensures objects { IfSome result
            (λ slot. self.new.objects ≡ change_in slot (with_waiting false) self.old.objects) }
        ensures fewer { OnSome result (self.new.pending + 1 ≡ self.old.pending) }
        ensures room { self.new.room ≡ self.old.room }
        ensures same { IfNone result (self.new ≡ self.old) }
        ensures none { IfNone result (NoneWaits self.old.objects) }
        ensures fits { self.old.pending ≤ self.old.room }
        ensures stored { AreStored self.old.objects }
    {
        let Some(slot) = self.idle.pop() else {
            return None;
        };
        let Some(entry) = self.entries.get_mut(slot) else {
            return Some(slot);
        };
        entry.waiting = false;
        Some(slot)
    }

    /// The slot that the next object is put into.
    pub fn vacant(&self) -> usize
        ensures slot { result ≡ self.now.vacant }
    {
        self.entries.vacant_key()
    }

    /// Puts an object of a new number into the vacant slot. The next sweep looks at it.
    pub fn insert(
        &mut self,
        number: u64,
        item: Occupant<B>,
    ) -> Result<usize, AllocFailed<Occupant<B>>>
        requires unused { object_at number self.old.objects ≡ None }
        ensures objects { IfOk result
            (λ slot. self.new.objects
            ≡ with_at number (record { slot = slot; waiting = true; item = item })
            self.old.objects) }
        ensures slot { IfOk result (λ slot. slot ≡ self.old.vacant) }
        ensures unchanged { OnErr result (self.new.objects ≡ self.old.objects) }
        ensures given_back { IfErr result (λ failed. failed.value ≡ item) }
    {
        if self.guesses.reserve_all().is_err() {
            return Err(AllocFailed { value: item });
        }
        if self.entries.reserve(1).is_err() {
            return Err(AllocFailed { value: item });
        }
        let room = self.entries.capacity();
        if self.idle.reserve(room).is_err() {
            return Err(AllocFailed { value: item });
        }
        let slot = self.entries.vacant_key();
        if self.index.insert(number, slot).is_err() {
            return Err(AllocFailed { value: item });
        }
        self.entries.insert_reserved(Entry {
            number,
            waiting: true,
            item,
        });
        self.idle.push_reserved(slot);
        self.guesses.remember(number, slot);
        Ok(slot)
    }

    /// Takes the object out of a slot.
    pub fn remove(&mut self, slot: usize) -> Entry<B>
        requires occupied { IsOccupied slot self.old.objects }
        ensures number { IsIn result.number slot self.old.objects }
        ensures item { IsSomeAnd (object_at result.number self.old.objects)
            (λ object. object.item ≡ result.item) }
        ensures objects { self.new.objects ≡ remove_entry (nat_eq result.number) self.old.objects }
        ensures in_order { IsInOrder self.new.objects }
        ensures room { self.new.room ≡ self.old.room }
        ensures pending { self.new.pending ≡ self.old.pending }
    {
        let entry = self.entries.remove(slot);
        self.index.remove(&entry.number);
        entry
    }
}
