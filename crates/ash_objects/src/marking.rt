//! The marks of objects that were made, changed or taken away.
ghost use Rattle.std.specs.Prelude.{◌≡◌, ◌≤◌, ◌+◌, ℕ, true, false, List, [], length};
ghost use Rattle.std.specs.Prelude.{IfSome, IfNone, IsSomeAnd, IfOk, OnOk};
ghost use Rattle.std.specs.Prelude.{OnErr, sum_by, vec_len, vec_capacity};
ghost use Rattle.std.specs.List.Sorted.{IsStrictlyIncreasing};
ghost use Rattle.ash_host.specs.Objects.{object_at, IsInOrder};
ghost use Rattle.ash_slots.specs.Store.{change_at};
ghost use Rattle.ash_objects.specs.Listing.{AreListed};
ghost use Rattle.ash_objects.specs.Marking.{marked_of, marked_in, unmarked};
ghost use Rattle.ash_objects.specs.Marking.{unmark_all, without_marks};

use crate::marked_slots::MarkedSlots;
use crate::objects::Objects;
use ash_host::{HostObject, NoMemory};
use ash_slots::Store;
use std::mem;

/// The numbers of the objects that a change concerns.
#[derive(Drop)]
pub struct Changes {
    /// Those that were made or changed, and live, by ascending number.
    pub living: Vec<u64>,
    /// Those that went, sweep by sweep, each by ascending number.
    pub gone: Vec<u64>,
}

// Clears the mark of the object in a slot, if it has one, and returns its number. The slot may be empty.
fn unmark<B>(store: &mut Store<B>, slot: usize) -> Option<u64>
    ensures unmarked { IfSome result
        (λ number. store.new.objects ≡ change_at number unmarked store.old.objects) }
    ensures marked { IfSome result (λ number. IsSomeAnd (object_at number store.old.objects)
        (λ object. (object.item).touched ≡ true)) }
    ensures same { IfNone result (store.new.objects ≡ store.old.objects) }
    ensures clear { (number : ℕ) → IfSome (object_at number store.new.objects)
        (λ object. object.slot ≡ slot → (object.item).touched ≡ false) }
{
    let Some(number) = store.number_in(slot) else {
        return None;
    };
    if !store.item(slot).touched {
        return None;
    }
    let item = store.item_mut(slot);
    item.touched = false;
    Some(number)
}

// Takes all slots from the list, clears the marks of the objects in them, which are all that have one, and appends the
// number of each that had one.
fn unmark_listed<B>(store: &mut Store<B>, marks: &mut MarkedSlots, numbers: &mut Vec<u64>)
    requires in_order { IsInOrder store.old.objects }
    requires listed { AreListed store.old.objects marks.old }
    requires empty { numbers.old.items ≡ [] }
    requires room { length marks.old.slots ≤ vec_capacity numbers.old }
    ensures unmarked { store.new.objects
        ≡ unmark_all (marked_in store.old.objects) store.old.objects }
    ensures numbers { (measure : ℕ → ℕ) → sum_by measure numbers.new.items
        ≡ sum_by measure (marked_in store.old.objects) }
    ensures listed { AreListed store.new.objects marks.new }
    ensures taken { marks.new.slots ≡ [] }
{
    while let Some(slot) = marks.next() {
        if let Some(number) = unmark(store, slot) {
            numbers.push_reserved(number);
        }
    }
}

// Sorts numbers, each of which is there once.
fn sort_numbers(numbers: &mut Vec<u64>)
    ensures effect { (list : List ℕ) → IsStrictlyIncreasing list
        → ((measure : ℕ → ℕ) → sum_by measure numbers.old.items ≡ sum_by measure list)
        → numbers.new.items ≡ list }
{
    numbers.sort_unstable_by_key(|number| *number);
}

impl<B: HostObject> Objects<B> {
    /// The numbers of the objects that were made, changed or taken away since the last such call, but for those that
    /// were made and taken away since; and clears the marks. Where memory is refused the marks stay.
    ///
    /// It looks at what was made or changed since the last such call, and at nothing else of the table.
    pub fn touched(&mut self) -> Result<Changes, NoMemory>
        ensures living { IfOk result (λ touched. touched.living.items ≡ marked_of self.old) }
        ensures gone { IfOk result (λ touched. touched.gone.items ≡ self.old.gone) }
        ensures cleared { OnOk result (self.new ≡ without_marks self.old) }
        ensures unchanged { OnErr result (self.new ≡ self.old) }
    {
        let alloc = *self.gone.allocator();
        let mut living = Vec::new(alloc);
        if living.reserve(self.marks.len()).is_err() {
            return Err(NoMemory);
        }
        unmark_listed(&mut self.store, &mut self.marks, &mut living);
        sort_numbers(&mut living);
        self.settled = self.last;
        let gone = mem::replace(&mut self.gone, Vec::new(alloc));
        Ok(Changes { living, gone })
    }
}
