//! The count of an object, and the words that are handles to it.
ghost use Rattle.std.specs.Prelude.{◌≡◌, ◌<◌, ◌-◌, ◌^◌, ℕ, IfSome};
ghost use Rattle.ash_host.specs.Objects.{Lives, handle};
ghost use Rattle.ash_slots.specs.Store.{IsIn, IsOccupied, AreStored, change_at};
ghost use Rattle.ash_slots.specs.SlotCounting.{counted, incremented, decremented, change_handle};

use crate::store::Store;
use ash_host::Word;

/// Counts the object in a slot once more.
pub fn increment_count<B>(store: &mut Store<B>, slot: usize)
    requires occupied { IsOccupied slot store.old.objects }
    requires fits { (number : ℕ) → counted number store.old.objects < 2 ^ 128 - 1 }
    ensures counted { (number : ℕ) → IsIn number slot store.old.objects
        → store.new.objects ≡ change_at number incremented store.old.objects }
    ensures stored { AreStored store.old.objects }
{
    let item = store.item_mut(slot);
    item.count += 1;
}

/// Counts the object in a slot once less. Where nothing is left the next sweep looks at it.
pub fn decrement_count<B>(store: &mut Store<B>, slot: usize)
    requires counted { (number : ℕ) × IsIn number slot store.old.objects
        × (0 < counted number store.old.objects) }
    ensures counted { (number : ℕ) → IsIn number slot store.old.objects
        → store.new.objects ≡ change_at number decremented store.old.objects }
    ensures room { store.new.room ≡ store.old.room }
    ensures stored { AreStored store.old.objects }
{
    let item = store.item_mut(slot);
    item.count -= 1;
    if item.count == 0 {
        store.queue_for_sweep(slot);
    }
}

/// Counts the object that a word is a handle to once more, if it is one.
pub fn add_ref<B>(store: &mut Store<B>, word: Word)
    requires alive { IfSome (handle word) (Lives store.old.objects) }
    requires fits { (number : ℕ) → counted number store.old.objects < 2 ^ 128 - 1 }
    ensures counted { store.new.objects
        ≡ change_handle incremented (handle word) store.old.objects }
{
    if let Word::Object(number) = word {
        let Some(slot) = store.find(number) else {
            unreachable!()
        };
        increment_count(store, slot);
    }
}

/// Counts the object that a word is a handle to once less, if it is one.
pub fn remove_ref<B>(store: &mut Store<B>, word: Word)
    requires counted { IfSome (handle word) (λ number. 0 < counted number store.old.objects) }
    ensures objects { store.new.objects
        ≡ change_handle decremented (handle word) store.old.objects }
    ensures room { store.new.room ≡ store.old.room }
{
    if let Word::Object(number) = word {
        let Some(slot) = store.find(number) else {
            unreachable!()
        };
        decrement_count(store, slot);
    }
}
