//! Counts of the objects that the words of an object are handles to.
ghost use Rattle.std.specs.Prelude.{◌≡◌, ◌<◌, ◌≤◌, ◌+◌, ◌^◌, ℕ, length};
ghost use Rattle.ash_host.specs.Objects.{handles_to};
ghost use Rattle.ash_slots.specs.Store.{IsIn};
ghost use Rattle.ash_slots.specs.SlotCounting.{counted};
ghost use Rattle.ash_objects.specs.Counting.{words_at, AllLive, refer_all, release_all};

use ash_host::Word;
use ash_slots::{Store, add_ref, read_word, remove_ref};

/// Counts each object once more for each of the words of the object in a slot that is a handle to it.
pub(crate) fn refer_words<B>(store: &mut Store<B>, slot: usize)
    requires within { (number : ℕ) × IsIn number slot store.old.objects
        × AllLive store.old.objects (words_at number store.old.objects)
        × ((other : ℕ) → counted other store.old.objects + length
        (words_at number store.old.objects) < 2 ^ 128) }
    ensures effect { (number : ℕ) → IsIn number slot store.old.objects
        → store.new.objects ≡ refer_all (words_at number store.old.objects) store.old.objects }
{
    let count = store.item(slot).body.words().len();
    for place in 0..count {
        let word = read_word(store, slot, place);
        add_ref(store, word);
    }
}

/// Counts each object once less for each of these words that is a handle to it.
pub(crate) fn release_words<B>(store: &mut Store<B>, words: &[Word])
    requires within { (number : ℕ) → handles_to number words.now
        ≤ counted number store.old.objects }
    ensures objects { store.new.objects ≡ release_all words.now store.old.objects }
    ensures room { store.new.room ≡ store.old.room }
{
    for word in words {
        remove_ref(store, *word);
    }
}
