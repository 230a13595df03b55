//! Holds in the table.
ghost use Rattle.std.specs.Prelude.{◌≡◌, ◌<◌, ◌≤◌, ◌+◌, ◌^◌, ◌∷◌, [], ℕ, true, length, All, IsTrue};
ghost use Rattle.std.specs.Prelude.{Some, IfSome, is_some};
ghost use Rattle.std.specs.List.{list_all};
ghost use Rattle.ash_host.specs.Objects.{handle, handles};
ghost use Rattle.ash_objects.specs.Table.{holds_of, slot_of};
ghost use Rattle.ash_run_steps.specs.RunStates.{HoldsMore, HoldsLess, is_alive_in, times};

use ash_host::{HostObject, Word};
use ash_objects::Objects;

/// The object that a word is a handle to.
#[inline(always)]
pub(crate) fn handle(word: Word) -> Option<u64>
    ensures handle { result ≡ handle word }
{
    match word {
        Word::Object(number) => Some(number),
        _ => None,
    }
}

/// Whether the object that a word is a handle to lives, if it is one.
#[inline(always)]
pub(crate) fn is_alive<B: HostObject>(table: &Objects<B>, word: Word) -> bool
    ensures alive { result ≡ is_alive_in word table.now }
{
    match handle(word) {
        Some(number) => table.slot(number).is_some(),
        None => true,
    }
}

/// The slot of the object that a word is a handle to, if it lives, or any slot for a word that is no handle.
#[inline(always)]
pub(crate) fn slot_of_handle<B: HostObject>(table: &Objects<B>, word: Word) -> Option<usize>
    ensures alive { is_some result ≡ is_alive_in word table.now }
    ensures slot { IfSome result (λ slot. (number : ℕ) → handle word ≡ Some number
        → slot_of number table.now ≡ Some slot) }
{
    match handle(word) {
        Some(number) => table.slot(number),
        None => Some(0),
    }
}

/// Holds what a word is a handle to once more. Its object is in this slot.
#[inline(always)]
pub(crate) fn hold_in_slot<B: HostObject>(table: &mut Objects<B>, word: Word, slot: usize)
    requires alive { IsTrue (is_alive_in word table.old) }
    requires slot { (number : ℕ) → handle word ≡ Some number → slot_of number table.old ≡ Some slot }
    requires few { (number : ℕ) → holds_of number table.old < 2 ^ 127 }
    ensures held { HoldsMore (handles (word ∷ [])) table.old table.new }
{
    if let Some(_) = handle(word) {
        table.hold_at(slot);
    }
}

/// Whether each of these words is a handle only to an object that lives.
#[inline(always)]
pub(crate) fn are_alive<B: HostObject>(table: &Objects<B>, words: &[Word]) -> bool
    ensures alive { result ≡ list_all (λ word. is_alive_in word table.now) words.now }
{
    for word in words {
        if !is_alive(table, *word) {
            return false;
        }
    }
    true
}

/// Holds what a word is a handle to once more.
#[inline(always)]
pub(crate) fn hold_word<B: HostObject>(table: &mut Objects<B>, word: Word)
    requires alive { IsTrue (is_alive_in word table.old) }
    requires few { (number : ℕ) → holds_of number table.old < 2 ^ 127 }
    ensures held { HoldsMore (handles (word ∷ [])) table.old table.new }
{
    if let Some(number) = handle(word) {
        table.hold(number);
    }
}

/// Holds what these words are handles to once more for each of them.
#[inline(always)]
pub fn hold_words<B: HostObject>(table: &mut Objects<B>, words: &[Word])
    requires alive { All (λ word. IsTrue (is_alive_in word table.old)) words.now }
    requires few { (number : ℕ) → holds_of number table.old + length words.now < 2 ^ 127 }
    ensures held { HoldsMore (handles words.now) table.old table.new }
{
    for word in words {
        hold_word(table, *word);
    }
}

/// Undoes a hold of an object for each time that it is among these.
#[inline(always)]
pub fn unhold_numbers<B: HostObject>(table: &mut Objects<B>, numbers: &[u64])
    requires held { (number : ℕ) → times number numbers.now ≤ holds_of number table.old }
    ensures unheld { HoldsLess numbers.now table.old table.new }
{
    for number in numbers {
        table.unhold(*number);
    }
}

/// Undoes a hold of what a word is a handle to.
#[inline(always)]
pub(crate) fn unhold_word<B: HostObject>(table: &mut Objects<B>, word: Word)
    requires held { (number : ℕ) → times number (handles (word ∷ [])) ≤ holds_of number table.old }
    ensures unheld { HoldsLess (handles (word ∷ [])) table.old table.new }
{
    if let Some(number) = handle(word) {
        table.unhold(number);
    }
}

/// Undoes a hold for each of these words that is a handle.
#[inline(always)]
pub fn unhold_words<B: HostObject>(table: &mut Objects<B>, words: &[Word])
    requires held { (number : ℕ) → times number (handles words.now) ≤ holds_of number table.old }
    ensures unheld { HoldsLess (handles words.now) table.old table.new }
{
    for word in words {
        unhold_word(table, *word);
    }
}
