//! The elements of the array in a slot.
ghost use Rattle.std.specs.Prelude.{◌≡◌, ◌≤◌, ℕ, [], Some, IsSome, IfSome, OnOk, OnErr};
ghost use Rattle.ash_slots.specs.Store.{IsIn, AreStored, change_at};
ghost use Rattle.ash_slots.specs.SlotArrays.{stored_array, IsArrayIn, refilled, lengthened};

use crate::body::Body;
use crate::store::Store;
use crate::words::Words;
use ash_host::NoMemory;

/// Appends the initial value of its elements to the array in a slot until there are so many, which touches it. Where
/// memory is refused it is as it was.
pub fn grow_elements<B>(store: &mut Store<B>, slot: usize, len: usize) -> Result<(), NoMemory>
    requires array { IsArrayIn slot store.old.objects }
    ensures grown { OnOk result ((number : ℕ) → IsIn number slot store.old.objects
        → IfSome (stored_array number store.old.objects) (λ array. store.new.objects
        ≡ change_at number (refilled (lengthened len array)) store.old.objects)) }
    ensures unchanged { OnErr result (store.new.objects ≡ store.old.objects) }
{
    let item = store.item_mut(slot);
    match &mut item.body {
        Body::Array(array) => {
            let initial = array.element.initial();
            array.elements.grow(len, initial)?;
        }
        Body::Script(_) => unreachable!(),
        Body::Host(_) => unreachable!(),
    }
    item.touched = true;
    Ok(())
}

/// Takes the elements out of the array in a slot, which touches it.
pub fn take_elements<B>(store: &mut Store<B>, slot: usize) -> Words
    requires array { IsArrayIn slot store.old.objects }
    ensures elements { (number : ℕ) → IsIn number slot store.old.objects
        → IfSome (stored_array number store.old.objects) (λ array. result ≡ array.elements) }
    ensures taken { (number : ℕ) → IsIn number slot store.old.objects
        → store.new.objects ≡ change_at number (refilled []) store.old.objects }
{
    let item = store.item_mut(slot);
    item.touched = true;
    match &mut item.body {
        Body::Array(array) => array.elements.take(),
        Body::Script(_) => unreachable!(),
        Body::Host(_) => unreachable!(),
    }
}

/// Gives the array in a slot these elements, which touches it.
pub fn set_elements<B>(store: &mut Store<B>, slot: usize, elements: Words)
    requires array { IsArrayIn slot store.old.objects }
    ensures refilled { (number : ℕ) → IsIn number slot store.old.objects
        → store.new.objects ≡ change_at number (refilled elements) store.old.objects }
{
    let item = store.item_mut(slot);
    item.touched = true;
    match &mut item.body {
        Body::Array(array) => array.elements = elements,
        Body::Script(_) => unreachable!(),
        Body::Host(_) => unreachable!(),
    }
}
