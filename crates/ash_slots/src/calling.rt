//! Calls of the host object in a slot.
ghost use Rattle.std.specs.Prelude.{◌≡◌, ℕ, IsSome, Some};
ghost use Rattle.ash_host.specs.declared.answer.HostAnswer.{HostAnswer};
ghost use Rattle.ash_host.specs.Calls.{Start, Invoke, Get, Set};
ghost use Rattle.ash_slots.specs.Store.{IsIn, IsOccupied, AreStored};
ghost use Rattle.ash_slots.specs.SlotResponses.{AnswersIn, stored_box, IsHostIn};

use crate::body::Body;
use crate::store::Store;
use ash_host::{HostAnswer, HostObject, Word};

/// Begins the life of the host object in a slot.
pub fn start_in<B: HostObject>(store: &mut Store<B>, slot: usize, args: &[Word]) -> HostAnswer
    requires host { IsHostIn slot store.old.objects }
    ensures answered { (number : ℕ) → IsIn number slot store.old.objects
        → AnswersIn B.HostObject number (Start args.now) result store.old.objects
        store.new.objects }
{
    let item = store.item_mut(slot);
    item.touched = true;
    match &mut item.body {
        Body::Host(object) => object.start(args),
        Body::Script(_) => unreachable!(),
        Body::Array(_) => unreachable!(),
    }
}

/// Runs a method of the host object in a slot.
pub fn invoke_in<B: HostObject>(
    store: &mut Store<B>,
    slot: usize,
    method: u16,
    args: &[Word],
) -> HostAnswer
    requires host { IsHostIn slot store.old.objects }
    ensures answered { (number : ℕ) → IsIn number slot store.old.objects
        → AnswersIn B.HostObject number (Invoke method args.now) result store.old.objects
        store.new.objects }
{
    let item = store.item_mut(slot);
    item.touched = true;
    match &mut item.body {
        Body::Host(object) => object.invoke(method, args),
        Body::Script(_) => unreachable!(),
        Body::Array(_) => unreachable!(),
    }
}

/// Writes a property of the host object in a slot.
pub fn set_in<B: HostObject>(store: &mut Store<B>, slot: usize, prop: u16, value: Word)
    requires host { IsHostIn slot store.old.objects }
    ensures answered { (number : ℕ) → IsIn number slot store.old.objects
        → AnswersIn B.HostObject number (Set prop value) HostAnswer.Nothing store.old.objects
        store.new.objects }
{
    let item = store.item_mut(slot);
    item.touched = true;
    match &mut item.body {
        Body::Host(object) => object.set(prop, value),
        Body::Script(_) => unreachable!(),
        Body::Array(_) => unreachable!(),
    }
}

/// The box of the host object in a slot.
pub fn box_in<B>(store: &Store<B>, slot: usize) -> &B
    requires host { IsHostIn slot store.now.objects }
    ensures stored { (number : ℕ) → IsIn number slot store.now.objects
        → stored_box number store.now.objects ≡ Some result.now }
{
    match &store.item(slot).body {
        Body::Host(object) => object,
        Body::Script(_) => unreachable!(),
        Body::Array(_) => unreachable!(),
    }
}
