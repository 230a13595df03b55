//! A table from what a state holds.
ghost use Rattle.std.specs.Prelude.{◌≡◌, ◌≤◌, ℕ, List, Option, Some, [], All};
ghost use Rattle.std.specs.Prelude.{length, slice_get, IsSome, IfSome};
ghost use Rattle.std.specs.Prelude.{IfOk, OnOk, IsErrOf, vec_len};
ghost use Rattle.ash_host.specs.Objects.{object_at, numbers, Lives, IsInOrder, AreNumbered, handle};
ghost use Rattle.ash_slots.specs.Bodies.{words_of};
ghost use Rattle.ash_slots.specs.SlotCounting.{counted};
ghost use Rattle.ash_objects.specs.declared.restoring.TableFault.{TableFault};
ghost use Rattle.ash_objects.specs.declared.restoring.SavedObject.{SavedObject};
ghost use Rattle.ash_objects.specs.Counting.{words_at, AllLive};
ghost use Rattle.ash_host.specs.Limits.{max_objects, max_elements};
ghost use Rattle.ash_objects.specs.Listing.{AreListed};
ghost use Rattle.ash_objects.specs.Restoring.{stored_in, states_in, kind_wanted, bytes_of, Drawn};
ghost use Rattle.ash_objects.specs.Restoring.{Enough, Short, draw_then, draw_boxes, with_box_first};
ghost use Rattle.ash_objects.specs.Restoring.{RestoresState, RestoresBox, RestoresServices};
ghost use Rattle.ash_objects.specs.Restoring.{RestoresBoxes, ServiceRefused};
ghost use Rattle.ash_objects.specs.Restoring.{BoxRefused, IsRefused, IsRestored};
ghost use Rattle.ash_objects.specs.Restoring.{with_drawn, AreFit};
ghost use Rattle.ash_objects.specs.Restoring.{AreInserted, refer_objects};

use crate::counting::refer_words;
use crate::making::place_of_kind;
use crate::marked_slots::MarkedSlots;
use crate::objects::Objects;
use ash_host::{HostObject, RestoreFault};
use ash_slots::{Body, Occupant, Store};
use std::alloc::Global;
use thiserror::Error;

/// A host object as a state has it.
#[derive(Drop)]
pub struct SavedHostObject {
    /// The number of its kind.
    pub kind: u16,
    /// Its state in bytes.
    pub state: Vec<u8>,
}

/// An object as a state has it: a host object with its kind and its state in place of its box.
#[derive(Drop)]
pub struct SavedObject {
    pub number: u64,
    pub body: Body<SavedHostObject>,
}

/// The objects of a state, and the last number that was given to one.
#[derive(Drop)]
pub struct SavedObjects {
    /// By ascending number.
    pub objects: Vec<SavedObject>,
    pub last: u64,
}

/// Why no table is made.
#[derive(Clone, Copy, Debug, PartialEq, Eq, Error)]
pub enum TableFault {
    /// There are too few free boxes of a kind.
    #[error("there are too few free boxes of kind {0}")]
    PoolShort(u16),
    /// The host object of a number does not take its state; a service, where the number is 0.
    #[error("the host object numbered {0} (a service, if 0) does not take its state")]
    RestoreRefused(u64),
    /// Memory ran out.
    #[error("memory was refused")]
    NoMemory,
}

impl SavedObject {
    // The state of a host object; none of what is none.
    fn bytes(&self) -> &[u8]
        ensures value { result.now ≡ bytes_of self.now.body }
    {
        match &self.body {
            Body::Host(saved) => saved.state.as_slice(),
            Body::Script(_) | Body::Array(_) => &[],
        }
    }
}

// Takes the first box of an object's kind from the pool, if it is a host object.
fn take_box<B: HostObject>(pool: &mut Vec<B>, object: &SavedObject) -> Result<Option<B>, TableFault>
    ensures taken { IfOk result (λ taken. (others : List B → Drawn B)
        → draw_then B.HostObject (kind_wanted object.now) pool.old.items others
        ≡ with_box_first taken (others pool.new.items)) }
    ensures short { (kind : ℕ) → IsErrOf result (TableFault.PoolShort kind)
        → (others : List B → Drawn B)
        → draw_then B.HostObject (kind_wanted object.now) pool.old.items others ≡ Short kind }
    ensures not_refused { (number : ℕ) → IsErrOf result (TableFault.RestoreRefused number) → ⊥ }
    ensures no_memory { IsErrOf result TableFault.NoMemory → ⊥ }
{
    let saved = match &object.body {
        Body::Host(saved) => saved,
        Body::Script(_) | Body::Array(_) => return Ok(None),
    };
    let Some(place) = place_of_kind(pool, saved.kind) else {
        return Err(TableFault::PoolShort(saved.kind));
    };
    Ok(Some(pool.remove(place)))
}

// Takes the boxes of these objects from the pool, in order.
fn take_boxes<B: HostObject>(
    alloc: Global,
    objects: &[SavedObject],
    pool: &mut Vec<B>,
) -> Result<Vec<Option<B>>, TableFault>
    ensures enough { IfOk result (λ boxes. draw_boxes B.HostObject objects.now pool.old.items
        ≡ Enough boxes.items pool.new.items) }
    ensures short { (kind : ℕ) → IsErrOf result (TableFault.PoolShort kind)
        → draw_boxes B.HostObject objects.now pool.old.items ≡ Short kind }
    ensures not_refused { (number : ℕ) → IsErrOf result (TableFault.RestoreRefused number) → ⊥ }
{
    let mut boxes = Vec::new(alloc);
    if boxes.reserve(objects.len()).is_err() {
        return Err(TableFault::NoMemory);
    }
    for object in objects {
        boxes.push_reserved(take_box(pool, object)?);
    }
    Ok(boxes)
}

// Restores a host object, which had this number, from its state.
fn restore_state<B: HostObject>(object: &mut B, number: u64, bytes: &[u8]) -> Result<(), TableFault>
    ensures restored { OnOk result (RestoresState B.HostObject object.old bytes.now object.new) }
    ensures refused { (other : ℕ) → IsErrOf result (TableFault.RestoreRefused other)
        → (other ≡ number) × B.refuses object.old bytes.now }
    ensures enough { (kind : ℕ) → IsErrOf result (TableFault.PoolShort kind) → ⊥ }
{
    match object.restore(bytes) {
        Ok(()) => Ok(()),
        Err(RestoreFault::Refused) => Err(TableFault::RestoreRefused(number)),
        Err(RestoreFault::NoMemory) => Err(TableFault::NoMemory),
    }
}

/// Restores services from the states that they had, in order. After a refusal those before it have their states.
pub fn restore_services<B: HostObject>(
    services: &mut Vec<B>,
    states: &[Vec<u8>],
) -> Result<(), TableFault>
    requires length { length states.now ≡ vec_len services.old }
    ensures restored { OnOk result
        (RestoresServices B.HostObject services.old.items
        (states_in states.now) services.new.items) }
    ensures refused { (number : ℕ) → IsErrOf result (TableFault.RestoreRefused number)
        → (number ≡ 0) × ServiceRefused B.HostObject services.old.items (states_in states.now) }
    ensures enough { (kind : ℕ) → IsErrOf result (TableFault.PoolShort kind) → ⊥ }
{
    for place in 0..states.len() {
        restore_state(&mut services[place], 0, states[place].as_slice())?;
    }
    Ok(())
}

// Restores the box that an object took, if it took one, from the object's state.
fn restore_box<B: HostObject>(object: &SavedObject, taken: &mut Option<B>) -> Result<(), TableFault>
    ensures restored { OnOk result (RestoresBox B.HostObject object.now.body taken.old taken.new) }
    ensures refused { (number : ℕ) → IsErrOf result (TableFault.RestoreRefused number)
        → (number ≡ object.now.number)
        × ((box : B) × (taken.old ≡ Some box) × B.refuses box (bytes_of object.now.body)) }
    ensures enough { (kind : ℕ) → IsErrOf result (TableFault.PoolShort kind) → ⊥ }
{
    match taken {
        Some(host) => restore_state(host, object.number, object.bytes()),
        None => Ok(()),
    }
}

// Restores the box that each object took from the object's state, in order.
fn restore_boxes<B: HostObject>(
    objects: &[SavedObject],
    boxes: &mut Vec<Option<B>>,
) -> Result<(), TableFault>
    requires length { length objects.now ≡ vec_len boxes.old }
    ensures restored { OnOk result
        (RestoresBoxes B.HostObject objects.now boxes.old.items boxes.new.items) }
    ensures refused { (number : ℕ) → IsErrOf result (TableFault.RestoreRefused number)
        → BoxRefused B.HostObject objects.now boxes.old.items number }
    ensures enough { (kind : ℕ) → IsErrOf result (TableFault.PoolShort kind) → ⊥ }
{
    for place in 0..objects.len() {
        restore_box(&objects[place], &mut boxes[place])?;
    }
    Ok(())
}

// What an object is, with the box that it took in place of its kind and state.
fn join<B: HostObject>(body: Body<SavedHostObject>, taken: Option<B>) -> Body<B>
    requires drawn { IsSome (with_drawn body taken) }
    ensures value { with_drawn body taken ≡ Some result }
{
    match body {
        Body::Script(script) => Body::Script(script),
        Body::Array(array) => Body::Array(array),
        Body::Host(_) => {
            let Some(host) = taken else { unreachable!() };
            Body::Host(host)
        }
    }
}

// Puts these objects into slots, each with the box that it took, the last first. Nothing is counted, and nothing is
// listed.
fn insert_objects<B: HostObject>(
    store: &mut Store<B>,
    marks: &mut MarkedSlots,
    mut objects: Vec<SavedObject>,
    mut boxes: Vec<Option<B>>,
) -> Result<(), TableFault>
    requires empty { store.old.objects ≡ [] }
    requires in_order { IsInOrder (stored_in objects.items) }
    requires fit { AreFit objects.items boxes.items }
    ensures inserted { OnOk result (AreInserted objects.items boxes.items store.new.objects) }
    ensures listed { OnOk result (AreListed store.new.objects marks.new) }
    ensures memory { (fault : TableFault) → IsErrOf result fault → fault ≡ TableFault.NoMemory }
{
    while let Some(object) = objects.pop() {
        let Some(taken) = boxes.pop() else {
            unreachable!()
        };
        if marks.reserve(store.vacant()).is_err() {
            return Err(TableFault::NoMemory);
        }
        let item = Occupant {
            count: 0,
            touched: false,
            body: join(object.body, taken),
        };
        let Ok(_slot) = store.insert(object.number, item) else {
            return Err(TableFault::NoMemory);
        };
    }
    Ok(())
}

// The numbers of these objects, in order.
fn numbers_of(alloc: Global, objects: &[SavedObject]) -> Result<Vec<u64>, TableFault>
    ensures numbers { IfOk result (λ list. list.items ≡ numbers (stored_in objects.now)) }
    ensures memory { (fault : TableFault) → IsErrOf result fault → fault ≡ TableFault.NoMemory }
{
    let mut list = Vec::new(alloc);
    if list.reserve(objects.len()).is_err() {
        return Err(TableFault::NoMemory);
    }
    for object in objects {
        list.push_reserved(object.number);
    }
    Ok(list)
}

// Counts each object once more for each word of the objects of these numbers that is a handle to it.
fn refer_from<B>(store: &mut Store<B>, list: &[u64])
    requires there { All (λ number. Lives store.old.objects number
        × AllLive store.old.objects (words_at number store.old.objects)
        × (length (words_at number store.old.objects) ≤ max_elements)) list.now }
    requires few { length list.now ≤ max_objects }
    requires uncounted { (number : ℕ) → counted number store.old.objects ≡ 0 }
    ensures effect { store.new.objects ≡ refer_objects list.now store.old.objects }
{
    for number in list {
        let Some(slot) = store.slot(*number) else {
            unreachable!()
        };
        refer_words(store, slot);
    }
}

impl<B: HostObject> Objects<B> {
    /// A table with the objects of a state, over a pool and services, of which these are the states. Each host object
    /// takes the first box of its kind that is left, by ascending number; then the services take their states, and then
    /// the boxes. Nothing is held but by fields and elements, and nothing is marked. Where it is refused the boxes are
    /// given up.
    pub fn restored(
        alloc: Global,
        stored: SavedObjects,
        states: &[Vec<u8>],
        mut pool: Vec<B>,
        mut services: Vec<B>,
    ) -> Result<Objects<B>, TableFault>
        requires numbered { AreNumbered stored.last (stored_in stored.objects.items) }
        requires few { vec_len stored.objects ≤ max_objects }
        requires short { (number : ℕ) → IfSome (object_at number (stored_in stored.objects.items))
            (λ body. length (words_of body) ≤ max_elements) }
        requires alive { (number : ℕ) → IfSome (object_at number (stored_in stored.objects.items))
            (λ body. All (λ word. IfSome (handle word) (Lives (stored_in stored.objects.items)))
            (words_of body)) }
        requires as_many { length states.now ≡ vec_len services }
        ensures objects { IfOk result
            (λ table. IsRestored B.HostObject stored.objects.items pool.items table) }
        ensures services { IfOk result
            (λ table. RestoresServices B.HostObject services.items
            (states_in states.now) table.services) }
        ensures last { IfOk result (λ table. table.last ≡ stored.last) }
        ensures settled { IfOk result (λ table. table.settled ≡ stored.last) }
        ensures gone { IfOk result (λ table. table.gone ≡ []) }
        ensures short { (kind : ℕ) → IsErrOf result (TableFault.PoolShort kind)
            → draw_boxes B.HostObject stored.objects.items pool.items ≡ Short kind }
        ensures refused { (number : ℕ) → IsErrOf result (TableFault.RestoreRefused number)
            → IsRefused B.HostObject stored.objects.items
            (states_in states.now) pool.items services.items number }
    {
        let SavedObjects { objects, last } = stored;
        let mut boxes = take_boxes(alloc, &objects, &mut pool)?;
        restore_services(&mut services, states)?;
        restore_boxes(&objects, &mut boxes)?;
        let list = numbers_of(alloc, &objects)?;
        let mut store = Store::new(alloc);
        let mut marks = MarkedSlots::new(alloc);
        insert_objects(&mut store, &mut marks, objects, boxes)?;
        refer_from(&mut store, &list);
        Ok(Objects {
            store,
            pool,
            services,
            last,
            settled: last,
            gone: Vec::new(alloc),
            marks,
        })
    }
}
