//! The making of objects.
ghost use Rattle.std.specs.Prelude.{All, ◌≡◌, ◌≢◌, ◌<◌, ◌≤◌, ◌+◌, ◌↔◌, ◌++◌};
ghost use Rattle.std.specs.Prelude.{◌∷◌, [], ℕ, length, Some, None, IsSomeAnd, IfSome, IfOk};
ghost use Rattle.std.specs.Prelude.{OnOk, OnErr, IsErrOf, slice_get, nat_eq, replicate};
ghost use Rattle.std.specs.List.{remove, position};
ghost use Rattle.ash_host.specs.declared.event.Event.{Event};
ghost use Rattle.ash_objects.specs.declared.making.MakeFault.{MakeFault};
ghost use Rattle.ash_slots.specs.declared.body.Body.{Body};
ghost use Rattle.ash_host.specs.ElementTags.{initial_of};
ghost use Rattle.ash_slots.specs.Bodies.{words_of};
ghost use Rattle.ash_objects.specs.Table.{slot_of, IsAlive};
ghost use Rattle.ash_host.specs.Limits.{max_objects, max_elements};
ghost use Rattle.ash_objects.specs.Making.{IsFull, IsSpent, first_of_kind, with_new_object};

use crate::counting::refer_words;
use crate::objects::Objects;
use ash_host::{ElementTag, Event, HostObject, MAX_ELEMENTS, MAX_OBJECTS, NoMemory};
use ash_slots::{Array, Body, Occupant, Script, Words};
use thiserror::Error;

/// Why no object was made.
#[derive(Clone, Copy, Debug, PartialEq, Eq, Error)]
pub enum MakeFault {
    /// As many objects live as may.
    #[error("as many objects live as may")]
    ObjectLimit,
    /// Every number was given.
    #[error("every number was given")]
    NumbersSpent,
    /// No free box is of the kind.
    #[error("no free box is of the kind")]
    PoolEmpty,
    /// An array would be longer than it may be.
    #[error("the array would be longer than it may be")]
    ArrayLimit,
    /// Memory ran out.
    #[error("memory was refused")]
    NoMemory,
}

/// The place of the first box of a kind.
pub(crate) fn place_of_kind<B: HostObject>(pool: &[B], kind: u16) -> Option<usize>
    ensures value { result ≡ position (λ box. nat_eq (B.kind_of box) kind) pool.now }
{
    pool.iter().position(|object| object.kind() == kind)
}

impl<B> Objects<B> {
    // The number of the next object.
    fn next_number(&self) -> Result<u64, MakeFault>
        ensures number { IfOk result (λ number. number ≡ self.now.last + 1) }
        ensures room { OnOk result (length self.now.objects < max_objects) }
        ensures full { IsErrOf result MakeFault.ObjectLimit ↔ IsFull self.now }
        ensures spent { IsErrOf result MakeFault.NumbersSpent
            ↔ ((IsFull self.now → ⊥) × IsSpent self.now) }
        ensures pool { IsErrOf result MakeFault.PoolEmpty → ⊥ }
        ensures long { IsErrOf result MakeFault.ArrayLimit → ⊥ }
        ensures no_memory { IsErrOf result MakeFault.NoMemory → ⊥ }
    {
        if self.store.len() >= MAX_OBJECTS {
            return Err(MakeFault::ObjectLimit);
        }
        if self.last == u64::MAX {
            return Err(MakeFault::NumbersSpent);
        }
        Ok(self.last + 1)
    }
}

impl<B: HostObject> Objects<B> {
    // Puts a new object into the table under the next number.
    fn make(&mut self, next: u64, body: Body<B>) -> Result<(), NoMemory>
        requires next { next ≡ self.old.last + 1 }
        requires room { length self.old.objects < max_objects }
        requires short { length (words_of body) ≤ max_elements }
        requires alive { All (λ word. IsAlive word self.old) (words_of body) }
        ensures unchanged { OnErr result (self.new ≡ self.old) }
        ensures made { OnOk result (IsSomeAnd (slot_of next self.new)
            (λ slot. self.new ≡ with_new_object slot body self.old)) }
    {
        self.marks.reserve(self.store.vacant())?;
        let item = Occupant {
            count: 0,
            touched: true,
            body,
        };
        let Ok(slot) = self.store.insert(next, item) else {
            return Err(NoMemory);
        };
        self.marks.mark(slot);
        refer_words(&mut self.store, slot);
        self.last = next;
        Ok(())
    }

    /// Makes an object of the class at a place in the source of its owner, the module in a slot, with its fields in
    /// order of declaration, and gives it the next number. The objects that its fields are handles to are counted once
    /// more for each; nothing holds the new one yet.
    pub fn new_script(&mut self, owner: u8, class: u16, fields: Words) -> Result<u64, MakeFault>
        requires short { length fields ≤ max_elements }
        requires alive { All (λ word. IsAlive word self.old) fields }
        ensures full { IsErrOf result MakeFault.ObjectLimit ↔ IsFull self.old }
        ensures spent { IsErrOf result MakeFault.NumbersSpent
            ↔ ((IsFull self.old → ⊥) × IsSpent self.old) }
        ensures pool { IsErrOf result MakeFault.PoolEmpty → ⊥ }
        ensures long { IsErrOf result MakeFault.ArrayLimit → ⊥ }
        ensures unchanged { OnErr result (self.new ≡ self.old) }
        ensures number { IfOk result (λ number. number ≡ self.old.last + 1) }
        ensures made { IfOk result
            (λ number. IsSomeAnd (slot_of number self.new)
            (λ slot. self.new ≡ with_new_object slot
            (Body.Script (record { «module» = owner; class = class; fields = fields })) self.old)) }
    {
        let number = self.next_number()?;
        let script = Script {
            module: owner,
            class,
            fields,
        };
        match self.make(number, Body::Script(script)) {
            Ok(()) => Ok(number),
            Err(_) => Err(MakeFault::NoMemory),
        }
    }

    /// Makes an array of so many elements, each zero or null, and gives it the next number. Nothing holds it yet.
    pub fn new_array(&mut self, element: ElementTag, length: usize) -> Result<u64, MakeFault>
        ensures full { IsErrOf result MakeFault.ObjectLimit ↔ IsFull self.old }
        ensures spent { IsErrOf result MakeFault.NumbersSpent
            ↔ ((IsFull self.old → ⊥) × IsSpent self.old) }
        ensures long { IsErrOf result MakeFault.ArrayLimit
            ↔ ((IsFull self.old → ⊥) × (IsSpent self.old → ⊥) × (max_elements < length)) }
        ensures pool { IsErrOf result MakeFault.PoolEmpty → ⊥ }
        ensures unchanged { OnErr result (self.new ≡ self.old) }
        ensures number { IfOk result (λ number. number ≡ self.old.last + 1) }
        ensures made { IfOk result
            (λ number. IsSomeAnd (slot_of number self.new)
            (λ slot. self.new ≡ with_new_object slot
            (Body.Array (record {
              element = element;
              elements = replicate length
                  (initial_of element);
            })) self.old)) }
    {
        let number = self.next_number()?;
        if length > MAX_ELEMENTS {
            return Err(MakeFault::ArrayLimit);
        }
        let alloc = *self.gone.allocator();
        let Ok(elements) = vec![in alloc; element.initial(); length] else {
            return Err(MakeFault::NoMemory);
        };
        let array = Array {
            element,
            elements: Words::new(elements),
        };
        match self.make(number, Body::Array(array)) {
            Ok(()) => Ok(number),
            Err(_) => Err(MakeFault::NoMemory),
        }
    }

    // The place of the first free box of a kind.
    fn place_of(&self, kind: u16) -> Option<usize>
        ensures place { result ≡ first_of_kind B.HostObject kind self.now }
        ensures within { IfSome result (λ place. place < length self.now.pool) }
    {
        place_of_kind(&self.pool, kind)
    }

    // Takes the box at a place of the pool and gives it the next number.
    fn draw_at(
        &mut self,
        number: u64,
        place: usize,
        events: &mut Vec<Event>,
    ) -> Result<(), NoMemory>
        requires next { number ≡ self.old.last + 1 }
        requires room { length self.old.objects < max_objects }
        requires within { place < length self.old.pool }
        ensures unchanged { OnErr result (self.new ≡ self.old) }
        ensures no_event { OnErr result (events.new.items ≡ events.old.items) }
        ensures event { OnOk result (events.new.items ≡ events.old.items
            ++ Event.Drew number ∷ []) }
        ensures drawn { OnOk result (IsSomeAnd (slice_get self.old.pool place)
            (λ box. IsSomeAnd (slot_of number self.new)
            (λ slot. self.new ≡ record (with_new_object slot (Body.Host box) self.old)
            { pool = remove self.old.pool place }))) }
    {
        let vacant = self.store.vacant();
        if events.reserve(1).is_err() || self.marks.reserve(vacant).is_err() {
            return Err(NoMemory);
        }
        let item = Occupant {
            count: 0,
            touched: true,
            body: Body::Host(self.pool.remove(place)),
        };
        if let Err(refused) = self.store.insert(number, item) {
            let Body::Host(object) = refused.value.body else {
                unreachable!()
            };
            let Ok(()) = self.pool.insert(place, object) else {
                unreachable!()
            };
            return Err(NoMemory);
        }
        self.marks.mark(vacant);
        self.last = number;
        events.push_reserved(Event::Drew(number));
        Ok(())
    }

    /// Takes the first free box of a kind from the pool and gives it the next number. Nothing holds it yet.
    pub fn draw(&mut self, kind: u16, events: &mut Vec<Event>) -> Result<u64, MakeFault>
        ensures full { IsErrOf result MakeFault.ObjectLimit ↔ IsFull self.old }
        ensures spent { IsErrOf result MakeFault.NumbersSpent
            ↔ ((IsFull self.old → ⊥) × IsSpent self.old) }
        ensures pool { IsErrOf result MakeFault.PoolEmpty
            ↔ ((IsFull self.old → ⊥) × (IsSpent self.old → ⊥)
            × (first_of_kind B.HostObject kind self.old ≡ None)) }
        ensures long { IsErrOf result MakeFault.ArrayLimit → ⊥ }
        ensures unchanged { OnErr result (self.new ≡ self.old) }
        ensures no_event { OnErr result (events.new.items ≡ events.old.items) }
        ensures number { IfOk result (λ number. number ≡ self.old.last + 1) }
        ensures event { IfOk result
            (λ number. events.new.items ≡ events.old.items ++ Event.Drew number ∷ []) }
        ensures drawn { IfOk result (λ number. IsSomeAnd (first_of_kind B.HostObject kind self.old)
            (λ place. IsSomeAnd (slice_get self.old.pool place)
            (λ box. IsSomeAnd (slot_of number self.new)
            (λ slot. self.new ≡ record (with_new_object slot (Body.Host box) self.old)
            { pool = remove self.old.pool place })))) }
    {
        let number = self.next_number()?;
        let Some(place) = self.place_of(kind) else {
            return Err(MakeFault::PoolEmpty);
        };
        match self.draw_at(number, place, events) {
            Ok(()) => Ok(number),
            Err(_) => Err(MakeFault::NoMemory),
        }
    }
}
