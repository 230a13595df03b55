//! Calls of host objects and services.
ghost use Rattle.std.specs.Prelude.{◌≡◌, ◌<◌, ◌≤◌, ◌++◌, ℕ, length, Some};
ghost use Rattle.std.specs.Prelude.{IsSome, IsSomeAnd, IfOk, OnErr, vec_len, vec_capacity};
ghost use Rattle.ash_host.specs.declared.answer.HostAnswer.{HostAnswer};
ghost use Rattle.ash_host.specs.declared.event.Target.{Target};
ghost use Rattle.ash_host.specs.Calls.{Start, Invoke, Get, Set};
ghost use Rattle.ash_objects.specs.Table.{slot_of};
ghost use Rattle.ash_objects.specs.Responses.{Answers, ServiceAnswers, box_at, IsHostOfTable, called};

use crate::objects::Objects;
use ash_host::{Event, HostAnswer, HostObject, NoMemory, Target, Word};
use ash_slots::{box_in, invoke_in, set_in, start_in};

impl<B: HostObject> Objects<B> {
    /// Begins the life of a host object with the arguments of a factory.
    pub fn start(&mut self, number: u64, args: &[Word]) -> HostAnswer
        requires host { IsSome (box_at number self.old) }
        ensures answered { Answers B.HostObject number (Start args.now) result self.old self.new }
    {
        let Some(slot) = self.slot(number) else {
            unreachable!()
        };
        self.start_at(slot, args)
    }

    fn start_at(&mut self, slot: usize, args: &[Word]) -> HostAnswer
        requires host_of_table { IsHostOfTable slot self.old }
        ensures value { (number : ℕ) → slot_of number self.old ≡ Some slot
            → Answers B.HostObject number (Start args.now) result self.old self.new }
    {
        self.marks.mark(slot);
        start_in(&mut self.store, slot, args)
    }

    /// The value of a property of the host object in a slot. It takes no memory.
    pub fn get_prop_at(&self, slot: usize, prop: u16) -> Word
        requires host { IsHostOfTable slot self.now }
        ensures allowed { (number : ℕ) → slot_of number self.now ≡ Some slot
            → IsSomeAnd (box_at number self.now)
            (λ box. B.allows box (Get prop) (B.state box) (HostAnswer.Value result) (B.state box)) }
    {
        box_in(&self.store, slot).get(prop)
    }

    /// The value of a property of a host object. It takes no memory.
    pub fn get_prop(&self, number: u64, prop: u16) -> Word
        requires host { IsSome (box_at number self.now) }
        ensures allowed { IsSomeAnd (box_at number self.now)
            (λ box. B.allows box (Get prop) (B.state box) (HostAnswer.Value result) (B.state box)) }
    {
        let Some(slot) = self.slot(number) else {
            unreachable!()
        };
        self.get_prop_at(slot, prop)
    }

    /// Writes a property of the host object in a slot. It takes no memory.
    pub fn set_prop_at(&mut self, slot: usize, prop: u16, value: Word)
        requires host { IsHostOfTable slot self.old }
        ensures answered { (number : ℕ) → slot_of number self.old ≡ Some slot
            → Answers B.HostObject number (Set prop value) HostAnswer.Nothing self.old self.new }
    {
        self.marks.mark(slot);
        set_in(&mut self.store, slot, prop, value);
    }

    /// Writes a property of a host object. It takes no memory.
    pub fn set_prop(&mut self, number: u64, prop: u16, value: Word)
        requires host { IsSome (box_at number self.old) }
        ensures answered { Answers B.HostObject number (Set prop value) HostAnswer.Nothing self.old
            self.new }
    {
        let Some(slot) = self.slot(number) else {
            unreachable!()
        };
        self.set_prop_at(slot, prop, value);
    }

    /// Runs a method of the host object in a slot, and records the call as an event unless the object ran out of
    /// memory. Where memory for the event is refused nothing is run.
    pub fn invoke_at(
        &mut self,
        slot: usize,
        method: u16,
        args: &[Word],
        events: &mut Vec<Event>,
    ) -> Result<HostAnswer, NoMemory>
        requires host { IsHostOfTable slot self.old }
        ensures answered { IfOk result (λ answer. (number : ℕ) → slot_of number self.old ≡ Some slot
            → Answers B.HostObject number (Invoke method args.now) answer self.old self.new) }
        ensures called { IfOk result (λ answer. (number : ℕ) → slot_of number self.old ≡ Some slot
            → events.new.items ≡ events.old.items ++ called (Target.Object number) method answer) }
        ensures unchanged { OnErr result (self.new ≡ self.old) }
        ensures no_event { OnErr result (events.new.items ≡ events.old.items) }
        ensures no_room { OnErr result (vec_capacity events.old ≤ vec_len events.old) }
    {
        if events.reserve(1).is_err() {
            return Err(NoMemory);
        }
        let number = self.number(slot);
        self.marks.mark(slot);
        let answer = invoke_in(&mut self.store, slot, method, args);
        if let HostAnswer::NoMemory = answer {
            return Ok(answer);
        }
        events.push_reserved(Event::Called(Target::Object(number), method));
        Ok(answer)
    }

    /// Runs a method of a host object, and records the call as an event unless the object ran out of memory. Where
    /// memory for the event is refused nothing is run.
    pub fn invoke(
        &mut self,
        number: u64,
        method: u16,
        args: &[Word],
        events: &mut Vec<Event>,
    ) -> Result<HostAnswer, NoMemory>
        requires host { IsSome (box_at number self.old) }
        ensures answered { IfOk result
            (λ answer. Answers B.HostObject number (Invoke method args.now) answer self.old
            self.new) }
        ensures called { IfOk result
            (λ answer. events.new.items ≡ events.old.items
            ++ called (Target.Object number) method answer) }
        ensures unchanged { OnErr result (self.new ≡ self.old) }
        ensures no_event { OnErr result (events.new.items ≡ events.old.items) }
        ensures no_room { OnErr result (vec_capacity events.old ≤ vec_len events.old) }
    {
        let Some(slot) = self.slot(number) else {
            unreachable!()
        };
        self.invoke_at(slot, method, args, events)
    }

    /// Runs a function of the service at a place, and records the call as an event unless the service ran out of
    /// memory. Where memory for the event is refused nothing is run.
    pub fn invoke_service(
        &mut self,
        service: u16,
        function: u16,
        args: &[Word],
        events: &mut Vec<Event>,
    ) -> Result<HostAnswer, NoMemory>
        requires registered { service < length self.old.services }
        ensures answered { IfOk result
            (λ answer. ServiceAnswers B.HostObject service
            (Invoke function args.now) answer self.old self.new) }
        ensures called { IfOk result
            (λ answer. events.new.items ≡ events.old.items
            ++ called (Target.Service service) function answer) }
        ensures unchanged { OnErr result (self.new ≡ self.old) }
        ensures no_event { OnErr result (events.new.items ≡ events.old.items) }
        ensures no_room { OnErr result (vec_capacity events.old ≤ vec_len events.old) }
    {
        if events.reserve(1).is_err() {
            return Err(NoMemory);
        }
        let object = &mut self.services[usize::from(service)];
        let answer = object.invoke(function, args);
        if let HostAnswer::NoMemory = answer {
            return Ok(answer);
        }
        events.push_reserved(Event::Called(Target::Service(service), function));
        Ok(answer)
    }
}
