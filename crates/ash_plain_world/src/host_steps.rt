//! Calls of host objects and services, what is made of their answers, and boxes that are drawn from the pool.
#![tactic(auto, unfolding(crate::specs::ActivityViews::activity_seen))]

ghost use Rattle.std.specs.Prelude.{◌≡◌, ◌<◌, Some, OnOk, IfSome, map, length};
ghost use Rattle.std.specs.Prelude.{option_map, nat_eq, slice_get};
ghost use Rattle.std.specs.Prelude.{slice_set, vec_len};
ghost use Rattle.std.specs.List.{position_from};
ghost use Rattle.ash_meaning.specs.Activity.{in_world};
ghost use Rattle.ash_meaning.specs.HostSteps.{with_event, state_of, with_state};
ghost use Rattle.ash_meaning.specs.HostSteps.{call_host, is_of as is_of_type};
ghost use Rattle.ash_meaning.specs.HostSteps.{accept, invoke_host, get_property};
ghost use Rattle.ash_meaning.specs.HostSteps.{set_property, place_of_kind};
ghost use Rattle.ash_meaning.specs.HostSteps.{without_box, draw, construct_host};
ghost use Rattle.ash_plain_data.specs.CallViews.{call_seen};
ghost use Rattle.ash_plain_data.specs.CallRuns.{RunsAs};
ghost use Rattle.ash_plain_world.specs.ActivityViews.{activity_seen, box_seen};

use crate::activity::{Activity, FreeBox};
use ash_host::{Event, HostAnswer, Target, Word};
use ash_meaning::Exception;
use ash_plain_data::host_call::HostCall;
use ash_plain_data::object::Object;
use ash_plain_data::run_error::{RunError, RunResult};
use ash_plain_data::same::is_of;
use ash_typed::{IntType, VarType};
use std::alloc::AllocError;

/// Whether a word is a value of this type; hosts give no handles.
fn is_of_type(of: VarType, word: Word) -> bool
    ensures value { result ≡ is_of_type of word }
{
    match (of, word) {
        (VarType::Bool, Word::Bool(_)) => true,
        (VarType::Integer(IntType::Int), Word::Int(_)) => true,
        (VarType::Integer(IntType::Uint), Word::Uint(_)) => true,
        (VarType::Integer(IntType::Int64), Word::Int64(_)) => true,
        (VarType::Integer(IntType::Uint64), Word::Uint64(_)) => true,
        _ => false,
    }
}

impl Activity {
    fn push_event(&mut self, event: Event) -> Result<(), AllocError>
        ensures value { OnOk result (activity_seen self.new
            ≡ in_world (with_event event) (activity_seen self.old)) }
    {
        self.world.events.push(event)?;
        Ok(())
    }

    /// The state of whom a call goes to.
    fn state_of(&self, target: Target) -> Option<&[u8]>
        ensures value { option_map (λ state. state.now) result
            ≡ state_of target (activity_seen self.now).world }
    {
        match target {
            Target::Object(number) => match self.world.objects.get(number) {
                Some(Object::Host { state, .. }) => Some(state.as_slice()),
                _ => None,
            },
            Target::Service(index) => match self.world.services.get(usize::from(index)) {
                Some(state) => Some(state.as_slice()),
                None => None,
            },
        }
    }

    fn set_state(&mut self, target: Target, state: Vec<u8>) -> Result<(), AllocError>
        ensures value { OnOk result (activity_seen self.new
            ≡ in_world (with_state target state.items) (activity_seen self.old)) }
    {
        match target {
            Target::Object(number) => self.world.objects.change_state(self.alloc, number, state),
            Target::Service(index) => {
                set_at(&mut self.world.services, usize::from(index), state);
                Ok(())
            }
        }
    }

    /// Calls a host object or a service. What the host did stays, whatever it answers.
    pub(crate) fn call_host(&mut self, target: Target, call: &HostCall) -> RunResult<HostAnswer>
        ensures run { RunsAs (λ answer. answer) result (activity_seen self.new)
            (call_host target (call_seen call.now) (activity_seen self.old)) }
    {
        let Some(before) = self.state_of(target) else {
            return Err(RunError::NoStep);
        };
        let Some(next) = self.world.answers.front() else {
            return Err(RunError::NoStep);
        };
        if !is_of(target, call, before, next) {
            return Err(RunError::NoStep);
        }
        let Some(taken) = self.world.answers.pop_front() else {
            return Err(RunError::NoStep);
        };
        self.set_state(target, taken.after)?;
        Ok(taken.answer)
    }

    /// What is made of an answer where a result of this type is declared, or none. What gives no value gives null.
    pub(crate) fn accept(&self, of: Option<VarType>, answer: HostAnswer) -> RunResult<Word>
        ensures run { RunsAs (λ w. w) result (activity_seen self.now)
            (accept of answer (activity_seen self.now)) }
    {
        match (answer, of) {
            (HostAnswer::Nothing, None) => Ok(Word::Null),
            (HostAnswer::Value(word), Some(of)) if is_of_type(of, word) => Ok(word),
            (HostAnswer::Nothing | HostAnswer::Value(_), _) => {
                Err(RunError::Raising(Exception::BadHostAnswer))
            }
            (HostAnswer::Raise(code), _) => Err(RunError::Raising(Exception::Raised(code))),
            (HostAnswer::NoMemory, _) => Err(RunError::NoStep),
        }
    }

    /// Runs a method of a host object, or a function of a service.
    pub fn invoke_host(
        &mut self,
        target: Target,
        id: u16,
        of: Option<VarType>,
        args: Vec<Word>,
    ) -> RunResult<Word>
        ensures invoked { RunsAs (λ w. w) result (activity_seen self.new)
            (invoke_host target id of args.items (activity_seen self.old)) }
    {
        let call = HostCall::Invoke { method: id, args };
        let answer = self.call_host(target, &call)?;
        self.push_event(Event::Called(target, id))?;
        self.accept(of, answer)
    }

    /// What a property of a host object has.
    pub(crate) fn get_property(&mut self, number: u64, id: u16, of: VarType) -> RunResult<Word>
        ensures run { RunsAs (λ w. w) result (activity_seen self.new)
            (get_property number id of (activity_seen self.old)) }
    {
        let call = HostCall::Get { property: id };
        let answer = self.call_host(Target::Object(number), &call)?;
        self.accept(Some(of), answer)
    }

    /// Gives a property of a host object a value.
    pub(crate) fn set_property(&mut self, number: u64, id: u16, word: Word) -> RunResult<()>
        ensures run { RunsAs (λ _. tt) result (activity_seen self.new)
            (set_property number id word (activity_seen self.old)) }
    {
        let call = HostCall::Set {
            property: id,
            value: word,
        };
        let answer = self.call_host(Target::Object(number), &call)?;
        self.accept(None, answer)?;
        Ok(())
    }

    /// The place of the first free box of the kind, in the pool's order.
    fn place_of_kind(&self, kind: u16) -> Option<usize>
        ensures place { result ≡ place_of_kind kind (activity_seen self.now).world }
        ensures within { IfSome result (λ place. place < vec_len self.now.world.pool) }
    {
        place_in(&self.world.pool, kind)
    }

    #[tactic(auto, using(crate::proofs::Pools::remove_map), unfolding(crate::specs::ActivityViews::activity_seen))]
    fn take_box(&mut self, place: usize) -> FreeBox
        requires within { place < vec_len self.old.world.pool }
        ensures free { slice_get (activity_seen self.old).world.pool place
            ≡ Some (box_seen result) }
        ensures taken { activity_seen self.new
            ≡ in_world (without_box place) (activity_seen self.old) }
    {
        self.world.pool.remove(place)
    }

    /// Takes a box from the pool, as the object of the next number.
    #[tactic(auto)]
    fn draw(&mut self, kind: u16) -> RunResult<u64>
        ensures run { RunsAs (λ n. n) result (activity_seen self.new)
            (draw kind (activity_seen self.old)) }
    {
        self.demand_number()?;
        let Some(place) = self.place_of_kind(kind) else {
            return Err(RunError::Raising(Exception::PoolEmpty));
        };
        let FreeBox { kind, state } = self.take_box(place);
        let number = self.make(Object::Host { kind, state })?;
        self.push_event(Event::Drew(number))?;
        Ok(number)
    }

    /// Constructs an object of a registered type: it is held before it is started.
    pub fn construct_host(&mut self, kind: u16, args: Vec<Word>) -> RunResult<Word>
        ensures constructed { RunsAs (λ w. w) result (activity_seen self.new)
            (construct_host kind args.items (activity_seen self.old)) }
    {
        let number = self.draw(kind)?;
        self.hold(Word::Object(number))?;
        let call = HostCall::Start { args };
        let answer = self.call_host(Target::Object(number), &call)?;
        self.accept(None, answer)?;
        Ok(Word::Object(number))
    }
}

/// The place of the first free box of the kind, in the pool's order.
fn place_in(pool: &[FreeBox], kind: u16) -> Option<usize>
    ensures place { result ≡ position_from (λ b. nat_eq b.kind kind) 0 (map box_seen pool.now) }
    ensures within { IfSome result (λ place. place < length pool.now) }
{
    for (place, free) in pool.iter().enumerate() {
        if free.kind == kind {
            return Some(place);
        }
    }
    None
}

/// Puts a state at an index, where there is one.
#[tactic(auto, using(crate::proofs::Pools::states_set))]
fn set_at(states: &mut Vec<Vec<u8>>, index: usize, state: Vec<u8>)
    ensures effect { map (λ s. s.items) states.new.items
        ≡ slice_set (map (λ s. s.items) states.old.items) index state.items }
{
    if let Some(old) = states.get_mut(index) {
        *old = state;
    }
}
