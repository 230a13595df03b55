//! Calls of host objects and services.
ghost use Rattle.std.specs.Prelude.{◌≡◌, ◌≤◌, ◌+◌, length, take, drop, IfOk, None};
ghost use Rattle.ash_host.specs.declared.event.Target.{Target};
ghost use Rattle.ash_host.specs.Objects.{handle};
ghost use Rattle.ash_meaning.specs.HostSteps as hosts;
ghost use Rattle.ash_run_steps.specs.Becoming.{Comes};
ghost use Rattle.ash_run_steps.specs.Guarded.{plain};
ghost use Rattle.ash_run_steps.specs.HostGuards.{invoke_host};
ghost use Rattle.ash_run_steps.specs.RunStates.{Names};

use crate::answering::{accept, is_host, is_service};
use crate::state::RunState;
use crate::stop::Stop;
use ash_host::laws::answers_have_their_ranges;
use ash_host::{HostObject, Word};
use ash_typed::VarType;

impl<B: HostObject> RunState<B> {
    /// Runs a function of the service at a place. Its arguments are in the slots from one on, so many of them; its
    /// result is of this type, or it has none. A host gives no handle. It is `NoMemory` too if no service is there, of
    /// which the meaning has no step: who begins a run has each service that is registered.
    pub fn invoke_service(
        &mut self,
        service: u16,
        function: u16,
        declared: Option<VarType>,
        at: usize,
        count: usize,
    ) -> Result<Word, Stop>
        requires within { at + count ≤ length self.old.frames.frame.slots }
        ensures invoked { (names : Names) → Comes B.HostObject names
            (plain (hosts.invoke_host (Target.Service service) function declared
            (take count (drop at self.old.frames.frame.slots)))) self.old result self.new }
        ensures frames { self.new.frames ≡ self.old.frames }
        ensures plain { IfOk result (λ word. handle word ≡ None) }
    {
        if !is_service(&self.table, service) {
            return Err(Stop::NoMemory);
        }
        let args = self.stack.slots_from(at, count);
        let answer = self
            .table
            .invoke_service(service, function, args, &mut self.events)?;
        answers_have_their_ranges(answer);
        accept(declared, answer)
    }

    /// Runs a method of a host object. Its arguments are in the slots from one on, so many of them; its result is of
    /// this type, or it has none. A host gives no handle. It is `Unsound` if no host object has the number.
    pub fn invoke_host(
        &mut self,
        number: u64,
        method: u16,
        declared: Option<VarType>,
        at: usize,
        count: usize,
    ) -> Result<Word, Stop>
        requires within { at + count ≤ length self.old.frames.frame.slots }
        ensures invoked { (names : Names) → Comes B.HostObject names
            (invoke_host (Target.Object number) method declared
            (take count (drop at self.old.frames.frame.slots))) self.old result self.new }
        ensures frames { self.new.frames ≡ self.old.frames }
        ensures plain { IfOk result (λ word. handle word ≡ None) }
    {
        if !is_host(&self.table, number) {
            return Err(Stop::Unsound);
        }
        self.table.facts();
        let args = self.stack.slots_from(at, count);
        let answer = self.table.invoke(number, method, args, &mut self.events)?;
        answers_have_their_ranges(answer);
        accept(declared, answer)
    }
}
