//! The end of a run.
ghost use Rattle.std.specs.Prelude.{◌≡◌, ◌++◌, Option, Err};
ghost use Rattle.ash_context.specs.Outcomes.{CameTo};
ghost use Rattle.ash_host.specs.Objects.{handles};
ghost use Rattle.ash_host.specs.declared.word.Word.{Word};
ghost use Rattle.ash_run_steps.specs.Becoming.{Comes};
ghost use Rattle.ash_run_steps.specs.Guarded.{Guarded};
ghost use Rattle.ash_run_steps.specs.GuardedSteps.{RankTest};
ghost use Rattle.ash_run_steps.specs.RunStates.{State, Names, HoldsRoots};

use crate::outcome::{Outcome, RunFault, outcome_of};
use ash_host::{HostObject, Word};
use ash_run_steps::beginning::Parts;
use ash_run_steps::stack::Stack;
use ash_run_steps::state::RunState;
use ash_run_steps::stop::Stop;

/// What a run leaves: its outcome, its parts, and its stack.
#[derive(Drop)]
pub(crate) struct Ended<B: HostObject> {
    pub(crate) outcome: Result<Outcome, RunFault>,
    pub(crate) parts: Parts<B>,
    pub(crate) stack: Stack,
}

/// Ends a run whose code has come to this.
pub(crate) fn finish<B: HostObject>(
    mut state: RunState<B>,
    end: Result<Option<Word>, Stop>,
) -> Ended<B>
    ensures came { (names : Names) (test : RankTest) (run : Guarded (Option Word)) (start : State B)
        → Comes B.HostObject names run start end state
        → CameTo B.HostObject names test run start result.outcome result.parts }
    ensures memory { end ≡ Err Stop.NoMemory → result.outcome ≡ Err RunFault.NoMemory }
    ensures begun { result.outcome ≡ Err RunFault.NotBegun → ⊥ }
    ensures held { HoldsRoots result.parts.table (result.parts.outside.items ++ handles result.parts.globals.items) }
{
    let (function, line) = state.place();
    let ended = state.end();
    let outcome = outcome_of(end, function, line, ended);
    let (parts, stack) = state.into_parts();
    Ended {
        outcome,
        parts,
        stack,
    }
}
