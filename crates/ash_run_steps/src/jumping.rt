//! Jumps out of blocks.
ghost use Rattle.std.specs.Prelude.{◌≡◌, ◌≤◌, ℕ, List, All, IfErr};
ghost use Rattle.ash_run_steps.specs.declared.stop.Stop.TheVariants as stops;
ghost use Rattle.ash_run_steps.specs.Becoming.{Comes};
ghost use Rattle.ash_run_steps.specs.FrameChanges.{in_running, keeping};
ghost use Rattle.ash_run_steps.specs.FrameSteps.{end_blocks};
ghost use Rattle.ash_run_steps.specs.GuardedSteps.{RankTest};
ghost use Rattle.ash_run_steps.specs.RunStates.{Names};

use crate::state::RunState;
use crate::stop::Stop;
use ash_host::HostObject;

impl<B: HostObject> RunState<B> {
    /// Leaves blocks, the outermost of them with so many locals, and what can't be reached goes: the end of a block, or
    /// a jump out of several, which end together where it leads.
    #[inline(always)]
    pub fn end_blocks(&mut self, count: usize) -> Result<(), Stop>
        ensures ended { (names : Names) (test : RankTest) (inner : List ℕ) → All (λ other. count ≤ other) inner
            → Comes B.HostObject names (end_blocks test inner count) self.old result self.new }
        ensures frames { self.new.frames ≡ in_running (keeping count) self.old.frames }
        ensures refused { IfErr result (λ stop. stop ≡ stops.NoMemory) }
    {
        self.leave_blocks(count);
        self.release()
    }
}
