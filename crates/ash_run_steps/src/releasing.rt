//! Release points.
ghost use Rattle.std.specs.Prelude.{◌≡◌, IfErr};
ghost use Rattle.ash_run_steps.specs.declared.stop.Stop.TheVariants as stops;
ghost use Rattle.ash_run_steps.specs.Becoming.{Comes};
ghost use Rattle.ash_run_steps.specs.FrameChanges.{in_running, letting_go};
ghost use Rattle.ash_run_steps.specs.GuardedSteps.{RankTest, release, end_expression};
ghost use Rattle.ash_run_steps.specs.RunStates.{Names};

use crate::state::RunState;
use crate::stop::Stop;
use ash_host::HostObject;

impl<B: HostObject> RunState<B> {
    /// A release point: what can't be reached goes. Where memory is refused nothing goes.
    #[inline(always)]
    pub fn release(&mut self) -> Result<(), Stop>
        ensures released { (names : Names) (test : RankTest) → Comes B.HostObject names
            (release test) self.old result self.new }
        ensures frames { self.new.frames ≡ self.old.frames }
        ensures refused { IfErr result (λ stop. stop ≡ stops.NoMemory) }
    {
        self.table.facts();
        self.table.sweep(&mut self.events)?;
        self.table.facts();
        Ok(())
    }

    /// The end of a full expression: what the frame holds is let go, and what can't be reached goes.
    #[inline(always)]
    pub fn end_expression(&mut self) -> Result<(), Stop>
        ensures ended { (names : Names) (test : RankTest) → Comes B.HostObject names
            (end_expression test) self.old result self.new }
        ensures frames { self.new.frames ≡ in_running letting_go self.old.frames }
        ensures refused { IfErr result (λ stop. stop ≡ stops.NoMemory) }
    {
        self.let_go();
        self.release()
    }
}
