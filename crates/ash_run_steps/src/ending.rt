//! The end of a run.
ghost use Rattle.std.specs.Prelude.{◌≡◌, ◌<◌, ◌++◌, [], ℕ, List, Option, OnOk, IfErr, length};
ghost use Rattle.ash_host.specs.Objects.{handles};
ghost use Rattle.ash_host.specs.Records.{HostRecord};
ghost use Rattle.ash_host.specs.declared.word.Word.{Word};
ghost use Rattle.ash_meaning.specs.Ends.{Finished, interrupted_in};
ghost use Rattle.ash_meaning.specs.Runs.{Interrupt};
ghost use Rattle.ash_run_steps.specs.declared.stop.Stop.TheVariants as stops;
ghost use Rattle.ash_run_steps.specs.Becoming.{Becomes};
ghost use Rattle.ash_run_steps.specs.FrameChanges.{leaving};
ghost use Rattle.ash_run_steps.specs.FrameSteps.{return_value};
ghost use Rattle.ash_run_steps.specs.Guarded.{Guarded, stop};
ghost use Rattle.ash_run_steps.specs.GuardedSteps.{RankTest};
ghost use Rattle.ash_run_steps.specs.Outcomes.{ComesTo};
ghost use Rattle.ash_run_steps.specs.RunStates.{State, Names, HoldsRoots, bare, frame_shown, world_shown};
ghost use Rattle.ash_run_steps.specs.Stacks.{roots_of_frames};
ghost use Rattle.ash_run_steps.specs.Worlds.{world_of};

use crate::beginning::Parts;
use crate::leaving::unhold_frame;
use crate::stack::Stack;
use crate::state::RunState;
use crate::stop::Stop;
use ash_host::HostObject;

impl<B: HostObject> RunState<B> {
    // Gives the frame up that runs.
    fn give_up_frame(&mut self)
        requires called { 0 < length self.old.frames.callers }
        ensures frames { self.new.frames ≡ leaving [] self.old.frames }
        ensures same { bare self.new.table ≡ bare self.old.table }
        ensures others { self.new ≡ record self.old {
          table = self.new.table;
          frames = self.new.frames;
        } }
    {
        unhold_frame(&mut self.table, &self.stack);
        self.stack.clear_held();
        self.stack.leave();
    }

    // Gives up what the frame reaches by itself.
    fn clear_frame(&mut self)
        requires first { self.old.frames.callers ≡ [] }
        ensures none { roots_of_frames self.new.frames ≡ [] }
        ensures same { bare self.new.table ≡ bare self.old.table }
        ensures others { self.new ≡ record self.old {
          table = self.new.table;
          frames = self.new.frames;
        } }
    {
        unhold_frame(&mut self.table, &self.stack);
        self.stack.clear();
    }

    // Gives all frames up at once.
    fn give_up(&mut self)
        ensures none { roots_of_frames self.new.frames ≡ [] }
        ensures same { bare self.new.table ≡ bare self.old.table }
        ensures others { self.new ≡ record self.old {
          table = self.new.table;
          frames = self.new.frames;
        } }
    {
        for _callers in 0..self.stack.depth() {
            self.give_up_frame();
        }
        self.clear_frame();
    }

    /// The function and the line of the frame that runs. A run that is ended before its end has stopped there.
    pub fn place(&self) -> (usize, u32)
        ensures function { result.0 ≡ self.now.frames.frame.function }
        ensures line { result.1 ≡ self.now.frames.frame.line }
    {
        self.stack.place()
    }

    /// Ends the run, at its end or before: all frames are given up at once, and what can't be reached goes.
    pub fn end(&mut self) -> Result<(), Stop>
        ensures finished { (names : Names) (test : RankTest) (run : Guarded (Option Word)) (start : State B)
            (counts : List ℕ) (value : Option Word)
            → Becomes B.HostObject names run start (return_value counts value) self.old
            → OnOk result (ComesTo B.HostObject names test run start (Finished value) self.new) }
        ensures interrupted { (names : Names) (test : RankTest) (run : Guarded (Option Word)) (start : State B)
            (interrupt : Interrupt) → Becomes B.HostObject names run start (stop interrupt) self.old
            → OnOk result (ComesTo B.HostObject names test run start
            (interrupted_in interrupt (frame_shown names self.old.frames.frame)) self.new) }
        ensures none { roots_of_frames self.new.frames ≡ [] }
        ensures refused { IfErr result (λ stop. stop ≡ stops.NoMemory) }
    {
        self.give_up();
        self.release()
    }

    /// What the run leaves, and its stack. All frames were given up.
    pub fn into_parts(self) -> (Parts<B>, Stack)
        requires ended { roots_of_frames self.frames ≡ [] }
        ensures table { result.0.table ≡ self.table }
        ensures globals { result.0.globals.items ≡ self.globals }
        ensures outside { result.0.outside.items ≡ self.outside }
        ensures events { result.0.events.items ≡ self.events }
        ensures world { (names : Names) (rest : List HostRecord) → world_of B.HostObject names rest
            result.0.table result.0.globals.items result.0.outside.items result.0.events.items
            ≡ world_shown B.HostObject names rest self }
        ensures held { HoldsRoots result.0.table (result.0.outside.items ++ handles result.0.globals.items) }
    {
        let parts = Parts {
            table: self.table,
            globals: self.globals,
            outside: self.outside,
            events: self.events,
        };
        (parts, self.stack)
    }
}
