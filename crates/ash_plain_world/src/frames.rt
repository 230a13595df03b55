//! Ticks, and frames that are entered and left.
#![tactic(auto, unfolding(crate::specs::ActivityViews::activity_seen))]

ghost use Rattle.std.specs.Prelude.{◌≡◌, ◌∷◌, OnOk, string_bytes};
ghost use Rattle.ash_meaning.specs.Frames.{tick, demand_frame, frame_of, leave};
ghost use Rattle.ash_plain_data.specs.CallRuns.{RunsAs};
ghost use Rattle.ash_plain_world.specs.ActivityViews.{activity_seen};

use crate::activity::{Activity, Frame};
use ash_host::Word;
use ash_meaning::Exception;
use ash_plain_data::run_error::{RunError, RunResult};
use std::alloc::AllocError;
use std::mem;

/// How many frames there are at most.
pub const MAX_FRAMES: usize = 256;

impl Activity {
    /// Takes a tick for what begins at this line. Where none is left the run ends; the line is set either way.
    pub fn tick(&mut self, line: usize) -> RunResult<()>
        ensures taken { RunsAs (λ _. tt) result (activity_seen self.new)
            (tick line (activity_seen self.old)) }
    {
        self.frame.line = line;
        if self.ticks == 0 {
            return Err(RunError::OutOfTicks);
        }
        self.ticks -= 1;
        Ok(())
    }

    /// Raises an exception in the frame that runs, where there is room for no other.
    pub fn demand_frame(&self) -> RunResult<()>
        ensures room { RunsAs (λ _. tt) result (activity_seen self.now)
            (demand_frame (activity_seen self.now)) }
    {
        if self.callers.len() + 1 < MAX_FRAMES {
            Ok(())
        } else {
            Err(RunError::Raising(Exception::StackOverflow))
        }
    }

    /// Enters a frame.
    pub fn enter(
        &mut self,
        function: String,
        line: usize,
        this: Word,
        locals: Vec<Word>,
    ) -> Result<(), AllocError>
        ensures entered { OnOk result (activity_seen self.new ≡ record (activity_seen self.old) {
          frame = frame_of (string_bytes function) line this locals.items;
          callers = (activity_seen self.old).frame ∷ (activity_seen self.old).callers;
        }) }
    {
        let frame = Frame {
            function,
            line,
            this,
            locals,
            held: Vec::new(self.alloc),
        };
        let caller = mem::replace(&mut self.frame, frame);
        self.callers.insert(0, caller)?;
        Ok(())
    }

    /// Leaves a frame: the value passes into what the caller holds, then the whole frame is given up.
    #[tactic(auto, unfolding(crate::specs::ActivityViews::activity_seen, ash_meaning::specs::Frames::leave))]
    pub fn leave(&mut self, value: Word) -> RunResult<Word>
        ensures returned { RunsAs (λ w. w) result (activity_seen self.new)
            (leave value (activity_seen self.old)) }
    {
        if !self.callers.is_empty() {
            let mut caller = self.callers.remove(0);
            caller.hold(value)?;
            self.frame = caller;
        }
        self.release()?;
        Ok(value)
    }
}
