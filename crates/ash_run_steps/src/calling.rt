//! Calls, and what is tested before them: that the object is not null, and that there is room for a frame.
ghost use Rattle.std.specs.Prelude.{◌≡◌, ◌<◌, ◌≤◌, ◌+◌, length, take, drop, Some, None, IfOk, OnOk, OnErr};
ghost use Rattle.ash_host.specs.Objects.{handle};
ghost use Rattle.ash_meaning.specs.Frames as frames;
ghost use Rattle.ash_meaning.specs.ObjectSteps as objects;
ghost use Rattle.ash_run_steps.specs.Becoming.{Comes};
ghost use Rattle.ash_run_steps.specs.FrameChanges.{entering};
ghost use Rattle.ash_run_steps.specs.FrameSteps.{call};
ghost use Rattle.ash_run_steps.specs.Guarded.{plain};
ghost use Rattle.ash_run_steps.specs.RunStates.{Names};
ghost use Rattle.std.specs.Prelude.{IsErrOf};
ghost use Rattle.ash_run_steps.specs.declared.stop.Stop.{Stop};

use crate::counting::handle;
use crate::state::RunState;
use crate::stop::Stop;
use ash_host::{HostObject, Word};
use ash_meaning::Exception;

/// How many frames there are at most.
pub const MAX_FRAMES: usize = 256;

impl<B: HostObject> RunState<B> {
    /// The object that a word is a handle to. Null has none, which raises an exception.
    #[inline(always)]
    pub fn object_of(&self, word: Word) -> Result<u64, Stop>
        ensures found { (names : Names) → Comes B.HostObject names (plain (objects.object_of word))
            self.now result self.now }
        ensures number { IfOk result (λ number. handle word ≡ Some number) }
        ensures none { OnErr result (handle word ≡ None) }
        ensures memory { IsErrOf result Stop.NoMemory → ⊥ }
    {
        match handle(word) {
            Some(number) => Ok(number),
            None => Err(Stop::Raised(Exception::NullPointerAccess)),
        }
    }

    /// Raises an exception unless there is room for one more frame.
    #[inline(always)]
    pub fn demand_frame(&self) -> Result<(), Stop>
        ensures demanded { (names : Names) → Comes B.HostObject names (plain frames.demand_frame)
            self.now result self.now }
        ensures room { OnOk result (length self.now.frames.callers < 255) }
        ensures memory { IsErrOf result Stop.NoMemory → ⊥ }
    {
        if self.stack.depth() < MAX_FRAMES - 1 {
            Ok(())
        } else {
            Err(Stop::Raised(Exception::StackOverflow))
        }
    }

    /// Calls a function or a method: a frame is entered at a line if there is room for one more, and takes a tick
    /// there. Its slots are those of its caller from one on, and its arguments, which are its first locals, are in the
    /// first of them. The caller goes on from an instruction when the frame is left.
    pub fn call(
        &mut self,
        function: usize,
        line: u32,
        this: Word,
        back: usize,
        at: usize,
        count: usize,
    ) -> Result<(), Stop>
        requires above { self.old.frames.frame.count ≤ at }
        requires within { at + count ≤ length self.old.frames.frame.slots }
        ensures called { (names : Names) → Comes B.HostObject names
            (call (names.functions function) line this
            (take count (drop at self.old.frames.frame.slots))) self.old result self.new }
        ensures frames { OnOk result (self.new.frames ≡ entering function line this back at count
            self.old.frames) }
        ensures few { OnOk result (length self.new.frames.callers < 256) }
    {
        self.demand_frame()?;
        self.enter(function, line, this, back, at, count)?;
        self.tick(line)
    }
}
