//! Slots, locals that are declared and read, and the object whose method runs.
ghost use Rattle.std.specs.Prelude.{◌≡◌, ◌<◌, ◌≤◌, ◌∷◌, List, length, Some};
ghost use Rattle.std.specs.Prelude.{OnOk, OnErr, IfOk, slice_get, slice_index_or};
ghost use Rattle.ash_host.specs.declared.word.Word.TheVariants as words;
ghost use Rattle.ash_host.specs.Records.{HostRecord};
ghost use Rattle.ash_meaning.specs.Locations as locations;
ghost use Rattle.ash_run_steps.specs.Becoming.{Comes, Becomes};
ghost use Rattle.ash_run_steps.specs.FrameChanges.{in_running, with_word, declaring};
ghost use Rattle.ash_run_steps.specs.FrameSteps.{declare, read_local};
ghost use Rattle.ash_run_steps.specs.Guarded.{plain, give};
ghost use Rattle.std.specs.Prelude.{IsErrOf};
ghost use Rattle.ash_run_steps.specs.declared.stop.Stop.{Stop};
ghost use Rattle.ash_run_steps.specs.RunStates.{Names, shown};
ghost use Rattle.ash_run_steps.specs.Stacks.{StackFrame, locals_of};

use crate::counting::{hold_in_slot, slot_of_handle};
use crate::state::RunState;
use crate::stop::Stop;
use ash_host::{HostObject, Word};

impl<B: HostObject> RunState<B> {
    /// The word in a slot, if there is such a slot.
    #[inline(always)]
    pub fn slot(&self, slot: usize) -> Option<Word>
        ensures word { result ≡ slice_get self.now.frames.frame.slots slot }
    {
        self.stack.word(slot)
    }

    /// How many locals there are. Their slots are the first.
    #[inline(always)]
    pub fn local_count(&self) -> usize
        ensures count { result ≡ self.now.frames.frame.count }
        ensures within { result ≤ length self.now.frames.frame.slots }
    {
        self.stack.count()
    }

    /// How many slots the frame that runs has.
    #[inline(always)]
    pub fn slot_count(&self) -> usize
        ensures count { result ≡ length self.now.frames.frame.slots }
    {
        self.stack.slot_count()
    }

    /// How many frames call the one that runs.
    #[inline(always)]
    pub fn depth(&self) -> usize
        ensures depth { result ≡ length self.now.frames.callers }
    {
        self.stack.depth()
    }

    /// The instruction that the caller of the frame that runs goes on from.
    #[inline(always)]
    pub fn back(&self) -> usize
        ensures back { result ≡ self.now.frames.frame.back }
    {
        self.stack.back()
    }

    /// How many slots of its caller are below those of the frame that runs. Its locals are among them.
    #[inline(always)]
    pub fn began(&self) -> usize
        requires called { 0 < length self.now.frames.callers }
        ensures began { (caller : StackFrame) × (callers : List StackFrame)
            × (self.now.frames.callers ≡ caller ∷ callers) × (result ≡ length caller.slots)
            × (caller.count ≤ length caller.slots) }
    {
        self.stack.began()
    }

    /// The function of the frame that runs.
    #[inline(always)]
    pub fn function(&self) -> usize
        ensures function { result ≡ self.now.frames.frame.function }
    {
        let (function, _line) = self.stack.place();
        function
    }

    /// Writes a word into a slot that is no local.
    #[inline(always)]
    pub fn set_slot(&mut self, slot: usize, word: Word)
        requires above { self.old.frames.frame.count ≤ slot }
        requires within { slot < length self.old.frames.frame.slots }
        ensures same { (names : Names) (rest : List HostRecord) → shown B.HostObject names rest self.new
            ≡ shown B.HostObject names rest self.old }
        ensures written { self.new ≡ record self.old {
          frames = in_running (with_word slot word) self.old.frames;
        } }
    {
        self.stack.set_word(slot, word);
    }

    /// Makes the slot behind the locals one more local, with the word that is there.
    #[inline(always)]
    pub fn declare(&mut self) -> Result<(), Stop>
        requires within { self.old.frames.frame.count < length self.old.frames.frame.slots }
        ensures declared { (names : Names) → Comes B.HostObject names (declare
            (slice_index_or self.old.frames.frame.slots self.old.frames.frame.count words.Null))
            self.old result self.new }
        ensures frames { OnOk result (self.new.frames ≡ in_running declaring self.old.frames) }
        ensures unchanged { OnErr result (self.new.frames ≡ self.old.frames) }
        ensures memory { IsErrOf result Stop.NoMemory → ⊥ }
    {
        let count = self.stack.count();
        let Some(word) = self.stack.word(count) else {
            unreachable!()
        };
        let Some(slot) = slot_of_handle(&self.table, word) else {
            return Err(Stop::Unsound);
        };
        self.stack.facts();
        hold_in_slot(&mut self.table, word, slot);
        self.stack.set_count(count + 1);
        Ok(())
    }

    /// Reads a local.
    pub fn read_local(&self, slot: usize) -> Result<Word, Stop>
        ensures read { (names : Names) → Comes B.HostObject names (read_local slot) self.now result
            self.now }
        ensures word { IfOk result (λ word. slice_get (locals_of self.now.frames.frame) slot ≡ Some word) }
        ensures memory { IsErrOf result Stop.NoMemory → ⊥ }
    {
        match self.stack.local(slot) {
            Some(word) => Ok(word),
            None => Err(Stop::Unsound),
        }
    }

    /// The object whose method runs, or null.
    #[inline(always)]
    pub fn this(&self) -> Word
        ensures read { (names : Names) → Becomes B.HostObject names (plain locations.this) self.now
            (give result) self.now }
        ensures this { result ≡ self.now.frames.frame.this }
    {
        self.stack.this()
    }
}
