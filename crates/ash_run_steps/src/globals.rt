//! Globals of the module that runs.
ghost use Rattle.std.specs.Prelude.{◌≡◌, ◌∷◌, [], OnOk, OnErr, slice_index_or};
ghost use Rattle.ash_host.specs.declared.word.Word.TheVariants as words;
ghost use Rattle.ash_host.specs.Objects.{handles};
ghost use Rattle.ash_run_steps.specs.Becoming.{Comes, Becomes};
ghost use Rattle.ash_run_steps.specs.GlobalSteps.{read_global, write_global};
ghost use Rattle.ash_run_steps.specs.Guarded.{give};
ghost use Rattle.ash_run_steps.specs.Keeping.{keeping};
ghost use Rattle.ash_run_steps.specs.RunStates.{Names};

use crate::counting::{hold_word, is_alive};
use crate::holding::push_handle;
use crate::parts::word_in;
use crate::state::RunState;
use crate::stop::Stop;
use ash_host::{HostObject, Word};

impl<B: HostObject> RunState<B> {
    /// The word of a global; null if there is no such global.
    #[inline(always)]
    pub fn read_global(&self, place: usize) -> Word
        ensures read { (names : Names) → Becomes B.HostObject names (read_global place) self.now
            (give result) self.now }
        ensures word { result ≡ slice_index_or self.now.globals place words.Null }
    {
        match word_in(&self.globals, place) {
            Some(word) => word,
            None => Word::Null,
        }
    }

    /// Writes a word into a global. What was there is held until the full expression ends. If the write is refused
    /// nothing changes.
    #[inline(always)]
    pub fn write_global(&mut self, place: usize, word: Word) -> Result<(), Stop>
        ensures written { (names : Names) → Comes B.HostObject names (write_global place word) self.old
            result self.new }
        ensures frames { OnOk result (self.new.frames ≡ keeping
            (handles (slice_index_or self.old.globals place words.Null ∷ [])) self.old.frames) }
        ensures unchanged { OnErr result (self.new ≡ self.old) }
    {
        let Some(before) = word_in(&self.globals, place) else {
            return Err(Stop::Unsound);
        };
        if !is_alive(&self.table, word) {
            return Err(Stop::Unsound);
        }
        self.stack.facts();
        push_handle(&mut self.stack, before)?;
        hold_word(&mut self.table, word);
        self.globals[place] = word;
        Ok(())
    }
}
