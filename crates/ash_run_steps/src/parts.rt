//! Fields of script objects, and elements of arrays.
ghost use Rattle.std.specs.Prelude.{◌≡◌, ◌∷◌, [], OnOk, OnErr, slice_index_or, slice_get};
ghost use Rattle.ash_host.specs.declared.word.Word.TheVariants as words;
ghost use Rattle.ash_host.specs.Objects.{handles};
ghost use Rattle.ash_run_steps.specs.Becoming.{Comes, Becomes};
ghost use Rattle.ash_run_steps.specs.Guarded.{give};
ghost use Rattle.ash_run_steps.specs.Keeping.{keeping};
ghost use Rattle.ash_run_steps.specs.PartSteps.{words_at, read_part, write_part};
ghost use Rattle.ash_run_steps.specs.RunStates.{Names};

use crate::counting::{hold_word, is_alive};
use crate::holding::push_handle;
use crate::state::RunState;
use crate::stop::Stop;
use ash_host::{HostObject, Word};
use ash_objects::Objects;

/// The words of an object: its fields, or its elements; none if none lives.
#[inline(always)]
pub(crate) fn words_at<B>(table: &Objects<B>, number: u64) -> &[Word]
    ensures words { result.now ≡ words_at number table.now }
{
    match table.body(number) {
        Some(body) => body.words(),
        None => &[],
    }
}

/// The word at a place, if there is one.
#[inline(always)]
pub(crate) fn word_in(words: &[Word], place: usize) -> Option<Word>
    ensures word { result ≡ slice_get words.now place }
{
    words.get(place).copied()
}

impl<B: HostObject> RunState<B> {
    /// The word of a field or an element; null if there is none at the place.
    #[inline(always)]
    pub fn read_part(&self, number: u64, place: usize) -> Word
        ensures read { (names : Names) → Becomes B.HostObject names (read_part number place) self.now
            (give result) self.now }
        ensures word { result ≡ slice_index_or (words_at number self.now.table) place words.Null }
    {
        match word_in(words_at(&self.table, number), place) {
            Some(word) => word,
            None => Word::Null,
        }
    }

    /// Writes a word into a field or an element. What was there is held until the full expression ends. If the write
    /// is refused nothing changes.
    #[inline(always)]
    pub fn write_part(&mut self, number: u64, place: usize, word: Word) -> Result<(), Stop>
        ensures written { (names : Names) → Comes B.HostObject names (write_part number place word) self.old
            result self.new }
        ensures frames { OnOk result (self.new.frames ≡ keeping (handles
            (slice_index_or (words_at number self.old.table) place words.Null ∷ [])) self.old.frames) }
        ensures unchanged { OnErr result (self.new ≡ self.old) }
    {
        let Some(before) = word_in(words_at(&self.table, number), place) else {
            return Err(Stop::Unsound);
        };
        if !is_alive(&self.table, word) {
            return Err(Stop::Unsound);
        }
        self.table.facts();
        self.stack.facts();
        push_handle(&mut self.stack, before)?;
        self.table.set_field(number, place, word);
        hold_word(&mut self.table, before);
        Ok(())
    }
}
