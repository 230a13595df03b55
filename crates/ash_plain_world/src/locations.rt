//! Where a value is stored, once a place is computed, and how it is read and written there.
#![tactic(auto, unfolding(crate::specs::ActivityViews::activity_seen))]

ghost use Rattle.std.specs.Prelude.{◌≡◌, IfOk, OnOk, slice_index_or, slice_set};
ghost use Rattle.ash_host.specs.declared.word.Word.TheVariants.{Null};
ghost use Rattle.ash_meaning.specs.Activity.{in_frame, in_world};
ghost use Rattle.ash_meaning.specs.ObjectSteps.{words_in};
ghost use Rattle.ash_meaning.specs.Locations.{location_of_variable, location_of_member};
ghost use Rattle.ash_meaning.specs.Locations.{read, with_local};
ghost use Rattle.ash_meaning.specs.Locations.{with_global, write};
ghost use Rattle.ash_plain_data.specs.CallRuns.{RunsAs};
ghost use Rattle.ash_plain_world.specs.ActivityViews.{activity_seen};
ghost use Rattle.ash_plain_world.specs.LocationViews.{location_seen};
ghost use Rattle.ash_plain_world.specs.JointSteps.{read_held, this_held};

use crate::activity::Activity;
use ash_host::Word;
use ash_plain_data::run_error::RunResult;
use ash_typed::{ObjectMember, VarType, Variable};
use std::alloc::{AllocError, Global};

/// A local, a global, a field or an element by the number of its object and its place there, or a property of a host
/// object.
#[derive(Clone, Copy)]
pub enum Location {
    /// A local, by its slot.
    Local(usize),
    /// A global, by its place.
    Global(usize),
    /// A field or an element, by the object and its place there.
    Part { number: u64, place: usize },
    /// A property of a host object.
    Property { number: u64, id: u16, of: VarType },
}

/// Where a variable is.
pub fn location_of_variable(variable: Variable) -> Location
    ensures location { location_seen result ≡ location_of_variable variable }
{
    match variable {
        Variable::Local { slot, .. } => Location::Local(slot),
        Variable::Global { place, .. } => Location::Global(place),
    }
}

/// Where an object has a member.
pub fn location_of_member(member: ObjectMember, number: u64) -> Location
    ensures location { location_seen result ≡ location_of_member member number }
{
    match member {
        ObjectMember::Field { place, .. } => Location::Part { number, place },
        ObjectMember::Property { id, of } => Location::Property { number, id, of },
    }
}

/// Words with another one at a place.
pub(crate) fn words_with(
    alloc: Global,
    words: &[Word],
    place: usize,
    word: Word,
) -> Result<Vec<Word>, AllocError>
    ensures value { IfOk result (λ all. all.items ≡ slice_set words.now place word) }
{
    let mut all = Vec::from_slice(alloc, words)?;
    if let Some(old) = all.get_mut(place) {
        *old = word;
    }
    Ok(all)
}

impl Activity {
    /// The object whose method runs.
    pub(crate) fn this(&self) -> Word
        ensures value { result ≡ (activity_seen self.now).frame.this }
    {
        self.frame.this
    }

    /// The object whose method runs, which is held.
    pub fn this_held(&mut self) -> RunResult<Word>
        ensures held { RunsAs (λ w. w) result (activity_seen self.new)
            (this_held (activity_seen self.old)) }
    {
        let this = self.frame.this;
        self.give_held(this)
    }

    fn local(&self, slot: usize) -> Word
        ensures value { result ≡ slice_index_or (activity_seen self.now).frame.locals slot Null }
    {
        self.frame.locals.get(slot).copied().unwrap_or(Word::Null)
    }

    fn global(&self, place: usize) -> Word
        ensures value { result ≡ slice_index_or (activity_seen self.now).world.globals place Null }
    {
        self.world.globals.get(place).copied().unwrap_or(Word::Null)
    }

    fn part(&self, number: u64, place: usize) -> Word
        ensures value { result
            ≡ slice_index_or (words_in number (activity_seen self.now).world) place Null }
    {
        self.words_at(number)
            .get(place)
            .copied()
            .unwrap_or(Word::Null)
    }

    /// What a location holds.
    pub(crate) fn read(&mut self, location: Location) -> RunResult<Word>
        ensures run { RunsAs (λ w. w) result (activity_seen self.new)
            (read (location_seen location) (activity_seen self.old)) }
    {
        match location {
            Location::Local(slot) => Ok(self.local(slot)),
            Location::Global(place) => Ok(self.global(place)),
            Location::Part { number, place } => Ok(self.part(number, place)),
            Location::Property { number, id, of } => self.get_property(number, id, of),
        }
    }

    /// What a location holds, which is held where it is a handle.
    pub fn read_held(&mut self, location: Location) -> RunResult<Word>
        ensures held { RunsAs (λ w. w) result (activity_seen self.new)
            (read_held (location_seen location) (activity_seen self.old)) }
    {
        let word = self.read(location)?;
        self.give_held(word)
    }

    fn set_local(&mut self, slot: usize, word: Word)
        ensures effect { activity_seen self.new
            ≡ in_frame (with_local slot word) (activity_seen self.old) }
    {
        if let Some(variable) = self.frame.locals.get_mut(slot) {
            *variable = word;
        }
    }

    fn set_global(&mut self, place: usize, word: Word)
        ensures effect { activity_seen self.new
            ≡ in_world (with_global place word) (activity_seen self.old) }
    {
        if let Some(variable) = self.world.globals.get_mut(place) {
            *variable = word;
        }
    }

    /// Puts a word where another one is, which is held: nothing goes before the full expression ends.
    pub fn write(&mut self, location: Location, word: Word) -> RunResult<()>
        ensures written { RunsAs (λ _. tt) result (activity_seen self.new)
            (write (location_seen location) word (activity_seen self.old)) }
    {
        match location {
            Location::Local(slot) => {
                let old = self.local(slot);
                self.hold(old)?;
                self.set_local(slot, word);
                Ok(())
            }
            Location::Global(place) => {
                let old = self.global(place);
                self.hold(old)?;
                self.set_global(place, word);
                Ok(())
            }
            Location::Part { number, place } => {
                let old = self.part(number, place);
                self.hold(old)?;
                let words = words_with(self.alloc, self.words_at(number), place, word)?;
                self.set_words(number, words)?;
                Ok(())
            }
            Location::Property { number, id, .. } => self.set_property(number, id, word),
        }
    }
}
