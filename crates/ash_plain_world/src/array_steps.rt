//! Steps on arrays.
#![tactic(auto, unfolding(crate::specs::ActivityViews::activity_seen))]

ghost use Rattle.std.specs.Prelude.{◌≡◌, ◌++◌, IfOk, OnOk, drop, replicate};
ghost use Rattle.std.specs.Option.{option_map_or};
ghost use Rattle.ash_host.specs.declared.word.Word.TheVariants.{Null};
ghost use Rattle.ash_host.specs.Objects.{object_at};
ghost use Rattle.ash_meaning.specs.ArraySteps.{zero_element, natural_of, index_in};
ghost use Rattle.ash_meaning.specs.ArraySteps.{count_in, construct_array};
ghost use Rattle.ash_meaning.specs.ArraySteps.{resized, resize, insert_last, remove_last};
ghost use Rattle.ash_meaning.specs.ArraySteps.{invoke_array, zero_in};
ghost use Rattle.ash_meaning.specs.ExpressionMeaning.{element_at};
ghost use Rattle.ash_plain_data.specs.ObjectViews.{element_seen, object_seen};
ghost use Rattle.ash_plain_data.specs.CallRuns.{RunsAs};
ghost use Rattle.ash_plain_world.specs.LocationViews.{location_seen};
ghost use Rattle.ash_plain_world.specs.ActivityViews.{activity_seen};

use crate::activity::Activity;
use crate::locations::Location;
use ash_host::{MAX_ELEMENTS, Word};
use ash_integers::number;
use ash_meaning::Exception;
use ash_plain_data::object::{Elements, Object};
use ash_plain_data::operators::zero_of;
use ash_plain_data::run_error::{RunError, RunResult};
use ash_typed::{ArrayMethod, IntType, VarType};
use std::alloc::{AllocError, Global};

/// What an element is before anything is written to it.
fn zero_element(of: &Elements) -> Word
    ensures value { result ≡ zero_element (element_seen of.now) }
{
    match of {
        Elements::Bools => zero_of(VarType::Bool),
        Elements::Ints => zero_of(VarType::Integer(IntType::Int)),
        Elements::Uints => zero_of(VarType::Integer(IntType::Uint)),
        Elements::Int64s => zero_of(VarType::Integer(IntType::Int64)),
        Elements::Uint64s => zero_of(VarType::Integer(IntType::Uint64)),
        Elements::Handles { .. } | Elements::Hosts(_) => Word::Null,
    }
}

/// The number that an index or a length is.
fn natural_of(word: Word) -> u64
    ensures value { result ≡ natural_of word }
{
    let number = number(word);
    if number < 0 {
        (0 - number) as u64
    } else {
        number as u64
    }
}

/// As many elements as the argument says; none without one.
fn count_in(args: &[Word]) -> u64
    ensures value { result ≡ count_in args.now }
{
    match args {
        [] => 0,
        [count, ..] => natural_of(*count),
    }
}

/// Words with so many of one at their end.
fn push_many(words: &mut Vec<Word>, count: u64, word: Word) -> Result<(), AllocError>
    ensures value { OnOk result (words.new.items ≡ words.old.items ++ replicate count word) }
{
    for _ in 0..count {
        words.push(word)?;
    }
    Ok(())
}

/// What a new element of an object is, where it is an array.
fn zero_in(object: &Object) -> Word
    ensures value { result ≡ zero_in (object_seen object.now) }
{
    match object {
        Object::Array { of, .. } => zero_element(of),
        Object::Script { .. } | Object::Host { .. } => Word::Null,
    }
}

/// So many of these words, and new ones after them where there are fewer.
fn resized(alloc: Global, count: u64, zero: Word, words: &[Word]) -> Result<Vec<Word>, AllocError>
    ensures value { IfOk result (λ all. all.items ≡ resized count zero words.now) }
{
    let mut all = Vec::from_slice(alloc, words)?;
    all.truncate(count as usize);
    push_many(&mut all, count.saturating_sub(words.len() as u64), zero)?;
    Ok(all)
}

/// The words after the first so many.
fn rest_of(alloc: Global, words: &[Word], count: usize) -> Result<Vec<Word>, AllocError>
    ensures value { IfOk result (λ rest. rest.items ≡ drop count words.now) }
{
    if count < words.len() {
        Vec::from_slice(alloc, &words[count..])
    } else {
        Ok(Vec::new(alloc))
    }
}

impl Activity {
    /// The index of an element that is there.
    pub(crate) fn index_in(&self, number: u64, index: Word) -> RunResult<usize>
        ensures run { RunsAs (λ place. place) result (activity_seen self.now)
            (index_in number index (activity_seen self.now)) }
    {
        let index = natural_of(index) as usize;
        if index < self.words_at(number).len() {
            Ok(index)
        } else {
            Err(RunError::Raising(Exception::IndexOutOfBounds))
        }
    }

    /// The element of an array by an index: first null is tested, then the index.
    pub fn element_at(&self, array: Word, index: Word) -> RunResult<Location>
        ensures location { RunsAs location_seen result (activity_seen self.now)
            (element_at array index (activity_seen self.now)) }
    {
        let number = self.object_of(array)?;
        let place = self.index_in(number, index)?;
        Ok(Location::Part { number, place })
    }

    /// Constructs an array, which takes no frame and no tick.
    pub fn construct_array(&mut self, of: Elements, args: &[Word]) -> RunResult<Word>
        ensures constructed { RunsAs (λ w. w) result (activity_seen self.new)
            (construct_array (element_seen of) args.now (activity_seen self.old)) }
    {
        self.demand_number()?;
        let count = count_in(args);
        if count > MAX_ELEMENTS as u64 {
            return Err(RunError::Raising(Exception::ArrayLimit));
        }
        let mut elements = Vec::new(self.alloc);
        push_many(&mut elements, count, zero_element(&of))?;
        let number = self.make(Object::Array { of, elements })?;
        self.give_held(Word::Object(number))
    }

    /// What a new element of an array is.
    fn zero_at(&self, number: u64) -> Word
        ensures value { result
            ≡ option_map_or zero_in (object_at number (activity_seen self.now).world.objects) Null }
    {
        match self.world.objects.get(number) {
            Some(object) => zero_in(object),
            None => Word::Null,
        }
    }

    /// Gives an array so many elements. Those that are taken away are held, as what is overwritten is.
    fn resize(&mut self, number: u64, count: u64) -> RunResult<()>
        ensures run { RunsAs (λ _. tt) result (activity_seen self.new)
            (resize number count (activity_seen self.old)) }
    {
        if count > MAX_ELEMENTS as u64 {
            return Err(RunError::Raising(Exception::ArrayLimit));
        }
        let zero = self.zero_at(number);
        let old = self.words_at(number);
        let words = resized(self.alloc, count, zero, old)?;
        let gone = rest_of(self.alloc, old, count as usize)?;
        self.hold_all(&gone)?;
        self.set_words(number, words)?;
        Ok(())
    }

    fn insert_last(&mut self, number: u64, word: Word) -> RunResult<()>
        ensures run { RunsAs (λ _. tt) result (activity_seen self.new)
            (insert_last number word (activity_seen self.old)) }
    {
        let old = self.words_at(number);
        if old.len() >= MAX_ELEMENTS {
            return Err(RunError::Raising(Exception::ArrayLimit));
        }
        let mut words = Vec::from_slice(self.alloc, old)?;
        words.push(word)?;
        self.set_words(number, words)?;
        Ok(())
    }

    fn remove_last(&mut self, number: u64) -> RunResult<()>
        ensures run { RunsAs (λ _. tt) result (activity_seen self.new)
            (remove_last number (activity_seen self.old)) }
    {
        let old = self.words_at(number);
        if old.is_empty() {
            return Err(RunError::Raising(Exception::IndexOutOfBounds));
        }
        let (rest, last) = old.split_at(old.len() - 1);
        let words = Vec::from_slice(self.alloc, rest)?;
        let gone = Vec::from_slice(self.alloc, last)?;
        self.hold_all(&gone)?;
        self.set_words(number, words)?;
        Ok(())
    }

    /// Runs a method of an array. What gives no value gives null.
    pub fn invoke_array(
        &mut self,
        method: ArrayMethod,
        number: u64,
        args: &[Word],
    ) -> RunResult<Word>
        ensures invoked { RunsAs (λ w. w) result (activity_seen self.new)
            (invoke_array method number args.now (activity_seen self.old)) }
    {
        match (method, args) {
            (ArrayMethod::Length, _) => {
                let count = self.words_at(number).len();
                // No array is longer than a `uint` holds, since there is no memory for one.
                let count = u32::try_from(count).map_err(|_| RunError::NoMemory)?;
                Ok(Word::Uint(count))
            }
            (ArrayMethod::IsEmpty, _) => Ok(Word::Bool(self.words_at(number).is_empty())),
            (ArrayMethod::Resize, [count, ..]) => {
                self.resize(number, natural_of(*count))?;
                Ok(Word::Null)
            }
            (ArrayMethod::InsertLast, [word, ..]) => {
                self.insert_last(number, *word)?;
                Ok(Word::Null)
            }
            (ArrayMethod::RemoveLast, _) => {
                self.remove_last(number)?;
                Ok(Word::Null)
            }
            (ArrayMethod::Resize | ArrayMethod::InsertLast, []) => Err(RunError::NoStep),
        }
    }
}
