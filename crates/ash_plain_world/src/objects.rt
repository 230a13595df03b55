//! The objects that live, and the sweep.

ghost use Rattle.std.specs.Prelude.{◌≡◌, ◌++◌, ℕ, [], map, length, filter};
ghost use Rattle.std.specs.Prelude.{option_map, IfOk, OnOk, IsSome};
ghost use Rattle.std.specs.Option.{option_map_or};
ghost use Rattle.ash_host.specs.declared.event.Event.TheVariants.{Dropped};
ghost use Rattle.ash_host.specs.Objects.{object_at, with_at, handles, fields_of};
ghost use Rattle.ash_host.specs.Objects.{is_handle_to, handles_to, fields_to};
ghost use Rattle.ash_host.specs.Reach.{is_among, is_reachable, after_sweep, drops_of_sweep};
ghost use Rattle.ash_meaning.specs.ObjectSteps.{change_at, with_words};
ghost use Rattle.ash_meaning.specs.HostSteps.{with_state_in};
ghost use Rattle.ash_plain_data.specs.ObjectViews.{object_seen, entry_seen};
ghost use Rattle.ash_plain_world.specs.Sweeping.{with_found, gone};

use ash_host::{Event, Word};
use ash_plain_data::object::Object;
use indexmap::IndexSet;
use std::alloc::{AllocError, Global};
use std::collections::BTreeMap;
use std::marker::Model;

mod iteration;

/// The objects that live, by their numbers.
#[derive(Drop)]
pub struct ObjectMap {
    entries: BTreeMap<u64, Object>,
}

impl Model for ObjectMap {
    ghost use Rattle.std.specs.Prelude.{ℕ, List, map};
    ghost use Rattle.ash_host.specs.Objects as plain;
    ghost use Rattle.ash_plain_data.specs.ObjectViews.{entry_seen};

    ghost Value = { plain.LiveObjects (List ℕ) };

    ghost view = { λ o. map entry_seen o.entries.entries };
}

/// Appends the objects that words are handles to.
pub(crate) fn push_handles(words: &[Word], numbers: &mut Vec<u64>) -> Result<(), AllocError>
    ensures value { OnOk result (numbers.new.items ≡ numbers.old.items ++ handles words.now) }
{
    for word in words {
        if let Word::Object(number) = word {
            numbers.push(*number)?;
        }
    }
    Ok(())
}

/// Whether a word is a handle to an object.
fn is_handle_to(number: u64, word: Word) -> bool
    ensures value { result ≡ is_handle_to number word }
{
    match word {
        Word::Object(other) => number == other,
        _ => false,
    }
}

/// How many of these words are handles to an object.
pub fn handles_to(number: u64, words: &[Word]) -> usize
    ensures counted { result ≡ handles_to number words.now }
{
    words
        .iter()
        .filter(|word| is_handle_to(number, **word))
        .count()
}

/// How many fields and elements are handles to an object.
#[tactic(auto, using(crate::proofs::Counts::more_fields))]
fn fields_to(entries: &BTreeMap<u64, Object>, number: u64) -> Result<usize, AllocError>
    ensures value { IfOk result (λ count. count
        ≡ fields_to number (map entry_seen entries.now.entries)) }
{
    let mut count: usize = 0;
    for (_, object) in entries {
        // No memory holds so many words that the count is too great.
        count = count
            .checked_add(handles_to(number, object.words()))
            .ok_or(AllocError)?;
    }
    Ok(count)
}

/// Appends an event for each host object that is not among those that were found, by ascending number.
fn push_dropped(
    entries: &BTreeMap<u64, Object>,
    found: &IndexSet<u64>,
    events: &mut Vec<Event>,
) -> Result<(), AllocError>
    ensures value { OnOk result (events.new.items
        ≡ events.old.items ++ map Dropped (gone found.now.keys entries.now.entries)) }
{
    for (number, object) in entries {
        if object.is_host() && !found.contains(number) {
            events.push(Event::Dropped(*number))?;
        }
    }
    Ok(())
}

/// Takes away all objects but those that were found.
fn retain_found(entries: &mut BTreeMap<u64, Object>, found: &IndexSet<u64>)
    ensures effect { entries.new.entries ≡ filter (λ e. is_among found.now.keys e.0)
        entries.old.entries }
{
    entries.retain(|number, _| found.contains(number));
}

impl ObjectMap {
    /// No objects.
    pub fn new(alloc: Global) -> ObjectMap
        ensures empty { result ≡ [] }
    {
        ObjectMap {
            entries: BTreeMap::new(alloc),
        }
    }

    /// How many live.
    pub fn len(&self) -> usize
        ensures count { result ≡ length self.now }
    {
        self.entries.len()
    }

    /// The object of a number, where one lives by it.
    pub fn get(&self, number: u64) -> Option<&Object>
        ensures object { option_map (λ object. object_seen object.now) result
            ≡ object_at number self.now }
    {
        self.entries.get(&number)
    }

    /// Puts an object at a number.
    pub fn insert(&mut self, number: u64, object: Object) -> Result<(), AllocError>
        ensures inserted { OnOk result (self.new ≡ with_at number (object_seen object) self.old) }
    {
        self.entries.insert(number, object)?;
        Ok(())
    }

    /// The words of an object; none where none lives by the number.
    pub fn words(&self, number: u64) -> &[Word]
        ensures words { result.now ≡ option_map_or fields_of (object_at number self.now) [] }
    {
        match self.get(number) {
            Some(object) => object.words(),
            None => &[],
        }
    }

    /// How many fields and elements are handles to an object. An `Err` means that they are too many to count.
    pub fn fields_to(&self, number: u64) -> Result<usize, AllocError>
        ensures counted { IfOk result (λ count. count ≡ fields_to number self.now) }
    {
        fields_to(&self.entries, number)
    }

    /// Gives an object other words, where one lives by the number.
    pub(crate) fn change_words(
        &mut self,
        alloc: Global,
        number: u64,
        words: Vec<Word>,
    ) -> Result<(), AllocError>
        ensures value { OnOk result (self.new
            ≡ change_at number (with_words words.items) self.old) }
    {
        let Some(object) = self.get(number) else {
            return Ok(());
        };
        let object = object.with_words(alloc, words)?;
        self.insert(number, object)
    }

    /// Gives a host object another state, where one lives by the number.
    pub(crate) fn change_state(
        &mut self,
        alloc: Global,
        number: u64,
        state: Vec<u8>,
    ) -> Result<(), AllocError>
        ensures value { OnOk result (self.new
            ≡ change_at number (with_state_in state.items) self.old) }
    {
        let Some(object) = self.get(number) else {
            return Ok(());
        };
        let object = object.with_state(alloc, state)?;
        self.insert(number, object)
    }

    /// Adds the numbers by which objects live to those that were found, each once.
    fn find_all(&self, numbers: &[u64], found: &mut IndexSet<u64>) -> Result<(), AllocError>
        ensures value { OnOk result (found.new.keys
            ≡ with_found self.now numbers.now found.old.keys) }
    {
        for number in numbers {
            if self.get(*number).is_some() {
                found.insert(*number)?;
            }
        }
        Ok(())
    }

    /// The live objects that can be reached from these.
    fn find_reachable(&self, alloc: Global, held: &[u64]) -> Result<IndexSet<u64>, AllocError>
        ensures value { IfOk result (λ found. (number : ℕ) → IsSome (object_at number self.now)
            → is_among found.keys number ≡ is_reachable held.now self.now number) }
    {
        let mut found = IndexSet::new(alloc);
        self.find_all(held, &mut found)?;
        let mut next = 0;
        while next < found.len() {
            let mut numbers = Vec::new(alloc);
            push_handles(self.words(found[next]), &mut numbers)?;
            self.find_all(&numbers, &mut found)?;
            next += 1;
        }
        Ok(found)
    }

    /// Takes away what can't be reached from what is held, and appends an event for each host object among it, by
    /// ascending number.
    pub(crate) fn sweep(
        &mut self,
        alloc: Global,
        held: &[u64],
        events: &mut Vec<Event>,
    ) -> Result<(), AllocError>
        ensures objects { OnOk result (self.new ≡ after_sweep held.now self.old) }
        ensures events { OnOk result (events.new.items
            ≡ events.old.items ++ map Dropped (drops_of_sweep held.now self.old)) }
    {
        let found = self.find_reachable(alloc, held)?;
        push_dropped(&self.entries, &found, events)?;
        retain_found(&mut self.entries, &found);
        Ok(())
    }
}
