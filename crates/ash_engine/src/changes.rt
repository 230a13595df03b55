//! What a request changed, by names.

ghost use Rattle.std.specs.Prelude.{◌≡◌, ◌≢◌, ◌<◌, ◌≤◌, ◌↔◌, ℕ, true, false, List, Contains, IfOk, OnOk, length, slice_get};
ghost use Rattle.std.specs.List.{filter_map};
ghost use Rattle.std.specs.List.Sorted.{IsStrictlyIncreasing};
ghost use Rattle.ash_requests.specs.States.{LoadedModule};
ghost use Rattle.ash_change_laws.specs.ChangedStates.{nothing};
ghost use Rattle.ash_change_laws.specs.UncalledServices.{IsCalled};
ghost use Rattle.ash_objects.specs.Marking.{without_marks};
ghost use Rattle.ash_engine.specs.NamedChanges.{changes_seen, service_called, AreOthers, IsChangeOf, AreTaken};

use ash_host::{Event, HostObject, NoMemory, Target, Word};
use ash_objects::Objects;
use std::alloc::{AllocError, Global};

/// What became of the modules.
#[derive(Drop)]
pub enum ModuleChange {
    /// Nothing.
    Unchanged,
    /// The module at this place was loaded.
    Loaded(usize),
    /// The module of this name was discarded.
    Discarded(String),
    /// Globals of a module hold other words.
    Globals(ChangedGlobals),
}

/// The globals of a module that hold other words.
#[derive(Drop)]
pub struct ChangedGlobals {
    /// The place of the module.
    pub module: usize,
    /// The places of the globals in source order, in ascending order. There is at least one.
    pub places: Vec<u16>,
}

/// What the last request that was answered may have changed; nothing before the first.
#[derive(Drop)]
pub struct Changes {
    /// The services that were called, by ascending place in order of registration.
    pub services: Vec<u16>,
    pub modules: ModuleChange,
    /// The objects that were made or changed, and live, by ascending number.
    pub living: Vec<u64>,
    /// The objects that went, by ascending number.
    pub gone: Vec<u64>,
}

impl Changes {
    /// No changes. It takes no memory.
    pub(crate) fn none(alloc: Global) -> Changes
        ensures nothing { (modules : List LoadedModule) → changes_seen modules result ≡ nothing }
    {
        Changes {
            services: Vec::new(alloc),
            modules: ModuleChange::Unchanged,
            living: Vec::new(alloc),
            gone: Vec::new(alloc),
        }
    }
}

// The place of the service whose call an event says, if it says one.
fn service_called(event: &Event) -> Option<u16>
    ensures value { result ≡ service_called event.now }
{
    match *event {
        Event::Called(Target::Service(place), _) => Some(place),
        _ => None,
    }
}

// The places of the services that were called, one for each call.
fn calls_of_services(alloc: Global, events: &[Event]) -> Result<Vec<u16>, AllocError>
    ensures value { IfOk result (λ places. places.items ≡ filter_map service_called events.now) }
{
    let mut places = Vec::new(alloc);
    for event in events {
        if let Some(place) = service_called(event) {
            places.push(place)?;
        }
    }
    Ok(places)
}

// Sorts places, and keeps each once.
fn sort_places(places: &mut Vec<u16>)
    ensures rise { IsStrictlyIncreasing places.new.items }
    ensures same { (place : ℕ) → Contains places.new.items place ↔ Contains places.old.items place }
{
    places.sort_unstable();
    places.dedup();
}

/// Sorts numbers, and keeps each once.
pub(crate) fn sort_numbers(numbers: &mut Vec<u64>)
    ensures rise { IsStrictlyIncreasing numbers.new.items }
    ensures same { (number : ℕ) → Contains numbers.new.items number ↔ Contains numbers.old.items number }
{
    numbers.sort_unstable();
    numbers.dedup();
}

// The services that were called, by ascending place.
fn called_services(alloc: Global, events: &[Event]) -> Result<Vec<u16>, AllocError>
    ensures called { IfOk result (λ services. (place : ℕ)
        → Contains services.items place ↔ IsCalled place events.now) }
    ensures rise { IfOk result (λ services. IsStrictlyIncreasing services.items) }
{
    let mut services = calls_of_services(alloc, events)?;
    sort_places(&mut services);
    Ok(services)
}

// Whether two words are the same.
fn is_same(one: Word, other: Word) -> bool
    ensures same { result ≡ true ↔ one ≡ other }
{
    match (one, other) {
        (Word::Bool(one), Word::Bool(other)) => one == other,
        (Word::Int(one), Word::Int(other)) => one == other,
        (Word::Uint(one), Word::Uint(other)) => one == other,
        (Word::Int64(one), Word::Int64(other)) => one == other,
        (Word::Uint64(one), Word::Uint64(other)) => one == other,
        (Word::Object(one), Word::Object(other)) => one == other,
        (Word::Null, Word::Null) => true,
        _ => false,
    }
}

// Whether two lists of words have the same word at a place of the first.
fn is_same_at(before: &[Word], after: &[Word], place: usize) -> bool
    requires within { place < length before.now }
    ensures same { result ≡ true ↔ slice_get after.now place ≡ slice_get before.now place }
{
    match after.get(place) {
        Some(word) => is_same(*word, before[place]),
        None => false,
    }
}

// Whether the word at a place is another than before.
fn is_other_at(before: &[Word], after: &[Word], place: usize) -> bool
    requires within { place < length before.now }
    ensures other { result ≡ true → slice_get after.now place ≢ slice_get before.now place }
    ensures same { result ≡ false → slice_get after.now place ≡ slice_get before.now place }
{
    !is_same_at(before, after, place)
}

// The places at which other words are than before, in ascending order.
fn places_of_others(alloc: Global, before: &[Word], after: &[Word]) -> Result<Vec<u16>, AllocError>
    requires few { length before.now ≤ 256 }
    ensures others { IfOk result (λ places. AreOthers before.now after.now places.items) }
    ensures rise { IfOk result (λ places. IsStrictlyIncreasing places.items) }
{
    let mut places = Vec::new(alloc);
    for place in 0..before.len() {
        if is_other_at(before, after, place) {
            places.push(place as u16)?;
        }
    }
    Ok(places)
}

/// What became of the modules in a run of the one at a place, by the words of its globals before and after.
pub(crate) fn change_of_globals(
    alloc: Global,
    module: usize,
    before: &[Word],
    after: &[Word],
) -> Result<ModuleChange, AllocError>
    requires few { length before.now ≤ 256 }
    ensures change { IfOk result (λ change. IsChangeOf «module» before.now after.now change) }
{
    let places = places_of_others(alloc, before, after)?;
    if places.is_empty() {
        return Ok(ModuleChange::Unchanged);
    }
    Ok(ModuleChange::Globals(ChangedGlobals { module, places }))
}

/// What a request changed that had these events and made this of the modules. The marks of the table are cleared.
pub(crate) fn take_changes<B: HostObject>(
    alloc: Global,
    table: &mut Objects<B>,
    events: &[Event],
    modules: ModuleChange,
) -> Result<Changes, NoMemory>
    ensures taken { IfOk result (λ changes. AreTaken events.now modules table.old changes) }
    ensures settled { OnOk result (table.new ≡ without_marks table.old) }
{
    let services = called_services(alloc, events)?;
    let objects = table.touched()?;
    let mut gone = objects.gone;
    sort_numbers(&mut gone);
    Ok(Changes {
        services,
        modules,
        living: objects.living,
        gone,
    })
}
