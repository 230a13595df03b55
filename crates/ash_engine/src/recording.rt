//! The delta of what the last answered request changed, and the body of a record that has it, without a copy of the
//! state.

ghost use Rattle.std.specs.Prelude.{◌≡◌, ◌<◌, ◌≤◌, ◌^◌, List, Some, length, map, slice_get, option_map, IfOk, OnOk};
ghost use Rattle.std.specs.Prelude.{string_bytes};
ghost use Rattle.std.specs.List.{AllByRecursion};
ghost use Rattle.ash_registry.specs.AcceptedRegistrations.{Registration};
ghost use Rattle.ash_objects.specs.Table.{body_of};
ghost use Rattle.ash_soundness.specs.WellFormedStates.{Ascend, HasValidName};
ghost use Rattle.ash_plain_steps.specs.StateViews.{modules_seen, loaded_seen};
ghost use Rattle.ash_image.specs.SnapshotViews.{module_in};
ghost use Rattle.ash_image.specs.DeltaViews.{indexed_of, all_indexed, service_state_of, service_states_of};
ghost use Rattle.ash_image.specs.DeltaViews.{service_states_in, change_in, delta_in};
ghost use Rattle.ash_image.specs.Delta.{FitsDelta};
ghost use Rattle.ash_image.specs.declared.version.Version.TheVariants.{Two};
ghost use Rattle.ash_states.specs.Indexes.{stored_of, stored_modules_of};
ghost use Rattle.ash_table_states.specs.WrittenObjects.{listed_entry, listed_entries};
ghost use Rattle.ash_change_records.specs.ListedChanges.{listed, change_listed, changes_listed, IsBodyListing};
ghost use Rattle.ash_change_records.specs.ListedChanges.{AppendsListing};
ghost use Rattle.ash_engine.specs.NamedChanges.{module_change_seen, changes_seen};
ghost use Rattle.ash_engine.specs.RecordedChanges.{AreWordsOf, AreListedParts};
ghost use Rattle.ash_engine.specs.TableStates.{durable_seen, IsLive};

use crate::changes::ModuleChange;
use crate::live::Live;
use crate::writing::slots_of;
use ash_host::{HostObject, Word};
use ash_image::delta::{DELTA_TAG, append_delta};
use ash_image::delta_parts::{ChangeParts, DeltaParts, GlobalsParts, ServiceParts};
use ash_image::parts::{ModuleParts, ObjectParts};
use ash_image::stored_delta::{IndexedWord, StoredService};
use ash_objects::Objects;
use ash_plain_steps::state::LoadedModule;
use ash_table_states::parts::{ListedObject, object_parts, object_states, state_of};
use std::alloc::{AllocError, Global};

/// The service at a place, with the state that it is in; none where there is none.
fn service_at<B: HostObject>(
    alloc: Global,
    services: &[B],
    place: u16,
) -> Result<Option<StoredService>, AllocError>
    ensures state { IfOk result (λ service. option_map service_state_of service
        ≡ option_map (λ state. (place, state)) (slice_get (map B.state services.now) place)) }
{
    match services.get(place as usize) {
        Some(service) => {
            let state = state_of(alloc, service)?;
            Ok(Some(StoredService {
                index: place,
                state,
            }))
        }
        None => Ok(None),
    }
}

/// The services at places, each with the state that it is in.
fn services_at<B: HostObject>(
    alloc: Global,
    services: &[B],
    places: &[u16],
) -> Result<Vec<StoredService>, AllocError>
    ensures states { IfOk result (λ called. service_states_of called.items
        ≡ listed (slice_get (map B.state services.now)) places.now) }
{
    let mut called = Vec::with_capacity(alloc, places.len())?;
    for place in places {
        if let Some(service) = service_at(alloc, services, *place)? {
            called.push(service)?;
        }
    }
    Ok(called)
}

/// The states of services, as a delta takes them.
fn service_parts(
    alloc: Global,
    services: &[StoredService],
) -> Result<Vec<ServiceParts<'_>>, AllocError>
    ensures same { IfOk result (λ parts. service_states_in parts.items
        ≡ service_states_of services.now) }
{
    let mut parts = Vec::with_capacity(alloc, services.len())?;
    for service in services {
        parts.push(ServiceParts {
            index: service.index,
            state: &service.state,
        })?;
    }
    Ok(parts)
}

/// The word of the global at a place; none where there is none.
fn word_at(globals: &[Word], place: u16) -> Option<IndexedWord>
    ensures word { option_map indexed_of result
        ≡ option_map (λ word. (place, word)) (slice_get globals.now place) }
{
    match globals.get(place as usize) {
        Some(word) => Some(IndexedWord {
            index: place,
            word: *word,
        }),
        None => None,
    }
}

/// The words of the globals at places.
fn words_at(alloc: Global, globals: &[Word], places: &[u16]) -> Result<Vec<IndexedWord>, AllocError>
    ensures words { IfOk result (λ words. all_indexed words.items
        ≡ listed (slice_get globals.now) places.now) }
{
    let mut words = Vec::with_capacity(alloc, places.len())?;
    for place in places {
        if let Some(word) = word_at(globals, *place) {
            words.push(word)?;
        }
    }
    Ok(words)
}

/// The words of the globals that hold others than before; none where no globals are named.
fn changed_words(
    alloc: Global,
    modules: &[LoadedModule],
    change: &ModuleChange,
) -> Result<Vec<IndexedWord>, AllocError>
    ensures words { IfOk result (λ words. AreWordsOf modules.now change.now words.items) }
{
    match change {
        ModuleChange::Globals(globals) => match modules.get(globals.module) {
            Some(m) => words_at(alloc, &m.globals, &globals.places),
            None => Ok(Vec::new(alloc)),
        },
        _ => Ok(Vec::new(alloc)),
    }
}

/// A module, as a delta takes it.
fn added(m: &LoadedModule) -> ModuleParts<'_>
    ensures same { module_in result ≡ stored_of (loaded_seen m.now) }
{
    ModuleParts {
        name: m.name.as_str(),
        source: &m.source,
        globals: &m.globals,
    }
}

/// What became of the modules, which are these afterwards.
fn change_parts<'a>(
    modules: &'a [LoadedModule],
    change: &'a ModuleChange,
    words: &'a [IndexedWord],
) -> ChangeParts<'a>
    requires ascending { Ascend (modules_seen modules.now) }
    requires valid { AllByRecursion HasValidName (modules_seen modules.now) }
    requires words { AreWordsOf modules.now change.now words.now }
    ensures listed { change_in result
        ≡ change_listed (module_change_seen (modules_seen modules.now) change.now)
        (stored_modules_of (modules_seen modules.now)) }
{
    match change {
        ModuleChange::Unchanged => ChangeParts::Unchanged,
        ModuleChange::Loaded(place) => match modules.get(*place) {
            Some(m) => ChangeParts::Added(added(m)),
            None => ChangeParts::Unchanged,
        },
        ModuleChange::Discarded(name) => ChangeParts::Removed(name.as_str()),
        ModuleChange::Globals(globals) => match modules.get(globals.module) {
            Some(m) => ChangeParts::Globals(GlobalsParts {
                name: m.name.as_str(),
                globals: words,
            }),
            None => ChangeParts::Unchanged,
        },
    }
}

/// The object at a number; none where none lives.
fn object_at<B: HostObject>(table: &Objects<B>, number: u64) -> Option<ListedObject<'_, B>>
    ensures object { option_map listed_entry result
        ≡ option_map (λ body. (number, body)) (body_of number table.now) }
{
    match table.body(number) {
        Some(body) => Some(ListedObject { number, body }),
        None => None,
    }
}

/// The objects at numbers, in their order.
fn objects_at<'a, B: HostObject>(
    alloc: Global,
    table: &'a Objects<B>,
    numbers: &[u64],
) -> Result<Vec<ListedObject<'a, B>>, AllocError>
    ensures objects { IfOk result (λ objects. listed_entries objects.items
        ≡ listed (λ number. body_of number table.now) numbers.now) }
{
    let mut objects = Vec::with_capacity(alloc, numbers.len())?;
    for number in numbers {
        if let Some(object) = object_at(table, *number) {
            objects.push(object)?;
        }
    }
    Ok(objects)
}

/// The parts of a delta of what the last answered request changed.
fn delta_parts<'a, B: HostObject>(
    live: &'a Live<B>,
    services: &'a [ServiceParts<'a>],
    words: &'a [IndexedWord],
    put: &'a [ObjectParts<'a>],
) -> DeltaParts<'a>
    requires listed { AreListedParts B.HostObject live.now services.now words.now put.now }
    ensures same { (registered : List Registration) → delta_in result
        ≡ changes_listed (changes_seen (modules_seen live.now.loaded.modules.items) live.now.changes)
        (durable_seen B.HostObject registered live.now) }
    ensures fits { FitsDelta Two (delta_in result) }
{
    DeltaParts {
        seq: live.loaded.seq,
        last: live.table.last(),
        services,
        change: change_parts(&live.loaded.modules, &live.changes.modules, words),
        gone: &live.changes.gone,
        put,
    }
}

/// Appends the delta of what the last answered request changed, by the parts of the services that were called, the
/// words of globals, and the parts of the objects that were made or changed.
fn append_by<B: HostObject>(
    live: &Live<B>,
    services: &[ServiceParts<'_>],
    words: &[IndexedWord],
    put: &[ObjectParts<'_>],
    out: &mut Vec<u8>,
) -> Result<(), AllocError>
    requires listed { AreListedParts B.HostObject live.now services.now words.now put.now }
    ensures appended { (registered : List Registration) → OnOk result (AppendsListing
        (changes_seen (modules_seen live.now.loaded.modules.items) live.now.changes)
        (durable_seen B.HostObject registered live.now) out.old.items out.new.items) }
{
    append_delta(out, delta_parts(live, services, words, put))
}

/// Appends the delta of what the last answered request changed, in version 2.
pub(crate) fn append_changes<B: HostObject>(
    live: &Live<B>,
    out: &mut Vec<u8>,
) -> Result<(), AllocError>
    requires live { (registered : List Registration) × IsLive B.HostObject registered live.now }
    ensures appended { (registered : List Registration) → OnOk result (AppendsListing
        (changes_seen (modules_seen live.now.loaded.modules.items) live.now.changes)
        (durable_seen B.HostObject registered live.now) out.old.items out.new.items) }
{
    let alloc = live.loaded.alloc;
    let slots = slots_of(alloc, &live.compiled)?;
    let called = services_at(alloc, live.table.services(), &live.changes.services)?;
    let services = service_parts(alloc, &called)?;
    let words = changed_words(alloc, &live.loaded.modules, &live.changes.modules)?;
    let objects = objects_at(alloc, &live.table, &live.changes.living)?;
    let states = object_states(alloc, &objects)?;
    let put = object_parts(alloc, &slots, &objects, &states)?;
    append_by(live, &services, &words, &put, out)
}

/// The body of a record of what the last answered request changed, in version 2.
pub(crate) fn delta_body<B: HostObject>(live: &Live<B>) -> Result<Vec<u8>, AllocError>
    requires live { (registered : List Registration) × IsLive B.HostObject registered live.now }
    ensures body { (registered : List Registration) → IfOk result (λ body. IsBodyListing
        (changes_seen (modules_seen live.now.loaded.modules.items) live.now.changes)
        (durable_seen B.HostObject registered live.now) body.items) }
    ensures short { IfOk result (λ body. length body.items < 2 ^ 28) }
{
    let mut body = Vec::new(live.loaded.alloc);
    body.push(DELTA_TAG)?;
    append_changes(live, &mut body)?;
    Ok(body)
}
