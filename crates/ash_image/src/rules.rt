//! What holds of a state over more than one field, whatever the sources and the registrations are.

ghost use Rattle.std.specs.Prelude.{◌≡◌, ◌↔◌, IfOk, IsTrue};
ghost use Rattle.std.specs.List.{list_all};
ghost use Rattle.ash_host.specs.Objects.{numbers, fields_of};
ghost use Rattle.ash_host.specs.Reach.{is_among};
ghost use Rattle.ash_host.specs.ElementTags.{element_of};
ghost use Rattle.ash_image.specs.ImageObjectViews.{plain_of};
ghost use Rattle.ash_image.specs.Image.{do_rise};
ghost use Rattle.ash_image.specs.Rules.{is_given, is_placed, is_element};
ghost use Rattle.ash_image.specs.Rules.{are_elements, all_live};
ghost use Rattle.ash_image.specs.Rules.{module_lives, object_lives, is_linked};
ghost use Rattle.ash_image.specs.Rules.{is_whole, KeepsRules};
ghost use Rattle.ash_image.specs.SnapshotViews.{object_of, objects_of, modules_of, snapshot_of};

use crate::reaching::are_reached;
use crate::stored::{StoredBody, StoredModule, StoredObject, StoredState, words_of};
use ash_host::{ElementTag, Word};
use std::alloc::{AllocError, Global};

fn is_given(object: &StoredObject, last: u64) -> bool
    ensures value { result ≡ is_given last (object_of object.now) }
{
    object.number > 0 && object.number <= last
}

/// Whether each number is above 0, and at most the last that was given.
fn are_given(objects: &[StoredObject], last: u64) -> bool
    ensures value { result ≡ list_all (is_given last) (objects_of objects.now) }
{
    for object in objects {
        if !is_given(object, last) {
            return false;
        }
    }
    true
}

fn is_placed(body: &StoredBody, modules: usize) -> bool
    ensures value { result ≡ is_placed modules (plain_of body.now) }
{
    match body {
        StoredBody::Script(script) => (script.owner as usize) < modules,
        StoredBody::Array(array) => match array.element {
            ElementTag::Class(owner, _) => (owner as usize) < modules,
            _ => true,
        },
        StoredBody::Host(_) => true,
    }
}

/// Whether each object is of a module that is there.
fn are_placed(objects: &[StoredObject], modules: usize) -> bool
    ensures value { result ≡ list_all (λ e. is_placed modules e.1) (objects_of objects.now) }
{
    for object in objects {
        if !is_placed(&object.body, modules) {
            return false;
        }
    }
    true
}

/// Whether an array of such elements may hold a word, as far as the array says it.
fn is_element(of: ElementTag, word: Word) -> bool
    ensures value { result ≡ is_element (element_of of) word }
{
    match of {
        ElementTag::Bool => matches!(word, Word::Bool(_)),
        ElementTag::Int => matches!(word, Word::Int(_)),
        ElementTag::Uint => matches!(word, Word::Uint(_)),
        ElementTag::Int64 => matches!(word, Word::Int64(_)),
        ElementTag::Uint64 => matches!(word, Word::Uint64(_)),
        ElementTag::Class(_, _) | ElementTag::Kind(_) => true,
    }
}

fn all_elements(of: ElementTag, words: &[Word]) -> bool
    ensures value { result ≡ list_all (is_element (element_of of)) words.now }
{
    for word in words {
        if !is_element(of, *word) {
            return false;
        }
    }
    true
}

/// Whether the elements of an array are of its type.
fn are_elements(body: &StoredBody) -> bool
    ensures value { result ≡ are_elements (plain_of body.now) }
{
    match body {
        StoredBody::Array(array) => all_elements(array.element, &array.elements),
        StoredBody::Script(_) | StoredBody::Host(_) => true,
    }
}

/// Whether the elements of each array are of its type.
fn have_their_types(objects: &[StoredObject]) -> bool
    ensures value { result ≡ list_all (λ e. are_elements e.1) (objects_of objects.now) }
{
    for object in objects {
        if !are_elements(&object.body) {
            return false;
        }
    }
    true
}

pub fn numbers_of(alloc: Global, objects: &[StoredObject]) -> Result<Vec<u64>, AllocError>
    ensures value { IfOk result (λ found. found.items ≡ numbers (objects_of objects.now)) }
{
    let mut found = Vec::with_capacity(alloc, objects.len())?;
    for object in objects {
        found.push(object.number)?;
    }
    Ok(found)
}

pub fn is_alive(alive: &[u64], number: u64) -> bool
    requires rising { IsTrue (do_rise alive.now) }
    ensures value { result ≡ is_among alive.now number }
{
    alive.binary_search(&number).is_ok()
}

/// Whether the handles among words are to objects of these numbers.
fn all_live(words: &[Word], alive: &[u64]) -> bool
    requires rising { IsTrue (do_rise alive.now) }
    ensures value { result ≡ all_live alive.now words.now }
{
    for word in words {
        if let Word::Object(number) = *word {
            if !is_alive(alive, number) {
                return false;
            }
        }
    }
    true
}

fn modules_live(modules: &[StoredModule], alive: &[u64]) -> bool
    requires rising { IsTrue (do_rise alive.now) }
    ensures value { result ≡ list_all (module_lives alive.now) (modules_of modules.now) }
{
    for module in modules {
        if !all_live(&module.globals, alive) {
            return false;
        }
    }
    true
}

fn objects_live(objects: &[StoredObject], alive: &[u64]) -> bool
    requires rising { IsTrue (do_rise alive.now) }
    ensures value { result ≡ list_all (object_lives alive.now) (objects_of objects.now) }
{
    for object in objects {
        if !all_live(words_of(&object.body), alive) {
            return false;
        }
    }
    true
}

/// Whether numbers are given, classes are of modules that are there, and no handle dangles.
fn is_linked(state: &StoredState, alive: &[u64]) -> bool
    requires rise { IsTrue (do_rise alive.now) }
    requires alive { alive.now ≡ numbers (objects_of state.now.objects.items) }
    ensures value { result ≡ is_linked (snapshot_of state.now) }
{
    are_given(&state.objects, state.last)
        && are_placed(&state.objects, state.modules.len())
        && modules_live(&state.modules, alive)
        && objects_live(&state.objects, alive)
}

/// Whether the elements of each array are of its type, and numbers, modules and handles are right.
fn is_whole(state: &StoredState, alive: &[u64]) -> bool
    requires rise { IsTrue (do_rise alive.now) }
    requires alive { alive.now ≡ numbers (objects_of state.now.objects.items) }
    ensures value { result ≡ is_whole (snapshot_of state.now) }
{
    have_their_types(&state.objects) && is_linked(state, alive)
}

/// Whether a state keeps the rules that need no source.
pub fn keeps_rules(alloc: Global, state: &StoredState) -> Result<bool, AllocError>
    requires in_order { IsTrue (do_rise (numbers (objects_of state.now.objects.items))) }
    ensures exact { IfOk result (λ keeps. IsTrue keeps ↔ KeepsRules (snapshot_of state.now)) }
{
    let alive = numbers_of(alloc, &state.objects)?;
    if !is_whole(state, &alive) {
        return Ok(false);
    }
    are_reached(alloc, state, &alive)
}
