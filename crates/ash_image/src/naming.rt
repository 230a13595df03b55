//! From a state with modules by index to the state with modules by name, and back.

ghost use Rattle.std.specs.Prelude.{◌≡◌, ◌<◌, ◌≤◌, ◌^◌, ℕ, length, string_bytes};
ghost use Rattle.std.specs.Prelude.{OnOk, IfOk, IfSome, IsSome, IsTrue};
ghost use Rattle.std.specs.BTreeMap.{insert_entry};
ghost use Rattle.std.specs.Ordering.{is_eq, nat_cmp};
ghost use Rattle.std.specs.String.{string_cmp};
ghost use Rattle.ash_host.specs.Objects.{numbers};
ghost use Rattle.ash_host.specs.ElementTags.{element_of};
ghost use Rattle.ash_image.specs.Snapshots.{Snapshot};
ghost use Rattle.ash_image.specs.Image.{compare_names, are_ascending, names_of, do_rise, FitsVersion};
ghost use Rattle.ash_image.specs.Rules.{KeepsRules};
ghost use Rattle.ash_image.specs.ImageObjectViews.{plain_of};
ghost use Rattle.ash_image.specs.SnapshotViews.{modules_of, objects_of, snapshot_of};
ghost use Rattle.ash_image.specs.Leading.{elements_known, plain_known, objects_named, named};
ghost use Rattle.ash_image.specs.Leading.{index_of_name, objects_indexed, indexed, IsOrdered};
ghost use Rattle.ash_image.specs.NamedViews.{modules_seen, object_seen, objects_seen, state_seen};

use crate::fitting::fits_version;
use crate::leading::{keep_order, named_object};
use crate::limits::MAX_MODULES;
use crate::named_state::{NamedModule, NamedModules, NamedObject, NamedObjects, NamedState};
use crate::rules::keeps_rules;
use crate::stored::{
    StoredArray, StoredBody, StoredModule, StoredObject, StoredScript, StoredState,
};
use crate::version::Version;
use ash_host::ElementTag;
use std::alloc::{AllocError, Global};
use std::collections::BTreeMap;

/// Puts a module in, whose name is below all that are there.
fn put_first_module(
    modules: &mut NamedModules,
    name: String,
    named: NamedModule,
) -> Result<(), AllocError>
    ensures put { OnOk result (modules.new.entries
        ≡ insert_entry string_cmp modules.old.entries name named) }
{
    modules.insert(name, named)?;
    Ok(())
}

/// The modules by their names. The last goes in first.
fn named_modules(alloc: Global, mut modules: Vec<StoredModule>) -> Result<NamedModules, AllocError>
    requires ascending { IsTrue (are_ascending (names_of (modules_of modules.items))) }
    ensures named { IfOk result (λ named. modules_seen named ≡ modules_of modules.items) }
{
    let mut named = BTreeMap::new(alloc);
    while let Some(last) = modules.pop() {
        let StoredModule {
            name,
            source,
            globals,
        } = last;
        put_first_module(&mut named, name, NamedModule { source, globals })?;
    }
    Ok(named)
}

/// Puts an object in, whose number is below all that are there.
fn put_first_object(
    objects: &mut NamedObjects,
    number: u64,
    named: NamedObject,
) -> Result<(), AllocError>
    ensures put { OnOk result (objects.new.entries
        ≡ insert_entry nat_cmp objects.old.entries number named) }
{
    objects.insert(number, named)?;
    Ok(())
}

/// The objects by their numbers, each with the name of its module. The last goes in first.
fn named_objects(
    alloc: Global,
    modules: &NamedModules,
    mut objects: Vec<StoredObject>,
) -> Result<NamedObjects, AllocError>
    requires rising { IsTrue (do_rise (numbers (objects_of objects.items))) }
    ensures named { IfOk result (λ named. objects_seen named
        ≡ objects_named (modules_seen modules.now) (objects_of objects.items)) }
{
    let mut named = BTreeMap::new(alloc);
    while let Some(last) = objects.pop() {
        let StoredObject { number, body } = last;
        let object = named_object(alloc, modules, body)?;
        put_first_object(&mut named, number, object)?;
    }
    Ok(named)
}

/// The state, each object with the name of its module.
pub fn named_state(alloc: Global, state: StoredState) -> Result<NamedState, AllocError>
    requires ascending { IsTrue (are_ascending (names_of (modules_of state.modules.items))) }
    requires rising { IsTrue (do_rise (numbers (objects_of state.objects.items))) }
    ensures named { IfOk result (λ n. state_seen n ≡ named (snapshot_of state)) }
    ensures ordered { IfOk result (λ n. IsOrdered (state_seen n)) }
{
    let modules = named_modules(alloc, state.modules)?;
    let objects = named_objects(alloc, &modules, state.objects)?;
    let named = NamedState {
        registered: state.registered,
        seq: state.seq,
        last: state.last,
        services: state.services,
        modules,
        objects,
    };
    keep_order(&named);
    Ok(named)
}

fn is_named(key: &String, name: &str) -> bool
    ensures value { result ≡ is_eq (compare_names name.now (string_bytes key.now)) }
{
    key.as_str() == name
}

/// The index of the module of a name, by ascending name. As many as there are modules where none has it.
fn index_of(modules: &NamedModules, name: &str) -> usize
    ensures index { result ≡ index_of_name (modules_seen modules.now) name.now }
    ensures within { result ≤ length (modules_seen modules.now) }
{
    let mut index = 0;
    for key in modules.keys() {
        if is_named(key, name) {
            return index;
        }
        index += 1;
    }
    index
}

/// What the elements of an array are, the module of their class by index.
fn indexed_element(modules: &NamedModules, owner: &str, element: ElementTag) -> ElementTag
    requires few { length (modules_seen modules.now) < 2 ^ 8 }
    ensures indexed { element_of result ≡ elements_known (index_of_name (modules_seen modules.now))
        (elements_known (λ index. owner.now) (element_of element)) }
{
    match element {
        ElementTag::Class(_, class) => ElementTag::Class(index_of(modules, owner) as u8, class),
        _ => element,
    }
}

/// What an object is, its module by index.
fn indexed_body(modules: &NamedModules, object: NamedObject) -> StoredBody
    requires few { length (modules_seen modules.now) < 2 ^ 8 }
    ensures indexed { plain_of result
        ≡ plain_known (index_of_name (modules_seen modules.now)) (object_seen object) }
{
    let NamedObject { owner, body } = object;
    match body {
        StoredBody::Script(script) => StoredBody::Script(StoredScript {
            owner: index_of(modules, owner.as_str()) as u8,
            class: script.class,
            fields: script.fields,
        }),
        StoredBody::Array(array) => StoredBody::Array(StoredArray {
            element: indexed_element(modules, owner.as_str(), array.element),
            elements: array.elements,
        }),
        StoredBody::Host(host) => StoredBody::Host(host),
    }
}

/// The objects by ascending number, their modules by index.
fn indexed_objects(
    alloc: Global,
    modules: &NamedModules,
    mut objects: NamedObjects,
) -> Result<Vec<StoredObject>, AllocError>
    requires few { length (modules_seen modules.now) < 2 ^ 8 }
    ensures indexed { IfOk result (λ stored. objects_of stored.items
        ≡ objects_indexed (modules_seen modules.now) (objects_seen objects)) }
{
    let mut stored = Vec::with_capacity(alloc, objects.len())?;
    while let Some(entry) = objects.pop_first() {
        let (number, object) = entry;
        let body = indexed_body(modules, object);
        stored.push(StoredObject { number, body })?;
    }
    Ok(stored)
}

/// The modules by ascending name.
fn listed_modules(alloc: Global, mut modules: NamedModules) -> Result<Vec<StoredModule>, AllocError>
    ensures listed { IfOk result (λ stored. modules_of stored.items ≡ modules_seen modules) }
{
    let mut stored = Vec::with_capacity(alloc, modules.len())?;
    while let Some(entry) = modules.pop_first() {
        let (name, named) = entry;
        let NamedModule { source, globals } = named;
        stored.push(StoredModule {
            name,
            source,
            globals,
        })?;
    }
    Ok(stored)
}

/// The state, each object with the index of its module, whatever the rules are.
fn indexed_state(alloc: Global, state: NamedState) -> Result<StoredState, AllocError>
    requires few { length (modules_seen state.modules) < 2 ^ 8 }
    ensures indexed { IfOk result (λ stored. snapshot_of stored ≡ indexed (state_seen state)) }
{
    let NamedState {
        registered,
        seq,
        last,
        services,
        modules,
        objects,
    } = state;
    let objects = indexed_objects(alloc, &modules, objects)?;
    let modules = listed_modules(alloc, modules)?;
    Ok(StoredState {
        registered,
        seq,
        last,
        services,
        modules,
        objects,
    })
}

/// The state, each object with the index of its module. `None` where it has no image in the version, or where it does
/// not keep the rules that need no source.
pub fn stored_state(
    alloc: Global,
    version: Version,
    state: NamedState,
) -> Result<Option<StoredState>, AllocError>
    ensures stored { IfOk result (λ o. IfSome o (λ s. named (snapshot_of s) ≡ state_seen state
        × FitsVersion version (snapshot_of s) × KeepsRules (snapshot_of s))) }
    ensures only { (s : Snapshot) → named s ≡ state_seen state → FitsVersion version s
        → KeepsRules s → IfOk result (λ o. IsSome o) }
{
    if state.modules.len() > MAX_MODULES as usize {
        return Ok(None);
    }
    let stored = indexed_state(alloc, state)?;
    if !fits_version(version, &stored) {
        return Ok(None);
    }
    if !keeps_rules(alloc, &stored)? {
        return Ok(None);
    }
    Ok(Some(stored))
}
