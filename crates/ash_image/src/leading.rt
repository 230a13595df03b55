//! Applying a delta to a state, in place, in time of the delta's length: services, globals, modules and objects.
//!
//! What is listed is applied from the last on, so a list says the same as its look-ups: what comes first counts.

ghost use Rattle.std.specs.Prelude.{◌≡◌, ◌<◌, ℕ, nat_lt, length, map, set, List, string_bytes};
ghost use Rattle.std.specs.Prelude.{if◌then◌else◌, true, false, Some, None, OnOk, IfOk, IfSome, IsSome};
ghost use Rattle.std.specs.BTreeMap.{Updates};
ghost use Rattle.std.specs.List.{list_all};
ghost use Rattle.std.specs.Option.{option_or};
ghost use Rattle.std.specs.Ordering.{nat_cmp};
ghost use Rattle.ash_host.specs.Objects.{object_at};
ghost use Rattle.ash_host.specs.Reach.{is_among};
ghost use Rattle.ash_image.specs.Snapshots.{Snapshot};
ghost use Rattle.ash_image.specs.ImageObjectViews.{plain_of};
ghost use Rattle.ash_image.specs.SnapshotViews.{module_of, services_of, objects_of};
ghost use Rattle.ash_image.specs.Delta.{Added, Removed, Globals, Delta};
ghost use Rattle.ash_image.specs.DeltaViews.{all_indexed, change_of, service_states_of, delta_of};
ghost use Rattle.ash_image.specs.Leading.{AreThere, values_after, LeadServices, IsChangeOf};
ghost use Rattle.ash_image.specs.Leading.{LeadModules, name_there, plain_known, by_name};
ghost use Rattle.ash_image.specs.Leading.{object_by_name, NamedSnapshot, Leads, LeadsTo};
ghost use Rattle.ash_image.specs.Leading.{IsDeltaBetween, IsOrdered, LeadToOne, KnownByNames};
ghost use Rattle.ash_image.specs.NamedViews.{modules_seen, object_seen, objects_seen, state_seen};
ghost use Rattle.ash_image.specs.declared.version.Version.{Version};

use crate::named_state::{NamedModule, NamedModules, NamedObject, NamedObjects, NamedState};
use crate::stored::{StoredBody, StoredHost, StoredModule, StoredObject};
use crate::stored_delta::{IndexedWord, StoredChange, StoredDelta, StoredGlobals, StoredService};
use ash_host::{ElementTag, Word};
use std::alloc::{AllocError, Global};

/// A delta leads from a state to one state at most, and a state is known by its names. This function does nothing when
/// it runs.
pub fn deltas_lead_to_one_state()
    ensures one { (version : Version) (d : Delta) (before s t : Snapshot)
        → LeadsTo version d before s → LeadsTo version d before t → s ≡ t }
    ensures body { (body : List ℕ) (version : Version) (before s t : Snapshot)
        → IsDeltaBetween body version before s → IsDeltaBetween body version before t → s ≡ t }
    ensures named { LeadToOne }
    ensures known { KnownByNames }
{}

/// The names of a state's modules ascend, and so do the numbers of its objects. This function changes nothing.
pub fn keep_order(state: &NamedState)
    ensures ordered { IsOrdered (state_seen state.now) }
{
    let _modules = state.modules.len();
    let _objects = state.objects.len();
}

/// Whether each index is one of so many.
fn are_globals_there(listed: &[IndexedWord], count: usize) -> bool
    ensures value { result ≡ list_all (λ e. nat_lt e.0 count) (all_indexed listed.now) }
{
    for indexed in listed {
        if indexed.index as usize >= count {
            return false;
        }
    }
    true
}

/// Gives a global the word that is listed for it.
fn set_global(globals: &mut Vec<Word>, indexed: IndexedWord)
    requires within { indexed.index < length globals.old.items }
    ensures value { globals.new.items ≡ set globals.old.items indexed.index indexed.word }
{
    globals[indexed.index as usize] = indexed.word;
}

/// Gives globals the words that are listed.
fn set_globals(globals: &mut Vec<Word>, mut listed: Vec<IndexedWord>)
    requires there { AreThere (all_indexed listed.items) (length globals.old.items) }
    ensures led { globals.new.items ≡ values_after (all_indexed listed.items) globals.old.items }
{
    while let Some(indexed) = listed.pop() {
        set_global(globals, indexed);
    }
}

/// Whether each index is one of so many.
fn are_services_there(listed: &[StoredService], count: usize) -> bool
    ensures value { result ≡ list_all (λ e. nat_lt e.0 count) (service_states_of listed.now) }
{
    for service in listed {
        if service.index as usize >= count {
            return false;
        }
    }
    true
}

/// Puts a service into a state.
fn set_service(services: &mut Vec<StoredHost>, service: StoredService)
    requires within { service.index < length services.old.items }
    ensures same_length { length services.new.items ≡ length services.old.items }
    ensures kinds { map (λ s. s.0) (services_of services.new.items)
        ≡ map (λ s. s.0) (services_of services.old.items) }
    ensures states { map (λ s. s.1) (services_of services.new.items)
        ≡ set (map (λ s. s.1) (services_of services.old.items)) service.index service.state.items }
{
    services[service.index as usize].state = service.state;
}

/// Puts services into the states that are listed.
fn set_services(services: &mut Vec<StoredHost>, mut listed: Vec<StoredService>)
    requires there { AreThere (service_states_of listed.items) (length services.old.items) }
    ensures led { LeadServices (service_states_of listed.items) (services_of services.old.items)
        (services_of services.new.items) }
{
    while let Some(service) = listed.pop() {
        set_service(services, service);
    }
}

/// Puts a module in, in place of one of its name if that is there.
fn add_module(modules: &mut NamedModules, added: StoredModule) -> Result<(), AllocError>
    ensures led { OnOk result (LeadModules (Added (module_of added)) (modules_seen modules.old)
        (modules_seen modules.new)) }
{
    let named = NamedModule {
        source: added.source,
        globals: added.globals,
    };
    modules.insert(added.name, named)?;
    Ok(())
}

/// Takes out the module of a name, if it is there.
fn remove_module(modules: &mut NamedModules, name: &str)
    ensures led { LeadModules (Removed name.now) (modules_seen modules.old)
        (modules_seen modules.new) }
{
    modules.remove(name);
}

/// Gives globals of a module the words that are listed. False where the module or one of the globals is not there.
fn change_globals(modules: &mut NamedModules, changed: StoredGlobals) -> Result<bool, AllocError>
    ensures led { IfOk result (λ led. led ≡ true
        → LeadModules (Globals (string_bytes changed.name) (all_indexed changed.globals.items))
        (modules_seen modules.old) (modules_seen modules.new)) }
    ensures missing { IfOk result (λ led. led ≡ false → IsChangeOf (modules_seen modules.old)
        (Globals (string_bytes changed.name) (all_indexed changed.globals.items)) → ⊥) }
{
    let Some((name, mut module)) = modules.remove_entry(changed.name.as_str()) else {
        return Ok(false);
    };
    if !are_globals_there(&changed.globals, module.globals.len()) {
        return Ok(false);
    }
    set_globals(&mut module.globals, changed.globals);
    modules.insert(name, module)?;
    Ok(true)
}

/// Applies what became of the modules. False where what changes is not there.
fn change_modules(modules: &mut NamedModules, change: StoredChange) -> Result<bool, AllocError>
    ensures led { IfOk result (λ led. led ≡ true → LeadModules (change_of change)
        (modules_seen modules.old) (modules_seen modules.new)) }
    ensures missing { IfOk result (λ led. led ≡ false
        → IsChangeOf (modules_seen modules.old) (change_of change) → ⊥) }
{
    match change {
        StoredChange::Unchanged => Ok(true),
        StoredChange::Added(module) => {
            add_module(modules, module)?;
            Ok(true)
        }
        StoredChange::Removed(name) => {
            remove_module(modules, &name);
            Ok(true)
        }
        StoredChange::Globals(changed) => change_globals(modules, changed),
    }
}

/// Takes out the objects of these numbers, where there are any.
fn remove_objects(objects: &mut NamedObjects, gone: &[u64])
    ensures gone { (number : ℕ) → object_at number (objects_seen objects.new)
        ≡ (if is_among gone.now number then None else object_at number (objects_seen objects.old)) }
{
    for number in gone {
        objects.remove(number);
    }
}

/// The name at an index, by ascending name. Empty where there are not so many modules.
fn name_at(alloc: Global, modules: &NamedModules, index: u8) -> Result<String, AllocError>
    ensures name { IfOk result (λ name.
        string_bytes name ≡ name_there (modules_seen modules.now) index) }
{
    let mut left = index;
    for name in modules.keys() {
        if left == 0 {
            return name.clone();
        }
        left -= 1;
    }
    Ok(String::new(alloc))
}

/// The name of the module of an object's class, or of the class that an array is of. Empty where it has none.
fn owner_name(
    alloc: Global,
    modules: &NamedModules,
    body: &StoredBody,
) -> Result<String, AllocError>
    ensures named { IfOk result (λ name. plain_known (λ index. string_bytes name) (plain_of body.now)
        ≡ by_name (modules_seen modules.now) (plain_of body.now)) }
{
    match body {
        StoredBody::Script(script) => name_at(alloc, modules, script.owner),
        StoredBody::Array(array) => match array.element {
            ElementTag::Class(owner, _) => name_at(alloc, modules, owner),
            _ => Ok(String::new(alloc)),
        },
        StoredBody::Host(_) => Ok(String::new(alloc)),
    }
}

/// An object with the name of its module.
pub fn named_object(
    alloc: Global,
    modules: &NamedModules,
    body: StoredBody,
) -> Result<NamedObject, AllocError>
    ensures seen { IfOk result (λ object. object_seen object
        ≡ by_name (modules_seen modules.now) (plain_of body)) }
{
    let owner = owner_name(alloc, modules, &body)?;
    Ok(NamedObject { owner, body })
}

/// Puts an object in, in place of what lived at its number.
fn put_object(objects: &mut NamedObjects, number: u64, named: NamedObject) -> Result<(), AllocError>
    ensures put { OnOk result (Updates nat_cmp objects.old objects.new number (Some named)) }
{
    objects.insert(number, named)?;
    Ok(())
}

/// Puts objects in, each in place of what lived at its number.
fn put_objects(
    alloc: Global,
    modules: &NamedModules,
    objects: &mut NamedObjects,
    mut put: Vec<StoredObject>,
) -> Result<(), AllocError>
    ensures put { OnOk result ((number : ℕ) → object_at number (objects_seen objects.new)
        ≡ option_or (object_by_name (modules_seen modules.now) (objects_of put.items) number)
        (object_at number (objects_seen objects.old))) }
{
    while let Some(object) = put.pop() {
        let StoredObject { number, body } = object;
        let named = named_object(alloc, modules, body)?;
        put_object(objects, number, named)?;
    }
    Ok(())
}

/// The state to which a delta leads from a state, whatever the rules of a state are. `None` where it leads to none: a
/// service or a global that is listed is not there, or globals change of a module that is not there.
pub fn lead(
    alloc: Global,
    mut state: NamedState,
    delta: StoredDelta,
) -> Result<Option<NamedState>, AllocError>
    ensures led { IfOk result (λ led. IfSome led (λ after.
        Leads (delta_of delta) (state_seen state) (state_seen after))) }
    ensures ordered { IfOk result (λ led. IfSome led (λ after. IsOrdered (state_seen after))) }
    ensures only { (after : NamedSnapshot) → Leads (delta_of delta) (state_seen state) after
        → IfOk result (λ led. IsSome led) }
{
    if !are_services_there(&delta.services, state.services.len()) {
        return Ok(None);
    }
    set_services(&mut state.services, delta.services);
    if !change_modules(&mut state.modules, delta.change)? {
        return Ok(None);
    }
    remove_objects(&mut state.objects, &delta.gone);
    put_objects(alloc, &state.modules, &mut state.objects, delta.put)?;
    state.seq = delta.seq;
    state.last = delta.last;
    keep_order(&state);
    Ok(Some(state))
}
