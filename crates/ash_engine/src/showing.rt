//! Objects of the table, as replies show them.

ghost use Rattle.std.specs.Prelude.{◌≡◌, IfOk, string_bytes};
ghost use Rattle.ash_registry.specs.RegistryViews.{registered};
ghost use Rattle.ash_object_ranks.specs.ShownTables.{elements_shown, body_shown};
ghost use Rattle.ash_plain_data.specs.ObjectViews.{element_seen, object_seen};
ghost use Rattle.ash_plain_steps.specs.TaskViews.{GivesTask};
ghost use Rattle.ash_requests.specs.Requests.{Object as ObjectRequest};
ghost use Rattle.ash_sources.specs.SourceFaults.{fault_of, MayTakeMemory};
ghost use Rattle.ash_states.specs.StateSteps.{task_of};
ghost use Rattle.ash_engine.specs.TableStates.{durable_seen, names_of, IsLive};

use crate::live::Live;
use ash_host::{ElementTag, HostObject};
use ash_objects::Body;
use ash_plain_data::object::{Elements, Object};
use ash_plain_steps::shown::described;
use ash_plain_steps::task::Task;
use ash_registry::Registry;
use ash_requests::{Refusal, Shown};
use ash_states::restoring::sources_for;
use ash_states::state::HostRefusal;
use std::alloc::AllocError;

/// The name of the module in a slot; none is the name of no module.
fn module_name<B>(live: &Live<B>, slot: u8) -> Result<String, AllocError>
    ensures name { IfOk result (λ name. string_bytes name ≡ names_of live.now slot) }
{
    for (place, compiled) in live.compiled.iter().enumerate() {
        if compiled.code.parts().module == slot {
            return match live.loaded.modules.get(place) {
                Some(m) => String::from_str(live.loaded.alloc, m.name.as_str()),
                None => Ok(String::new(live.loaded.alloc)),
            };
        }
    }
    Ok(String::new(live.loaded.alloc))
}

/// What the elements of an array are, with the name of the module in place of its slot.
fn elements_of<B>(live: &Live<B>, element: ElementTag) -> Result<Elements, AllocError>
    ensures elements { IfOk result (λ of. element_seen of ≡ elements_shown (names_of live.now) element) }
{
    match element {
        ElementTag::Bool => Ok(Elements::Bools),
        ElementTag::Int => Ok(Elements::Ints),
        ElementTag::Uint => Ok(Elements::Uints),
        ElementTag::Int64 => Ok(Elements::Int64s),
        ElementTag::Uint64 => Ok(Elements::Uint64s),
        ElementTag::Class(slot, place) => Ok(Elements::Handles {
            owner: module_name(live, slot)?,
            place: place as usize,
        }),
        ElementTag::Kind(kind) => Ok(Elements::Hosts(kind)),
    }
}

/// An object of the table as plain data: a box by its kind and the state that it saves.
fn object_of<B: HostObject>(live: &Live<B>, body: &Body<B>) -> Result<Object, AllocError>
    ensures object { IfOk result (λ object. object_seen object
        ≡ body_shown B.HostObject (names_of live.now) body.now) }
{
    let alloc = live.loaded.alloc;
    match body {
        Body::Script(script) => Ok(Object::Script {
            owner: module_name(live, script.module)?,
            place: script.class as usize,
            fields: Vec::from_slice(alloc, script.fields.as_slice())?,
        }),
        Body::Array(array) => Ok(Object::Array {
            of: elements_of(live, array.element)?,
            elements: Vec::from_slice(alloc, array.elements.as_slice())?,
        }),
        Body::Host(object) => {
            let mut state = Vec::new(alloc);
            match object.save(&mut state) {
                Ok(()) => Ok(Object::Host {
                    kind: object.kind(),
                    state,
                }),
                Err(_) => Err(AllocError),
            }
        }
    }
}

/// The task of a look at an object, or `NoObject` if none lives by the number.
pub(crate) fn showing<B: HostObject>(
    registry: &Registry,
    number: u64,
    live: &Live<B>,
) -> Result<Task<'static>, HostRefusal>
    requires live { IsLive B.HostObject (registered registry.now) live.now }
    ensures task { GivesTask fault_of MayTakeMemory live.now.loaded.modules.items result
        (task_of (ObjectRequest number) (durable_seen B.HostObject (registered registry.now) live.now)) }
{
    let Some(body) = live.table.body(number) else {
        return Err(Refusal::NoObject);
    };
    let object = object_of(live, body)?;
    let sources = sources_for(registry);
    let Some((type_name, contents)) = described(&sources, &live.loaded, &object)? else {
        return Err(Refusal::NoObject);
    };
    let Ok(count) = usize::try_from(live.table.count(number)) else {
        return Err(Refusal::NoMemory);
    };
    Ok(Task::Show(Shown {
        number,
        type_name,
        count,
        contents,
    }))
}
