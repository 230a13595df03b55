//! What a run leaves, as a text: how it ended, the events, the globals, the objects with their counts, and the states
//! of the services.

use crate::machine::SLOT;
use crate::words::{
    type_name, write_bytes, write_events, write_exception, write_types, write_word, write_words,
};
use ash_context::outcome::{Outcome, RunFault};
use ash_host::{ElementTag, Event, HostObject, NoMemory, Word};
use ash_objects::{Body, Objects};
use ash_plain_data::object::{Elements, Object};
use ash_plain_world::activity::World;
use ash_plain_world::objects::handles_to;
use ash_requests::Outcome as PlainOutcome;
use ash_run_steps::beginning::Parts;
use ash_typed::{Class, Module};
use std::alloc::{AllocError, Global};
use std::fmt::Write;

/// The name of the module.
pub const NAME: &str = "m";

fn write_finished(out: &mut String, value: Option<Word>) -> Result<(), AllocError> {
    match value {
        None => out.push_str("ok"),
        Some(word) => {
            out.push_str("ok ")?;
            write_word(out, word)
        }
    }
}

/// Writes the name of the function that has this place in the code.
fn write_function(out: &mut String, tree: &Module, function: usize) -> Result<(), AllocError> {
    if let Some(found) = tree.functions.get(function) {
        return out.push_str(&found.name);
    }
    let place = function.saturating_sub(tree.functions.len());
    if let Some(class) = tree.classes.get(place) {
        return write!(out, "{}.{}", class.name, class.name);
    }
    write_method(out, &tree.classes, place.saturating_sub(tree.classes.len()))
}

/// Writes the name of a method, by its place among those of all classes. Behind the last one are the initializers.
fn write_method(out: &mut String, classes: &[Class], place: usize) -> Result<(), AllocError> {
    let mut place = place;
    for class in classes {
        match class.methods.get(place) {
            Some(method) => return write!(out, "{}.{}", class.name, method.name),
            None => place = place.saturating_sub(class.methods.len()),
        }
    }
    match place {
        0 => out.push_str("(init)"),
        _ => out.push_str("(no function)"),
    }
}

/// Writes how a run of the machine ended.
pub fn write_outcome(
    out: &mut String,
    tree: &Module,
    outcome: Result<Outcome, RunFault>,
) -> Result<(), AllocError> {
    match outcome {
        Ok(Outcome::Finished(value)) => write_finished(out, value),
        Ok(
            Outcome::Exception {
                code,
                function,
                line,
            },
        ) => {
            write_exception(out, code)?;
            out.push_str(" ")?;
            write_function(out, tree, function)?;
            write!(out, " {line}")
        }
        Ok(Outcome::Aborted { function, line }) => {
            out.push_str("aborted ")?;
            write_function(out, tree, function)?;
            write!(out, " {line}")
        }
        Err(fault) => write!(out, "fault {fault:?}"),
    }
}

/// Writes how a run of the plain evaluator ended.
pub fn write_plain_outcome(out: &mut String, outcome: &PlainOutcome) -> Result<(), AllocError> {
    match outcome {
        PlainOutcome::Finished(value) => write_finished(out, *value),
        PlainOutcome::Exception {
            code,
            function,
            line,
        } => {
            write_exception(out, *code)?;
            write!(out, " {function} {line}")
        }
        PlainOutcome::Aborted { function, line } => write!(out, "aborted {function} {line}"),
    }
}

fn state_of<B: HostObject>(alloc: Global, object: &B) -> Result<Vec<u8>, NoMemory> {
    let mut state = Vec::new(alloc);
    object.save(&mut state)?;
    Ok(state)
}

fn write_host<B: HostObject>(alloc: Global, out: &mut String, object: &B) -> Result<(), NoMemory> {
    write!(out, " host {} ", object.kind())?;
    let state = state_of(alloc, object)?;
    Ok(write_bytes(out, &state)?)
}

fn write_tag(out: &mut String, tag: ElementTag) -> Result<(), AllocError> {
    match tag {
        ElementTag::Bool => out.push_str(" array bool"),
        ElementTag::Int => out.push_str(" array int"),
        ElementTag::Uint => out.push_str(" array uint"),
        ElementTag::Int64 => out.push_str(" array int64"),
        ElementTag::Uint64 => out.push_str(" array uint64"),
        ElementTag::Class(SLOT, place) => write!(out, " array class {place}"),
        ElementTag::Class(slot, place) => write!(out, " array module {slot} class {place}"),
        ElementTag::Kind(kind) => write!(out, " array kind {kind}"),
    }
}

fn write_elements(out: &mut String, of: &Elements) -> Result<(), AllocError> {
    match of {
        Elements::Bools => out.push_str(" array bool"),
        Elements::Ints => out.push_str(" array int"),
        Elements::Uints => out.push_str(" array uint"),
        Elements::Int64s => out.push_str(" array int64"),
        Elements::Uint64s => out.push_str(" array uint64"),
        Elements::Handles { owner: _, place } => write!(out, " array class {place}"),
        Elements::Hosts(kind) => write!(out, " array kind {kind}"),
    }
}

fn write_body<B: HostObject>(
    alloc: Global,
    out: &mut String,
    body: &Body<B>,
) -> Result<(), NoMemory> {
    match body {
        Body::Script(script) => {
            if script.module != SLOT {
                write!(out, " of module {}", script.module)?;
            }
            write!(out, " class {}", script.class)?;
        }
        Body::Array(array) => write_tag(out, array.element)?,
        Body::Host(object) => write_host(alloc, out, object)?,
    }
    write_words(out, body.words())?;
    Ok(write_types(out, body.words())?)
}

fn write_object(out: &mut String, object: &Object) -> Result<(), AllocError> {
    match object {
        Object::Script { place, .. } => write!(out, " class {place}")?,
        Object::Array { of, .. } => write_elements(out, of)?,
        Object::Host { kind, state } => {
            write!(out, " host {kind} ")?;
            write_bytes(out, state)?;
        }
    }
    write_words(out, object.words())?;
    write_types(out, object.words())
}

fn write_table<B: HostObject>(
    alloc: Global,
    out: &mut String,
    table: &Objects<B>,
) -> Result<(), NoMemory> {
    for number in table.numbers() {
        write!(out, "; {} count {}", *number, table.count(*number))?;
        if let Some(body) = table.body(*number) {
            write_body(alloc, out, body)?;
        }
    }
    Ok(())
}

fn write_objects(out: &mut String, world: &World) -> Result<(), AllocError> {
    for (number, object) in world.objects.iter() {
        let fields = world.objects.fields_to(*number)?;
        let count = fields.checked_add(handles_to(*number, &world.globals));
        write!(out, "; {} count {}", *number, count.unwrap_or(usize::MAX))?;
        write_object(out, object)?;
    }
    Ok(())
}

fn write_services<B: HostObject>(
    alloc: Global,
    out: &mut String,
    services: &[B],
) -> Result<(), NoMemory> {
    out.push_str(" | services")?;
    for service in services {
        out.push_str(" ")?;
        let state = state_of(alloc, service)?;
        write_bytes(out, &state)?;
    }
    Ok(())
}

fn write_states(out: &mut String, states: &[Vec<u8>]) -> Result<(), AllocError> {
    out.push_str(" | services")?;
    for state in states {
        out.push_str(" ")?;
        write_bytes(out, state)?;
    }
    Ok(())
}

/// Writes the numbers of boxes that went, in order.
fn write_gone(out: &mut String, gone: &[u64]) -> Result<(), AllocError> {
    out.push_str(" | gone")?;
    for number in gone {
        write!(out, " {number}")?;
    }
    Ok(())
}

/// The numbers of the objects that went, in order.
fn dropped(alloc: Global, events: &[Event]) -> Result<Vec<u64>, AllocError> {
    let mut numbers = Vec::new(alloc);
    for event in events {
        if let Event::Dropped(number) = event {
            numbers.push(*number)?;
        }
    }
    Ok(numbers)
}

/// What a run of the machine leaves, where boxes of these numbers went.
pub fn machine_text<B: HostObject>(
    alloc: Global,
    tree: &Module,
    outcome: Result<Outcome, RunFault>,
    parts: &Parts<B>,
    gone: &[u64],
) -> Result<String, NoMemory> {
    let mut out = String::new(alloc);
    write_outcome(&mut out, tree, outcome)?;
    if let Ok(Outcome::Finished(Some(value))) = outcome {
        write!(out, " {}", type_name(value))?;
    }
    out.push_str(" | ")?;
    write_events(&mut out, &parts.events)?;
    write_gone(&mut out, gone)?;
    out.push_str(" | globals")?;
    write_words(&mut out, &parts.globals)?;
    write_types(&mut out, &parts.globals)?;
    out.push_str(" | objects")?;
    write_table(alloc, &mut out, &parts.table)?;
    write_services(alloc, &mut out, parts.table.services())?;
    Ok(out)
}

/// What a run of the plain evaluator leaves.
pub fn plain_text(
    alloc: Global,
    outcome: &PlainOutcome,
    world: &World,
) -> Result<String, AllocError> {
    let mut out = String::new(alloc);
    write_plain_outcome(&mut out, outcome)?;
    if let PlainOutcome::Finished(Some(value)) = outcome {
        write!(out, " {}", type_name(*value))?;
    }
    out.push_str(" | ")?;
    write_events(&mut out, &world.events)?;
    write_gone(&mut out, &dropped(alloc, &world.events)?)?;
    out.push_str(" | globals")?;
    write_words(&mut out, &world.globals)?;
    write_types(&mut out, &world.globals)?;
    out.push_str(" | objects")?;
    write_objects(&mut out, world)?;
    write_states(&mut out, &world.services)?;
    Ok(out)
}

/// A reply to a load or a call, as the program writes it.
pub fn reply_text(
    alloc: Global,
    tree: &Module,
    outcome: Result<Outcome, RunFault>,
    seq: u64,
    events: &[Event],
) -> Result<String, AllocError> {
    let mut out = String::new(alloc);
    write_outcome(&mut out, tree, outcome)?;
    write!(out, " seq {seq}")?;
    let mut word = " dropped";
    for number in &dropped(alloc, events)? {
        write!(out, "{word} {number}")?;
        word = "";
    }
    Ok(out)
}

/// Events, as a text.
pub fn events_text(alloc: Global, events: &[Event]) -> Result<String, AllocError> {
    let mut out = String::new(alloc);
    write_events(&mut out, events)?;
    Ok(out)
}

/// The globals, the numbers of the objects and the states of the services.
pub fn left_text<B: HostObject>(alloc: Global, parts: &Parts<B>) -> Result<String, NoMemory> {
    let mut out = String::from_str(alloc, NAME)?;
    write_words(&mut out, &parts.globals)?;
    out.push_str(" | objects")?;
    for number in parts.table.numbers() {
        write!(out, " {}", *number)?;
    }
    write_services(alloc, &mut out, parts.table.services())?;
    Ok(out)
}
