//! Replies, events and states as texts.

use ash_host::{ElementTag, Event, Word};
use ash_image::stored::{StoredBody, StoredModule, StoredObject, StoredState, words_of};
use ash_lines::reply::{LineReply, write_line_reply};
use ash_lines::sink::{Sink, WriteFault};
use ash_lines::writer::Writer;
use ash_machine_fixtures::words::{write_bytes, write_events, write_types, write_words};
use ash_plain_data::object::{Elements, Object};
use ash_plain_steps::state::PlainState;
use ash_requests::Reply;
use ash_states::state::HostReply;
use std::alloc::{AllocError, Global};
use std::fmt::Write;
use std::test::Fail;

/// The most bytes of a line that are buffered.
const MAX_BUFFERED_BYTES: usize = 8192;

/// Writes a reply as a line.
fn write_reply(
    alloc: Global,
    bytes: &mut Vec<u8>,
    reply: HostReply,
) -> Result<Result<(), WriteFault>, AllocError> {
    let buffer = Vec::with_capacity(alloc, MAX_BUFFERED_BYTES)?;
    let mut writer = Writer::new(bytes, buffer);
    match write_line_reply(&mut writer, &LineReply::Host(reply)) {
        Ok(()) => Ok(writer.flush()),
        Err(fault) => Ok(Err(fault)),
    }
}

/// A reply as the program writes it, without the end of the line.
pub fn line_of(alloc: Global, reply: HostReply) -> Result<String, Fail> {
    let mut bytes = Vec::new(alloc);
    write_reply(alloc, &mut bytes, reply)??;
    let _ = bytes.pop();
    Ok(String::from_utf8(bytes)?)
}

/// The events of a reply. One that is no answer has none.
pub fn events_in(alloc: Global, reply: &HostReply) -> Result<Vec<Event>, AllocError> {
    match reply {
        Reply::Answer(answer) => Vec::from_slice(alloc, &answer.events),
        _ => Ok(Vec::new(alloc)),
    }
}

/// Events as a text.
pub fn events_text(alloc: Global, events: &[Event]) -> Result<String, AllocError> {
    let mut out = String::new(alloc);
    write_events(&mut out, events)?;
    Ok(out)
}

fn write_tagged(out: &mut String, words: &[Word]) -> Result<(), AllocError> {
    write_words(out, words)?;
    out.push_str(" of")?;
    write_types(out, words)
}

/// Writes the name of a module, its source, and what its globals hold.
fn write_module(out: &mut String, name: &str, source: &[u8], globals: &[Word]) -> Result<(), Fail> {
    write!(out, "\n{name} {}", str::from_utf8(source)?)?;
    out.push_str("\n globals")?;
    Ok(write_tagged(out, globals)?)
}

fn write_class(out: &mut String, owner: &str, place: usize) -> Result<(), AllocError> {
    write!(out, "{owner} {place}")
}

fn write_host(out: &mut String, kind: u16, state: &[u8]) -> Result<(), AllocError> {
    write!(out, "host {kind} ")?;
    write_bytes(out, state)
}

fn write_elements(out: &mut String, of: &Elements) -> Result<(), AllocError> {
    match of {
        Elements::Bools => out.push_str("bool"),
        Elements::Ints => out.push_str("int"),
        Elements::Uints => out.push_str("uint"),
        Elements::Int64s => out.push_str("int64"),
        Elements::Uint64s => out.push_str("uint64"),
        Elements::Handles { owner, place } => write_class(out, owner, *place),
        Elements::Hosts(kind) => write!(out, "kind {kind}"),
    }
}

fn write_object(out: &mut String, number: u64, object: &Object) -> Result<(), AllocError> {
    write!(out, "\nobject {number} ")?;
    match object {
        Object::Script { owner, place, .. } => write_class(out, owner, *place)?,
        Object::Array { of, .. } => {
            out.push_str("array of ")?;
            write_elements(out, of)?;
        }
        Object::Host { kind, state } => write_host(out, *kind, state)?,
    }
    write_tagged(out, object.words())
}

/// What outlives a request, as a text.
pub fn state_text(alloc: Global, state: &PlainState) -> Result<String, Fail> {
    let mut out = format!(in alloc; "seq {} last {} services", state.seq, state.last)?;
    for service in &state.services {
        out.push_str(" ")?;
        write_bytes(&mut out, service)?;
    }
    for module in &state.modules {
        write_module(&mut out, &module.name, &module.source, &module.globals)?;
    }
    for (number, object) in state.objects.iter() {
        write_object(&mut out, *number, object)?;
    }
    Ok(out)
}

/// The name of the module of an index.
fn owner_of(modules: &[StoredModule], owner: u8) -> &str {
    match modules.get(usize::from(owner)) {
        Some(module) => module.name.as_str(),
        None => "no module",
    }
}

fn write_tag(
    out: &mut String,
    modules: &[StoredModule],
    element: ElementTag,
) -> Result<(), AllocError> {
    match element {
        ElementTag::Bool => out.push_str("bool"),
        ElementTag::Int => out.push_str("int"),
        ElementTag::Uint => out.push_str("uint"),
        ElementTag::Int64 => out.push_str("int64"),
        ElementTag::Uint64 => out.push_str("uint64"),
        ElementTag::Class(owner, place) => write_class(
            out,
            owner_of(modules, owner),
            usize::from(place),
        ),
        ElementTag::Kind(kind) => write!(out, "kind {kind}"),
    }
}

fn write_stored(
    out: &mut String,
    modules: &[StoredModule],
    object: &StoredObject,
) -> Result<(), AllocError> {
    write!(out, "\nobject {} ", object.number)?;
    match &object.body {
        StoredBody::Script(script) => {
            let owner = owner_of(modules, script.owner);
            write_class(out, owner, usize::from(script.class))?;
        }
        StoredBody::Array(array) => {
            out.push_str("array of ")?;
            write_tag(out, modules, array.element)?;
        }
        StoredBody::Host(host) => write_host(out, host.kind, &host.state)?,
    }
    write_tagged(out, words_of(&object.body))
}

/// What an image has, as the same text.
pub fn stored_text(alloc: Global, state: &StoredState) -> Result<String, Fail> {
    let mut out = format!(in alloc; "seq {} last {} services", state.seq, state.last)?;
    for service in &state.services {
        out.push_str(" ")?;
        write_bytes(&mut out, &service.state)?;
    }
    for module in &state.modules {
        write_module(&mut out, &module.name, &module.source, &module.globals)?;
    }
    for object in &state.objects {
        write_stored(&mut out, &state.modules, object)?;
    }
    Ok(out)
}
