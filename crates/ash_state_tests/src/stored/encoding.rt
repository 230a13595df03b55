//! The image of what was read, written by the layout alone, without the code that is tested.

use ash_host::{ElementTag, Word};
use ash_image::stored::{
    StoredArray, StoredBody, StoredHost, StoredImage, StoredModule, StoredObject, StoredScript,
    StoredState,
};
use ash_image::version::Version;
use std::alloc::{AllocError, Global};

/// A length in one byte.
fn byte_of(length: usize) -> u8 {
    u8::try_from(length).unwrap_or(u8::MAX)
}

/// A length in two.
fn two_of(length: usize) -> [u8; 2] {
    u16::try_from(length).unwrap_or(u16::MAX).to_le_bytes()
}

/// A length in four.
fn four_of(length: usize) -> [u8; 4] {
    u32::try_from(length).unwrap_or(u32::MAX).to_le_bytes()
}

/// Adds a tag and what follows it.
fn add_tagged(out: &mut Vec<u8>, tag: u8, rest: &[u8]) -> Result<(), AllocError> {
    out.push(tag)?;
    out.extend_from_slice(rest)
}

fn add_word(out: &mut Vec<u8>, word: Word) -> Result<(), AllocError> {
    match word {
        Word::Bool(truth) => add_tagged(out, 0, &[u8::from(truth)]),
        Word::Int(number) => add_tagged(out, 1, &number.to_le_bytes()),
        Word::Uint(number) => add_tagged(out, 2, &number.to_le_bytes()),
        Word::Int64(number) => add_tagged(out, 3, &number.to_le_bytes()),
        Word::Uint64(number) => add_tagged(out, 4, &number.to_le_bytes()),
        Word::Null => add_tagged(out, 5, &[]),
        Word::Object(number) => add_tagged(out, 6, &number.to_le_bytes()),
    }
}

fn add_words(out: &mut Vec<u8>, words: &[Word]) -> Result<(), AllocError> {
    for word in words {
        add_word(out, *word)?;
    }
    Ok(())
}

/// A kind and a state, of a service or a host object.
fn add_host(out: &mut Vec<u8>, host: &StoredHost) -> Result<(), AllocError> {
    out.extend_from_slice(&host.kind.to_le_bytes())?;
    out.extend_from_slice(&two_of(host.state.len()))?;
    out.extend_from_slice(&host.state)
}

fn add_services(out: &mut Vec<u8>, services: &[StoredHost]) -> Result<(), AllocError> {
    out.extend_from_slice(&two_of(services.len()))?;
    for service in services {
        add_host(out, service)?;
    }
    Ok(())
}

fn add_module(out: &mut Vec<u8>, module: &StoredModule) -> Result<(), AllocError> {
    out.push(byte_of(module.name.len()))?;
    out.extend_from_slice(module.name.as_bytes())?;
    out.extend_from_slice(&four_of(module.source.len()))?;
    out.extend_from_slice(&module.source)?;
    out.extend_from_slice(&two_of(module.globals.len()))?;
    add_words(out, &module.globals)
}

fn add_modules(out: &mut Vec<u8>, modules: &[StoredModule]) -> Result<(), AllocError> {
    out.push(byte_of(modules.len()))?;
    for module in modules {
        add_module(out, module)?;
    }
    Ok(())
}

fn add_script(out: &mut Vec<u8>, script: &StoredScript) -> Result<(), AllocError> {
    out.push(1)?;
    out.push(script.owner)?;
    out.extend_from_slice(&script.class.to_le_bytes())?;
    out.push(byte_of(script.fields.len()))?;
    add_words(out, &script.fields)
}

/// What the elements of an array are.
fn add_element(out: &mut Vec<u8>, element: ElementTag) -> Result<(), AllocError> {
    match element {
        ElementTag::Bool => out.extend_from_slice(&[0]),
        ElementTag::Int => out.extend_from_slice(&[1]),
        ElementTag::Uint => out.extend_from_slice(&[2]),
        ElementTag::Int64 => out.extend_from_slice(&[3]),
        ElementTag::Uint64 => out.extend_from_slice(&[4]),
        ElementTag::Class(owner, class) => {
            out.extend_from_slice(&[5, owner])?;
            out.extend_from_slice(&class.to_le_bytes())
        }
        ElementTag::Kind(kind) => {
            out.push(6)?;
            out.extend_from_slice(&kind.to_le_bytes())
        }
    }
}

fn add_array(out: &mut Vec<u8>, array: &StoredArray) -> Result<(), AllocError> {
    out.push(3)?;
    add_element(out, array.element)?;
    out.extend_from_slice(&two_of(array.elements.len()))?;
    add_words(out, &array.elements)
}

fn add_object(out: &mut Vec<u8>, object: &StoredObject) -> Result<(), AllocError> {
    out.extend_from_slice(&object.number.to_le_bytes())?;
    match &object.body {
        StoredBody::Script(script) => add_script(out, script),
        StoredBody::Host(host) => {
            out.push(2)?;
            add_host(out, host)
        }
        StoredBody::Array(array) => add_array(out, array),
    }
}

fn add_objects(out: &mut Vec<u8>, objects: &[StoredObject]) -> Result<(), AllocError> {
    out.extend_from_slice(&four_of(objects.len()))?;
    for object in objects {
        add_object(out, object)?;
    }
    Ok(())
}

fn add_version(out: &mut Vec<u8>, version: Version) -> Result<(), AllocError> {
    let number = match version {
        Version::One => 1,
        Version::Two => 2,
    };
    out.extend_from_slice(&[number, 0])
}

/// What comes before the services: the text, how many requests were answered, and the last number of an object.
fn add_beginning(out: &mut Vec<u8>, state: &StoredState) -> Result<(), AllocError> {
    out.extend_from_slice(&four_of(state.registered.len()))?;
    out.extend_from_slice(state.registered.as_bytes())?;
    out.extend_from_slice(&state.seq.to_le_bytes())?;
    out.extend_from_slice(&state.last.to_le_bytes())
}

fn add_state(out: &mut Vec<u8>, state: &StoredState) -> Result<(), AllocError> {
    add_beginning(out, state)?;
    add_services(out, &state.services)?;
    add_modules(out, &state.modules)?;
    add_objects(out, &state.objects)
}

/// The bytes of an image that was read.
pub(crate) fn encoded(alloc: Global, image: &StoredImage) -> Result<Vec<u8>, AllocError> {
    let mut out = Vec::new(alloc);
    add_version(&mut out, image.version)?;
    add_state(&mut out, &image.state)?;
    Ok(out)
}
