//! Objects in an image, beside their numbers.
//!
//! An object is a tag and what it is:
//!
//!     1  script object
//!         module     u8     the index of its module in the list of modules
//!         class      u16    the index of its class in the module's source
//!         fields     u8     how many, 32 at most, and each a word, in order of declaration
//!     2  host object
//!         kind       u16
//!         state      u16    its length, 1,024 at most, and the bytes
//!     3  array
//!         element           a tag: 0 bool, 1 int, 2 uint, 3 int64, 4 uint64, 5 a handle to an object of a class or an
//!                           interface, and then its module u8 and its index u16, 6 a handle to a host object, and then
//!                           its kind u16
//!         elements   u16    how many, 4,096 at most, and each a word

ghost use Rattle.std.specs.Prelude.{◌≡◌, ◌++◌, OnOk, IsOkUnless};
ghost use Rattle.ash_image.specs.Fields.{ReturnsField};
ghost use Rattle.ash_image.specs.ObjectBytes.{plain, element, script, host, array, FitsPlain};
ghost use Rattle.ash_image.specs.ObjectBytes.{FitsScript, FitsHost, FitsArray};
ghost use Rattle.ash_image.specs.ObjectBytes.{element_at, kind_and_state_at};
ghost use Rattle.ash_image.specs.ObjectBytes.{script_at, array_at};
ghost use Rattle.ash_image.specs.ObjectBytes.{plain_at};
ghost use Rattle.ash_host.specs.ElementTags.{element_of};
ghost use Rattle.ash_image.specs.ImageObjectViews.{script_of, service_of};
ghost use Rattle.ash_image.specs.ImageObjectViews.{array_of, plain_of, plain_in};
ghost use Rattle.ash_image.specs.declared.fields.ReadError.TheVariants.{Damaged};

use crate::fields::{ReadError, prefix, u8_at, u16_at, write_u8, write_u16};
use crate::limits::MAX_CLASS_MEMBERS;
use crate::parts::{ArrayParts, BodyParts, HostParts, ScriptParts};
use crate::stored::{StoredArray, StoredBody, StoredHost, StoredScript};
use crate::words::{words_of, write_words};
use ash_host::{ElementTag, MAX_ELEMENTS, MAX_STATE_BYTES};
use std::alloc::{AllocError, Global};

#[tactic(auto, unfolding(crate::specs::ObjectBytes::element_at, crate::specs::ObjectBytes::element_case))]
fn element_of(bytes: &[u8]) -> Result<(ElementTag, &[u8]), ReadError>
    ensures read { ReturnsField (λ x. (element_of x.0, x.1.now)) result (element_at bytes.now) }
    // It takes no memory.
    ensures no_memory { IsOkUnless result Damaged }
{
    let (tag, rest) = u8_at(bytes)?;
    match tag {
        0 => Ok((ElementTag::Bool, rest)),
        1 => Ok((ElementTag::Int, rest)),
        2 => Ok((ElementTag::Uint, rest)),
        3 => Ok((ElementTag::Int64, rest)),
        4 => Ok((ElementTag::Uint64, rest)),
        5 => {
            let (module, rest) = u8_at(rest)?;
            let (class, rest) = u16_at(rest)?;
            Ok((ElementTag::Class(module, class), rest))
        }
        6 => {
            let (kind, rest) = u16_at(rest)?;
            Ok((ElementTag::Kind(kind), rest))
        }
        _ => Err(ReadError::Damaged),
    }
}

#[tactic(auto, unfolding(crate::specs::ObjectBytes::script_at, crate::specs::ObjectBytes::fields_at))]
fn script_of(alloc: Global, bytes: &[u8]) -> Result<(StoredScript, &[u8]), ReadError>
    ensures field { ReturnsField (λ x. (script_of x.0, x.1.now)) result (script_at bytes.now) }
{
    let (owner, rest) = u8_at(bytes)?;
    let (class, rest) = u16_at(rest)?;
    let (count, rest) = u8_at(rest)?;
    if count > MAX_CLASS_MEMBERS {
        return Err(ReadError::Damaged);
    }
    let (fields, rest) = words_of(alloc, u16::from(count), rest)?;
    let script = StoredScript {
        owner,
        class,
        fields,
    };
    Ok((script, rest))
}

/// A kind and a state.
#[tactic(auto, unfolding(crate::specs::ObjectBytes::kind_and_state_at, crate::specs::ObjectBytes::state_at))]
pub fn host_of(alloc: Global, bytes: &[u8]) -> Result<(StoredHost, &[u8]), ReadError>
    ensures read { ReturnsField (λ x. (service_of x.0, x.1.now)) result
        (kind_and_state_at bytes.now) }
{
    let (kind, rest) = u16_at(bytes)?;
    let (length, rest) = u16_at(rest)?;
    let (state, rest) = prefix(rest, length as usize)?;
    if state.len() > MAX_STATE_BYTES {
        return Err(ReadError::Damaged);
    }
    let state = Vec::from_slice(alloc, state)?;
    Ok((StoredHost { kind, state }, rest))
}

#[tactic(auto, unfolding(crate::specs::ObjectBytes::array_at, crate::specs::ObjectBytes::elements_at))]
fn array_of(alloc: Global, bytes: &[u8]) -> Result<(StoredArray, &[u8]), ReadError>
    ensures field { ReturnsField (λ x. (array_of x.0, x.1.now)) result (array_at bytes.now) }
{
    let (element, rest) = element_of(bytes)?;
    let (count, rest) = u16_at(rest)?;
    if count as usize > MAX_ELEMENTS {
        return Err(ReadError::Damaged);
    }
    let (elements, rest) = words_of(alloc, count, rest)?;
    Ok((StoredArray { element, elements }, rest))
}

/// An object.
#[tactic(auto, unfolding(crate::specs::ObjectBytes::plain_at, crate::specs::ObjectBytes::plain_case))]
pub fn body_of(alloc: Global, bytes: &[u8]) -> Result<(StoredBody, &[u8]), ReadError>
    ensures read { ReturnsField (λ x. (plain_of x.0, x.1.now)) result (plain_at bytes.now) }
{
    let (tag, rest) = u8_at(bytes)?;
    match tag {
        1 => {
            let (script, rest) = script_of(alloc, rest)?;
            Ok((StoredBody::Script(script), rest))
        }
        2 => {
            let (host, rest) = host_of(alloc, rest)?;
            Ok((StoredBody::Host(host), rest))
        }
        3 => {
            let (array, rest) = array_of(alloc, rest)?;
            Ok((StoredBody::Array(array), rest))
        }
        _ => Err(ReadError::Damaged),
    }
}

fn write_element(out: &mut Vec<u8>, of: ElementTag) -> Result<(), AllocError>
    ensures value { OnOk result (out.new.items ≡ out.old.items ++ element (element_of of)) }
{
    match of {
        ElementTag::Bool => write_u8(out, 0),
        ElementTag::Int => write_u8(out, 1),
        ElementTag::Uint => write_u8(out, 2),
        ElementTag::Int64 => write_u8(out, 3),
        ElementTag::Uint64 => write_u8(out, 4),
        ElementTag::Class(module, class) => {
            write_u8(out, 5)?;
            write_u8(out, module)?;
            write_u16(out, class)
        }
        ElementTag::Kind(kind) => {
            write_u8(out, 6)?;
            write_u16(out, kind)
        }
    }
}

fn write_script(out: &mut Vec<u8>, object: ScriptParts<'_>) -> Result<(), AllocError>
    requires fits_script { FitsScript object.owner object.class object.fields.now }
    ensures value { OnOk result (out.new.items
        ≡ out.old.items ++ script object.entry.owner object.entry.class object.entry.fields.now) }
{
    write_u8(out, object.owner)?;
    write_u16(out, object.class)?;
    write_u8(out, object.fields.len() as u8)?;
    write_words(out, object.fields)
}

/// A kind and a state.
pub fn write_host(out: &mut Vec<u8>, object: HostParts<'_>) -> Result<(), AllocError>
    requires fits { FitsHost object.kind object.state.now }
    ensures written { OnOk result (out.new.items
        ≡ out.old.items ++ host object.entry.kind object.entry.state.now) }
{
    write_u16(out, object.kind)?;
    write_u16(out, object.state.len() as u16)?;
    out.extend_from_slice(object.state)
}

fn write_array(out: &mut Vec<u8>, object: ArrayParts<'_>) -> Result<(), AllocError>
    requires fits_array { FitsArray (element_of object.element) object.elements.now }
    ensures value { OnOk result (out.new.items
        ≡ out.old.items ++ array (element_of object.entry.element) object.entry.elements.now) }
{
    write_element(out, object.element)?;
    write_u16(out, object.elements.len() as u16)?;
    write_words(out, object.elements)
}

/// An object: a tag, and what it is.
pub fn write_body(out: &mut Vec<u8>, body: BodyParts<'_>) -> Result<(), AllocError>
    requires fits { FitsPlain (plain_in body) }
    ensures written { OnOk result (out.new.items ≡ out.old.items ++ plain (plain_in body.entry)) }
{
    match body {
        BodyParts::Script(object) => {
            write_u8(out, 1)?;
            write_script(out, object)
        }
        BodyParts::Host(object) => {
            write_u8(out, 2)?;
            write_host(out, object)
        }
        BodyParts::Array(object) => {
            write_u8(out, 3)?;
            write_array(out, object)
        }
    }
}
