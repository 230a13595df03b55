//! Objects by their numbers in an image.
//!
//!     objects        u32    how many, 4,096 at most, by ascending number, and each:
//!         number     u64
//!         object            a tag and what it is; version 1 has no arrays

ghost use Rattle.std.specs.Prelude.{◌≡◌, ◌++◌, OnOk};
ghost use Rattle.std.specs.List.{flat_map, AllByRecursion};
ghost use Rattle.ash_host.specs.Objects.{numbers};
ghost use Rattle.ash_image.specs.Fields.{ReturnsField, times_at, items};
ghost use Rattle.ash_image.specs.Image.{object, do_rise, has_version, FitsObject, FitObjects};
ghost use Rattle.ash_image.specs.ImageReading.{body_at, object_at, objects_at};
ghost use Rattle.ash_image.specs.ImageObjectViews.{plain_of};
ghost use Rattle.ash_image.specs.SnapshotViews.{object_of, objects_of, object_in, objects_in};
ghost use Rattle.ash_image.specs.declared.version.Version.TheVariants.{Two};

use crate::fields::{ReadError, u32_at, u64_at, write_u32, write_u64};
use crate::objects::{body_of, write_body};
use crate::parts::ObjectParts;
use crate::stored::{StoredBody, StoredObject};
use crate::version::Version;
use ash_host::MAX_OBJECTS;
use std::alloc::{AllocError, Global};

/// Whether a version has such objects.
pub fn has_version(version: Version, body: &StoredBody) -> bool
    ensures value { result ≡ has_version version (plain_of body.now) }
{
    match (version, body) {
        (Version::One, StoredBody::Array(_)) => false,
        _ => true,
    }
}

/// What an object is, where the version has such objects.
#[tactic(auto, unfolding(crate::specs::ImageReading::body_at))]
fn versioned_body(
    alloc: Global,
    version: Version,
    bytes: &[u8],
) -> Result<(StoredBody, &[u8]), ReadError>
    ensures field { ReturnsField (λ x. (plain_of x.0, x.1.now)) result (body_at version bytes.now) }
{
    let (body, rest) = body_of(alloc, bytes)?;
    if !has_version(version, &body) {
        return Err(ReadError::Damaged);
    }
    Ok((body, rest))
}

#[tactic(auto, unfolding(crate::specs::ImageReading::object_at))]
fn object_of(
    alloc: Global,
    version: Version,
    bytes: &[u8],
) -> Result<(StoredObject, &[u8]), ReadError>
    ensures field { ReturnsField (λ x. (object_of x.0, x.1.now)) result
        (object_at version bytes.now) }
{
    let (number, rest) = u64_at(bytes)?;
    let (body, rest) = versioned_body(alloc, version, rest)?;
    Ok((StoredObject { number, body }, rest))
}

/// So many objects, one after the other.
fn counted_objects(
    alloc: Global,
    version: Version,
    count: u32,
    bytes: &[u8],
) -> Result<(Vec<StoredObject>, &[u8]), ReadError>
    ensures field { ReturnsField (λ x. (objects_of x.0.items, x.1.now)) result
        (times_at (object_at version) count bytes.now) }
{
    let mut objects = Vec::new(alloc);
    let mut rest = bytes;
    for _ in 0..count {
        let (object, after) = object_of(alloc, version, rest)?;
        objects.push(object)?;
        rest = after;
    }
    Ok((objects, rest))
}

/// Whether each number is below the next.
pub fn do_rise(objects: &[StoredObject]) -> bool
    ensures value { result ≡ do_rise (numbers (objects_of objects.now)) }
{
    let Some((mut last, rest)) = objects.split_first() else {
        return true;
    };
    for object in rest {
        if last.number >= object.number {
            return false;
        }
        last = object;
    }
    true
}

/// The objects, by ascending number.
#[tactic(auto, unfolding(crate::specs::ImageReading::objects_at))]
pub fn objects_of(
    alloc: Global,
    version: Version,
    bytes: &[u8],
) -> Result<(Vec<StoredObject>, &[u8]), ReadError>
    ensures read { ReturnsField (λ x. (objects_of x.0.items, x.1.now)) result
        (objects_at version bytes.now) }
{
    let (count, rest) = u32_at(bytes)?;
    if count as usize > MAX_OBJECTS {
        return Err(ReadError::Damaged);
    }
    let (objects, rest) = counted_objects(alloc, version, count, rest)?;
    if !do_rise(&objects) {
        return Err(ReadError::Damaged);
    }
    Ok((objects, rest))
}

fn write_object(out: &mut Vec<u8>, parts: ObjectParts<'_>) -> Result<(), AllocError>
    requires fits_object { FitsObject Two (object_in parts) }
    ensures value { OnOk result (out.new.items ≡ out.old.items ++ object (object_in parts.entry)) }
{
    write_u64(out, parts.number)?;
    write_body(out, parts.body)
}

/// Each of the objects.
fn write_each(out: &mut Vec<u8>, objects: &[ObjectParts<'_>]) -> Result<(), AllocError>
    requires fits_object { AllByRecursion (FitsObject Two) (objects_in objects.now) }
    ensures value { OnOk result (out.new.items
        ≡ out.old.items ++ flat_map object (objects_in objects.now)) }
{
    for parts in objects {
        write_object(out, *parts)?;
    }
    Ok(())
}

/// How many objects there are, and each.
pub fn write_objects(out: &mut Vec<u8>, objects: &[ObjectParts<'_>]) -> Result<(), AllocError>
    requires fit { FitObjects Two (objects_in objects.now) }
    ensures written { OnOk result (out.new.items
        ≡ out.old.items ++ items 4 object (objects_in objects.now)) }
{
    write_u32(out, objects.len() as u32)?;
    write_each(out, objects)
}
