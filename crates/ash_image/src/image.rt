//! The image of a state.
//!
//! An image, every number with its lowest byte first:
//!
//!     version        u16    1 or 2
//!     registry       u32    the length of the text of what is registered, and the text: UTF-8, 1,048,576 bytes at most
//!     seq            u64    how many requests have been answered
//!     last number    u64    the last that was given to an object
//!     services              as in services.rt
//!     modules               as in modules.rt
//!     objects               as in numbered.rt and objects.rt
//!
//! The body of a record:
//!
//!     tag            u8     1, it leads from every state to that of the image
//!     image                 all of the bytes after the tag

ghost use Rattle.std.specs.Prelude.{◌≡◌, ◌++◌, ◌≤◌, ◌<◌, ◌^◌, ◌∷◌, length};
ghost use Rattle.std.specs.Prelude.{drop, string_bytes, Some, None};
ghost use Rattle.std.specs.Prelude.{if◌then◌else◌, OnOk, IfOk, IfSome, IsOk};
ghost use Rattle.std.specs.Prelude.{IsOkUnless, ℕ, List, option_map};
ghost use Rattle.ash_image.specs.Fields.{ReturnsField, text, whole};
ghost use Rattle.ash_image.specs.Snapshots.{Snapshot};
ghost use Rattle.ash_image.specs.Image.{FitsVersion, IsSpelling, image, image_of, image_v1_of};
ghost use Rattle.ash_image.specs.Image.{max_registered_text_bytes};
ghost use Rattle.ash_image.specs.Rules.{KeepsRules, IsShaped, IsImage, IsImageBody, image_tag};
ghost use Rattle.ash_image.specs.ImageReading.{is_text, registered_at, snapshot_at};
ghost use Rattle.ash_image.specs.ImageReading.{version_at, image_at};
ghost use Rattle.ash_image.specs.SnapshotViews.{snapshot_of, image_read, snapshot_in};
ghost use Rattle.ash_image.specs.declared.version.Version.{Version};
ghost use Rattle.ash_image.specs.declared.version.Version.TheVariants.{One, Two};
ghost use Rattle.ash_image.specs.declared.fields.ReadError.TheVariants.{Damaged};

use crate::fields::{
    ReadError, prefix, u16_at, u32_at, u64_at, write_u8, write_u16, write_u32, write_u64,
};
use crate::lengths::image_length;
use crate::limits::MAX_REGISTERED_TEXT_BYTES;
use crate::modules::{modules_of, write_modules};
use crate::numbered::{objects_of, write_objects};
use crate::parts::StateParts;
use crate::rules::keeps_rules;
use crate::services::{services_of, write_services};
use crate::stored::{StoredImage, StoredState};
use crate::version::Version;
use std::alloc::{AllocError, Global};

/// The version that is written.
const VERSION: u16 = 2;

/// The tag of a record's body that is an image.
const IMAGE_TAG: u8 = 1;

/// The bytes as the text of what is registered.
fn as_text(alloc: Global, bytes: &[u8]) -> Result<String, ReadError>
    ensures field { ReturnsField (λ text. string_bytes text) result
        (if is_text bytes.now then Some bytes.now else None) }
{
    if bytes.len() > MAX_REGISTERED_TEXT_BYTES {
        return Err(ReadError::Damaged);
    }
    let Ok(text) = str::from_utf8(bytes) else {
        return Err(ReadError::Damaged);
    };
    Ok(String::from_str(alloc, text)?)
}

#[tactic(auto, unfolding(crate::specs::ImageReading::registered_at))]
fn registered_of(alloc: Global, bytes: &[u8]) -> Result<(String, &[u8]), ReadError>
    ensures field { ReturnsField (λ x. (string_bytes x.0, x.1.now)) result
        (registered_at bytes.now) }
{
    let (length, rest) = u32_at(bytes)?;
    let (text, rest) = prefix(rest, length as usize)?;
    let registered = as_text(alloc, text)?;
    Ok((registered, rest))
}

/// What follows the version.
#[tactic(auto, unfolding(crate::specs::ImageReading::snapshot_at))]
fn state_of(
    alloc: Global,
    version: Version,
    bytes: &[u8],
) -> Result<(StoredState, &[u8]), ReadError>
    ensures field { ReturnsField (λ x. (snapshot_of x.0, x.1.now)) result
        (snapshot_at version bytes.now) }
{
    let (registered, rest) = registered_of(alloc, bytes)?;
    let (seq, rest) = u64_at(rest)?;
    let (last, rest) = u64_at(rest)?;
    let (services, rest) = services_of(alloc, rest)?;
    let (modules, rest) = modules_of(alloc, rest)?;
    let (objects, rest) = objects_of(alloc, version, rest)?;
    let state = StoredState {
        registered,
        seq,
        last,
        services,
        modules,
        objects,
    };
    Ok((state, rest))
}

#[tactic(auto, unfolding(crate::specs::ImageReading::version_at))]
fn version_of(bytes: &[u8]) -> Result<(Version, &[u8]), ReadError>
    ensures read { ReturnsField (λ x. (x.0, x.1.now)) result (version_at bytes.now) }
    ensures no_memory { IsOkUnless result Damaged }
{
    let (number, rest) = u16_at(bytes)?;
    match number {
        1 => Ok((Version::One, rest)),
        2 => Ok((Version::Two, rest)),
        _ => Err(ReadError::Damaged),
    }
}

/// The state of which all of the bytes are the image.
#[tactic(auto, unfolding(crate::specs::ImageReading::image_at))]
fn whole_image(alloc: Global, bytes: &[u8]) -> Result<StoredImage, ReadError>
    ensures read { ReturnsField (λ i. image_read i) result (whole image_at bytes.now) }
    // Where there is no version, no memory is taken.
    ensures without_memory { version_at bytes.now ≡ None → IsOkUnless result Damaged }
{
    let (version, rest) = version_of(bytes)?;
    let (state, rest) = state_of(alloc, version, rest)?;
    if rest.is_empty() {
        Ok(StoredImage { version, state })
    } else {
        Err(ReadError::Damaged)
    }
}

/// What all of the bytes spell, in either version, whatever the rules.
fn read_spelling(alloc: Global, bytes: &[u8]) -> Result<Option<StoredImage>, AllocError>
    ensures found { IfOk result (λ found. IfSome found (λ i.
        IsSpelling bytes.now i.version (snapshot_of i.state))) }
    ensures only { (version : Version) (s : Snapshot) → IsSpelling bytes.now version s
        → IfOk result (λ found. option_map image_read found ≡ Some (version, s)) }
    ensures without_memory { version_at bytes.now ≡ None → IsOk result }
{
    match whole_image(alloc, bytes) {
        Ok(stored) => Ok(Some(stored)),
        Err(ReadError::Damaged) => Ok(None),
        Err(ReadError::NoMemory) => Err(AllocError),
    }
}

/// The state of which all of the bytes are the image, in either version. `None` where they are the image of none that
/// keeps the rules. What sources declare and what is registered is not asked.
pub fn read_image(alloc: Global, bytes: &[u8]) -> Result<Option<StoredImage>, AllocError>
    // The bytes are the image of what is read.
    ensures found { IfOk result (λ found. IfSome found (λ i.
        IsImage bytes.now i.version (snapshot_of i.state))) }
    // What the bytes are the image of is read, unless memory is refused.
    ensures only { (version : Version) (s : Snapshot) → IsImage bytes.now version s
        → IfOk result (λ found. option_map image_read found ≡ Some (version, s)) }
    // Where there is no version, memory is not refused.
    ensures without_memory { version_at bytes.now ≡ None → IsOk result }
{
    let Some(stored) = read_spelling(alloc, bytes)? else {
        return Ok(None);
    };
    if !keeps_rules(alloc, &stored.state)? {
        return Ok(None);
    }
    Ok(Some(stored))
}

/// The state to which the body of a record leads, all of the bytes: that of an image, in either version. `None` where
/// the bytes are no such body.
pub fn read_body(alloc: Global, bytes: &[u8]) -> Result<Option<StoredImage>, AllocError>
    // The bytes are the body of what is read.
    ensures found { IfOk result (λ found. IfSome found (λ i.
        IsImageBody bytes.now i.version (snapshot_of i.state))) }
    // What the bytes are the body of is read, unless memory is refused.
    ensures only { (version : Version) (s : Snapshot) → IsImageBody bytes.now version s
        → IfOk result (λ found. option_map image_read found ≡ Some (version, s)) }
    // Where there is no tag of an image, memory is not refused.
    ensures without_memory { ((image : List ℕ) → bytes.now ≡ image_tag ∷ image → ⊥) → IsOk result }
{
    let Some((tag, image)) = bytes.split_first() else {
        return Ok(None);
    };
    if *tag != IMAGE_TAG {
        return Ok(None);
    }
    read_image(alloc, image)
}

/// Bytes are the image of one state, in one version, whoever reads them. This function does nothing when it runs.
pub fn image_of_one_state()
    ensures one { (bytes : List ℕ) (v w : Version) (s t : Snapshot)
        → IsImage bytes v s → IsImage bytes w t → (v ≡ w) × (s ≡ t) }
{}

/// What is spelled is read, where the rules hold. This function does nothing when it runs.
pub fn images_are_read()
    ensures again { (version : Version) (s : Snapshot) → FitsVersion version s → KeepsRules s
        → IsImage (image version s) version s }
{}

/// Version 1 moves to version 2: a state that has an image in version 1 has one in version 2, and the bytes of the two
/// differ in the version alone. This function does nothing when it runs.
pub fn version_one_moves()
    ensures fits { (s : Snapshot) → FitsVersion One s → FitsVersion Two s }
    ensures moves { (bytes : List ℕ) (s : Snapshot) → IsImage bytes One s
        → IsImage (image_of s) Two s }
    ensures shaped { (s : Snapshot) → IsShaped s → FitsVersion Two s × KeepsRules s }
    ensures same { (s : Snapshot) → image_of s ≡ 2 ∷ drop 1 (image_v1_of s) }
{}

/// A length, and the text of what is registered.
fn write_registered(out: &mut Vec<u8>, registered: &str) -> Result<(), AllocError>
    requires within { length registered.now ≤ max_registered_text_bytes }
    ensures value { OnOk result (out.new.items ≡ out.old.items ++ text 4 registered.now) }
{
    write_u32(out, registered.len() as u32)?;
    out.extend_from_slice(registered.as_bytes())
}

fn write_image_into(out: &mut Vec<u8>, state: StateParts<'_>) -> Result<(), AllocError>
    requires fits_version { FitsVersion Two (snapshot_in state) }
    ensures value { OnOk result (out.new.items
        ≡ out.old.items ++ image_of (snapshot_in state.entry)) }
{
    write_u16(out, VERSION)?;
    write_registered(out, state.registered)?;
    write_u64(out, state.seq)?;
    write_u64(out, state.last)?;
    write_services(out, state.services)?;
    write_modules(out, state.modules)?;
    write_objects(out, state.objects)
}

/// The image of a state, in version 2. Its memory is taken at once.
pub fn write_image(alloc: Global, state: StateParts<'_>) -> Result<Vec<u8>, AllocError>
    // The state has an image.
    requires fits { FitsVersion Two (snapshot_in state) }
    ensures written { IfOk result (λ image. image.items ≡ image_of (snapshot_in state.entry)) }
    // Where the rules hold, it is read again.
    ensures read { KeepsRules (snapshot_in state.entry)
        → IfOk result (λ image. IsImage image.items Two (snapshot_in state.entry)) }
    // It fits into a record.
    ensures short { IfOk result (λ image. length image.items < 2 ^ 28) }
{
    let mut image = Vec::with_capacity(alloc, image_length(state))?;
    write_image_into(&mut image, state)?;
    Ok(image)
}

/// The body of a record that leads from every state to this one: a tag, and the image in version 2. Its memory is taken
/// at once.
pub fn write_body(alloc: Global, state: StateParts<'_>) -> Result<Vec<u8>, AllocError>
    // The state has an image.
    requires fits { FitsVersion Two (snapshot_in state) }
    ensures written { IfOk result (λ body.
        body.items ≡ image_tag ∷ image_of (snapshot_in state.entry)) }
    // Where the rules hold, it is read again.
    ensures read { KeepsRules (snapshot_in state.entry)
        → IfOk result (λ body. IsImageBody body.items Two (snapshot_in state.entry)) }
    // It fits into a record.
    ensures short { IfOk result (λ body. length body.items < 2 ^ 28) }
{
    let mut body = Vec::with_capacity(alloc, 1 + image_length(state))?;
    write_u8(&mut body, IMAGE_TAG)?;
    write_image_into(&mut body, state)?;
    Ok(body)
}
