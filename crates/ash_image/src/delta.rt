//! What a request changed, as bytes: a delta leads from the state before the request to the state after it.
//!
//! A delta, every number with its lowest byte first:
//!
//!     seq            u64    how many requests have been answered
//!     last number    u64    the last that was given to an object
//!     services       u16    how many, by ascending index, and each:
//!         index      u16    in order of registration
//!         state      u16    its length, 1,024 at most, and the bytes
//!     modules               as in changed_modules.rt
//!     gone           u32    how many, and each:
//!         number     u64    above 0, ascending
//!     put                   the objects that are new or changed, as in numbered.rt
//!
//! The body of a record:
//!
//!     tag            u8     2, it leads from a state to the next
//!     delta                 all of the bytes after the tag

ghost use Rattle.std.specs.Prelude.{◌≡◌, ◌∷◌, ◌++◌, ◌<◌, ◌≤◌, ◌-◌, ◌^◌, length, OnOk, IfOk, IfSome};
ghost use Rattle.std.specs.Prelude.{ℕ, List, Some, option_map, IsTrue};
ghost use Rattle.std.specs.List.{flat_map, AllByRecursion};
ghost use Rattle.ash_host.specs.Limits.{max_objects};
ghost use Rattle.ash_host.specs.Objects.{numbers};
ghost use Rattle.ash_image.specs.Fields.{ReturnsField, times_at, number_at, number, items, whole};
ghost use Rattle.ash_image.specs.Image.{do_rise, service};
ghost use Rattle.ash_image.specs.ObjectBytes.{kind_and_state_at, FitsHost};
ghost use Rattle.ash_image.specs.SnapshotViews.{services_of, objects_of};
ghost use Rattle.ash_image.specs.Delta.{Delta, delta, are_apart, FitsDelta, IsDelta};
ghost use Rattle.ash_image.specs.Delta.{IsDeltaBody, FitServiceStates, FitNumbers};
ghost use Rattle.ash_image.specs.DeltaReading.{service_states_at, gone_at, parts_at, delta_at};
ghost use Rattle.ash_image.specs.DeltaViews.{service_state_of, service_states_of, delta_of};
ghost use Rattle.ash_image.specs.DeltaViews.{service_states_in, delta_in};
ghost use Rattle.ash_image.specs.declared.version.Version.{Version};
ghost use Rattle.ash_image.specs.declared.version.Version.TheVariants.{Two};

use crate::changed_modules::{change_of, write_change};
use crate::delta_lengths::delta_length;
use crate::delta_parts::{DeltaParts, ServiceParts};
use crate::fields::{ReadError, u16_at, u32_at, u64_at, write_u8, write_u16, write_u32, write_u64};
use crate::limits::MAX_SERVICES;
use crate::numbered::{objects_of, write_objects};
use crate::objects::{host_of, write_host};
use crate::parts::HostParts;
use crate::rules::{is_alive, numbers_of};
use crate::stored::{StoredHost, StoredObject};
use crate::stored_delta::{StoredDelta, StoredService};
use crate::version::Version;
use std::alloc::{AllocError, Global};

/// The tag of a record's body that is a delta.
pub const DELTA_TAG: u8 = 2;

/// The state of a service, and its index.
fn service_state_of(alloc: Global, bytes: &[u8]) -> Result<(StoredService, &[u8]), ReadError>
    ensures read { ReturnsField (λ x. (service_state_of x.0, x.1.now)) result
        (kind_and_state_at bytes.now) }
{
    let (indexed, rest) = host_of(alloc, bytes)?;
    let service = StoredService {
        index: indexed.kind,
        state: indexed.state,
    };
    Ok((service, rest))
}

/// So many states of services, one after the other.
fn counted_states(
    alloc: Global,
    count: u16,
    bytes: &[u8],
) -> Result<(Vec<StoredService>, &[u8]), ReadError>
    ensures field { ReturnsField (λ x. (service_states_of x.0.items, x.1.now)) result
        (times_at kind_and_state_at count bytes.now) }
{
    let mut services = Vec::new(alloc);
    let mut rest = bytes;
    for _ in 0..count {
        let (service, after) = service_state_of(alloc, rest)?;
        services.push(service)?;
        rest = after;
    }
    Ok((services, rest))
}

/// Whether each index is below the next.
fn do_indexes_rise(services: &[StoredService]) -> bool
    ensures value { result ≡ do_rise (numbers (service_states_of services.now)) }
{
    let Some((mut last, rest)) = services.split_first() else {
        return true;
    };
    for service in rest {
        if last.index >= service.index {
            return false;
        }
        last = service;
    }
    true
}

/// The states of services, by ascending index.
#[tactic(auto, unfolding(crate::specs::DeltaReading::service_states_at, crate::specs::ImageReading::services_at))]
fn service_states_of(alloc: Global, bytes: &[u8]) -> Result<(Vec<StoredService>, &[u8]), ReadError>
    ensures read { ReturnsField (λ x. (service_states_of x.0.items, x.1.now)) result
        (service_states_at bytes.now) }
{
    let (count, rest) = u16_at(bytes)?;
    if count > MAX_SERVICES {
        return Err(ReadError::Damaged);
    }
    let (services, rest) = counted_states(alloc, count, rest)?;
    if !do_indexes_rise(&services) {
        return Err(ReadError::Damaged);
    }
    Ok((services, rest))
}

/// So many numbers, one after the other.
fn counted_numbers(alloc: Global, count: u32, bytes: &[u8]) -> Result<(Vec<u64>, &[u8]), ReadError>
    ensures read { ReturnsField (λ x. (x.0.items, x.1.now)) result
        (times_at (number_at 8) count bytes.now) }
{
    let mut numbers = Vec::new(alloc);
    let mut rest = bytes;
    for _ in 0..count {
        let (number, after) = u64_at(rest)?;
        numbers.push(number)?;
        rest = after;
    }
    Ok((numbers, rest))
}

/// Whether each number is above 0 and above the one before it.
fn do_rise(numbers: &[u64]) -> bool
    ensures value { result ≡ do_rise (0 ∷ numbers.now) }
{
    let mut last = 0;
    for number in numbers {
        if last >= *number {
            return false;
        }
        last = *number;
    }
    true
}

/// Numbers that objects can have, ascending.
#[tactic(auto, unfolding(crate::specs::DeltaReading::gone_at))]
fn gone_of(alloc: Global, bytes: &[u8]) -> Result<(Vec<u64>, &[u8]), ReadError>
    ensures read { ReturnsField (λ x. (x.0.items, x.1.now)) result (gone_at bytes.now) }
{
    let (count, rest) = u32_at(bytes)?;
    let (gone, rest) = counted_numbers(alloc, count, rest)?;
    if !do_rise(&gone) {
        return Err(ReadError::Damaged);
    }
    Ok((gone, rest))
}

/// The parts of a delta.
#[tactic(auto, unfolding(crate::specs::DeltaReading::parts_at))]
fn parts_of(
    alloc: Global,
    version: Version,
    bytes: &[u8],
) -> Result<(StoredDelta, &[u8]), ReadError>
    ensures field { ReturnsField (λ x. (delta_of x.0, x.1.now)) result
        (parts_at version bytes.now) }
{
    let (seq, rest) = u64_at(bytes)?;
    let (last, rest) = u64_at(rest)?;
    let (services, rest) = service_states_of(alloc, rest)?;
    let (change, rest) = change_of(alloc, rest)?;
    let (gone, rest) = gone_of(alloc, rest)?;
    let (put, rest) = objects_of(alloc, version, rest)?;
    let delta = StoredDelta {
        seq,
        last,
        services,
        change,
        gone,
        put,
    };
    Ok((delta, rest))
}

/// Whether none of some numbers is among others.
fn none_among(numbers: &[u64], others: &[u64]) -> bool
    requires rising { IsTrue (do_rise others.now) }
    ensures value { result ≡ are_apart numbers.now others.now }
{
    for number in numbers {
        if is_alive(others, *number) {
            return false;
        }
    }
    true
}

/// Whether no number is both gone and put.
fn are_apart(alloc: Global, gone: &[u64], put: &[StoredObject]) -> Result<bool, AllocError>
    requires rising { IsTrue (do_rise (numbers (objects_of put.now))) }
    ensures value { IfOk result (λ apart.
        apart ≡ are_apart gone.now (numbers (objects_of put.now))) }
{
    let others = numbers_of(alloc, put)?;
    Ok(none_among(gone, &others))
}

/// A delta, and the bytes after it.
#[tactic(auto, unfolding(crate::specs::DeltaReading::delta_at))]
pub(crate) fn delta_of(
    alloc: Global,
    version: Version,
    bytes: &[u8],
) -> Result<(StoredDelta, &[u8]), ReadError>
    ensures field { ReturnsField (λ x. (delta_of x.0, x.1.now)) result
        (delta_at version bytes.now) }
{
    let (delta, rest) = parts_of(alloc, version, bytes)?;
    if !are_apart(alloc, &delta.gone, &delta.put)? {
        return Err(ReadError::Damaged);
    }
    Ok((delta, rest))
}

/// The delta of which all of the bytes are the spelling.
fn whole_delta(alloc: Global, version: Version, bytes: &[u8]) -> Result<StoredDelta, ReadError>
    ensures read { ReturnsField (λ d. delta_of d) result (whole (delta_at version) bytes.now) }
{
    let (delta, rest) = delta_of(alloc, version, bytes)?;
    if rest.is_empty() {
        Ok(delta)
    } else {
        Err(ReadError::Damaged)
    }
}

/// The delta of which all of the bytes are the spelling, in a version. `None` where they are the spelling of none.
/// Whether it leads anywhere is not asked.
pub fn read_delta(
    alloc: Global,
    version: Version,
    bytes: &[u8],
) -> Result<Option<StoredDelta>, AllocError>
    // The bytes are the spelling of what is read.
    ensures found { IfOk result (λ found. IfSome found (λ d.
        IsDelta bytes.now version (delta_of d))) }
    // What the bytes are the spelling of is read, unless memory is refused.
    ensures only { (d : Delta) → IsDelta bytes.now version d
        → IfOk result (λ found. option_map delta_of found ≡ Some d) }
{
    match whole_delta(alloc, version, bytes) {
        Ok(delta) => Ok(Some(delta)),
        Err(ReadError::Damaged) => Ok(None),
        Err(ReadError::NoMemory) => Err(AllocError),
    }
}

/// Bytes are the spelling of one delta. It is short, if no more objects are gone than live at most. This function does
/// nothing when it runs.
pub fn delta_of_one_request()
    ensures one { (bytes : List ℕ) (version : Version) (c d : Delta)
        → IsDelta bytes version c → IsDelta bytes version d → c ≡ d }
    ensures short { (version : Version) (d : Delta) → FitsDelta version d
        → length d.gone ≤ max_objects → length (delta d) ≤ 2 ^ 28 - 2 }
{}

/// Each of the states of services.
fn write_each_state(out: &mut Vec<u8>, services: &[ServiceParts<'_>]) -> Result<(), AllocError>
    requires fits_host { AllByRecursion (λ s. FitsHost s.0 s.1) (service_states_in services.now) }
    ensures value { OnOk result (out.new.items
        ≡ out.old.items ++ flat_map service (service_states_in services.now)) }
{
    for parts in services {
        let indexed = HostParts {
            kind: parts.index,
            state: parts.state,
        };
        write_host(out, indexed)?;
    }
    Ok(())
}

/// How many states of services there are, and each.
fn write_states(out: &mut Vec<u8>, services: &[ServiceParts<'_>]) -> Result<(), AllocError>
    requires fit { FitServiceStates (service_states_in services.now) }
    ensures value { OnOk result (out.new.items
        ≡ out.old.items ++ items 2 service (service_states_in services.now)) }
{
    write_u16(out, services.len() as u16)?;
    write_each_state(out, services)
}

/// Each of the numbers.
fn write_each_number(out: &mut Vec<u8>, numbers: &[u64]) -> Result<(), AllocError>
    ensures value { OnOk result (out.new.items
        ≡ out.old.items ++ flat_map (number 8) numbers.now) }
{
    for number in numbers {
        write_u64(out, *number)?;
    }
    Ok(())
}

/// How many numbers there are, and each.
fn write_numbers(out: &mut Vec<u8>, numbers: &[u64]) -> Result<(), AllocError>
    requires fit { FitNumbers numbers.now }
    ensures value { OnOk result (out.new.items
        ≡ out.old.items ++ items 4 (number 8) numbers.now) }
{
    write_u32(out, numbers.len() as u32)?;
    write_each_number(out, numbers)
}

/// Appends the spelling of a delta, in version 2.
fn write_delta_into(out: &mut Vec<u8>, parts: DeltaParts<'_>) -> Result<(), AllocError>
    requires fits { FitsDelta Two (delta_in parts) }
    ensures value { OnOk result (out.new.items ≡ out.old.items ++ delta (delta_in parts.entry)) }
{
    write_u64(out, parts.seq)?;
    write_u64(out, parts.last)?;
    write_states(out, parts.services)?;
    write_change(out, parts.change)?;
    write_numbers(out, parts.gone)?;
    write_objects(out, parts.put)
}

/// Appends a delta, in version 2. Its memory is taken at once.
pub fn append_delta(out: &mut Vec<u8>, parts: DeltaParts<'_>) -> Result<(), AllocError>
    requires fits { FitsDelta Two (delta_in parts) }
    ensures appended { OnOk result (out.new.items
        ≡ out.old.items ++ delta (delta_in parts.entry)) }
{
    out.reserve(delta_length(parts))?;
    write_delta_into(out, parts)
}

/// A delta, in version 2. Its memory is taken at once.
pub fn write_delta(alloc: Global, parts: DeltaParts<'_>) -> Result<Vec<u8>, AllocError>
    requires fits { FitsDelta Two (delta_in parts) }
    // It is read again.
    ensures written { IfOk result (λ bytes. IsDelta bytes.items Two (delta_in parts.entry)) }
    // It fits into a record, if no more objects are gone than live at most.
    ensures short { length parts.entry.gone.now ≤ max_objects
        → IfOk result (λ bytes. length bytes.items < 2 ^ 28) }
{
    let mut bytes = Vec::with_capacity(alloc, delta_length(parts))?;
    write_delta_into(&mut bytes, parts)?;
    Ok(bytes)
}

/// The body of a record that leads from a state to the next: a tag, and the delta in version 2. Its
/// memory is taken at once.
pub fn write_delta_body(alloc: Global, parts: DeltaParts<'_>) -> Result<Vec<u8>, AllocError>
    requires fits { FitsDelta Two (delta_in parts) }
    ensures written { IfOk result (λ body. IsDeltaBody body.items Two (delta_in parts.entry)) }
    // It fits into a record, if no more objects are gone than live at most.
    ensures short { length parts.entry.gone.now ≤ max_objects
        → IfOk result (λ body. length body.items < 2 ^ 28) }
{
    let mut body = Vec::with_capacity(alloc, 1 + delta_length(parts))?;
    write_u8(&mut body, DELTA_TAG)?;
    write_delta_into(&mut body, parts)?;
    Ok(body)
}
