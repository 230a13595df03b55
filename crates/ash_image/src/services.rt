//! Services in an image.
//!
//!     services       u16    how many, 16 at most, in order of registration, and each:
//!         kind       u16
//!         state      u16    its length, 1,024 at most, and the bytes

ghost use Rattle.std.specs.Prelude.{◌≡◌, ◌++◌, OnOk};
ghost use Rattle.std.specs.List.{flat_map, AllByRecursion};
ghost use Rattle.ash_image.specs.Fields.{ReturnsField, times_at, items};
ghost use Rattle.ash_image.specs.ObjectBytes.{FitsHost, kind_and_state_at};
ghost use Rattle.ash_image.specs.Image.{service, FitServices};
ghost use Rattle.ash_image.specs.ImageReading.{services_at};
ghost use Rattle.ash_image.specs.SnapshotViews.{services_of, services_in};

use crate::fields::{ReadError, u16_at, write_u16};
use crate::limits::MAX_SERVICES;
use crate::objects::{host_of, write_host};
use crate::parts::HostParts;
use crate::stored::StoredHost;
use std::alloc::{AllocError, Global};

/// So many services, one after the other.
fn counted_services(
    alloc: Global,
    count: u16,
    bytes: &[u8],
) -> Result<(Vec<StoredHost>, &[u8]), ReadError>
    ensures field { ReturnsField (λ x. (services_of x.0.items, x.1.now)) result
        (times_at kind_and_state_at count bytes.now) }
{
    let mut services = Vec::new(alloc);
    let mut rest = bytes;
    for _ in 0..count {
        let (service, after) = host_of(alloc, rest)?;
        services.push(service)?;
        rest = after;
    }
    Ok((services, rest))
}

/// The services, in order of registration.
#[tactic(auto, unfolding(crate::specs::ImageReading::services_at))]
pub fn services_of(alloc: Global, bytes: &[u8]) -> Result<(Vec<StoredHost>, &[u8]), ReadError>
    ensures read { ReturnsField (λ x. (services_of x.0.items, x.1.now)) result
        (services_at bytes.now) }
{
    let (count, rest) = u16_at(bytes)?;
    if count > MAX_SERVICES {
        return Err(ReadError::Damaged);
    }
    counted_services(alloc, count, rest)
}

/// Each of the services.
fn write_each(out: &mut Vec<u8>, services: &[HostParts<'_>]) -> Result<(), AllocError>
    requires fits_host { AllByRecursion (λ s. FitsHost s.0 s.1) (services_in services.now) }
    ensures value { OnOk result (out.new.items
        ≡ out.old.items ++ flat_map service (services_in services.now)) }
{
    for parts in services {
        write_host(out, *parts)?;
    }
    Ok(())
}

/// How many services there are, and each.
pub fn write_services(out: &mut Vec<u8>, services: &[HostParts<'_>]) -> Result<(), AllocError>
    requires fit { FitServices (services_in services.now) }
    ensures written { OnOk result (out.new.items
        ≡ out.old.items ++ items 2 service (services_in services.now)) }
{
    write_u16(out, services.len() as u16)?;
    write_each(out, services)
}
