//! Services of a state, each of the kind that is registered in its place.

ghost use Rattle.std.specs.Prelude.{◌≡◌, map, length, zip, IfOk};
ghost use Rattle.ash_image.specs.SnapshotViews.{services_of, services_in};
ghost use Rattle.ash_states.specs.Images.{kinds_in};
ghost use Rattle.ash_states.specs.Indexes.{HaveServiceKinds};

use ash_image::parts::HostParts;
use ash_image::stored::StoredHost;
use std::alloc::{AllocError, Global};

/// The kinds of services that were stored.
pub(crate) fn stored_kinds(alloc: Global, services: &[StoredHost]) -> Result<Vec<u16>, AllocError>
    ensures kinds { IfOk result (λ kinds. kinds.items ≡ kinds_in (services_of services.now)) }
{
    let mut kinds = Vec::with_capacity(alloc, services.len())?;
    for service in services {
        kinds.push(service.kind)?;
    }
    Ok(kinds)
}

/// The states of services that were stored.
pub(crate) fn stored_states(
    alloc: Global,
    services: Vec<StoredHost>,
) -> Result<Vec<Vec<u8>>, AllocError>
    ensures states { IfOk result (λ states. map (λ state. state.items) states.items
        ≡ map (λ service. service.1) (services_of services.items)) }
{
    let mut states = Vec::with_capacity(alloc, services.len())?;
    for service in services {
        states.push(service.state)?;
    }
    Ok(states)
}

/// Services as they are written, by their kinds and their states.
pub fn service_parts<'a>(
    alloc: Global,
    kinds: &[u16],
    states: &'a [Vec<u8>],
) -> Result<Vec<HostParts<'a>>, AllocError>
    requires many { length states.now ≡ length kinds.now }
    ensures written { IfOk result (λ parts. services_in parts.items
        ≡ zip kinds.now (map (λ state. state.items) states.now)) }
    ensures kinds { IfOk result (λ parts. HaveServiceKinds kinds.now) }
{
    let mut parts = Vec::with_capacity(alloc, kinds.len())?;
    for (place, kind) in kinds.iter().enumerate() {
        parts.push(HostParts {
            kind: *kind,
            state: states[place].as_slice(),
        })?;
    }
    Ok(parts)
}
