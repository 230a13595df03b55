//! A state that was stored, restored where a host may be in it.

ghost use Rattle.std.specs.Prelude.{◌≡◌, ◌↔◌, IfOk, IsTrue};
ghost use Rattle.ash_registry.specs.RegistryViews.{registered};
ghost use Rattle.ash_sources.specs.Sources.{registered_for};
ghost use Rattle.ash_image.specs.Rules.{IsShaped};
ghost use Rattle.ash_image.specs.SnapshotViews.{services_of, snapshot_of};
ghost use Rattle.ash_states.specs.HostStates.{service_kinds};
ghost use Rattle.ash_states.specs.Images.{kinds_in};
ghost use Rattle.ash_states.specs.StateRestoring.{RestoresHostState};

use crate::modules::read_modules;
use crate::objects::objects_of;
use crate::services::{stored_kinds, stored_states};
use ash_admission::admission::is_well_typed;
use ash_image::stored::{StoredHost, StoredState};
use ash_plain_steps::state::PlainState;
use ash_registry::Registry;
use ash_sources::sources::Sources;
use std::alloc::{AllocError, Global};

/// How a host with this registry reads sources.
pub fn sources_for(registry: &Registry) -> Sources<'_>
    ensures value { registered_for result ≡ registered registry.now }
{
    Sources { registry }
}

/// Whether the services that were stored are of the kinds that are registered, in order.
fn has_services(
    alloc: Global,
    registry: &Registry,
    services: &[StoredHost],
) -> Result<bool, AllocError>
    ensures exact { IfOk result (λ has. IsTrue has
        ↔ (kinds_in (services_of services.now) ≡ service_kinds (registered registry.now))) }
{
    let stored = stored_kinds(alloc, services)?;
    let wanted = registry.service_kinds()?;
    Ok(stored.as_slice() == wanted.as_slice())
}

/// The state that was stored, where a host with this registry may be in it: its services are of the kinds that are
/// registered, each source has a typed tree, and what is stored is of the types that the sources say.
pub(crate) fn restore_state(
    alloc: Global,
    registry: &Registry,
    stored: StoredState,
) -> Result<Option<PlainState>, AllocError>
    requires shaped { IsShaped (snapshot_of stored) }
    ensures exact { IfOk result (RestoresHostState (registered registry.now) (snapshot_of stored)) }
{
    if !has_services(alloc, registry, &stored.services)? {
        return Ok(None);
    }
    let sources = sources_for(registry);
    let Some(modules) = read_modules(alloc, &sources, stored.modules)? else {
        return Ok(None);
    };
    let objects = objects_of(alloc, &modules, stored.objects)?;
    let kinds = registry.object_kinds()?;
    if !is_well_typed(&kinds, &modules, &objects) {
        return Ok(None);
    }
    let services = stored_states(alloc, stored.services)?;
    Ok(Some(PlainState {
        alloc,
        modules,
        objects,
        services,
        last: stored.last,
        seq: stored.seq,
    }))
}
