//! The boxes that are handed over: services by the kinds that are registered, and that states are not too long.

ghost use Rattle.std.specs.Prelude.{◌≡◌, ◌≤◌, ℕ, false, map, length, nat_eq, slice_get};
ghost use Rattle.std.specs.Prelude.{IfOk, OnOk, IsErrOf, All};
ghost use Rattle.std.specs.Option.{option_map_or};
ghost use Rattle.ash_registry.specs.RegistryViews.{registered};
ghost use Rattle.ash_soundness.specs.WellFormed.{IsState};
ghost use Rattle.ash_image.specs.Image.{max_services};
ghost use Rattle.ash_states.specs.HostStates.{service_kinds};
ghost use Rattle.ash_objects.specs.declared.restoring.TableFault.{TableFault};
ghost use Rattle.ash_engine.specs.LiveStates.{services_for};
ghost use Rattle.ash_engine.specs.RestoredBoxes.{kind_missing, HasServices, LacksService};

use ash_host::HostObject;
use ash_objects::TableFault;
use ash_registry::Registry;

/// The most services.
const MAX_SERVICES: usize = 16;

/// Whether a service of this kind is in its place.
fn has_kind<B: HostObject>(services: &[B], place: usize, kind: u16) -> bool
    ensures value { result ≡ option_map_or (λ service. nat_eq (B.kind_of service) kind)
        (slice_get services.now place) false }
{
    match services.get(place) {
        Some(service) => service.kind() == kind,
        None => false,
    }
}

/// The first of these kinds for which there is no service in its place, or one of another kind.
fn kind_missing<B: HostObject>(kinds: &[u16], services: &[B]) -> Option<u16>
    ensures value { result ≡ kind_missing B.HostObject kinds.now services.now }
{
    for (place, kind) in kinds.iter().enumerate() {
        if !has_kind(services, place, *kind) {
            return Some(*kind);
        }
    }
    None
}

/// As many of these services as are registered, if each is of the kind that is registered in its place.
pub(crate) fn take_services<B: HostObject>(
    registry: &Registry,
    mut services: Vec<B>,
) -> Result<Vec<B>, TableFault>
    ensures taken { IfOk result (λ taken. taken.items
        ≡ services_for (registered registry.now) services.items) }
    ensures has { OnOk result (HasServices B.HostObject (registered registry.now) services.items) }
    ensures kinds { IfOk result (λ taken. map B.kind_of taken.items
        ≡ service_kinds (registered registry.now)) }
    ensures few { IfOk result (λ taken. length taken.items ≤ max_services) }
    ensures short { (kind : ℕ) → IsErrOf result (TableFault.PoolShort kind)
        → LacksService B.HostObject (registered registry.now) services.items kind }
    ensures not_refused { (number : ℕ) → IsErrOf result (TableFault.RestoreRefused number) → ⊥ }
{
    let Ok(kinds) = registry.service_kinds() else {
        return Err(TableFault::NoMemory);
    };
    if let Some(kind) = kind_missing(&kinds, &services) {
        return Err(TableFault::PoolShort(kind));
    }
    if kinds.len() > MAX_SERVICES {
        return Err(TableFault::NoMemory);
    }
    services.truncate(kinds.len());
    Ok(services)
}

/// The states of boxes are no longer than states may be. It asks each box for its kind, which says so, and does nothing.
pub(crate) fn boxes_fit<B: HostObject>(boxes: &[B])
    ensures fit { All (λ box. IsState (B.state box)) boxes.now }
{
    for object in boxes {
        let _kind = object.kind();
    }
}
