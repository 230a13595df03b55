//! Whether a state has an image in a version, whatever its rules.

ghost use Rattle.std.specs.Prelude.{◌≡◌, ◌↔◌, IsTrue};
ghost use Rattle.std.specs.List.{list_all};
ghost use Rattle.ash_image.specs.ImageObjectViews.{plain_of, service_of};
ghost use Rattle.ash_image.specs.Image.{FitsVersion};
ghost use Rattle.ash_image.specs.Fitting.{has_short_state, are_services, is_loadable};
ghost use Rattle.ash_image.specs.Fitting.{are_loadable, is_short, is_storable};
ghost use Rattle.ash_image.specs.Fitting.{are_storable, is_within};
ghost use Rattle.ash_image.specs.SnapshotViews.{services_of, module_of, modules_of};
ghost use Rattle.ash_image.specs.SnapshotViews.{object_of, objects_of, snapshot_of};

use crate::limits::{
    MAX_CLASS_MEMBERS, MAX_GLOBALS, MAX_MODULES, MAX_REGISTERED_TEXT_BYTES, MAX_SERVICES,
    MAX_SOURCE_BYTES,
};
use crate::names::{are_ascending, is_module_name};
use crate::numbered::{do_rise, has_version};
use crate::ranges::state_range;
use crate::stored::{StoredBody, StoredHost, StoredModule, StoredObject, StoredState};
use crate::version::Version;
use ash_host::{MAX_ELEMENTS, MAX_OBJECTS, MAX_STATE_BYTES};

fn has_short_state(host: &StoredHost) -> bool
    ensures value { result ≡ has_short_state (service_of host.now) }
{
    host.state.len() <= MAX_STATE_BYTES
}

fn have_short_states(services: &[StoredHost]) -> bool
    ensures value { result ≡ list_all has_short_state (services_of services.now) }
{
    for service in services {
        if !has_short_state(service) {
            return false;
        }
    }
    true
}

fn are_services(services: &[StoredHost]) -> bool
    ensures value { result ≡ are_services (services_of services.now) }
{
    services.len() <= MAX_SERVICES as usize && have_short_states(services)
}

fn is_loadable(loaded: &StoredModule) -> bool
    ensures value { result ≡ is_loadable (module_of loaded.now) }
{
    is_module_name(loaded.name.as_bytes())
        && loaded.source.len() <= MAX_SOURCE_BYTES
        && loaded.globals.len() <= MAX_GLOBALS as usize
}

fn all_loadable(modules: &[StoredModule]) -> bool
    ensures value { result ≡ list_all is_loadable (modules_of modules.now) }
{
    for loaded in modules {
        if !is_loadable(loaded) {
            return false;
        }
    }
    true
}

fn are_loadable(modules: &[StoredModule]) -> bool
    ensures value { result ≡ are_loadable (modules_of modules.now) }
{
    modules.len() <= MAX_MODULES as usize && all_loadable(modules) && are_ascending(modules)
}

/// Whether an object has no more than an image has room for.
fn is_short(body: &StoredBody) -> bool
    ensures value { result ≡ is_short (plain_of body.now) }
{
    match body {
        StoredBody::Script(script) => script.fields.len() <= MAX_CLASS_MEMBERS as usize,
        StoredBody::Host(host) => host.state.len() <= MAX_STATE_BYTES,
        StoredBody::Array(array) => array.elements.len() <= MAX_ELEMENTS,
    }
}

fn is_storable(version: Version, object: &StoredObject) -> bool
    ensures value { result ≡ is_storable version (object_of object.now) }
{
    has_version(version, &object.body) && is_short(&object.body)
}

fn all_storable(version: Version, objects: &[StoredObject]) -> bool
    ensures value { result ≡ list_all (is_storable version) (objects_of objects.now) }
{
    for object in objects {
        if !is_storable(version, object) {
            return false;
        }
    }
    true
}

fn are_storable(version: Version, objects: &[StoredObject]) -> bool
    ensures value { result ≡ are_storable version (objects_of objects.now) }
{
    objects.len() <= MAX_OBJECTS && all_storable(version, objects) && do_rise(objects)
}

fn is_within(version: Version, state: &StoredState) -> bool
    ensures value { result ≡ is_within version (snapshot_of state.now) }
{
    state.registered.len() <= MAX_REGISTERED_TEXT_BYTES
        && are_services(&state.services)
        && are_loadable(&state.modules)
        && are_storable(version, &state.objects)
}

/// Whether a state has an image in a version.
pub fn fits_version(version: Version, state: &StoredState) -> bool
    ensures exact { IsTrue result ↔ FitsVersion version (snapshot_of state.now) }
{
    state_range(state);
    is_within(version, state)
}
