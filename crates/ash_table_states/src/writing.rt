//! The image of a state whose objects are in a table.

ghost use Rattle.std.specs.Prelude.{◌≡◌, ◌<◌, ◌^◌, length, IfOk};
ghost use Rattle.ash_registry.specs.RegistryViews.{registered};
ghost use Rattle.ash_image.specs.Image.{FitsVersion};
ghost use Rattle.ash_image.specs.SnapshotViews.{snapshot_in};
ghost use Rattle.ash_image.specs.declared.version.Version.TheVariants.{Two};
ghost use Rattle.ash_states.specs.Images.{IsImageIn, IsBodyIn};
ghost use Rattle.ash_states.specs.Indexes.{snapshot_for};
ghost use Rattle.ash_states.specs.Writing.{AreWrittenIn};
ghost use Rattle.ash_table_states.specs.WrittenStates.{state_in, IsWritable};

use crate::parts::{listed, object_parts, object_states, states_of};
use ash_host::HostObject;
use ash_image::image::{write_body, write_image};
use ash_image::parts::{HostParts, ModuleParts, ObjectParts, StateParts};
use ash_objects::Objects;
use ash_plain_steps::state::LoadedModule;
use ash_registry::Registry;
use ash_states::parts::module_parts;
use ash_states::services::service_parts;
use std::alloc::{AllocError, Global};

/// What a state consists of, beside what is registered.
#[derive(Drop)]
pub struct TableState<'a, B> {
    /// The modules by ascending name.
    pub modules: &'a [LoadedModule],
    /// The slot of each module in the table.
    pub slots: &'a [u8],
    /// The objects and the services.
    pub table: &'a Objects<B>,
    /// The last number that was given to an object.
    pub last: u64,
    /// How many requests have been answered.
    pub seq: u64,
}

/// The parts of a state.
fn state_parts<'a, B: HostObject>(
    registry: &'a Registry,
    state: &TableState<'_, B>,
    services: &'a [HostParts<'a>],
    modules: &'a [ModuleParts<'a>],
    objects: &'a [ObjectParts<'a>],
) -> StateParts<'a>
    requires writable { IsWritable B.HostObject (registered registry.now) state.now }
    requires listed { AreWrittenIn (state_in B.HostObject (registered registry.now) state.now)
        services.now modules.now objects.now }
    ensures same { snapshot_in result
        ≡ snapshot_for (state_in B.HostObject (registered registry.now) state.now) }
    ensures fits { FitsVersion Two (snapshot_in result) }
{
    StateParts {
        registered: registry.text(),
        seq: state.seq,
        last: state.last,
        services,
        modules,
        objects,
    }
}

/// The image of a state, in version 2, by the parts of its services, its modules and its objects.
fn image_by<B: HostObject>(
    alloc: Global,
    registry: &Registry,
    state: &TableState<'_, B>,
    services: &[HostParts<'_>],
    modules: &[ModuleParts<'_>],
    objects: &[ObjectParts<'_>],
) -> Result<Vec<u8>, AllocError>
    requires writable { IsWritable B.HostObject (registered registry.now) state.now }
    requires listed { AreWrittenIn (state_in B.HostObject (registered registry.now) state.now)
        services.now modules.now objects.now }
    ensures image { IfOk result (λ image. IsImageIn Two image.items
        (state_in B.HostObject (registered registry.now) state.now)) }
    ensures short { IfOk result (λ image. length image.items < 2 ^ 28) }
{
    write_image(
        alloc,
        state_parts(registry, state, services, modules, objects),
    )
}

/// The body of a record that has the image of a state, in version 2, by the parts of its services, its modules and its
/// objects.
fn body_by<B: HostObject>(
    alloc: Global,
    registry: &Registry,
    state: &TableState<'_, B>,
    services: &[HostParts<'_>],
    modules: &[ModuleParts<'_>],
    objects: &[ObjectParts<'_>],
) -> Result<Vec<u8>, AllocError>
    requires writable { IsWritable B.HostObject (registered registry.now) state.now }
    requires listed { AreWrittenIn (state_in B.HostObject (registered registry.now) state.now)
        services.now modules.now objects.now }
    ensures body { IfOk result (λ body. IsBodyIn Two body.items
        (state_in B.HostObject (registered registry.now) state.now)) }
    ensures short { IfOk result (λ body. length body.items < 2 ^ 28) }
{
    write_body(
        alloc,
        state_parts(registry, state, services, modules, objects),
    )
}

/// The image of a state, in version 2.
pub fn image_of<B: HostObject>(
    alloc: Global,
    registry: &Registry,
    state: &TableState<'_, B>,
) -> Result<Vec<u8>, AllocError>
    requires writable { IsWritable B.HostObject (registered registry.now) state.now }
    ensures image { IfOk result (λ image. IsImageIn Two image.items
        (state_in B.HostObject (registered registry.now) state.now)) }
    // It fits into a record.
    ensures short { IfOk result (λ image. length image.items < 2 ^ 28) }
{
    let kinds = registry.service_kinds()?;
    let saved = states_of(alloc, state.table.services())?;
    let services = service_parts(alloc, &kinds, &saved)?;
    let modules = module_parts(alloc, state.modules)?;
    let listed = listed(alloc, state.table)?;
    let states = object_states(alloc, &listed)?;
    let objects = object_parts(alloc, state.slots, &listed, &states)?;
    image_by(alloc, registry, state, &services, &modules, &objects)
}

/// The body of a record that has the image of a state, in version 2.
pub fn body_of<B: HostObject>(
    alloc: Global,
    registry: &Registry,
    state: &TableState<'_, B>,
) -> Result<Vec<u8>, AllocError>
    requires writable { IsWritable B.HostObject (registered registry.now) state.now }
    ensures body { IfOk result (λ body. IsBodyIn Two body.items
        (state_in B.HostObject (registered registry.now) state.now)) }
    // It fits into a record.
    ensures short { IfOk result (λ body. length body.items < 2 ^ 28) }
{
    let kinds = registry.service_kinds()?;
    let saved = states_of(alloc, state.table.services())?;
    let services = service_parts(alloc, &kinds, &saved)?;
    let modules = module_parts(alloc, state.modules)?;
    let listed = listed(alloc, state.table)?;
    let states = object_states(alloc, &listed)?;
    let objects = object_parts(alloc, state.slots, &listed, &states)?;
    body_by(alloc, registry, state, &services, &modules, &objects)
}
