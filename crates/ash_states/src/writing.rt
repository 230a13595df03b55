//! The image of a state.

ghost use Rattle.std.specs.Prelude.{◌≡◌, ◌<◌, ◌^◌, length, IfOk};
ghost use Rattle.ash_registry.specs.RegistryViews.{registered};
ghost use Rattle.ash_image.specs.Image.{FitsVersion};
ghost use Rattle.ash_image.specs.SnapshotViews.{snapshot_in};
ghost use Rattle.ash_image.specs.declared.version.Version.TheVariants.{Two};
ghost use Rattle.ash_states.specs.Images.{IsImageIn, IsBodyIn};
ghost use Rattle.ash_states.specs.Holding.{IsHeld, held_with};
ghost use Rattle.ash_states.specs.Indexes.{snapshot_for};
ghost use Rattle.ash_states.specs.Writing.{AreWrittenIn};

use crate::parts::{module_parts, object_parts};
use crate::services::service_parts;
use ash_image::image::{write_body, write_image};
use ash_image::parts::{HostParts, ModuleParts, ObjectParts, StateParts};
use ash_plain_steps::state::PlainState;
use ash_registry::Registry;
use std::alloc::AllocError;

/// The parts of a state.
fn state_parts<'a>(
    registry: &'a Registry,
    state: &'a PlainState,
    services: &'a [HostParts<'a>],
    modules: &'a [ModuleParts<'a>],
    objects: &'a [ObjectParts<'a>],
) -> StateParts<'a>
    requires held { IsHeld (registered registry.now) state.now }
    requires listed { AreWrittenIn (held_with (registered registry.now) state.now)
        services.now modules.now objects.now }
    ensures same { snapshot_in result
        ≡ snapshot_for (held_with (registered registry.now) state.now) }
    ensures fits { FitsVersion Two (snapshot_in result) }
{
    StateParts {
        registered: registry.text(),
        seq: state.seq,
        last: state.last,
        services,
        modules,
        objects,
    }
}

/// The image of a state, in version 2, by the parts of its services, its modules and its objects.
fn image_by(
    registry: &Registry,
    state: &PlainState,
    services: &[HostParts<'_>],
    modules: &[ModuleParts<'_>],
    objects: &[ObjectParts<'_>],
) -> Result<Vec<u8>, AllocError>
    requires held { IsHeld (registered registry.now) state.now }
    requires listed { AreWrittenIn (held_with (registered registry.now) state.now)
        services.now modules.now objects.now }
    ensures image { IfOk result (λ image. IsImageIn Two image.items
        (held_with (registered registry.now) state.now)) }
    ensures short { IfOk result (λ image. length image.items < 2 ^ 28) }
{
    write_image(
        state.alloc,
        state_parts(registry, state, services, modules, objects),
    )
}

/// The body of a record that has the image of a state, in version 2, by the parts of its services, its modules and its
/// objects.
fn body_by(
    registry: &Registry,
    state: &PlainState,
    services: &[HostParts<'_>],
    modules: &[ModuleParts<'_>],
    objects: &[ObjectParts<'_>],
) -> Result<Vec<u8>, AllocError>
    requires held { IsHeld (registered registry.now) state.now }
    requires listed { AreWrittenIn (held_with (registered registry.now) state.now)
        services.now modules.now objects.now }
    ensures body { IfOk result (λ body. IsBodyIn Two body.items
        (held_with (registered registry.now) state.now)) }
    ensures short { IfOk result (λ body. length body.items < 2 ^ 28) }
{
    write_body(
        state.alloc,
        state_parts(registry, state, services, modules, objects),
    )
}

/// The image of a state, in version 2.
pub fn image_of(registry: &Registry, state: &PlainState) -> Result<Vec<u8>, AllocError>
    requires held { IsHeld (registered registry.now) state.now }
    ensures image { IfOk result (λ image. IsImageIn Two image.items
        (held_with (registered registry.now) state.now)) }
    ensures short { IfOk result (λ image. length image.items < 2 ^ 28) }
{
    let kinds = registry.service_kinds()?;
    let services = service_parts(state.alloc, &kinds, &state.services)?;
    let modules = module_parts(state.alloc, &state.modules)?;
    let objects = object_parts(state.alloc, &state.modules, &state.objects)?;
    image_by(registry, state, &services, &modules, &objects)
}

/// The body of a record that has the image of a state, in version 2.
pub fn body_of(registry: &Registry, state: &PlainState) -> Result<Vec<u8>, AllocError>
    requires held { IsHeld (registered registry.now) state.now }
    ensures body { IfOk result (λ body. IsBodyIn Two body.items
        (held_with (registered registry.now) state.now)) }
    ensures short { IfOk result (λ body. length body.items < 2 ^ 28) }
{
    let kinds = registry.service_kinds()?;
    let services = service_parts(state.alloc, &kinds, &state.services)?;
    let modules = module_parts(state.alloc, &state.modules)?;
    let objects = object_parts(state.alloc, &state.modules, &state.objects)?;
    body_by(registry, state, &services, &modules, &objects)
}
