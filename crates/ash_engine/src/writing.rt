//! The image of a live state.

ghost use Rattle.std.specs.Prelude.{◌≡◌, ◌<◌, ◌^◌, length, IfOk};
ghost use Rattle.ash_registry.specs.RegistryViews.{registered};
ghost use Rattle.ash_image.specs.declared.version.Version.TheVariants.{Two};
ghost use Rattle.ash_states.specs.Images.{IsImageIn, IsBodyIn};
ghost use Rattle.ash_engine.specs.TableStates.{slots_of, durable_seen, IsLive};

use crate::live::{Compiled, Live};
use ash_host::HostObject;
use ash_registry::Registry;
use ash_table_states::writing::{self, TableState};
use std::alloc::{AllocError, Global};

/// The slots of modules, in their order.
pub(crate) fn slots_of(alloc: Global, compiled: &[Compiled]) -> Result<Vec<u8>, AllocError>
    ensures slots { IfOk result (λ slots. slots.items ≡ slots_of compiled.now) }
{
    let mut slots = Vec::with_capacity(alloc, compiled.len())?;
    for one in compiled {
        slots.push(one.code.parts().module)?;
    }
    Ok(slots)
}

/// What a live state consists of, as it is written.
fn table_state<'a, B>(live: &'a Live<B>, slots: &'a [u8]) -> TableState<'a, B>
    ensures modules { result.modules.now ≡ live.now.loaded.modules.items }
    ensures slots { result.slots.now ≡ slots.now }
    ensures table { result.table.now ≡ live.now.table }
    ensures last { result.last ≡ live.now.table.last }
    ensures seq { result.seq ≡ live.now.loaded.seq }
{
    TableState {
        modules: &live.loaded.modules,
        slots,
        table: &live.table,
        last: live.table.last(),
        seq: live.loaded.seq,
    }
}

/// The image of a live state, in version 2.
pub(crate) fn image_of<B: HostObject>(
    registry: &Registry,
    live: &Live<B>,
) -> Result<Vec<u8>, AllocError>
    requires live { IsLive B.HostObject (registered registry.now) live.now }
    ensures image { IfOk result (λ image. IsImageIn Two image.items
        (durable_seen B.HostObject (registered registry.now) live.now)) }
    ensures short { IfOk result (λ image. length image.items < 2 ^ 28) }
{
    let alloc = live.loaded.alloc;
    let slots = slots_of(alloc, &live.compiled)?;
    writing::image_of(alloc, registry, &table_state(live, &slots))
}

/// The body of a record that has the image of a live state, in version 2.
pub(crate) fn body_of<B: HostObject>(
    registry: &Registry,
    live: &Live<B>,
) -> Result<Vec<u8>, AllocError>
    requires live { IsLive B.HostObject (registered registry.now) live.now }
    ensures body { IfOk result (λ body. IsBodyIn Two body.items
        (durable_seen B.HostObject (registered registry.now) live.now)) }
    ensures short { IfOk result (λ body. length body.items < 2 ^ 28) }
{
    let alloc = live.loaded.alloc;
    let slots = slots_of(alloc, &live.compiled)?;
    writing::body_of(alloc, registry, &table_state(live, &slots))
}
