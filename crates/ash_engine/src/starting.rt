//! The live states with which engines start.

ghost use Rattle.std.specs.Prelude.{◌≡◌, ◌≤◌, ℕ, List, All, IsTrue, map, length};
ghost use Rattle.std.specs.Prelude.{IfOk, IsErrOf};
ghost use Rattle.ash_host.specs.Objects.{handles};
ghost use Rattle.ash_registry.specs.AcceptedRegistrations.{Registration};
ghost use Rattle.ash_registry.specs.RegistryViews.{registered};
ghost use Rattle.ash_objects.specs.declared.restoring.TableFault.{TableFault};
ghost use Rattle.ash_objects.specs.Restoring.{RestoresServices};
ghost use Rattle.ash_objects.specs.Table.{holds_of};
ghost use Rattle.ash_run_steps.specs.RunStates.{is_alive_in, HoldsMore};
ghost use Rattle.ash_requests.specs.States.{globals_of};
ghost use Rattle.ash_plain_steps.specs.StateViews.{modules_seen, state_seen};
ghost use Rattle.ash_image.specs.Image.{max_services};
ghost use Rattle.ash_states.specs.HostStates.{IsAdmitted, service_kinds};
ghost use Rattle.ash_states.specs.Holding.{held_with, IsHeld};
ghost use Rattle.ash_engine.specs.LiveStates.{begin, services_for};
ghost use Rattle.ash_engine.specs.RestoredBoxes.{HasServices, IsShort, IsRefused, Restores};
ghost use Rattle.ash_engine.specs.RestoredTables.{IsTableOf, IsShortOf, IsRefusedOf};
ghost use Rattle.ash_engine.specs.TableStates.{live_seen, IsLive};

use crate::boxes::boxes_fit;
use crate::changes::Changes;
use crate::compiling::compile_all;
use crate::live::Live;
use ash_host::HostObject;
use ash_objects::{Objects, SavedObjects, TableFault};
use ash_plain_steps::state::{LoadedModule, PlainState};
use ash_plain_world::objects::ObjectMap;
use ash_registry::Registry;
use ash_run_steps::counting::hold_words;
use ash_table_states::saving::saved_objects;
use std::alloc::Global;

/// The live state before any request, with services of the registered kinds. It takes no memory.
pub(crate) fn first_live<B: HostObject>(
    alloc: Global,
    registry: &Registry,
    pool: Vec<B>,
    services: Vec<B>,
) -> Live<B>
    requires kinds { map B.kind_of services.items ≡ service_kinds (registered registry.now) }
    requires few { length services.items ≤ max_services }
    ensures live { IsLive B.HostObject (registered registry.now) result }
    ensures begun { (given : List B)
        → services.items ≡ services_for (registered registry.now) given
        → live_seen B.HostObject (registered registry.now) result
        ≡ begin B.HostObject (registered registry.now) pool.items given }
{
    boxes_fit(&pool);
    boxes_fit(&services);
    Live {
        loaded: PlainState::new(alloc, Vec::new(alloc)),
        compiled: Vec::new(alloc),
        table: Objects::new(alloc, pool, services),
        changes: Changes::none(alloc),
    }
}

/// The table of a state, in which the slot of each module is its index. Nothing is held but by fields and elements.
fn table_of<B: HostObject>(
    state: &PlainState,
    pool: Vec<B>,
    services: Vec<B>,
) -> Result<Objects<B>, TableFault>
    requires admitted { (r : List Registration) × IsAdmitted (held_with r state.now) }
    requires many { length services.items ≡ length (state_seen state.now).services }
    ensures table { IfOk result (IsTableOf B.HostObject (state_seen state.now) pool.items) }
    ensures services { IfOk result (λ table. RestoresServices B.HostObject services.items
        (state_seen state.now).services table.services) }
    ensures short { (kind : ℕ) → IsErrOf result (TableFault.PoolShort kind)
        → IsShortOf B.HostObject (state_seen state.now) pool.items kind }
    ensures refused { (number : ℕ) → IsErrOf result (TableFault.RestoreRefused number)
        → IsRefusedOf B.HostObject (state_seen state.now) pool.items services.items number }
{
    let Ok(objects) = saved_objects(state.alloc, &state.modules, &state.objects) else {
        return Err(TableFault::NoMemory);
    };
    let stored = SavedObjects {
        objects,
        last: state.last,
    };
    Objects::restored(state.alloc, stored, &state.services, pool, services)
}

/// Holds what the globals of modules are handles to, once for each. Nothing is held before.
fn hold_globals<B: HostObject>(table: &mut Objects<B>, modules: &[LoadedModule])
    requires alive { All (λ word. IsTrue (is_alive_in word table.old))
        (globals_of (modules_seen modules.now)) }
    requires none { (number : ℕ) → holds_of number table.old ≡ 0 }
    requires few { length modules.now ≤ 16 }
    requires short { All (λ m. length m.globals.items ≤ 256) modules.now }
    ensures held { HoldsMore (handles (globals_of (modules_seen modules.now))) table.old table.new }
{
    for module in modules {
        hold_words(table, &module.globals);
    }
}

/// The modules of a state, and how many requests it has answered.
fn modules_alone(state: PlainState) -> PlainState
    ensures modules { result.modules ≡ state.modules }
    ensures seq { result.seq ≡ state.seq }
{
    PlainState {
        alloc: state.alloc,
        modules: state.modules,
        objects: ObjectMap::new(state.alloc),
        services: Vec::new(state.alloc),
        last: 0,
        seq: state.seq,
    }
}

/// The live state of one that was stored, with services of the registered kinds. Each host object takes the first free
/// box of its kind, by ascending number; then the services take their states, and then these boxes.
pub(crate) fn restored_live<B: HostObject>(
    registry: &Registry,
    state: PlainState,
    pool: Vec<B>,
    services: Vec<B>,
) -> Result<Live<B>, TableFault>
    requires held { IsHeld (registered registry.now) state }
    requires kinds { map B.kind_of services.items ≡ service_kinds (registered registry.now) }
    ensures live { IfOk result (IsLive B.HostObject (registered registry.now)) }
    ensures restored { IfOk result (λ live. (given : List B)
        → HasServices B.HostObject (registered registry.now) given
        → services.items ≡ services_for (registered registry.now) given
        → Restores B.HostObject (held_with (registered registry.now) state) pool.items given
        (live_seen B.HostObject (registered registry.now) live)) }
    ensures short { (kind : ℕ) → IsErrOf result (TableFault.PoolShort kind) → (given : List B)
        → HasServices B.HostObject (registered registry.now) given
        → IsShort B.HostObject (held_with (registered registry.now) state) pool.items given kind }
    ensures refused { (number : ℕ) → IsErrOf result (TableFault.RestoreRefused number)
        → (given : List B) → HasServices B.HostObject (registered registry.now) given
        → services.items ≡ services_for (registered registry.now) given
        → IsRefused B.HostObject (held_with (registered registry.now) state) pool.items given
        number }
{
    let Ok(compiled) = compile_all(state.alloc, &state.modules) else {
        return Err(TableFault::NoMemory);
    };
    boxes_fit(&pool);
    let mut table = table_of(&state, pool, services)?;
    hold_globals(&mut table, &state.modules);
    let changes = Changes::none(state.alloc);
    Ok(Live {
        loaded: modules_alone(state),
        compiled,
        table,
        changes,
    })
}
