//! Whether what a state stores is of the types of its modules' sources.

ghost use Rattle.std.specs.Prelude.{◌≡◌, ◌↔◌, IsTrue, List, ℕ};
ghost use Rattle.std.specs.List.{list_all};
ghost use Rattle.ash_host.specs.Objects as plain;
ghost use Rattle.ash_host.specs.Objects.{IsInOrder};
ghost use Rattle.ash_typed.specs.Signatures.{HostSignatures};
ghost use Rattle.ash_requests.specs.States.{Embedding};
ghost use Rattle.ash_plain_steps.specs.declared.state.LoadedModule as loaded_module;
ghost use Rattle.ash_plain_steps.specs.StateViews.{modules_seen};
ghost use Rattle.ash_plain_steps.specs.Consistency.{AreConsistent};
ghost use Rattle.ash_admission.specs.Admission.{Constructs, AreWellTypedObjects, IsWellTypedAsRead};
ghost use Rattle.ash_admission.specs.Admission.{is_loaded};
ghost use Rattle.ash_admission.specs.Admission.{is_well_typed};

use crate::contents::are_objects;
use crate::values::is_loaded;
use ash_plain_steps::state::LoadedModule;
use ash_plain_world::objects::ObjectMap;

/// Whether what the globals of each module hold is of their types.
fn are_loaded(modules: &[LoadedModule], objects: &ObjectMap) -> bool
    ensures value { result ≡ list_all (is_loaded objects.now) modules.now }
{
    for loaded in modules {
        if !is_loaded(loaded, objects) {
            return false;
        }
    }
    true
}

/// Whether each object is well-formed, and what the globals of each module hold is of their types.
fn is_of_its_types(kinds: &[u16], modules: &[LoadedModule], objects: &ObjectMap) -> bool
    ensures both { result ≡ is_well_typed kinds.now modules.now objects.now }
    ensures in_order { IsInOrder objects.now }
{
    are_objects(kinds, modules, objects) && are_loaded(modules, objects)
}

/// Whether what is stored is of the types that the sources of the modules say, where the host constructs objects of
/// these kinds: the globals are values of their types, each object is as its class or its elements say, and each host
/// object is of one of the kinds, with a state that is no longer than a state may be.
pub fn is_well_typed(kinds: &[u16], modules: &[LoadedModule], objects: &ObjectMap) -> bool
    ensures exact { (host : HostSignatures)
        → Constructs host kinds.now
        → (IsTrue result ↔ (AreWellTypedObjects host modules.now objects.now)) }
{
    is_of_its_types(kinds, modules, objects)
}

/// Where the typed trees are what the sources are read as, this is so of what is stored as the sources are read. The
/// function does nothing: its contract is the law. `F` is the type of the faults of sources.
pub fn trees_are_as_read<F>()
    ensures same { (embedding : Embedding F) (host : HostSignatures)
        (ms : List loaded_module.LoadedModule) (all : plain.LiveObjects (List ℕ))
        → AreConsistent embedding ms
        → (AreWellTypedObjects host ms all
        ↔ (IsWellTypedAsRead embedding host (modules_seen ms) all)) }
{}
