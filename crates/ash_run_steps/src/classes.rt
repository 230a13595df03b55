//! Classes of objects.
ghost use Rattle.std.specs.Prelude.{◌≡◌};
ghost use Rattle.std.specs.Option.{option_and_then};
ghost use Rattle.ash_objects.specs.Table.{body_of};
ghost use Rattle.ash_run_steps.specs.Becoming.{Becomes};
ghost use Rattle.ash_run_steps.specs.ClassPlaces.{IsAlone, place_in_slot, class_place};
ghost use Rattle.ash_run_steps.specs.Guarded.{give};
ghost use Rattle.ash_run_steps.specs.RunStates.{Names};

use crate::state::RunState;
use ash_host::HostObject;
use ash_objects::{Body, Objects};

/// The class that an object is of, by its place in the source of the module in a slot.
fn place_in_slot<B>(owner: u8, body: &Body<B>) -> Option<u16>
    ensures place { result ≡ place_in_slot owner body.now }
{
    match body {
        Body::Script(script) if script.module == owner => Some(script.class),
        _ => None,
    }
}

/// The class that the object of a number is of, by its place in the source of the module in a slot.
fn place_of<B>(table: &Objects<B>, owner: u8, number: u64) -> Option<u16>
    ensures place { result ≡ option_and_then (place_in_slot owner) (body_of number table.now) }
{
    place_in_slot(owner, table.body(number)?)
}

impl<B: HostObject> RunState<B> {
    /// The class that an object is of, by its place in the source of the module in a slot. There is none if the object
    /// is of no class of that module.
    pub fn class_place(&self, owner: u8, number: u64) -> Option<u16>
        ensures place { (names : Names) → IsAlone names owner → Becomes B.HostObject names
            (class_place (names.modules owner) number) self.now (give result) self.now }
    {
        place_of(&self.table, owner, number)
    }
}
