//! The state of a host to which an image and the records after it lead.

ghost use Rattle.std.specs.Prelude.{◌≡◌, IfOk, IfErr};
ghost use Rattle.ash_journal.specs.Reading.{AreAt, bodies_of};
ghost use Rattle.ash_registry.specs.RegistryViews.{registered};
ghost use Rattle.ash_replay.specs.ReplayFaults.{after_image};
ghost use Rattle.ash_replay.specs.ReplayedStates.{IsRead, IsReadFault};

use crate::fault::ReplayFault;
use crate::replay::{last_gate, replay};
use ash_image::version::Version;
use ash_journal::Record;
use ash_registry::Registry;
use ash_states::state::HostState;
use std::alloc::Global;

/// A state that was read, and the version of the generation that has it.
#[derive(Drop)]
pub struct StateRead {
    pub version: Version,
    pub state: HostState,
}

/// The state of an image and the records after it, with this registry, and their version.
///
/// Faults, the first that holds, each at the offset of the gate before the record, or 0 for the image: `Damaged` where
/// the image is none, or a record leads nowhere, or the last state breaks the rules of a state; `OtherInterface` where
/// its text of what was registered is not this registry's; `Damaged`, at the last record, where no host with this
/// registry may be in it. `NoMemory` may come at any time.
pub fn state_in(
    alloc: Global,
    registry: Registry,
    image: &[u8],
    records: &[Record],
) -> Result<StateRead, ReplayFault>
    ensures read { IfOk result (IsRead (registered registry) (image.now, bodies_of records.now)) }
    ensures fault { AreAt (after_image image.now) records.now
        → IfErr result (IsReadFault (registered registry) (image.now, bodies_of records.now)) }
{
    let stored = replay(alloc, image, records)?;
    if stored.state.registered.as_str() != registry.text() {
        return Err(ReplayFault::OtherInterface);
    }
    let version = stored.version;
    match HostState::restore(alloc, registry, stored.state)? {
        Some(state) => Ok(StateRead { version, state }),
        None => Err(ReplayFault::Damaged(last_gate(records))),
    }
}
