//! Why no state is read.

ghost use Rattle.std.specs.Prelude.{◌≡◌};
ghost use Rattle.ash_replay.specs.declared.fault.ReplayFault.TheVariants as faults;

use std::alloc::AllocError;

/// Why no state is read of an image and records.
#[derive(Clone, Copy, Debug, PartialEq, Eq, Drop)]
pub enum ReplayFault {
    /// The bytes are none of a state, or none of one that a host with the registry may be in. The offset, in bytes, is
    /// that of the gate before the record that is damaged, or 0 for the image.
    Damaged(u64),
    /// The text of what was registered is another.
    OtherInterface,
    /// Memory was refused.
    NoMemory,
}

impl From<AllocError> for ReplayFault {
    ghost from_gives = { λ _ fault. fault ≡ faults.NoMemory };

    fn from(_: AllocError) -> Self {
        ReplayFault::NoMemory
    }
}
