//! Why no generation is read of a file.

ghost use Rattle.std.specs.Prelude.{◌≡◌};
ghost use Rattle.ash_inspect.specs.declared.file_fault.FileFault.TheVariants as faults;

use std::alloc::{AllocError, AllocFailed};

/// Why no generation is read of a file.
#[derive(Clone, Copy, Debug, PartialEq, Eq, Drop)]
pub enum FileFault {
    /// The file is closed.
    Closed,
    /// It is open, and has no magic and no generation; or it is cut short: at 0 its image is, elsewhere the record
    /// after the gate at this offset.
    Damaged(u64),
    /// Memory was refused.
    NoMemory,
}

impl From<AllocError> for FileFault {
    ghost from_gives = { λ _ fault. fault ≡ faults.NoMemory };

    fn from(_: AllocError) -> Self {
        FileFault::NoMemory
    }
}

impl<T: Drop> From<AllocFailed<T>> for FileFault {
    ghost from_gives = { λ _ fault. fault ≡ faults.NoMemory };

    fn from(_: AllocFailed<T>) -> Self {
        FileFault::NoMemory
    }
}
