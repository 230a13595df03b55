//! Why a host object isn't saved or restored.

ghost use Rattle.ash_host.specs.FaultCodes.{code_of};
ghost use Rattle.ash_host.specs.declared.fault.RestoreFault.TheVariants as restore_faults;
ghost use Rattle.std.specs.Prelude.{◌≡◌, Some, codes};

use std::alloc::{AllocError, AllocFailed};
use std::error::Error;
use std::fmt;

/// Memory ran out. What was to grow is as it was.
#[derive(Clone, Copy, Debug, PartialEq, Eq)]
pub struct NoMemory;

impl NoMemory {
    /// The code by which it is reported.
    pub fn code(self) -> &'static str
        ensures coded { result.now ≡ code_of self }
    {
        "509 NoMemory"
    }
}

impl fmt::Display for NoMemory {
    ghost output = { λ _. Some (codes "memory was refused") };

    fn fmt<W: fmt::Write>(&self, f: &mut fmt::Formatter<W>) -> fmt::Result {
        f.write_str("memory was refused")
    }
}

impl Error for NoMemory {}

impl From<AllocError> for NoMemory {
    fn from(_error: AllocError) -> NoMemory {
        NoMemory
    }
}

impl<T: Drop> From<AllocFailed<T>> for NoMemory {
    fn from(_error: AllocFailed<T>) -> NoMemory {
        NoMemory
    }
}

/// Why an object doesn't take a state from bytes.
#[derive(Clone, Copy, Debug, PartialEq, Eq)]
pub enum RestoreFault {
    /// The bytes are no state of this kind.
    Refused,
    /// Memory ran out.
    NoMemory,
}

impl fmt::Display for RestoreFault {
    fn fmt<W: fmt::Write>(&self, f: &mut fmt::Formatter<W>) -> fmt::Result {
        f.write_str(match self {
            RestoreFault::Refused => "the bytes are no state of an object of this kind",
            RestoreFault::NoMemory => "memory was refused",
        })
    }
}

impl Error for RestoreFault {}

impl From<AllocError> for RestoreFault {
    ghost from_gives = { λ _ fault. fault ≡ restore_faults.NoMemory };

    fn from(_error: AllocError) -> RestoreFault {
        RestoreFault::NoMemory
    }
}

impl<T: Drop> From<AllocFailed<T>> for RestoreFault {
    ghost from_gives = { λ _ fault. fault ≡ restore_faults.NoMemory };

    fn from(_error: AllocFailed<T>) -> RestoreFault {
        RestoreFault::NoMemory
    }
}
