//! Why a run stopped.

ghost use Rattle.std.specs.Prelude.{◌≡◌};
ghost use Rattle.ash_serve.specs.Program.{run_code};

use ash_lines::sink::WriteFault;
use ash_lines::source::ReadFault;
use std::alloc::AllocError;
use thiserror::Error;

/// Why a run stopped before the end of its input.
#[derive(Clone, Copy, Debug, PartialEq, Eq, Error)]
pub enum RunFault {
    /// The input ended inside a request; nothing was written for it.
    #[error("the input ended inside a request")]
    Truncated,
    /// The input could not be read: more than 2^40 bytes came, or the reader failed.
    #[error("{0}")]
    Read(ReadFault),
    /// The writer failed, or took no byte.
    #[error("the output could not be written")]
    Write,
    /// There was no memory: for the buffers, and nothing was read, handled or written; or for the requests of a batch, and
    /// nothing of it was handled.
    #[error("memory was refused for what is read")]
    NoMemory,
}

impl RunFault {
    /// The code by which it is reported: its number and its name.
    pub fn code(self) -> &'static str
        ensures coded { result.now ≡ run_code self }
    {
        match self {
            RunFault::Truncated => "603 Truncated",
            RunFault::Read(fault) => fault.code(),
            RunFault::Write => "606 Write",
            RunFault::NoMemory => "509 NoMemory",
        }
    }
}

impl From<ReadFault> for RunFault {
    ghost use Rattle.ash_serve.specs.declared.fault.RunFault.TheVariants as faults;

    ghost from_gives = { λ fault result. result ≡ faults.Read fault };

    fn from(fault: ReadFault) -> Self {
        RunFault::Read(fault)
    }
}

impl From<WriteFault> for RunFault {
    ghost use Rattle.ash_serve.specs.declared.fault.RunFault.TheVariants as faults;

    ghost from_gives = { λ _ fault. fault ≡ faults.Write };

    fn from(_: WriteFault) -> Self {
        RunFault::Write
    }
}

impl From<AllocError> for RunFault {
    ghost use Rattle.ash_serve.specs.declared.fault.RunFault.TheVariants as faults;

    ghost from_gives = { λ _ fault. fault ≡ faults.NoMemory };

    fn from(_: AllocError) -> Self {
        RunFault::NoMemory
    }
}
