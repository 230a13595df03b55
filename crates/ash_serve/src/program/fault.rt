//! Why the program ends with another status than 0, and what it writes of that.

ghost use Rattle.std.specs.Prelude.{◌≡◌};
ghost use Rattle.ash_serve.specs.Program.{code_of, status_of};

use crate::fault::RunFault;
use ash_durable::{OpenRefused, StoreFault};
use ash_lines::sink::WriteFault;
use ash_lines::source::ReadFault;
use ash_registry::RegistryFault;
use std::alloc::{AllocError, AllocFailed};
use thiserror::Error;

/// Why the program ends with another status than 0.
#[derive(Debug, Drop, Error)]
pub enum ProgramFault {
    /// The words ask for nothing that the program does.
    #[error("the words ask for nothing that the program does")]
    Usage,
    /// Memory was refused before the run.
    #[error("memory was refused before the run")]
    NoMemory,
    /// What the program offers to scripts was not registered.
    #[error("{0}")]
    Registry(RegistryFault),
    /// The store was not made or not opened. Its files are part of it.
    #[error("{0}")]
    Store(StoreFault),
    /// The run ended by a fault.
    #[error("{0}")]
    Run(RunFault),
}

impl ProgramFault {
    /// What the program writes of it: its number and its name; for wrong words, `usage`.
    pub fn code(&self) -> &'static str
        ensures coded { result.now ≡ code_of self.now }
    {
        match self {
            ProgramFault::Usage => "usage",
            ProgramFault::NoMemory => "509 NoMemory",
            ProgramFault::Registry(fault) => fault.code(),
            ProgramFault::Store(fault) => fault.code(),
            ProgramFault::Run(fault) => fault.code(),
        }
    }

    /// The status that the program ends with: 2 for wrong words, 1 for any other fault.
    pub fn status(&self) -> u8
        ensures status { result ≡ status_of self.now }
    {
        match self {
            ProgramFault::Usage => 2,
            ProgramFault::NoMemory
            | ProgramFault::Registry(_)
            | ProgramFault::Store(_)
            | ProgramFault::Run(_) => 1,
        }
    }
}

impl From<AllocError> for ProgramFault {
    ghost use Rattle.ash_serve.specs.declared.program.fault.ProgramFault.TheVariants as faults;

    ghost from_gives = { λ _ fault. fault ≡ faults.NoMemory };

    fn from(_: AllocError) -> Self {
        ProgramFault::NoMemory
    }
}

// What there was no memory for is given up.
impl<T: Drop> From<AllocFailed<T>> for ProgramFault {
    ghost use Rattle.ash_serve.specs.declared.program.fault.ProgramFault.TheVariants as faults;

    ghost from_gives = { λ _ fault. fault ≡ faults.NoMemory };

    fn from(_: AllocFailed<T>) -> Self {
        ProgramFault::NoMemory
    }
}

impl From<ReadFault> for ProgramFault {
    ghost use Rattle.ash_serve.specs.declared.fault.RunFault.TheVariants as run;
    ghost use Rattle.ash_serve.specs.declared.program.fault.ProgramFault.TheVariants as faults;

    ghost from_gives = { λ fault result. result ≡ faults.Run (run.Read fault) };

    fn from(fault: ReadFault) -> Self {
        ProgramFault::Run(RunFault::Read(fault))
    }
}

impl From<WriteFault> for ProgramFault {
    ghost use Rattle.ash_serve.specs.declared.fault.RunFault.TheVariants as run;
    ghost use Rattle.ash_serve.specs.declared.program.fault.ProgramFault.TheVariants as faults;

    ghost from_gives = { λ _ result. result ≡ faults.Run run.Write };

    fn from(_: WriteFault) -> Self {
        ProgramFault::Run(RunFault::Write)
    }
}

impl From<RegistryFault> for ProgramFault {
    fn from(fault: RegistryFault) -> Self {
        match fault {
            RegistryFault::NoMemory => ProgramFault::NoMemory,
            fault => ProgramFault::Registry(fault),
        }
    }
}

impl<D: Drop> From<OpenRefused<D>> for ProgramFault {
    fn from(refused: OpenRefused<D>) -> Self {
        ProgramFault::Store(refused.fault)
    }
}
