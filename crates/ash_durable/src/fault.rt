//! Why a store is not made or not opened.

use ash_journal::{CreateFault, OpenFault};
use ash_replay::ReplayFault;
use thiserror::Error;

/// Why a store is not made or not opened: the fault of its journal, whole, or one of its own.
#[derive(Clone, Copy, Debug, PartialEq, Eq, Error)]
pub enum StoreFault {
    /// The store is not made.
    #[error("{0}")]
    Create(CreateFault),
    /// The store is not opened: its files are not those of a store, memory was refused, or a device failed while the
    /// files were read, while gates that a crash left were written over, or while a new generation was written. Damage
    /// may also be that bytes of a journal are none of a state, or none of one that a host with the registry may be in.
    /// Its offset, in bytes, is that of the gate before the record that is damaged, or 0 for what is before the first
    /// record.
    #[error("{0}")]
    Open(OpenFault),
    /// The store was made with another text of registrations: with others, or with the same ones in another order.
    #[error("the store was made with another registration")]
    OtherInterface,
    /// The store is of version 1, and its generation is the last that a number can have: there is none for a generation
    /// of version 2.
    #[error("the store is of version 1, and no generation is left for one of version 2")]
    GenerationSpent,
    /// Too few boxes of a kind were handed over: no service of it is in its place, or no free box of it is left.
    #[error("there are too few boxes of kind {0}")]
    PoolShort(u16),
    /// The host object of a number does not take the state that is stored; a service, where the number is 0.
    #[error("the host object {0} does not take its state")]
    RestoreRefused(u64),
}

impl StoreFault {
    ghost use Rattle.std.specs.Prelude.{◌≡◌};
    ghost use Rattle.ash_durable.specs.StoreFaults.{code_of};

    /// The code by which it is reported: its number and its name, without an offset, a kind or the number of an object.
    pub fn code(self) -> &'static str
        ensures coded { result.now ≡ code_of self }
    {
        match self {
            StoreFault::Create(fault) => fault.code(),
            StoreFault::Open(fault) => fault.code(),
            StoreFault::OtherInterface => "504 OtherInterface",
            StoreFault::GenerationSpent => "511 GenerationSpent",
            StoreFault::PoolShort(_) => "505 PoolShort",
            StoreFault::RestoreRefused(_) => "506 RestoreRefused",
        }
    }
}

impl From<CreateFault> for StoreFault {
    ghost use Rattle.std.specs.Prelude.{◌≡◌};
    ghost use Rattle.ash_durable.specs.declared.fault.StoreFault.TheVariants as faults;

    ghost from_gives = { λ fault result. result ≡ faults.Create fault };

    fn from(fault: CreateFault) -> Self {
        StoreFault::Create(fault)
    }
}

impl From<OpenFault> for StoreFault {
    ghost use Rattle.std.specs.Prelude.{◌≡◌};
    ghost use Rattle.ash_durable.specs.declared.fault.StoreFault.TheVariants as faults;

    ghost from_gives = { λ fault result. result ≡ faults.Open fault };

    fn from(fault: OpenFault) -> Self {
        StoreFault::Open(fault)
    }
}

impl From<ReplayFault> for StoreFault {
    ghost use Rattle.std.specs.Prelude.{◌≡◌};
    ghost use Rattle.ash_durable.specs.StoreFaults.{fault_of_reading};

    ghost from_gives = { λ fault result. result ≡ fault_of_reading fault };

    fn from(fault: ReplayFault) -> Self {
        match fault {
            ReplayFault::Damaged(offset) => StoreFault::Open(OpenFault::Damaged(offset)),
            ReplayFault::OtherInterface => StoreFault::OtherInterface,
            ReplayFault::NoMemory => StoreFault::Open(OpenFault::NoMemory),
        }
    }
}

/// A refused `create` or `open`, which hands both disks back. The registry and the boxes are dropped.
#[derive(Drop)]
pub struct OpenRefused<D> {
    pub fault: StoreFault,
    pub a: D,
    pub b: D,
}
