//! Why a registration is refused.
ghost use Rattle.std.specs.Prelude.{◌≡◌};
ghost use Rattle.ash_registry.specs.declared.fault.RegistryFault.TheVariants.{NoMemory};
ghost use Rattle.ash_registry.specs.Refusals.{code_of, fault_of};

use ash_registrations::AddFault;
use std::alloc::{AllocError, AllocFailed};
use thiserror::Error;

/// Why a registration is refused, in the order in which the causes are tested, but for memory.
#[derive(Clone, Copy, Debug, PartialEq, Eq, Error)]
pub enum RegistryFault {
    /// A type that isn't registered, as the argument or inside the declaration.
    #[error("the type is not registered")]
    UnknownType,
    /// No service of that index.
    #[error("no service has this number")]
    NoService,
    /// A declaration that isn't one of its kind, or a name that is none.
    #[error("the declaration is not one of its kind")]
    BadDeclaration,
    /// A name that is a word of the language.
    #[error("the name is a word of the language")]
    ReservedName,
    /// A parameter or result that isn't primitive.
    #[error("a parameter or the result is not of a primitive type")]
    NotPrimitive,
    /// A name, a kind or a number that is taken.
    #[error("the name, the kind or the number is taken")]
    NameTaken,
    /// A second factory of a type.
    #[error("the type has a factory")]
    FactoryTaken,
    /// One more than there may be.
    #[error("there are as many registrations of this sort as there may be")]
    TooMany,
    /// Memory ran out.
    #[error("memory was refused")]
    NoMemory,
}

impl RegistryFault {
    /// The code by which it is reported: its number and its name.
    pub fn code(self) -> &'static str
        ensures coded { result.now ≡ code_of self }
    {
        match self {
            RegistryFault::UnknownType => "203 UnknownType",
            RegistryFault::NoService => "208 NoService",
            RegistryFault::BadDeclaration => "201 BadDeclaration",
            RegistryFault::ReservedName => "204 ReservedName",
            RegistryFault::NotPrimitive => "206 NotPrimitive",
            RegistryFault::NameTaken => "202 NameTaken",
            RegistryFault::FactoryTaken => "207 FactoryTaken",
            RegistryFault::TooMany => "205 TooMany",
            RegistryFault::NoMemory => "509 NoMemory",
        }
    }
}

impl From<AllocError> for RegistryFault {
    ghost from_gives = { λ _ fault. fault ≡ NoMemory };

    fn from(_error: AllocError) -> RegistryFault {
        RegistryFault::NoMemory
    }
}

impl<T: Drop> From<AllocFailed<T>> for RegistryFault {
    ghost from_gives = { λ _ fault. fault ≡ NoMemory };

    fn from(_error: AllocFailed<T>) -> RegistryFault {
        RegistryFault::NoMemory
    }
}

impl From<AddFault> for RegistryFault {
    ghost from_gives = { λ added fault. fault ≡ fault_of added };

    fn from(fault: AddFault) -> RegistryFault {
        match fault {
            AddFault::TooLong => RegistryFault::TooMany,
            AddFault::NoMemory => RegistryFault::NoMemory,
        }
    }
}
