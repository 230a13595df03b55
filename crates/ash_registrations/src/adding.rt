//! One more registration.
ghost use Rattle.std.specs.Prelude.{◌≡◌, ℕ, List, false, string_bytes};
ghost use Rattle.std.specs.List.{list_any};
ghost use Rattle.std.specs.Str.{bytes_eq};
ghost use Rattle.ash_registrations.specs.Added.{IsAdded};
ghost use Rattle.ash_registrations.specs.Registrations.{registration_of, takes_name};
ghost use Rattle.ash_registrations.specs.Registered.{registered};
ghost use Rattle.ash_registrations.specs.declared.adding.AddFault.TheVariants.{NoMemory};

use crate::text::line;
use crate::{Registration, Registrations};
use std::alloc::{AllocError, AllocFailed};
use thiserror::Error;

/// The most bytes of the text.
const MAX_REGISTERED_TEXT_BYTES: usize = 1_048_576;

/// Why a registration is not added.
#[derive(Clone, Copy, Debug, PartialEq, Eq, Error)]
pub enum AddFault {
    /// The text has no room for its line.
    #[error("the text of the registrations has no room for another line")]
    TooLong,
    /// Memory ran out.
    #[error("memory was refused")]
    NoMemory,
}

impl From<AllocError> for AddFault {
    ghost from_gives = { λ _ fault. fault ≡ NoMemory };

    fn from(_error: AllocError) -> AddFault {
        AddFault::NoMemory
    }
}

impl<T: Drop> From<AllocFailed<T>> for AddFault {
    ghost from_gives = { λ _ fault. fault ≡ NoMemory };

    fn from(_error: AllocFailed<T>) -> AddFault {
        AddFault::NoMemory
    }
}

impl Registrations {
    /// Adds a registration that takes a name of a type or function, with that name.
    pub fn add_named(&mut self, registration: Registration, key: String) -> Result<(), AddFault>
        requires named { (name : List ℕ)
            → takes_name name (registration_of registration) ≡ bytes_eq name (string_bytes key) }
        requires free { list_any (takes_name (string_bytes key)) (registered self.old) ≡ false }
        ensures added { IsAdded (registration_of registration) result
            (registered self.old) (registered self.new) }
    {
        let added = line(self.alloc, &registration)?;
        if self.text.len() + added.len() > MAX_REGISTERED_TEXT_BYTES {
            return Err(AddFault::TooLong);
        }
        self.text.reserve(added.len())?;
        self.registrations.reserve(1)?;
        self.names.insert(key, self.registrations.len())?;
        self.registrations.push(registration).unwrap();
        self.text.push_str(added.as_str()).unwrap();
        Ok(())
    }

    /// Adds a registration that takes no name of a type or function.
    pub fn add(&mut self, registration: Registration) -> Result<(), AddFault>
        requires nameless { (name : List ℕ)
            → takes_name name (registration_of registration) ≡ false }
        ensures added { IsAdded (registration_of registration) result
            (registered self.old) (registered self.new) }
    {
        let line = line(self.alloc, &registration)?;
        if self.text.len() + line.len() > MAX_REGISTERED_TEXT_BYTES {
            return Err(AddFault::TooLong);
        }
        self.text.reserve(line.len())?;
        self.registrations.push(registration)?;
        self.text.push_str(line.as_str()).unwrap();
        Ok(())
    }
}
