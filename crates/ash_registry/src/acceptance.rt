//! A registration that is accepted, and added.
ghost use Rattle.std.specs.Prelude.{◌≡◌, ℕ, List, false, [], ◌∷◌, nat_le, string_bytes};
ghost use Rattle.std.specs.List.{list_any};
ghost use Rattle.ash_registrations.specs.Registrations.{registration_of, takes_name};
ghost use Rattle.std.specs.Str.{bytes_eq};
ghost use Rattle.ash_registry.specs.RegistryViews.{registered};
ghost use Rattle.ash_registry.specs.Refusals.{RegisteredIf, cause_of_many};

use crate::{Registration, Registry, RegistryFault};

impl Registry {
    // Adds a type or a function that nothing else refuses, with its name, to so many of at most `max`.
    pub(crate) fn accept_named(
        &mut self,
        registration: Registration,
        key: String,
        count: usize,
        max: usize,
    ) -> Result<(), RegistryFault>
        requires named { (name : List ℕ)
            → takes_name name (registration_of registration) ≡ bytes_eq name (string_bytes key) }
        requires free { list_any (takes_name (string_bytes key)) (registered self.old) ≡ false }
        ensures registered { RegisteredIf
            (cause_of_many (nat_le max count) (registered self.old) (registration_of registration))
            (registration_of registration ∷ []) result (registered self.old) (registered self.new) }
    {
        if count >= max {
            return Err(RegistryFault::TooMany);
        }
        self.table.add_named(registration, key)?;
        Ok(())
    }

    // Adds a registration that nothing else refuses, and that takes no name, to so many of at most `max`.
    pub(crate) fn accept(
        &mut self,
        registration: Registration,
        count: usize,
        max: usize,
    ) -> Result<(), RegistryFault>
        requires name_free { (name : List ℕ) → takes_name name (registration_of registration)
            ≡ false }
        ensures registered { RegisteredIf
            (cause_of_many (nat_le max count) (registered self.old) (registration_of registration))
            (registration_of registration ∷ []) result (registered self.old) (registered self.new) }
    {
        if count >= max {
            return Err(RegistryFault::TooMany);
        }
        self.add(registration)
    }

    // Adds a registration that nothing else refuses, and that takes no name of a type or function.
    pub(crate) fn add(&mut self, registration: Registration) -> Result<(), RegistryFault>
        requires name_free { (name : List ℕ) → takes_name name (registration_of registration)
            ≡ false }
        ensures registered { RegisteredIf
            (cause_of_many false (registered self.old) (registration_of registration))
            (registration_of registration ∷ []) result (registered self.old) (registered self.new) }
    {
        self.table.add(registration)?;
        Ok(())
    }
}
