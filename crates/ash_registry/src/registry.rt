//! What an embedding program registers.
ghost use Rattle.std.specs.Prelude.{◌≡◌, ◌≤◌, [], find, length, IfOk};
ghost use Rattle.std.specs.List.{filter_map};
ghost use Rattle.std.specs.Option.{option_copied, option_map};
ghost use Rattle.ash_registrations.specs.Registrations.{registration_of};
ghost use Rattle.ash_registrations.specs.Registrations as spec;
ghost use Rattle.ash_registrations.specs.Registered as table;
ghost use Rattle.ash_registrations.specs.Text.{text_of, max_registered_text_bytes};
ghost use Rattle.ash_registry.specs.RegistryViews.{registered};

use crate::Registration;
use ash_registrations::Registrations;
use std::alloc::{AllocError, Global};

/// What is registered, and the allocator with which declarations are read.
#[derive(Drop)]
pub struct Registry {
    pub(crate) alloc: Global,
    pub(crate) table: Registrations,
}

impl Registry {
    /// Nothing is registered.
    pub fn new(alloc: Global) -> Registry
        ensures empty { registered result ≡ [] }
    {
        Registry {
            alloc,
            table: Registrations::new(alloc),
        }
    }

    /// What is registered, for those who only look it up.
    pub fn registrations(&self) -> &Registrations
        ensures same { table.registered result.now ≡ registered self.now }
    {
        &self.table
    }

    /// One line for each accepted registration, in order: 1,048,576 bytes at most.
    pub fn text(&self) -> &str
        ensures lines { result.now ≡ text_of (registered self.now) }
        ensures short { length result.now ≤ max_registered_text_bytes }
    {
        self.table.text()
    }

    /// The type or function of a name, as it was registered.
    pub fn named(&self, name: &str) -> Option<&Registration>
        ensures by_name { option_map registration_of (option_copied result)
            ≡ find (spec.takes_name name.now) (registered self.now) }
    {
        self.table.named(name)
    }

    /// The method or property of a type by its name, as it was registered.
    pub fn member(&self, of: &str, name: &str) -> Option<&Registration>
        ensures by_name { option_map registration_of (option_copied result)
            ≡ find (spec.takes_member of.now name.now) (registered self.now) }
    {
        self.table.member(of, name)
    }

    /// The factory of a type, as it was registered.
    pub fn factory_of(&self, of: &str) -> Option<&Registration>
        ensures by_type { option_map registration_of (option_copied result)
            ≡ find (spec.is_factory_of of.now) (registered self.now) }
    {
        self.table.factory_of(of)
    }

    /// The type or service of a kind, as it was registered.
    pub fn of_kind(&self, kind: u16) -> Option<&Registration>
        ensures by_kind { option_map registration_of (option_copied result)
            ≡ find (spec.takes_kind kind) (registered self.now) }
    {
        self.table.of_kind(kind)
    }

    /// The kinds of the types that have a factory, in order of registration.
    pub fn object_kinds(&self) -> Result<Vec<u16>, AllocError>
        ensures in_order { IfOk result (λ kinds. kinds.items
            ≡ filter_map (spec.constructed_kind (registered self.now)) (registered self.now)) }
    {
        self.table.object_kinds()
    }

    /// The kinds of the services, in order of registration.
    pub fn service_kinds(&self) -> Result<Vec<u16>, AllocError>
        ensures in_order { IfOk result (λ kinds. kinds.items
            ≡ filter_map spec.service_kind (registered self.now)) }
    {
        self.table.service_kinds()
    }
}
