//! The look-ups.
ghost use Rattle.std.specs.Prelude.{◌≡◌, ◌≤◌, ◌||◌, [], count_by, find, length, IfOk};
ghost use Rattle.std.specs.List.{list_any, filter_map};
ghost use Rattle.std.specs.Option.{option_copied, option_map};
ghost use Rattle.ash_registrations.specs.Registrations.{registration_of};
ghost use Rattle.ash_registrations.specs.Registrations as spec;
ghost use Rattle.ash_registrations.specs.Registered.{registered};
ghost use Rattle.ash_registrations.specs.Text.{text_of, max_registered_text_bytes};

use crate::searches::{
    any_is_factory_of, any_names_type, any_takes_function, any_takes_kind, any_takes_member,
    any_takes_method, any_takes_property, find_factory, find_kind, find_member, kinds_of_services,
    kinds_of_types, registration_at,
};
use crate::{Registration, Registrations};
use indexmap::IndexMap;
use std::alloc::{AllocError, Global};

impl Registrations {
    /// Nothing is registered.
    pub fn new(alloc: Global) -> Registrations
        ensures empty { registered result ≡ [] }
    {
        Registrations {
            alloc,
            registrations: Vec::new(alloc),
            names: IndexMap::new(alloc),
            text: String::new(alloc),
        }
    }

    /// One line for each accepted registration, in order: 1,048,576 bytes at most.
    pub fn text(&self) -> &str
        ensures lines { result.now ≡ text_of (registered self.now) }
        ensures short { length result.now ≤ max_registered_text_bytes }
    {
        self.text.as_str()
    }

    /// The type or function of a name, as it was registered.
    pub fn named(&self, name: &str) -> Option<&Registration>
        ensures by_name { option_map registration_of (option_copied result)
            ≡ find (spec.takes_name name.now) (registered self.now) }
    {
        let at = self.names.get(name)?;
        registration_at(&self.registrations, *at)
    }

    /// The method or property of a type by its name, as it was registered.
    #[tactic(auto, using(crate::proofs::Mapped::find_mapped))]
    pub fn member(&self, of: &str, name: &str) -> Option<&Registration>
        ensures by_name { option_map registration_of (option_copied result)
            ≡ find (spec.takes_member of.now name.now) (registered self.now) }
    {
        find_member(&self.registrations, of, name)
    }

    /// The factory of a type, as it was registered.
    #[tactic(auto, using(crate::proofs::Mapped::find_mapped))]
    pub fn factory_of(&self, of: &str) -> Option<&Registration>
        ensures by_type { option_map registration_of (option_copied result)
            ≡ find (spec.is_factory_of of.now) (registered self.now) }
    {
        find_factory(&self.registrations, of)
    }

    /// The type or service of a kind, as it was registered.
    #[tactic(auto, using(crate::proofs::Mapped::find_mapped))]
    pub fn of_kind(&self, kind: u16) -> Option<&Registration>
        ensures by_kind { option_map registration_of (option_copied result)
            ≡ find (spec.takes_kind kind) (registered self.now) }
    {
        find_kind(&self.registrations, kind)
    }

    /// The kinds of the services, in order of registration.
    #[tactic(auto, using(crate::proofs::Mapped::filter_mapped))]
    pub fn service_kinds(&self) -> Result<Vec<u16>, AllocError>
        ensures in_order { IfOk result (λ kinds. kinds.items
            ≡ filter_map spec.service_kind (registered self.now)) }
    {
        kinds_of_services(self.alloc, &self.registrations)
    }

    /// The kinds of the types that have a factory, in order of registration.
    #[tactic(auto, using(crate::proofs::Mapped::filter_mapped))]
    pub fn object_kinds(&self) -> Result<Vec<u16>, AllocError>
        ensures in_order { IfOk result (λ kinds. kinds.items
            ≡ filter_map (spec.constructed_kind (registered self.now)) (registered self.now)) }
    {
        kinds_of_types(self.alloc, &self.registrations)
    }

    /// Whether a type of this name is registered.
    #[tactic(auto, using(crate::proofs::Mapped::any_mapped))]
    pub fn knows(&self, name: &str) -> bool
        ensures type_named { result ≡ list_any (spec.names_type name.now) (registered self.now) }
    {
        any_names_type(&self.registrations, name)
    }

    /// Whether a name is taken among types and functions.
    pub fn takes_name(&self, name: &str) -> bool
        ensures name { result ≡ list_any (spec.takes_name name.now) (registered self.now) }
    {
        self.names.contains_key(name)
    }

    /// Whether a type or a service has this kind.
    #[tactic(auto, using(crate::proofs::Mapped::any_mapped))]
    pub fn takes_kind(&self, kind: u16) -> bool
        ensures kind { result ≡ list_any (spec.takes_kind kind) (registered self.now) }
    {
        any_takes_kind(&self.registrations, kind)
    }

    /// Whether a type has a factory.
    #[tactic(auto, using(crate::proofs::Mapped::any_mapped))]
    pub fn has_factory(&self, of: &str) -> bool
        ensures factory { result ≡ list_any (spec.is_factory_of of.now) (registered self.now) }
    {
        any_is_factory_of(&self.registrations, of)
    }

    /// Whether a name is taken among the members of a type.
    #[tactic(auto, using(crate::proofs::Mapped::any_mapped))]
    pub fn takes_member(&self, of: &str, name: &str) -> bool
        ensures member_name { result
            ≡ list_any (spec.takes_member of.now name.now) (registered self.now) }
    {
        any_takes_member(&self.registrations, of, name)
    }

    /// Whether a number is taken among the methods of a type.
    #[tactic(auto, using(crate::proofs::Mapped::any_mapped))]
    pub fn takes_method(&self, of: &str, id: u16) -> bool
        ensures method_number { result
            ≡ list_any (spec.takes_method of.now id) (registered self.now) }
    {
        any_takes_method(&self.registrations, of, id)
    }

    /// Whether a name is taken among the members of a type, or a number among its methods.
    pub fn takes_method_or_name(&self, of: &str, name: &str, id: u16) -> bool
        ensures either { result
            ≡ (list_any (spec.takes_member of.now name.now) (registered self.now)
            || list_any (spec.takes_method of.now id) (registered self.now)) }
    {
        self.takes_member(of, name) || self.takes_method(of, id)
    }

    /// Whether a number is taken among the properties of a type.
    #[tactic(auto, using(crate::proofs::Mapped::any_mapped))]
    pub fn takes_property(&self, of: &str, id: u16) -> bool
        ensures property_number { result
            ≡ list_any (spec.takes_property of.now id) (registered self.now) }
    {
        any_takes_property(&self.registrations, of, id)
    }

    /// Whether a number is taken among the functions of a service.
    #[tactic(auto, using(crate::proofs::Mapped::any_mapped))]
    pub fn takes_function(&self, service: u16, id: u16) -> bool
        ensures function_number { result
            ≡ list_any (spec.takes_function service id) (registered self.now) }
    {
        any_takes_function(&self.registrations, service, id)
    }

    /// How many types there are.
    pub fn types(&self) -> usize
        ensures count { result ≡ count_by spec.is_type (registered self.now) }
    {
        self.registrations
            .iter()
            .filter(|registration| registration.is_type())
            .count()
    }

    /// How many services there are.
    pub fn services(&self) -> usize
        ensures count { result ≡ count_by spec.is_service (registered self.now) }
    {
        self.registrations
            .iter()
            .filter(|registration| registration.is_service())
            .count()
    }

    /// How many functions there are.
    pub fn functions(&self) -> usize
        ensures count { result ≡ count_by spec.is_function (registered self.now) }
    {
        self.registrations
            .iter()
            .filter(|registration| registration.is_function())
            .count()
    }

    /// How many methods and properties a type has.
    pub fn members_of(&self, of: &str) -> usize
        ensures count { result ≡ count_by (spec.is_member_of of.now) (registered self.now) }
    {
        self.registrations
            .iter()
            .filter(|registration| registration.is_member_of(of))
            .count()
    }
}
