//! One accepted registration, and what it takes.
ghost use Rattle.std.specs.Prelude.{◌≡◌};
ghost use Rattle.ash_registrations.specs.Registrations.{registration_of};
ghost use Rattle.ash_registrations.specs.Registrations as spec;

use ash_tree::Primitive;

/// A function of primitives: a method of a type or a function of a service. Without a result it is `void`.
#[derive(Debug, PartialEq, Eq, Drop)]
pub struct HostFunction {
    pub name: String,
    pub result: Option<Primitive>,
    pub parameters: Vec<Primitive>,
}

/// An accepted registration.
#[derive(Debug, PartialEq, Eq, Drop)]
pub enum Registration {
    Type {
        name: String,
        kind: u16,
    },
    Factory {
        of: String,
        parameters: Vec<Primitive>,
    },
    Method {
        of: String,
        id: u16,
        operation: HostFunction,
    },
    Property {
        of: String,
        id: u16,
        value: Primitive,
        name: String,
    },
    Service {
        kind: u16,
    },
    Function {
        service: u16,
        id: u16,
        operation: HostFunction,
    },
}

impl Registration {
    pub(crate) fn is_type(&self) -> bool
        ensures value { result ≡ spec.is_type (registration_of self.now) }
    {
        matches!(self, Registration::Type { .. })
    }

    pub(crate) fn names_type(&self, of: &str) -> bool
        ensures value { result ≡ spec.names_type of.now (registration_of self.now) }
    {
        match self {
            Registration::Type { name, .. } => of == name.as_str(),
            _ => false,
        }
    }

    pub(crate) fn takes_kind(&self, of: u16) -> bool
        ensures value { result ≡ spec.takes_kind of (registration_of self.now) }
    {
        match self {
            Registration::Type { kind, .. } | Registration::Service { kind } => of == *kind,
            _ => false,
        }
    }

    pub(crate) fn takes_name(&self, wanted: &str) -> bool
        ensures value { result ≡ spec.takes_name wanted.now (registration_of self.now) }
    {
        match self {
            Registration::Type { name, .. } => wanted == name.as_str(),
            Registration::Function { operation, .. } => wanted == operation.name.as_str(),
            _ => false,
        }
    }

    pub(crate) fn is_factory_of(&self, wanted: &str) -> bool
        ensures value { result ≡ spec.is_factory_of wanted.now (registration_of self.now) }
    {
        match self {
            Registration::Factory { of, .. } => wanted == of.as_str(),
            _ => false,
        }
    }

    pub(crate) fn is_member_of(&self, wanted: &str) -> bool
        ensures value { result ≡ spec.is_member_of wanted.now (registration_of self.now) }
    {
        match self {
            Registration::Method { of, .. } | Registration::Property { of, .. } => wanted
                == of.as_str(),
            _ => false,
        }
    }

    pub(crate) fn takes_member(&self, owner: &str, wanted: &str) -> bool
        ensures value { result ≡ spec.takes_member owner.now wanted.now (registration_of self.now) }
    {
        match self {
            Registration::Method { of, operation, .. } => {
                owner == of.as_str() && wanted == operation.name.as_str()
            }
            Registration::Property { of, name, .. } => owner == of.as_str()
                && wanted == name.as_str(),
            _ => false,
        }
    }

    pub(crate) fn takes_method(&self, owner: &str, wanted: u16) -> bool
        ensures value { result ≡ spec.takes_method owner.now wanted (registration_of self.now) }
    {
        match self {
            Registration::Method { of, id, .. } => owner == of.as_str() && wanted == *id,
            _ => false,
        }
    }

    pub(crate) fn takes_property(&self, owner: &str, wanted: u16) -> bool
        ensures value { result ≡ spec.takes_property owner.now wanted (registration_of self.now) }
    {
        match self {
            Registration::Property { of, id, .. } => owner == of.as_str() && wanted == *id,
            _ => false,
        }
    }

    pub(crate) fn takes_function(&self, of: u16, wanted: u16) -> bool
        ensures value { result ≡ spec.takes_function of wanted (registration_of self.now) }
    {
        match self {
            Registration::Function { service, id, .. } => of == *service && wanted == *id,
            _ => false,
        }
    }

    pub(crate) fn is_service(&self) -> bool
        ensures value { result ≡ spec.is_service (registration_of self.now) }
    {
        matches!(self, Registration::Service { .. })
    }

    pub(crate) fn is_function(&self) -> bool
        ensures value { result ≡ spec.is_function (registration_of self.now) }
    {
        matches!(self, Registration::Function { .. })
    }

    /// The kind of a service.
    #[tactic(auto, unfolding(crate::specs::Registrations::service_kind))]
    pub(crate) fn service_kind(&self) -> Option<u16>
        ensures value { result ≡ spec.service_kind (registration_of self.now) }
    {
        match self {
            Registration::Service { kind } => Some(*kind),
            _ => None,
        }
    }
}
