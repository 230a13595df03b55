//! The calls that register types and services, and members of types.
ghost use Rattle.std.specs.Prelude.{◌≡◌, [], ◌∷◌, Option, Some, count_by};
ghost use Rattle.std.specs.Prelude.{map, nat_le, not, string_bytes};
ghost use Rattle.std.specs.Prelude.{IfOk};
ghost use Rattle.std.specs.List.{filter_map, list_any};
ghost use Rattle.std.specs.Option.{option_map};
ghost use Rattle.ash_tree.specs.Tree.{Declaration as DeclarationTree};
ghost use Rattle.ash_tree.specs.TreeViews.{declaration_of, signature_of, type_of};
ghost use Rattle.ash_registrations.specs.Registrations.{TypeRegistration, FactoryRegistration};
ghost use Rattle.ash_registrations.specs.Registrations.{MethodRegistration};
ghost use Rattle.ash_registrations.specs.Registrations.{PropertyRegistration, ServiceRegistration};
ghost use Rattle.ash_registrations.specs.Registrations.{is_member_of};
ghost use Rattle.ash_registrations.specs.Registrations.{is_service, takes_kind};
ghost use Rattle.ash_registry.specs.declared.fault.RegistryFault.TheVariants.{BadDeclaration};
ghost use Rattle.ash_registry.specs.declared.fault.RegistryFault.TheVariants.{NameTaken};
ghost use Rattle.ash_registry.specs.declared.fault.RegistryFault.TheVariants.{UnknownType};
ghost use Rattle.ash_registry.specs.declared.fault.RegistryFault.TheVariants.{NotPrimitive};
ghost use Rattle.ash_registry.specs.RegistryViews.{registered};
ghost use Rattle.ash_registry.specs.Refusals.{RegisteredIf, RefusedWithoutAllocating};
ghost use Rattle.ash_registry.specs.Refusals.{cause, cause_of_many};
ghost use Rattle.ash_registry.specs.Refusals.{refusal_of_type, refusal_of_service};
ghost use Rattle.ash_registry.specs.Refusals.{refusal_of_method};
ghost use Rattle.ash_registry.specs.Refusals.{refusal_of_declared_method, refusal_of_signature};
ghost use Rattle.ash_registry.specs.Refusals.{refusal_of_property};
ghost use Rattle.ash_registry.specs.Refusals.{refusal_of_declared_property, refusal_of_primitive};
ghost use Rattle.ash_registry.specs.Refusals.{refusal_of_value};
ghost use Rattle.ash_registry.specs.Refusals.{is_known, primitive_of, is_unknown};
ghost use Rattle.ash_registry.specs.Refusals.{refusal_of_factory};
ghost use Rattle.ash_registry.specs.Refusals.{refusal_of_declared_factory, refusal_of_constructor};
ghost use Rattle.ash_registry.specs.Refusals.{gives_handle_of};
ghost use Rattle.ash_registry.specs.Refusals.{primitive_operation, method_registration};
ghost use Rattle.ash_registry.specs.Refusals.{property_registration};
ghost use Rattle.ash_registry.specs.Refusals.{value_registration, factory_registration};
ghost use Rattle.ash_registry.specs.Refusals.{max_registered_members};
ghost use Rattle.ash_registry.specs.NameClasses.{name_class_of};
ghost use Rattle.ash_registry.specs.Texts.{NameText, HasNameClass, IsDeclarationOf};
ghost use Rattle.ash_registry.specs.Texts as spec;

use crate::signatures::{gives_handle, has_object, names_object, operation, primitives};
use crate::texts::{NameClass, read_declaration, read_name};
use crate::{Registration, Registry, RegistryFault};
use ash_tree::{Declaration, Primitive, Property, Signature, Type, TypeKind};

/// The most types.
const MAX_REGISTERED_TYPES: usize = 256;

/// The most methods and properties of a type.
const MAX_REGISTERED_MEMBERS: usize = 32;

/// The most services.
const MAX_SERVICES: usize = 16;

impl Registry {
    /// Registers a type of host objects by its name and the number of its kind.
    pub fn object_type(&mut self, name: &str, kind: u16) -> Result<(), RegistryFault>
        ensures registers { (class : spec.NameClass) → HasNameClass name.now class
            → RegisteredIf (refusal_of_type (registered self.old) name.now class kind)
            (TypeRegistration name.now kind ∷ []) result
            (registered self.old) (registered self.new) }
    {
        let name_class = read_name(self.alloc, name)?;
        self.classified_type(name, name_class, kind)
    }

    fn classified_type(
        &mut self,
        name: &str,
        name_class: NameClass,
        kind: u16,
    ) -> Result<(), RegistryFault>
        ensures registered { RegisteredIf
            (refusal_of_type (registered self.old) name.now (name_class_of name_class) kind)
            (TypeRegistration name.now kind ∷ []) result
            (registered self.old) (registered self.new) }
    {
        match name_class {
            NameClass::Name => self.named_type(name, kind),
            NameClass::Reserved => Err(RegistryFault::ReservedName),
            NameClass::Other => Err(RegistryFault::BadDeclaration),
        }
    }

    fn named_type(&mut self, name: &str, kind: u16) -> Result<(), RegistryFault>
        ensures registered { RegisteredIf (refusal_of_type (registered self.old) name.now NameText
            kind)
            (TypeRegistration name.now kind ∷ []) result
            (registered self.old) (registered self.new) }
    {
        if self.table.takes_name(name) || self.table.takes_kind(kind) {
            return Err(RegistryFault::NameTaken);
        }
        let key = name.to_string(self.alloc)?;
        let name = name.to_string(self.alloc)?;
        let count = self.table.types();
        self.accept_named(
            Registration::Type { name, kind },
            key,
            count,
            MAX_REGISTERED_TYPES,
        )
    }

    /// Registers a service of a kind. The answer is its index.
    pub fn service(&mut self, kind: u16) -> Result<usize, RegistryFault>
        ensures index { IfOk result (λ index. index ≡ count_by is_service (registered self.old)) }
        ensures registers { RegisteredIf (refusal_of_service (registered self.old) kind)
            (ServiceRegistration kind ∷ []) result (registered self.old) (registered self.new) }
        ensures without_allocating { RefusedWithoutAllocating
            (list_any (takes_kind kind) (registered self.old)) NameTaken result }
    {
        if self.table.takes_kind(kind) {
            return Err(RegistryFault::NameTaken);
        }
        let index = self.table.services();
        self.accept(Registration::Service { kind }, index, MAX_SERVICES)?;
        Ok(index)
    }

    /// Registers a method of a type, as `int add(int)`, by its number.
    pub fn method(&mut self, of: &str, decl: &str, id: u16) -> Result<(), RegistryFault>
        ensures registers { (declared : Option DeclarationTree) → IsDeclarationOf decl.now declared
            → RegisteredIf (refusal_of_method (registered self.old) of.now id declared)
            (method_registration of.now id declared) result
            (registered self.old) (registered self.new) }
        ensures without_allocating { RefusedWithoutAllocating
            (not (is_known (registered self.old) of.now)) UnknownType result }
    {
        if !self.table.knows(of) {
            return Err(RegistryFault::UnknownType);
        }
        let declared = read_declaration(self.alloc, decl)?;
        self.method_of_declaration(of, declared, id)
    }

    fn method_of_declaration(
        &mut self,
        of: &str,
        declared: Option<Declaration>,
        id: u16,
    ) -> Result<(), RegistryFault>
        ensures registered { RegisteredIf
            (refusal_of_declared_method (registered self.old) of.now id
            (option_map declaration_of declared))
            (method_registration of.now id (option_map declaration_of declared)) result
            (registered self.old) (registered self.new) }
    {
        match declared {
            Some(Declaration::Function(signature)) => self.method_of_signature(of, signature, id),
            _ => Err(RegistryFault::BadDeclaration),
        }
    }

    fn method_of_signature(
        &mut self,
        of: &str,
        signature: Signature,
        id: u16,
    ) -> Result<(), RegistryFault>
        ensures registered { RegisteredIf
            (refusal_of_signature (registered self.old) of.now id (signature_of signature))
            (MethodRegistration of.now id (primitive_operation (signature_of signature)) ∷ [])
            result (registered self.old) (registered self.new) }
    {
        if self.names_unknown(&signature) {
            return Err(RegistryFault::UnknownType);
        }
        if names_object(&signature) {
            return Err(RegistryFault::NotPrimitive);
        }
        if self
            .table
            .takes_method_or_name(of, signature.name.as_str(), id)
        {
            return Err(RegistryFault::NameTaken);
        }
        self.add_method(of, signature, id)
    }

    fn add_method(&mut self, of: &str, signature: Signature, id: u16) -> Result<(), RegistryFault>
        ensures registered { RegisteredIf
            (cause_of_many
            (nat_le max_registered_members (count_by (is_member_of of.now) (registered self.old)))
            (registered self.old)
            (MethodRegistration of.now id (primitive_operation (signature_of signature))))
            (MethodRegistration of.now id (primitive_operation (signature_of signature)) ∷ [])
            result (registered self.old) (registered self.new) }
    {
        let operation = operation(self.alloc, signature)?;
        let of = of.to_string(self.alloc)?;
        let count = self.table.members_of(of.as_str());
        self.accept(
            Registration::Method { of, id, operation },
            count,
            MAX_REGISTERED_MEMBERS,
        )
    }

    /// Registers a property of a type, as `int value`, by its number.
    pub fn property(&mut self, of: &str, decl: &str, id: u16) -> Result<(), RegistryFault>
        ensures registers { (declared : Option DeclarationTree) → IsDeclarationOf decl.now declared
            → RegisteredIf (refusal_of_property (registered self.old) of.now id declared)
            (property_registration of.now id declared) result
            (registered self.old) (registered self.new) }
        ensures without_allocating { RefusedWithoutAllocating
            (not (is_known (registered self.old) of.now)) UnknownType result }
    {
        if !self.table.knows(of) {
            return Err(RegistryFault::UnknownType);
        }
        let declared = read_declaration(self.alloc, decl)?;
        self.property_of_declaration(of, declared, id)
    }

    fn property_of_declaration(
        &mut self,
        of: &str,
        declared: Option<Declaration>,
        id: u16,
    ) -> Result<(), RegistryFault>
        ensures registered { RegisteredIf
            (refusal_of_declared_property (registered self.old) of.now id
            (option_map declaration_of declared))
            (property_registration of.now id (option_map declaration_of declared)) result
            (registered self.old) (registered self.new) }
    {
        match declared {
            Some(Declaration::Property(property)) => self.property_of_type(of, property, id),
            _ => Err(RegistryFault::BadDeclaration),
        }
    }

    fn property_of_type(
        &mut self,
        of: &str,
        property: Property,
        id: u16,
    ) -> Result<(), RegistryFault>
        ensures registered { RegisteredIf
            (refusal_of_value (registered self.old) of.now id (type_of property.of)
            (string_bytes property.name))
            (value_registration of.now id (type_of property.of) (string_bytes property.name)) result
            (registered self.old) (registered self.new) }
    {
        let Property {
            place: _,
            of: value,
            name,
        } = property;
        match value.kind {
            TypeKind::Primitive(value) => self.primitive_property(of, value, name, id),
            _ => Err(self.fault_of_object(&value)),
        }
    }

    // The fault of a property of an object type.
    fn fault_of_object(&self, of: &Type) -> RegistryFault
        ensures value { Some result
            ≡ cause (is_unknown (registered self.now) (type_of of.now)) UnknownType
            (Some NotPrimitive) }
    {
        if self.is_unknown(of) {
            RegistryFault::UnknownType
        } else {
            RegistryFault::NotPrimitive
        }
    }

    fn primitive_property(
        &mut self,
        of: &str,
        value: Primitive,
        name: String,
        id: u16,
    ) -> Result<(), RegistryFault>
        ensures registered { RegisteredIf
            (refusal_of_primitive (registered self.old) of.now id value (string_bytes name))
            (PropertyRegistration of.now id value (string_bytes name) ∷ [])
            result (registered self.old) (registered self.new) }
    {
        if self.table.takes_member(of, name.as_str()) || self.table.takes_property(of, id) {
            return Err(RegistryFault::NameTaken);
        }
        let of = of.to_string(self.alloc)?;
        let count = self.table.members_of(of.as_str());
        let registration = Registration::Property {
            of,
            id,
            value,
            name,
        };
        self.accept(registration, count, MAX_REGISTERED_MEMBERS)
    }

    /// Registers the factory of a type, as `T@ make(int)`. Its name is ignored.
    pub fn factory(&mut self, of: &str, decl: &str) -> Result<(), RegistryFault>
        ensures registers { (declared : Option DeclarationTree) → IsDeclarationOf decl.now declared
            → RegisteredIf (refusal_of_factory (registered self.old) of.now declared)
            (factory_registration of.now declared) result
            (registered self.old) (registered self.new) }
        ensures without_allocating { RefusedWithoutAllocating
            (not (is_known (registered self.old) of.now)) UnknownType result }
    {
        if !self.table.knows(of) {
            return Err(RegistryFault::UnknownType);
        }
        let declared = read_declaration(self.alloc, decl)?;
        self.factory_of_declaration(of, declared)
    }

    fn factory_of_declaration(
        &mut self,
        of: &str,
        declared: Option<Declaration>,
    ) -> Result<(), RegistryFault>
        ensures registered { RegisteredIf
            (refusal_of_declared_factory (registered self.old) of.now
            (option_map declaration_of declared))
            (factory_registration of.now (option_map declaration_of declared)) result
            (registered self.old) (registered self.new) }
    {
        match declared {
            Some(Declaration::Function(signature)) => self.factory_of_signature(of, signature),
            _ => Err(RegistryFault::BadDeclaration),
        }
    }

    fn factory_of_signature(&mut self, of: &str, signature: Signature) -> Result<(), RegistryFault>
        ensures registered { RegisteredIf
            (cause (not (gives_handle_of of.now (signature_of signature).result)) BadDeclaration
            (refusal_of_constructor (registered self.old) of.now
            (signature_of signature).parameters))
            (FactoryRegistration of.now
            (filter_map primitive_of (signature_of signature).parameters) ∷ [])
            result (registered self.old) (registered self.new) }
    {
        if !gives_handle(&signature.result, of) {
            return Err(RegistryFault::BadDeclaration);
        }
        self.constructor(of, &signature.parameters)
    }

    #[tactic(auto, using(ash_registrations::proofs::Mapped::any_mapped, ash_registrations::proofs::Mapped::filter_mapped))]
    fn constructor(&mut self, of: &str, parameters: &[Type]) -> Result<(), RegistryFault>
        ensures registered { RegisteredIf
            (refusal_of_constructor (registered self.old) of.now (map type_of parameters.now))
            (FactoryRegistration of.now (filter_map primitive_of (map type_of parameters.now)) ∷ [])
            result (registered self.old) (registered self.new) }
    {
        if self.any_unknown(parameters) {
            return Err(RegistryFault::UnknownType);
        }
        if has_object(parameters) {
            return Err(RegistryFault::NotPrimitive);
        }
        if self.table.has_factory(of) {
            return Err(RegistryFault::FactoryTaken);
        }
        let parameters = primitives(self.alloc, parameters)?;
        let of = of.to_string(self.alloc)?;
        self.add(Registration::Factory { of, parameters })
    }
}
