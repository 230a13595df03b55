//! The calls that register functions of services.
ghost use Rattle.std.specs.Prelude.{◌≡◌, ◌||◌, false, [], ◌∷◌, Option};
ghost use Rattle.std.specs.Prelude.{count_by, nat_le, string_bytes};
ghost use Rattle.std.specs.List.{list_any};
ghost use Rattle.std.specs.Option.{option_map};
ghost use Rattle.ash_tree.specs.Tree.{Declaration as DeclarationTree};
ghost use Rattle.ash_tree.specs.TreeViews.{declaration_of, signature_of};
ghost use Rattle.ash_registrations.specs.Registrations.{FunctionRegistration, is_service};
ghost use Rattle.ash_registrations.specs.Registrations.{is_function};
ghost use Rattle.ash_registrations.specs.Registrations.{takes_function, takes_name};
ghost use Rattle.ash_registry.specs.declared.fault.RegistryFault.TheVariants.{NoService};
ghost use Rattle.ash_registry.specs.RegistryViews.{registered};
ghost use Rattle.ash_registry.specs.Refusals.{RegisteredIf, RefusedWithoutAllocating};
ghost use Rattle.ash_registry.specs.Refusals.{cause_of_many};
ghost use Rattle.ash_registry.specs.Refusals.{refusal_of_function, refusal_of_declared_function};
ghost use Rattle.ash_registry.specs.Refusals.{refusal_of_operation};
ghost use Rattle.ash_registry.specs.Refusals.{primitive_operation, function_registration};
ghost use Rattle.ash_registry.specs.Refusals.{max_registered_functions};
ghost use Rattle.ash_registry.specs.Texts.{IsDeclarationOf};

use crate::signatures::{names_object, operation};
use crate::texts::read_declaration;
use crate::{Registration, Registry, RegistryFault};
use ash_tree::{Declaration, Signature};

/// The most functions.
const MAX_REGISTERED_FUNCTIONS: usize = 256;

impl Registry {
    /// Registers a function of a service, as `int tally(int)`, by the service's index and the function's number.
    pub fn function(&mut self, service: u16, decl: &str, id: u16) -> Result<(), RegistryFault>
        ensures registers { (declared : Option DeclarationTree) → IsDeclarationOf decl.now declared
            → RegisteredIf (refusal_of_function (registered self.old) service id declared)
            (function_registration service id declared) result
            (registered self.old) (registered self.new) }
        ensures without_allocating { RefusedWithoutAllocating
            (nat_le (count_by is_service (registered self.old)) service) NoService result }
    {
        if self.table.services() <= service as usize {
            return Err(RegistryFault::NoService);
        }
        let declared = read_declaration(self.alloc, decl)?;
        self.function_of_declaration(service, declared, id)
    }

    fn function_of_declaration(
        &mut self,
        service: u16,
        declared: Option<Declaration>,
        id: u16,
    ) -> Result<(), RegistryFault>
        ensures registered { RegisteredIf
            (refusal_of_declared_function (registered self.old) service id
            (option_map declaration_of declared))
            (function_registration service id (option_map declaration_of declared)) result
            (registered self.old) (registered self.new) }
    {
        match declared {
            Some(Declaration::Function(signature)) => self.function_of_signature(
                service, signature, id,
            ),
            _ => Err(RegistryFault::BadDeclaration),
        }
    }

    // Whether a name is taken among types and functions, or a number among the functions of a service.
    fn takes_function_or_name(&self, name: &str, service: u16, id: u16) -> bool
        ensures value { result ≡ (list_any (takes_name name.now) (registered self.now)
            || list_any (takes_function service id) (registered self.now)) }
    {
        self.table.takes_name(name) || self.table.takes_function(service, id)
    }

    fn function_of_signature(
        &mut self,
        service: u16,
        signature: Signature,
        id: u16,
    ) -> Result<(), RegistryFault>
        ensures registered { RegisteredIf
            (refusal_of_operation (registered self.old) service id (signature_of signature))
            (FunctionRegistration service id (primitive_operation (signature_of signature)) ∷ [])
            result (registered self.old) (registered self.new) }
    {
        if self.names_unknown(&signature) {
            return Err(RegistryFault::UnknownType);
        }
        if names_object(&signature) {
            return Err(RegistryFault::NotPrimitive);
        }
        if self.takes_function_or_name(signature.name.as_str(), service, id) {
            return Err(RegistryFault::NameTaken);
        }
        self.add_function(service, signature, id)
    }

    fn add_function(
        &mut self,
        service: u16,
        signature: Signature,
        id: u16,
    ) -> Result<(), RegistryFault>
        requires name_free { list_any (takes_name (string_bytes signature.name))
            (registered self.old)
            ≡ false }
        ensures registered { RegisteredIf
            (cause_of_many
            (nat_le max_registered_functions (count_by is_function (registered self.old)))
            (registered self.old)
            (FunctionRegistration service id (primitive_operation (signature_of signature))))
            (FunctionRegistration service id (primitive_operation (signature_of signature)) ∷ [])
            result (registered self.old) (registered self.new) }
    {
        let key = signature.name.clone()?;
        let operation = operation(self.alloc, signature)?;
        let count = self.table.functions();
        let registration = Registration::Function {
            service,
            id,
            operation,
        };
        self.accept_named(registration, key, count, MAX_REGISTERED_FUNCTIONS)
    }
}
