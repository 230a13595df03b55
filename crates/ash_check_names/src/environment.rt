//! The environment of an expression, and what its names mean in it.

ghost use Rattle.std.specs.Prelude.{◌≡◌, map, option_map, IfOk, OnErr, IsSome};
ghost use Rattle.std.specs.Option.{option_copied};
ghost use Rattle.ash_registrations.specs.Registered.{registered};
ghost use Rattle.ash_registrations.specs.Registrations.{registration_of};
ghost use Rattle.ash_type_rules.specs.Environment as environment;
ghost use Rattle.ash_check_names.specs.EnvironmentViews.{binding_of, interface_signature_of};
ghost use Rattle.ash_check_names.specs.EnvironmentViews.{class_signature_of};
ghost use Rattle.ash_check_names.specs.EnvironmentViews.{environment_of, placed_class, known_of, callee_of};
ghost use Rattle.ash_check_names.specs.EnvironmentViews.{parameters_of, method_callee_of};

use crate::array_methods::array_method_named;
use crate::callees::{
    Callee, MethodCallee, class_callee, class_method_callee, factory_parameters, function_callee,
    host_method_callee, interface_method_callee, service_callee,
};
use crate::lookup::{first_binding, first_function, last_binding};
use crate::parameters::Parameters;
use crate::signatures::{Binding, ClassSignature, Signatures};
use crate::types::{result_type, ty_of, var_type};
use ash_registrations::{Registration, Registrations};
use ash_type_rules::{Callable, Ty};
use ash_typed::{CallTarget, Expr, ExprKind, ObjectMember, ObjectType, Variable, nodes};
use std::alloc::{AllocError, Global};

/// What an expression can refer to. The names are those of the script.
#[derive(Clone, Copy)]
pub struct Environment<'a, 'n> {
    pub alloc: Global,
    pub signatures: &'a Signatures<'n>,
    pub registry: &'a Registrations,
    /// The class whose object runs.
    pub this: Option<usize>,
    pub locals: &'a [Binding<'n>],
}

/// A field of the class of this place, with its type.
fn class_field(class: usize, of: &ClassSignature, name: &str) -> Option<(ObjectMember, Ty)>
    ensures value { result ≡ environment.field_in class (class_signature_of of.now) name.now }
{
    let (place, ty) = first_binding(&of.fields, name)?;
    let member = ObjectMember::Field {
        class,
        place,
        of: var_type(ty),
    };
    Some((member, ty))
}

/// A local, with its type. Memory is taken only where there is one.
fn local_named(
    alloc: Global,
    locals: &[Binding],
    name: &str,
) -> Result<Option<(Expr, Ty)>, AllocError>
    ensures local_found { IfOk result
        (λ found. option_map known_of found
        ≡ environment.local_in (map binding_of locals.now) name.now) }
    ensures memory { OnErr result
        (IsSome (environment.local_in (map binding_of locals.now) name.now)) }
{
    let Some((slot, of)) = last_binding(locals, name) else {
        return Ok(None);
    };
    let local = Variable::Local {
        slot,
        of: var_type(of),
    };
    let tree = Expr::new(alloc, ExprKind::Variable(local))?;
    Ok(Some((tree, of)))
}

/// A global, with its type. Memory is taken only where there is one.
fn global_named(
    alloc: Global,
    signatures: &Signatures,
    name: &str,
) -> Result<Option<(Expr, Ty)>, AllocError>
    ensures global_found { IfOk result
        (λ found. option_map known_of found
        ≡ environment.global_in (map binding_of signatures.now.globals.items) name.now) }
    ensures memory { OnErr result
        (IsSome (environment.global_in (map binding_of signatures.now.globals.items) name.now)) }
{
    let Some((place, of)) = signatures.global(name) else {
        return Ok(None);
    };
    let global = Variable::Global {
        place,
        of: var_type(of),
    };
    let tree = Expr::new(alloc, ExprKind::Variable(global))?;
    Ok(Some((tree, of)))
}

/// A property of a registered type, with its type.
fn host_property(registration: &Registration) -> Option<(ObjectMember, Ty)>
    ensures value { result ≡ environment.property (registration_of registration.now) }
{
    match registration {
        Registration::Property { id, value, .. } => {
            let of = ty_of(*value);
            let property = ObjectMember::Property {
                id: *id,
                of: var_type(of),
            };
            Some((property, of))
        }
        _ => None,
    }
}

impl<'a, 'n> Environment<'a, 'n> {
    /// The class whose object runs, with its place.
    fn this_class(&self) -> Option<(usize, &'a ClassSignature<'n>)>
        ensures value { option_map placed_class result
            ≡ environment.this_class (environment_of self.now) }
    {
        let place = self.this?;
        let class = self.signatures.classes.get(place)?;
        Some((place, class))
    }

    /// A field of the object that runs, with its type. Memory is taken only where there is one.
    fn own_field(&self, name: &str) -> Result<Option<(Expr, Ty)>, AllocError>
        ensures field_found { IfOk result
            (λ found. option_map known_of found
            ≡ environment.own_field_in (environment_of self.now) name.now) }
        ensures memory { OnErr result
            (IsSome (environment.own_field_in (environment_of self.now) name.now)) }
    {
        let Some((place, class)) = self.this_class() else {
            return Ok(None);
        };
        let Some((member, of)) = class_field(place, class, name) else {
            return Ok(None);
        };
        let this = Expr::new(self.alloc, ExprKind::This(place))?;
        Ok(Some((nodes::member(self.alloc, this, member)?, of)))
    }

    /// A name alone, with its type: the last local of the name, else a field of the object that runs, else a global.
    /// `None` is that it is none of these; `Err`, that memory was refused, which is taken only for what there is.
    #[tactic(auto, unfolding(ash_type_rules::specs::Environment::variable_in))]
    pub fn variable(&self, name: &str) -> Result<Option<(Expr, Ty)>, AllocError>
        ensures variable_found { IfOk result
            (λ found. option_map known_of found
            ≡ environment.variable_in (environment_of self.now) name.now) }
        ensures memory { OnErr result
            (IsSome (environment.variable_in (environment_of self.now) name.now)) }
    {
        if let Some(local) = local_named(self.alloc, self.locals, name)? {
            return Ok(Some(local));
        }
        if let Some(field) = self.own_field(name)? {
            return Ok(Some(field));
        }
        global_named(self.alloc, self.signatures, name)
    }

    /// A method of the object that runs, as it is called.
    fn own_method_callee(&self, name: &str) -> Option<Callee<'a>>
        ensures value { option_map callee_of result
            ≡ environment.own_method_in (environment_of self.now) name.now }
    {
        let (class, of) = self.this_class()?;
        let (method, function) = first_function(&of.methods, name)?;
        let result = function.result;
        Some(Callee {
            target: Callable::OwnMethod {
                class,
                method,
                result: result_type(result),
            },
            result,
            parameters: Some(Parameters::Script(&function.parameters)),
        })
    }

    /// A registered type, as it is constructed.
    pub fn host_type_callee(&self, registration: &Registration) -> Option<Callee<'a>>
        ensures constructs_host_object { option_map callee_of result
            ≡ environment.host_type (registered self.now.registry.now)
            (registration_of registration.now) }
    {
        match registration {
            Registration::Type { name, kind } => Some(Callee {
                target: Callable::Target(CallTarget::Host(*kind)),
                result: Ty::Handle(ObjectType::Host(*kind)),
                parameters: self.factory_parameters(name.as_str()),
            }),
            _ => None,
        }
    }

    /// The parameters of the factory of a registered type.
    #[tactic(auto, unfolding(ash_type_rules::specs::Environment::factory_in))]
    fn factory_parameters(&self, of: &str) -> Option<Parameters<'a>>
        ensures value { option_map parameters_of result
            ≡ environment.factory_in (registered self.now.registry.now) of.now }
    {
        factory_parameters(self.registry.factory_of(of)?)
    }

    /// The callee of a name before brackets: a method of the object that runs, a function of the module, a registered
    /// function, a class, or a registered type.
    #[tactic(auto, unfolding(ash_type_rules::specs::Environment::callee_in))]
    pub fn callee(&self, name: &str) -> Option<Callee<'a>>
        ensures callee_found { option_map callee_of result
            ≡ environment.callee_in (environment_of self.now) name.now }
    {
        if let Some(method) = self.own_method_callee(name) {
            return Some(method);
        }
        if let Some(function) = function_callee(self.signatures, name) {
            return Some(function);
        }
        self.service_or_type_callee(name)
    }

    /// A registered function, a class or a registered type, as it is called.
    fn service_or_type_callee(&self, name: &str) -> Option<Callee<'a>>
        ensures value { option_map callee_of result
            ≡ environment.callee_beside (environment_of self.now) name.now }
    {
        let registered = self.registry.named(name);
        if let Some(registration) = registered
            && let Some(function) = service_callee(registration)
        {
            return Some(function);
        }
        if let Some(class) = class_callee(self.signatures, name) {
            return Some(class);
        }
        self.host_type_callee(registered?)
    }

    /// The name of a registered type, by its kind.
    #[tactic(auto, unfolding(ash_type_rules::specs::Environment::name_of_kind))]
    fn type_name(&self, kind: u16) -> &'a str
        ensures value { result.now ≡ environment.name_of_kind (registered self.now.registry.now)
            kind }
    {
        match self.registry.of_kind(kind) {
            Some(Registration::Type { name, .. }) => name.as_str(),
            _ => "",
        }
    }

    /// A method or a property of a registered type.
    #[tactic(auto, unfolding(ash_type_rules::specs::Environment::host_member_in))]
    fn host_member(&self, kind: u16, name: &str) -> Option<&'a Registration>
        ensures value { option_map registration_of (option_copied result)
            ≡ environment.host_member_in (registered self.now.registry.now) kind name.now }
    {
        self.registry.member(self.type_name(kind), name)
    }

    /// A field or a property of an object, with its type.
    #[tactic(auto, unfolding(ash_type_rules::specs::Environment::member_in))]
    pub fn member(&self, of: ObjectType, name: &str) -> Option<(ObjectMember, Ty)>
        ensures member_found { result
            ≡ environment.member_in (environment_of self.now) of name.now }
    {
        match of {
            ObjectType::Class(place) => class_field(
                place,
                self.signatures.classes.get(place)?,
                name,
            ),
            ObjectType::Host(kind) => host_property(self.host_member(kind, name)?),
            ObjectType::Interface(_) | ObjectType::Array(_) => None,
        }
    }

    #[tactic(auto, unfolding(ash_type_rules::specs::Environment::method_of_class))]
    fn class_method(&self, class: usize, name: &str) -> Option<MethodCallee<'a>>
        ensures value { option_map method_callee_of result
            ≡ environment.method_of_class
            (map class_signature_of self.now.signatures.now.classes.items) class name.now }
    {
        let of = self.signatures.classes.get(class)?;
        class_method_callee(class, of, name)
    }

    #[tactic(auto, unfolding(ash_type_rules::specs::Environment::method_of_interface))]
    fn interface_method(&self, interface: usize, name: &str) -> Option<MethodCallee<'a>>
        ensures value { option_map method_callee_of result
            ≡ environment.method_of_interface
            (map interface_signature_of self.now.signatures.now.interfaces.items) interface
            name.now }
    {
        let of = self.signatures.interfaces.get(interface)?;
        interface_method_callee(interface, of, name)
    }

    #[tactic(auto, unfolding(ash_type_rules::specs::Environment::method_of_kind))]
    fn host_method(&self, kind: u16, name: &str) -> Option<MethodCallee<'a>>
        ensures value { option_map method_callee_of result
            ≡ environment.method_of_kind (registered self.now.registry.now) kind name.now }
    {
        let registration = self.host_member(kind, name)?;
        host_method_callee(registration)
    }

    /// A method of an object.
    #[tactic(auto, unfolding(ash_type_rules::specs::Environment::method_in))]
    pub fn method(&self, of: ObjectType, name: &str) -> Option<MethodCallee<'a>>
        ensures method_found { option_map method_callee_of result
            ≡ environment.method_in (environment_of self.now) of name.now }
    {
        match of {
            ObjectType::Class(class) => self.class_method(class, name),
            ObjectType::Interface(interface) => self.interface_method(interface, name),
            ObjectType::Host(kind) => self.host_method(kind, name),
            ObjectType::Array(of) => array_method_named(of, name),
        }
    }
}
