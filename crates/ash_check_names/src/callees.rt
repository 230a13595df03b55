//! What a call can call: functions, methods, classes and registered types.

ghost use Rattle.std.specs.Prelude.{◌≡◌, map, option_map};
ghost use Rattle.ash_registrations.specs.Registrations.{registration_of};
ghost use Rattle.ash_type_rules.specs.Environment as environment;
ghost use Rattle.ash_check_names.specs.EnvironmentViews.{function_signature_of, interface_signature_of};
ghost use Rattle.ash_check_names.specs.EnvironmentViews.{class_signature_of, callee_of, parameters_of};
ghost use Rattle.ash_check_names.specs.EnvironmentViews.{method_callee_of};

use crate::lookup::first_function;
use crate::parameters::Parameters;
use crate::signatures::{ClassSignature, InterfaceSignature, Signatures};
use crate::types::{result_type, ty_of};
use ash_registrations::Registration;
use ash_tree::Primitive;
use ash_type_rules::{Callable, Ty};
use ash_typed::{CallTarget, Method, ObjectType};

/// What is called, the type of its result, and its parameters: none are known of a type without factory.
#[derive(Clone, Copy)]
pub struct Callee<'a> {
    pub target: Callable,
    pub result: Ty,
    pub parameters: Option<Parameters<'a>>,
}

/// A method, the type of its result, and its parameters.
#[derive(Clone, Copy)]
pub struct MethodCallee<'a> {
    pub method: Method,
    pub result: Ty,
    pub parameters: Parameters<'a>,
}

/// The type of the result of a registered operation.
fn operation_result(primitive: Option<Primitive>) -> Ty
    ensures value { result ≡ environment.result_of primitive }
{
    match primitive {
        None => Ty::Void,
        Some(primitive) => ty_of(primitive),
    }
}

/// A function of the module, as it is called.
pub(crate) fn function_callee<'a>(signatures: &'a Signatures<'_>, name: &str) -> Option<Callee<'a>>
    ensures value { option_map callee_of result
        ≡ environment.function_in (map function_signature_of signatures.now.functions.items)
        name.now }
{
    let (place, function) = signatures.function(name)?;
    let result = function.result;
    Some(Callee {
        target: Callable::Target(CallTarget::Function {
            function: place,
            result: result_type(result),
        }),
        result,
        parameters: Some(Parameters::Script(&function.parameters)),
    })
}

/// A class, as it is constructed.
pub(crate) fn class_callee<'a>(signatures: &'a Signatures<'_>, name: &str) -> Option<Callee<'a>>
    ensures value { option_map callee_of result
        ≡ environment.class_in (map class_signature_of signatures.now.classes.items) name.now }
{
    let (place, class) = signatures.class(name)?;
    Some(Callee {
        target: Callable::Target(CallTarget::Class(place)),
        result: Ty::Handle(ObjectType::Class(place)),
        parameters: Some(Parameters::Script(&class.parameters)),
    })
}

/// A method of a class, as it is called.
pub(crate) fn class_method_callee<'a>(
    class: usize,
    of: &'a ClassSignature<'_>,
    name: &str,
) -> Option<MethodCallee<'a>>
    ensures value { option_map method_callee_of result
        ≡ environment.class_method class name.now (class_signature_of of.now) }
{
    let (method, function) = first_function(&of.methods, name)?;
    let result = function.result;
    Some(MethodCallee {
        method: Method::Script {
            class,
            method,
            result: result_type(result),
        },
        result,
        parameters: Parameters::Script(&function.parameters),
    })
}

/// A method of an interface, as it is called.
pub(crate) fn interface_method_callee<'a>(
    interface: usize,
    of: &'a InterfaceSignature<'_>,
    name: &str,
) -> Option<MethodCallee<'a>>
    ensures value { option_map method_callee_of result
        ≡ environment.interface_method interface name.now (interface_signature_of of.now) }
{
    let (method, function) = first_function(&of.methods, name)?;
    let result = function.result;
    Some(MethodCallee {
        method: Method::Interface {
            interface,
            method,
            result: result_type(result),
        },
        result,
        parameters: Parameters::Script(&function.parameters),
    })
}

/// A method of a registered type, as it is called.
pub(crate) fn host_method_callee(registration: &Registration) -> Option<MethodCallee<'_>>
    ensures value { option_map method_callee_of result
        ≡ environment.host_method (registration_of registration.now) }
{
    match registration {
        Registration::Method { id, operation, .. } => {
            let result = operation_result(operation.result);
            Some(MethodCallee {
                method: Method::Host {
                    id: *id,
                    result: result_type(result),
                },
                result,
                parameters: Parameters::Host(&operation.parameters),
            })
        }
        _ => None,
    }
}

/// A function of a registered service, as it is called.
pub(crate) fn service_callee(registration: &Registration) -> Option<Callee<'_>>
    ensures value { option_map callee_of result
        ≡ environment.service_function (registration_of registration.now) }
{
    match registration {
        Registration::Function {
            service,
            id,
            operation,
        } => {
            let result = operation_result(operation.result);
            Some(Callee {
                target: Callable::Target(CallTarget::Service {
                    service: *service,
                    id: *id,
                    result: result_type(result),
                }),
                result,
                parameters: Some(Parameters::Host(&operation.parameters)),
            })
        }
        _ => None,
    }
}

/// The parameters of a factory.
pub(crate) fn factory_parameters(registration: &Registration) -> Option<Parameters<'_>>
    ensures value { option_map parameters_of result
        ≡ environment.factory_parameters (registration_of registration.now) }
{
    match registration {
        Registration::Factory { parameters, .. } => Some(Parameters::Host(parameters)),
        _ => None,
    }
}
