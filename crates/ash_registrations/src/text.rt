//! The line of an accepted registration.
ghost use Rattle.std.specs.Prelude.{◌≡◌, [], ◌∷◌, ◌++◌, codes, string_bytes, IfOk, OnOk};
ghost use Rattle.ash_registrations.specs.Registrations.{registration_of, operation_of};
ghost use Rattle.ash_registrations.specs.Registrations.{TypeRegistration};
ghost use Rattle.ash_registrations.specs.Registrations.{FactoryRegistration, MethodRegistration};
ghost use Rattle.ash_registrations.specs.Registrations.{PropertyRegistration};
ghost use Rattle.ash_registrations.specs.Registrations.{ServiceRegistration, FunctionRegistration};
ghost use Rattle.std.specs.List.{concat};
ghost use Rattle.ash_registrations.specs.Text.{primitive_text, result_text, more_parameters};
ghost use Rattle.ash_registrations.specs.Text.{parameters_text};
ghost use Rattle.ash_registrations.specs.Text.{operation_text, line_of};

use crate::{HostFunction, Registration};
use ash_tree::Primitive;
use std::alloc::{AllocError, Global};

fn primitive_name(primitive: Primitive) -> &'static str
    ensures value { result.now ≡ primitive_text primitive }
{
    match primitive {
        Primitive::Bool => "bool",
        Primitive::Int => "int",
        Primitive::Int64 => "int64",
        Primitive::Uint => "uint",
        Primitive::Uint64 => "uint64",
    }
}

fn result_name(of: Option<Primitive>) -> &'static str
    ensures value { result.now ≡ result_text of }
{
    match of {
        Some(primitive) => primitive_name(primitive),
        None => "void",
    }
}

// Appends the parameters after the first, each after a comma.
fn push_more(text: &mut String, rest: &[Primitive]) -> Result<(), AllocError>
    ensures value { OnOk result
        (string_bytes text.new ≡ string_bytes text.old ++ more_parameters rest.now) }
{
    for primitive in rest {
        text.push_str(",")?;
        text.push_str(primitive_name(*primitive))?;
    }
    Ok(())
}

// The parameters, parted by a comma without a blank.
fn join_parameters(alloc: Global, types: &[Primitive]) -> Result<String, AllocError>
    ensures value { IfOk result (λ text. string_bytes text ≡ parameters_text types.now) }
{
    let mut text = String::new(alloc);
    if let [first, rest @ ..] = types {
        text.push_str(primitive_name(*first))?;
        push_more(&mut text, rest)?;
    }
    Ok(text)
}

// As `int add(int)`, of its parts.
fn join_operation(
    alloc: Global,
    of: &str,
    name: &str,
    parameters: &str,
) -> Result<String, AllocError>
    ensures value { IfOk result (λ text. string_bytes text
        ≡ concat (of.now ∷ codes " " ∷ name.now ∷ codes "(" ∷ parameters.now ∷ codes ")" ∷ [])) }
{
    [of, " ", name, "(", parameters, ")"].concat(alloc)
}

// As `int add(int)`.
fn operation(alloc: Global, operation: &HostFunction) -> Result<String, AllocError>
    ensures value { IfOk result (λ text. string_bytes text
        ≡ operation_text (operation_of operation.now)) }
{
    let parameters = join_parameters(alloc, &operation.parameters)?;
    let of = result_name(operation.result);
    join_operation(alloc, of, operation.name.as_str(), parameters.as_str())
}

fn type_line(alloc: Global, name: &str, kind: u16) -> Result<String, AllocError>
    ensures value { IfOk result (λ text. string_bytes text
        ≡ line_of (TypeRegistration name.now kind)) }
{
    let kind = kind.to_string(alloc)?;
    ["type ", name, " ", kind.as_str(), "\n"].concat(alloc)
}

fn factory_line(alloc: Global, of: &str, types: &[Primitive]) -> Result<String, AllocError>
    ensures value { IfOk result (λ text. string_bytes text
        ≡ line_of (FactoryRegistration of.now types.now)) }
{
    let parameters = join_parameters(alloc, types)?;
    ["factory ", of, " (", parameters.as_str(), ")\n"].concat(alloc)
}

fn method_line(
    alloc: Global,
    of: &str,
    id: u16,
    method: &HostFunction,
) -> Result<String, AllocError>
    ensures value { IfOk result (λ text. string_bytes text
        ≡ line_of (MethodRegistration of.now id (operation_of method.now))) }
{
    let id = id.to_string(alloc)?;
    let method = operation(alloc, method)?;
    ["method ", of, " ", id.as_str(), " ", method.as_str(), "\n"].concat(alloc)
}

// The line of a property, of its parts.
fn join_property(
    alloc: Global,
    of: &str,
    id: &str,
    value: &str,
    name: &str,
) -> Result<String, AllocError>
    ensures meaning { IfOk result (λ text. string_bytes text
        ≡ concat (codes "property " ∷ of.now ∷ codes " " ∷ id.now ∷ codes " " ∷ value.now
        ∷ codes " " ∷ name.now ∷ codes "\n" ∷ [])) }
{
    ["property ", of, " ", id, " ", value, " ", name, "\n"].concat(alloc)
}

fn property_line(
    alloc: Global,
    of: &str,
    id: u16,
    value: Primitive,
    name: &str,
) -> Result<String, AllocError>
    ensures meaning { IfOk result (λ text. string_bytes text
        ≡ line_of (PropertyRegistration of.now id value name.now)) }
{
    let id = id.to_string(alloc)?;
    join_property(alloc, of, id.as_str(), primitive_name(value), name)
}

fn service_line(alloc: Global, kind: u16) -> Result<String, AllocError>
    ensures value { IfOk result (λ text. string_bytes text ≡ line_of (ServiceRegistration kind)) }
{
    let kind = kind.to_string(alloc)?;
    ["service ", kind.as_str(), "\n"].concat(alloc)
}

fn function_line(
    alloc: Global,
    service: u16,
    id: u16,
    function: &HostFunction,
) -> Result<String, AllocError>
    ensures value { IfOk result (λ text. string_bytes text
        ≡ line_of (FunctionRegistration service id (operation_of function.now))) }
{
    let service = service.to_string(alloc)?;
    let id = id.to_string(alloc)?;
    let function = operation(alloc, function)?;
    let parts = [
        "function ",
        service.as_str(),
        " ",
        id.as_str(),
        " ",
        function.as_str(),
        "\n",
    ];
    parts.concat(alloc)
}

/// The line of a registration, with its line feed.
pub(crate) fn line(alloc: Global, registration: &Registration) -> Result<String, AllocError>
    ensures value { IfOk result (λ text. string_bytes text
        ≡ line_of (registration_of registration.now)) }
{
    match registration {
        Registration::Type { name, kind } => type_line(alloc, name, *kind),
        Registration::Factory { of, parameters } => factory_line(alloc, of, parameters),
        Registration::Method { of, id, operation } => method_line(alloc, of, *id, operation),
        Registration::Property {
            of,
            id,
            value,
            name,
        } => property_line(alloc, of, *id, *value, name),
        Registration::Service { kind } => service_line(alloc, *kind),
        Registration::Function {
            service,
            id,
            operation,
        } => function_line(alloc, *service, *id, operation),
    }
}
