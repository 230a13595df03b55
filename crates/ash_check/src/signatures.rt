//! What a module declares, as each of its items sees it.

ghost use Rattle.std.specs.Prelude.{◌≡◌, ◌++◌, map, IfOk, OnOk};
ghost use Rattle.ash_registrations.specs.Registered.{registered};
ghost use Rattle.ash_tree.specs.TreeViews.{vars_of, parameter_of, function_of as written_function};
ghost use Rattle.ash_tree.specs.TreeViews.{member_of};
ghost use Rattle.ash_tree.specs.TreeViews.{type_name_of, interface_method_of};
ghost use Rattle.ash_tree.specs.TreeViews.{interface_of as written_interface};
ghost use Rattle.ash_tree.specs.TreeViews.{class_of as written_class, item_of, module_of};
ghost use Rattle.ash_tree.specs.Items as by_kind;
ghost use Rattle.ash_type_rules.specs.ModuleDeclarations as definition;
ghost use Rattle.ash_check_names.specs.EnvironmentViews.{binding_of, function_signature_of};
ghost use Rattle.ash_check_names.specs.EnvironmentViews.{interface_signature_of, class_signature_of};
ghost use Rattle.ash_check_names.specs.EnvironmentViews.{signatures_of};

use crate::type_names::type_names;
use ash_check_names::{
    Binding, ClassSignature, FunctionSignature, InterfaceSignature, Signatures, object_named,
    result_named, ty_named,
};
use ash_registrations::Registrations;
use ash_tree::{InterfaceMethod, Item, Member, Module, Parameter, TypeName, Vars};
use ash_type_rules::Ty;
use ash_typed::ObjectType;
use std::alloc::{AllocError, Global};

fn parameter_types(
    alloc: Global,
    registry: &Registrations,
    type_names: &Signatures,
    parameters: &[Parameter],
) -> Result<Vec<Ty>, AllocError>
    ensures value { IfOk result
        (λ types. types.items
        ≡ map
        (definition.parameter_ty (registered registry.now) (signatures_of type_names.now))
        (map parameter_of parameters.now)) }
{
    let mut types = Vec::with_capacity(alloc, parameters.len())?;
    for parameter in parameters {
        types.push(ty_named(registry, type_names, &parameter.of))?;
    }
    Ok(types)
}

fn function_signature<'a>(
    alloc: Global,
    registry: &Registrations,
    type_names: &Signatures,
    function: &'a ash_tree::Function,
) -> Result<FunctionSignature<'a>, AllocError>
    ensures value { IfOk result
        (λ f. function_signature_of f
        ≡ definition.function_declaration (registered registry.now) (signatures_of type_names.now)
        (written_function function.now)) }
{
    let parameters = parameter_types(alloc, registry, type_names, &function.parameters)?;
    Ok(FunctionSignature {
        name: function.name.as_str(),
        result: result_named(registry, type_names, &function.result),
        parameters,
    })
}

fn method_signature<'a>(
    alloc: Global,
    registry: &Registrations,
    type_names: &Signatures,
    method: &'a InterfaceMethod,
) -> Result<FunctionSignature<'a>, AllocError>
    ensures value { IfOk result
        (λ f. function_signature_of f
        ≡ definition.signature_declaration (registered registry.now) (signatures_of type_names.now)
        (interface_method_of method.now)) }
{
    let parameters = parameter_types(alloc, registry, type_names, &method.parameters)?;
    Ok(FunctionSignature {
        name: method.name.as_str(),
        result: result_named(registry, type_names, &method.result),
        parameters,
    })
}

fn interface_methods<'a>(
    alloc: Global,
    registry: &Registrations,
    type_names: &Signatures,
    declared: &'a [InterfaceMethod],
) -> Result<Vec<FunctionSignature<'a>>, AllocError>
    ensures value { IfOk result
        (λ all. map function_signature_of all.items
        ≡ map
        (definition.signature_declaration (registered registry.now) (signatures_of type_names.now))
        (map interface_method_of declared.now)) }
{
    let mut all = Vec::new(alloc);
    for method in declared {
        all.push(method_signature(alloc, registry, type_names, method)?)?;
    }
    Ok(all)
}

fn interface_signature<'a>(
    alloc: Global,
    registry: &Registrations,
    type_names: &Signatures,
    interface: &'a ash_tree::Interface,
) -> Result<InterfaceSignature<'a>, AllocError>
    ensures value { IfOk result
        (λ i. interface_signature_of i
        ≡ definition.interface_declaration (registered registry.now) (signatures_of type_names.now)
        (written_interface interface.now)) }
{
    let methods = interface_methods(alloc, registry, type_names, &interface.methods)?;
    Ok(InterfaceSignature {
        name: interface.name.as_str(),
        methods,
    })
}

/// Adds what is declared to these variables.
fn push_bindings<'a>(
    registry: &Registrations,
    type_names: &Signatures,
    vars: &'a Vars,
    variables: &mut Vec<Binding<'a>>,
) -> Result<(), AllocError>
    ensures value { OnOk result
        (map binding_of variables.new.items ≡ map binding_of variables.old.items
        ++ definition.variables (registered registry.now) (signatures_of type_names.now)
        (vars_of vars.now)) }
{
    let of = ty_named(registry, type_names, &vars.of);
    for decl in &vars.decls {
        variables.push(Binding {
            name: decl.name.as_str(),
            of,
        })?;
    }
    Ok(())
}

fn class_fields<'a>(
    alloc: Global,
    registry: &Registrations,
    type_names: &Signatures,
    members: &'a [Member],
) -> Result<Vec<Binding<'a>>, AllocError>
    ensures value { IfOk result
        (λ all. map binding_of all.items
        ≡ definition.all_variables (registered registry.now) (signatures_of type_names.now)
        (by_kind.fields_of (map member_of members.now))) }
{
    let mut all = Vec::new(alloc);
    for member in members {
        if let Member::Vars(vars) = member {
            push_bindings(registry, type_names, vars, &mut all)?;
        }
    }
    Ok(all)
}

fn class_methods<'a>(
    alloc: Global,
    registry: &Registrations,
    type_names: &Signatures,
    members: &'a [Member],
) -> Result<Vec<FunctionSignature<'a>>, AllocError>
    ensures value { IfOk result
        (λ all. map function_signature_of all.items
        ≡ map
        (definition.function_declaration (registered registry.now) (signatures_of type_names.now))
        (by_kind.methods_of (map member_of members.now))) }
{
    let mut all = Vec::new(alloc);
    for member in members {
        if let Member::Function(function) = member {
            all.push(function_signature(alloc, registry, type_names, function)?)?;
        }
    }
    Ok(all)
}

/// What the first constructor takes.
fn constructor_parameters(
    alloc: Global,
    registry: &Registrations,
    type_names: &Signatures,
    members: &[Member],
) -> Result<Vec<Ty>, AllocError>
    ensures value { IfOk result
        (λ types. types.items
        ≡ definition.constructed_by (registered registry.now) (signatures_of type_names.now)
        (by_kind.constructors_of (map member_of members.now))) }
{
    for member in members {
        if let Member::Constructor(constructor) = member {
            return parameter_types(alloc, registry, type_names, &constructor.parameters);
        }
    }
    Ok(Vec::new(alloc))
}

fn interface_place(object: Option<ObjectType>) -> Option<usize>
    ensures value { result ≡ definition.interface_place object }
{
    match object {
        Some(ObjectType::Interface(place)) => Some(place),
        _ => None,
    }
}

/// The interfaces that a class lists.
fn listed_interfaces(
    alloc: Global,
    registry: &Registrations,
    type_names: &Signatures,
    names: &[TypeName],
) -> Result<Vec<usize>, AllocError>
    ensures value { IfOk result
        (λ places. places.items
        ≡ definition.listed_in (registered registry.now) (signatures_of type_names.now)
        (map type_name_of names.now)) }
{
    let mut places = Vec::new(alloc);
    for name in names {
        let object = object_named(registry, type_names, name.name.as_str());
        if let Some(place) = interface_place(object) {
            places.push(place)?;
        }
    }
    Ok(places)
}

fn class_signature<'a>(
    alloc: Global,
    registry: &Registrations,
    type_names: &Signatures,
    class: &'a ash_tree::Class,
) -> Result<ClassSignature<'a>, AllocError>
    ensures value { IfOk result
        (λ c. class_signature_of c
        ≡ definition.class_declaration (registered registry.now) (signatures_of type_names.now)
        (written_class class.now)) }
{
    let interfaces = listed_interfaces(alloc, registry, type_names, &class.interfaces)?;
    let fields = class_fields(alloc, registry, type_names, &class.members)?;
    let methods = class_methods(alloc, registry, type_names, &class.members)?;
    let parameters = constructor_parameters(alloc, registry, type_names, &class.members)?;
    Ok(ClassSignature {
        name: class.name.as_str(),
        interfaces,
        fields,
        methods,
        parameters,
    })
}

fn interface_signatures<'a>(
    alloc: Global,
    registry: &Registrations,
    type_names: &Signatures,
    items: &'a [Item],
) -> Result<Vec<InterfaceSignature<'a>>, AllocError>
    ensures value { IfOk result
        (λ all. map interface_signature_of all.items
        ≡ map
        (definition.interface_declaration (registered registry.now) (signatures_of type_names.now))
        (by_kind.interfaces_of (map item_of items.now))) }
{
    let mut all = Vec::new(alloc);
    for item in items {
        if let Item::Interface(interface) = item {
            all.push(interface_signature(alloc, registry, type_names, interface)?)?;
        }
    }
    Ok(all)
}

fn class_signatures<'a>(
    alloc: Global,
    registry: &Registrations,
    type_names: &Signatures,
    items: &'a [Item],
) -> Result<Vec<ClassSignature<'a>>, AllocError>
    ensures value { IfOk result
        (λ all. map class_signature_of all.items
        ≡ map
        (definition.class_declaration (registered registry.now) (signatures_of type_names.now))
        (by_kind.classes_of (map item_of items.now))) }
{
    let mut all = Vec::new(alloc);
    for item in items {
        if let Item::Class(class) = item {
            all.push(class_signature(alloc, registry, type_names, class)?)?;
        }
    }
    Ok(all)
}

fn function_signatures<'a>(
    alloc: Global,
    registry: &Registrations,
    type_names: &Signatures,
    items: &'a [Item],
) -> Result<Vec<FunctionSignature<'a>>, AllocError>
    ensures value { IfOk result
        (λ all. map function_signature_of all.items
        ≡ map
        (definition.function_declaration (registered registry.now) (signatures_of type_names.now))
        (by_kind.functions_of (map item_of items.now))) }
{
    let mut all = Vec::new(alloc);
    for item in items {
        if let Item::Function(function) = item {
            all.push(function_signature(alloc, registry, type_names, function)?)?;
        }
    }
    Ok(all)
}

fn global_bindings<'a>(
    alloc: Global,
    registry: &Registrations,
    type_names: &Signatures,
    items: &'a [Item],
) -> Result<Vec<Binding<'a>>, AllocError>
    ensures value { IfOk result
        (λ all. map binding_of all.items
        ≡ definition.all_variables (registered registry.now) (signatures_of type_names.now)
        (by_kind.globals_of (map item_of items.now))) }
{
    let mut all = Vec::new(alloc);
    for item in items {
        if let Item::Vars(vars) = item {
            push_bindings(registry, type_names, vars, &mut all)?;
        }
    }
    Ok(all)
}

/// What a module declares, where this is what types name.
fn resolve_signatures<'a>(
    alloc: Global,
    registry: &Registrations,
    type_names: &Signatures,
    items: &'a [Item],
) -> Result<Signatures<'a>, AllocError>
    ensures value { IfOk result
        (λ h. signatures_of h
        ≡ definition.declarations_by (registered registry.now) (signatures_of type_names.now)
        (map item_of items.now)) }
{
    let interfaces = interface_signatures(alloc, registry, type_names, items)?;
    let classes = class_signatures(alloc, registry, type_names, items)?;
    let functions = function_signatures(alloc, registry, type_names, items)?;
    let globals = global_bindings(alloc, registry, type_names, items)?;
    let signatures = Signatures::new(alloc, interfaces, classes, functions, globals)?;
    Ok(signatures)
}

/// What a module declares.
#[tactic(auto, unfolding(ash_type_rules::specs::ModuleDeclarations::declarations))]
pub(crate) fn module_signatures<'a>(
    alloc: Global,
    registry: &Registrations,
    declared: &'a Module,
) -> Result<Signatures<'a>, AllocError>
    ensures value { IfOk result
        (λ h. signatures_of h
        ≡ definition.declarations (registered registry.now) (module_of declared.now)) }
{
    let type_names = type_names(alloc, &declared.items)?;
    resolve_signatures(alloc, registry, &type_names, &declared.items)
}
