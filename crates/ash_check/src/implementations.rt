//! The interfaces that a class lists, and its methods for theirs.

ghost use Rattle.std.specs.Prelude.{◌≡◌, map, option_map, IfOk};
ghost use Rattle.ash_tree.specs.TreeViews.{type_name_of};
ghost use Rattle.ash_type_rules.specs.Implementations as implementing;
ghost use Rattle.ash_type_rules.specs.ItemRules as definition;
ghost use Rattle.ash_typed.specs.Modules.{implementation_of};
ghost use Rattle.ash_check_names.specs.Agreement.{Agrees};
ghost use Rattle.ash_check_names.specs.EnvironmentViews.{function_signature_of, environment_of};
ghost use Rattle.ash_check_names.specs.EnvironmentViews.{placed_function};
ghost use Rattle.ash_check.specs.WalkViews.{optional_places, listed_interfaces_of};

use crate::names::Names;
use ash_check_names::{
    CheckResult, Environment, FunctionSignature, fault_at, first_function, is_same, object_named,
};
use ash_tree::TypeName;
use ash_type_rules::{Rule, Ty};
use ash_typed::{Implementation, ObjectType};
use indexmap::IndexSet;
use std::alloc::{AllocError, Global};

/// An interface, whose name is at this offset.
fn listed_interface_place(at: usize, object: Option<ObjectType>) -> CheckResult<usize>
    ensures agrees { Agrees (λ place. place) result (definition.listed_at at object) }
{
    match object {
        Some(ObjectType::Interface(place)) => Ok(place),
        Some(ObjectType::Class(_)) => Err(fault_at(Rule::Misplaced, at)),
        _ => Err(fault_at(Rule::UnknownType, at)),
    }
}

fn are_same(some: &[Ty], others: &[Ty]) -> bool
    ensures value { result ≡ implementing.are_same some.now others.now }
{
    let mut rest = others;
    for of in some {
        let Some((other, rest_of_others)) = rest.split_first() else {
            return false;
        };
        if !is_same(*of, *other) {
            return false;
        }
        rest = rest_of_others;
    }
    rest.is_empty()
}

/// Whether a method has the result and the parameters of another.
fn has_types_of(one: &FunctionSignature, other: &FunctionSignature) -> bool
    ensures value { result
        ≡ implementing.has_types_of (function_signature_of one.now)
        (function_signature_of other.now) }
{
    is_same(one.result, other.result) && are_same(&one.parameters, &other.parameters)
}

/// The place of the method of a class that a method of an interface runs.
fn matching_method(
    method: &FunctionSignature,
    found: Option<(usize, &FunctionSignature)>,
) -> Option<usize>
    ensures value { result
        ≡ implementing.matching (function_signature_of method.now)
        (option_map placed_function found.entry) }
{
    match found {
        Some((place, other)) if has_types_of(method, other) => Some(place),
        _ => None,
    }
}

#[tactic(auto, unfolding(ash_type_rules::specs::Implementations::method_for))]
fn method_for(methods: &[FunctionSignature], method: &FunctionSignature) -> Option<usize>
    ensures value { result
        ≡ implementing.method_for (map function_signature_of methods.now)
        (function_signature_of method.now) }
{
    matching_method(method, first_function(methods, method.name))
}

/// The place of the method for each method of an interface, where the class has them all.
#[tactic(auto, using(crate::proofs::MethodLaws::none_prepended, crate::proofs::MethodLaws::one_prepended))]
fn methods_for(
    alloc: Global,
    methods: &[FunctionSignature],
    declared: &[FunctionSignature],
) -> Result<Option<Vec<usize>>, AllocError>
    ensures value { IfOk result
        (λ places. optional_places places
        ≡ implementing.methods_for (map function_signature_of methods.now)
        (map function_signature_of declared.now)) }
{
    let mut places = Vec::with_capacity(alloc, declared.len())?;
    for method in declared {
        let Some(place) = method_for(methods, method) else {
            return Ok(None);
        };
        places.push(place)?;
    }
    Ok(Some(places))
}

/// The methods of the class of this place for those of the interface of that place, where it has them all.
#[tactic(auto, unfolding(ash_type_rules::specs::Implementations::implemented))]
fn implementing_methods(
    env: &Environment,
    class: usize,
    interface: usize,
) -> Result<Option<Vec<usize>>, AllocError>
    ensures value { IfOk result
        (λ places. optional_places places
        ≡ implementing.implemented (environment_of env.now) class interface) }
{
    let Some(interface) = env.signatures.interfaces.get(interface) else {
        return Ok(Some(Vec::new(env.alloc)));
    };
    match env.signatures.classes.get(class) {
        Some(class) => methods_for(env.alloc, &class.methods, &interface.methods),
        None => methods_for(env.alloc, &[], &interface.methods),
    }
}

fn build_implementation(
    at: usize,
    interface: usize,
    methods: Option<Vec<usize>>,
) -> CheckResult<Implementation>
    ensures agrees { Agrees implementation_of result
        (definition.implemented_at at interface (optional_places methods)) }
{
    match methods {
        None => Err(fault_at(Rule::TypeMismatch, at)),
        Some(methods) => Ok(Implementation { interface, methods }),
    }
}

/// The interfaces that a class lists, so far.
#[derive(Drop)]
pub(crate) struct ListedInterfaces<'a> {
    pub(crate) names: Names<'a>,
    pub(crate) interfaces: Vec<Implementation>,
}

/// Checks one of the interfaces that the class of this place lists, after those so far.
#[tactic(auto, unfolding(ash_type_rules::specs::ItemRules::check_listed))]
fn check_listed<'a>(
    env: &Environment,
    class: usize,
    listed: &mut ListedInterfaces<'a>,
    name: &'a TypeName,
) -> CheckResult<()>
    ensures agrees { Agrees (λ _. listed_interfaces_of listed.new) result
        (definition.check_listed (environment_of env.now) class (listed_interfaces_of listed.old)
        (type_name_of name.now)) }
{
    let at = name.place.at;
    let object = object_named(env.registry, env.signatures, name.name.as_str());
    let interface = listed_interface_place(at, object)?;
    listed.names.take(at, name.name.as_str())?;
    let methods = implementing_methods(env, class, interface)?;
    let implementation = build_implementation(at, interface, methods)?;
    listed.interfaces.push(implementation)?;
    Ok(())
}

/// Checks the interfaces that the class of this place lists.
pub(crate) fn check_listed_interfaces<'a>(
    env: &Environment,
    class: usize,
    names: &'a [TypeName],
) -> CheckResult<ListedInterfaces<'a>>
    ensures agrees { Agrees listed_interfaces_of result
        (definition.all_listed (environment_of env.now) class definition.none_listed
        (map type_name_of names.now)) }
{
    let mut listed = ListedInterfaces {
        names: Names {
            registry: None,
            taken: IndexSet::new(env.alloc),
            room: 0,
        },
        interfaces: Vec::new(env.alloc),
    };
    for name in names {
        check_listed(env, class, &mut listed, name)?;
    }
    Ok(listed)
}
