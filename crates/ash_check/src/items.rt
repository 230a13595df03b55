//! The walk over a module's items: its types and names, and its bodies in their turn.

ghost use Rattle.std.specs.Prelude.{◌≡◌, [], map, IfOk};
ghost use Rattle.ash_registrations.specs.Registered.{registered};
ghost use Rattle.ash_tree.specs.TreeViews.{vars_of, member_of, class_of as written_class};
ghost use Rattle.ash_tree.specs.TreeViews.{constructor_of};
ghost use Rattle.ash_tree.specs.TreeViews.{item_of, module_of as written_module};
ghost use Rattle.ash_type_rules.specs.ItemRules as definition;
ghost use Rattle.ash_typed.specs.Modules.{implementation_of, class_of, module_of};
ghost use Rattle.ash_check_names.specs.Agreement.{Agrees};
ghost use Rattle.ash_check_names.specs.EnvironmentViews.{environment_of, signatures_of};
ghost use Rattle.ash_check.specs.WalkViews.{names_of, routine_of, row_of, members_of};
ghost use Rattle.ash_check.specs.WalkViews.{walked_of, class_after, class_with, module_after};

use crate::implementations::check_listed_interfaces;
use crate::interfaces::check_interface;
use crate::limits::{MAX_CLASS_MEMBERS, MAX_GLOBALS, MAX_MODULE_TYPES};
use crate::names::Names;
use crate::routines::{Routine, as_routine, check_result_type, check_routine};
use crate::signatures::module_signatures;
use ash_check_names::{CheckResult, Environment, Signatures, fault_at};
use ash_check_statements::{WrittenType, check_decl, check_variable_type, place_of, ty_in};
use ash_registrations::Registrations;
use ash_tree::{Constructor, Item, Member, Vars};
use ash_type_rules::{Rule, Ty};
use ash_typed::{Class, Implementation, Module, Variables};
use indexmap::IndexSet;
use std::alloc::{AllocError, Global};

/// Checks variables of a module or of a class.
#[tactic(auto, unfolding(ash_type_rules::specs::ItemRules::check_vars))]
fn check_vars<'a>(
    env: &Environment<'_, 'a>,
    names: &mut Names<'a>,
    vars: &'a Vars,
) -> CheckResult<Variables>
    ensures agrees { Agrees (row_of (names_of names.new)) result
        (definition.check_vars (environment_of env.now) (names_of names.old) (vars_of vars.now)) }
{
    let place = place_of(&vars.of);
    let of = check_variable_type(&vars.of, ty_in(env, &vars.of))?;
    let written = WrittenType { at: place.at, of };
    let mut variables = Variables {
        line: place.line,
        initializations: Vec::with_capacity(env.alloc, vars.decls.len())?,
    };
    for decl in &vars.decls {
        names.take_counted(decl.place.at, decl.name.as_str())?;
        let value = check_decl(env, written, decl)?;
        variables.initializations.push(value)?;
    }
    Ok(variables)
}

/// A class has one constructor, which has its name.
#[tactic(auto, unfolding(ash_type_rules::specs::ItemRules::constructor_named))]
fn check_constructor_name<'a>(
    class: &Class,
    constructor: &'a Constructor,
) -> CheckResult<Routine<'a>>
    ensures agrees { Agrees routine_of result
        (definition.constructor_named (class_of class.now) (constructor_of constructor.now)) }
{
    if class.constructor.is_some() {
        return Err(fault_at(Rule::NameTaken, constructor.place.at));
    }
    if constructor.name.as_str() != class.name.as_str() {
        return Err(fault_at(Rule::Misplaced, constructor.place.at));
    }
    Ok(Routine {
        place: constructor.place,
        name: constructor.name.as_str(),
        parameters: &constructor.parameters,
        body: &constructor.body,
    })
}

/// Checks a member of a class, after those so far.
#[tactic(auto, using(crate::proofs::FieldLaws::values_append), unfolding(ash_type_rules::specs::ItemRules::check_member))]
fn check_member<'a>(
    env: &Environment<'_, 'a>,
    names: &mut Names<'a>,
    class: &mut Class,
    member: &'a Member,
) -> CheckResult<()>
    ensures agrees { Agrees (λ _. members_of (names_of names.new) class.new) result
        (definition.check_member (environment_of env.now)
        (members_of (names_of names.old) class.old) (member_of member.now)) }
{
    match member {
        Member::Vars(vars) => {
            let mut variables = check_vars(env, names, vars)?;
            class.fields.append(&mut variables.initializations)?;
        }
        Member::Function(method) => {
            let of = check_result_type(env, &method.result)?;
            names.take_counted(method.place.at, method.name.as_str())?;
            let typed = check_routine(env, of, as_routine(method))?;
            class.methods.push(typed)?;
        }
        Member::Constructor(constructor) => {
            let routine = check_constructor_name(class, constructor)?;
            let typed = check_routine(env, Ty::Void, routine)?;
            class.constructor = Some(typed);
        }
    }
    Ok(())
}

/// A class that lists these interfaces, before its members are checked.
fn empty_class(
    alloc: Global,
    class: &ash_tree::Class,
    interfaces: Vec<Implementation>,
) -> Result<Class, AllocError>
    ensures empty { IfOk result
        (λ typed. class_of typed
        ≡ (definition.no_members (written_class class.now)
        (map implementation_of interfaces.items)).class) }
{
    Ok(Class {
        name: class.name.clone()?,
        line: class.place.line,
        interfaces,
        fields: Vec::new(alloc),
        constructor: None,
        methods: Vec::new(alloc),
    })
}

/// Checks these members of a class, after those so far.
fn check_more_members<'a>(
    env: &Environment<'_, 'a>,
    names: &mut Names<'a>,
    mut class: Class,
    members: &'a [Member],
) -> CheckResult<Class>
    ensures agrees { Agrees class_of result
        (class_after (environment_of env.now) (members_of (names_of names.old) class)
        (map member_of members.now)) }
{
    for member in members {
        check_member(env, names, &mut class, member)?;
    }
    Ok(class)
}

/// Checks the members of the class of this place, which lists these interfaces.
fn check_members<'a>(
    env: &Environment<'_, 'a>,
    place: usize,
    class: &'a ash_tree::Class,
    interfaces: Vec<Implementation>,
) -> CheckResult<Class>
    ensures agrees { Agrees class_of result
        (class_with (environment_of env.now) place (written_class class.now)
        (map implementation_of interfaces.items)) }
{
    let inside = Environment {
        alloc: env.alloc,
        signatures: env.signatures,
        registry: env.registry,
        this: Some(place),
        locals: &[],
    };
    let typed = empty_class(env.alloc, class, interfaces)?;
    let mut names = Names {
        registry: None,
        taken: IndexSet::new(env.alloc),
        room: MAX_CLASS_MEMBERS,
    };
    check_more_members(&inside, &mut names, typed, &class.members)
}

/// Checks the class of this place.
#[tactic(auto, unfolding(ash_type_rules::specs::ItemRules::check_class))]
fn check_class<'a>(
    env: &Environment<'_, 'a>,
    place: usize,
    class: &'a ash_tree::Class,
) -> CheckResult<Class>
    ensures agrees { Agrees class_of result
        (definition.check_class (environment_of env.now) place (written_class class.now)) }
{
    let listed = check_listed_interfaces(env, place, &class.interfaces)?;
    check_members(env, place, class, listed.interfaces)
}

/// Requires that a module has room for one more class or interface.
#[tactic(auto, unfolding(ash_type_rules::specs::ItemRules::room_for_type))]
fn check_type_count(at: usize, typed: &Module) -> CheckResult<usize>
    ensures agrees { Agrees (λ place. place) result
        (definition.room_for_type at (module_of typed.now)) }
{
    if typed.classes.len() + typed.interfaces.len() >= MAX_MODULE_TYPES {
        return Err(fault_at(Rule::TooMany, at));
    }
    Ok(typed.classes.len())
}

/// Checks an item of a module, after those so far.
#[tactic(auto, unfolding(ash_type_rules::specs::ItemRules::check_item))]
fn check_item<'a>(
    env: &Environment<'_, 'a>,
    names: &mut Names<'a>,
    typed: &mut Module,
    item: &'a Item,
) -> CheckResult<()>
    ensures agrees { Agrees (λ _. walked_of (names_of names.new) typed.new) result
        (definition.check_item (environment_of env.now) (walked_of (names_of names.old) typed.old)
        (item_of item.now)) }
{
    match item {
        Item::Class(class) => {
            names.take(class.place.at, class.name.as_str())?;
            let place = check_type_count(class.place.at, typed)?;
            let next = check_class(env, place, class)?;
            typed.classes.push(next)?;
        }
        Item::Interface(interface) => {
            names.take(interface.place.at, interface.name.as_str())?;
            let classes = check_type_count(interface.place.at, typed)?;
            let next = check_interface(env, classes, interface)?;
            typed.interfaces.push(next)?;
        }
        Item::Function(function) => {
            let of = check_result_type(env, &function.result)?;
            names.take(function.place.at, function.name.as_str())?;
            let next = check_routine(env, of, as_routine(function))?;
            typed.functions.push(next)?;
        }
        Item::Vars(vars) => {
            let variables = check_vars(env, names, vars)?;
            typed.globals.push(variables)?;
        }
    }
    Ok(())
}

/// A module before its items are checked, with room for what it declares.
fn empty_module(alloc: Global, signatures: &Signatures) -> Result<Module, AllocError>
    ensures empty { IfOk result (λ typed. module_of typed ≡ (definition.nothing []).typed) }
{
    Ok(Module {
        interfaces: Vec::with_capacity(alloc, signatures.interfaces.len())?,
        classes: Vec::with_capacity(alloc, signatures.classes.len())?,
        functions: Vec::with_capacity(alloc, signatures.functions.len())?,
        globals: Vec::new(alloc),
    })
}

/// The names that are taken in a module before its items are checked, with room for those of so many items.
fn names_of_module(
    alloc: Global,
    registry: &Registrations,
    items: usize,
) -> Result<Names<'_>, AllocError>
    ensures registered { IfOk result
        (λ names. names_of names ≡ (definition.nothing (registered registry.now)).names) }
{
    Ok(Names {
        registry: Some(registry),
        taken: IndexSet::with_capacity(alloc, items)?,
        room: MAX_GLOBALS,
    })
}

/// Checks these items of a module in their order, after those so far.
fn check_more_items<'a>(
    env: &Environment<'_, 'a>,
    names: &mut Names<'a>,
    mut typed: Module,
    items: &'a [Item],
) -> CheckResult<Module>
    ensures agrees { Agrees module_of result
        (module_after (environment_of env.now) (walked_of (names_of names.old) typed)
        (map item_of items.now)) }
{
    for item in items {
        check_item(env, names, &mut typed, item)?;
    }
    Ok(typed)
}

/// Checks the items of a module in their order.
fn check_items<'a>(
    alloc: Global,
    registry: &'a Registrations,
    signatures: &Signatures<'a>,
    items: &'a [Item],
) -> CheckResult<Module>
    ensures agrees { Agrees module_of result
        (definition.module_by (registered registry.now) (signatures_of signatures.now)
        (map item_of items.now)) }
{
    let env = Environment {
        alloc,
        signatures,
        registry,
        this: None,
        locals: &[],
    };
    let typed = empty_module(alloc, signatures)?;
    let mut names = names_of_module(alloc, registry, items.len())?;
    check_more_items(&env, &mut names, typed, items)
}

/// Checks a module.
#[tactic(auto, unfolding(ash_type_rules::specs::ItemRules::check_module))]
pub(crate) fn check_module(
    alloc: Global,
    registry: &Registrations,
    declared: &ash_tree::Module,
) -> CheckResult<Module>
    ensures agrees { Agrees module_of result
        (definition.check_module (registered registry.now) (written_module declared.now)) }
{
    let signatures = module_signatures(alloc, registry, declared)?;
    check_items(alloc, registry, &signatures, &declared.items)
}
