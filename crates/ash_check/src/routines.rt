//! Functions, methods and constructors: their parameters, their results and their bodies.

ghost use Rattle.std.specs.Prelude.{◌≡◌, [], map, option_map, IfOk};
ghost use Rattle.ash_tree.specs.TreeViews.{type_of, parameter_of, function_of as written_function};
ghost use Rattle.ash_tree.specs.Items as items;
ghost use Rattle.ash_type_rules.specs.Environment.{type_declared};
ghost use Rattle.ash_type_rules.specs.ItemRules as definition;
ghost use Rattle.ash_typed.specs.Modules.{function_of};
ghost use Rattle.ash_check_names.specs.Agreement.{Agrees};
ghost use Rattle.ash_check_names.specs.EnvironmentViews.{binding_of, environment_of};
ghost use Rattle.ash_check.specs.WalkViews.{routine_of};

use ash_check_names::{
    Binding, CheckResult, Environment, fault_at, is_void, result_type, var_type,
};
use ash_check_statements::{
    any_declares, body_returns, check_body, place_of, ty_in, type_name_offset,
};
use ash_tree::{Parameter, Position, Stmt, Type};
use ash_type_rules::{Rule, Ty};
use ash_typed::{Function, VarType};
use std::alloc::{AllocError, Global};

/// A function, a method or a constructor, as it is written after its result.
#[derive(Clone, Copy)]
pub(crate) struct Routine<'a> {
    pub(crate) place: Position,
    pub(crate) name: &'a str,
    pub(crate) parameters: &'a [Parameter],
    pub(crate) body: &'a [Stmt],
}

/// The type of a parameter or of a result: objects are passed by handles.
#[tactic(auto, unfolding(ash_type_rules::specs::ItemRules::passed_ty))]
fn check_passed_type(written: &Type, of: Ty) -> CheckResult<Ty>
    ensures agrees { Agrees (λ t. t) result (definition.passed_ty (type_of written.now) of) }
{
    match of {
        Ty::Unknown => Err(fault_at(Rule::UnknownType, type_name_offset(written))),
        Ty::Object(_) => Err(fault_at(Rule::Misplaced, place_of(written).at)),
        _ => Ok(of),
    }
}

/// Checks the type of a result.
pub(crate) fn check_result_type(env: &Environment, of: &Option<Type>) -> CheckResult<Ty>
    ensures agrees { Agrees (λ t. t) result
        (definition.check_result (environment_of env.now) (option_map type_of of.now)) }
{
    match of {
        None => Ok(Ty::Void),
        Some(of) => check_passed_type(of, ty_in(env, of)),
    }
}

/// Checks parameters, whose names have to differ.
pub(crate) fn check_parameters<'a>(
    env: &Environment<'_, 'a>,
    parameters: &'a [Parameter],
) -> CheckResult<Vec<Binding<'a>>>
    ensures agrees { Agrees (λ all. map binding_of all.items) result
        (definition.check_parameters (environment_of env.now) []
        (map parameter_of parameters.now)) }
{
    let mut all = Vec::with_capacity(env.alloc, parameters.len())?;
    for parameter in parameters {
        let of = check_passed_type(&parameter.of, ty_in(env, &parameter.of))?;
        let name = parameter.name.as_str();
        if any_declares(&all, name) {
            return Err(fault_at(Rule::NameTaken, parameter.place.at));
        }
        all.push(Binding { name, of })?;
    }
    Ok(all)
}

pub(crate) fn types_of(alloc: Global, all: &[Binding]) -> Result<Vec<VarType>, AllocError>
    ensures value { IfOk result (λ types. types.items
        ≡ map type_declared (map binding_of all.now)) }
{
    let mut types = Vec::with_capacity(alloc, all.len())?;
    for declared in all {
        types.push(var_type(declared.of))?;
    }
    Ok(types)
}

/// Checks a function that returns this type, a method or a constructor.
#[tactic(auto, unfolding(ash_type_rules::specs::ItemRules::check_routine, ash_type_rules::specs::ItemRules::returning))]
pub(crate) fn check_routine<'a>(
    env: &Environment<'_, 'a>,
    of: Ty,
    routine: Routine<'a>,
) -> CheckResult<Function>
    ensures agrees { Agrees function_of result
        (definition.check_routine (environment_of env.now) of (routine_of routine.entry)) }
{
    let locals = check_parameters(env, routine.parameters)?;
    let parameters = types_of(env.alloc, &locals)?;
    let body = check_body(env, locals, of, routine.body)?;
    if !is_void(of) && !body_returns(routine.body) {
        return Err(fault_at(Rule::NoReturn, routine.place.at));
    }
    Ok(Function {
        name: String::from_str(env.alloc, routine.name)?,
        line: routine.place.line,
        result: result_type(of),
        parameters,
        body,
    })
}

/// A function, a method or a constructor, without its result.
pub(crate) fn as_routine(function: &ash_tree::Function) -> Routine<'_>
    ensures value { routine_of result ≡ items.routine_of (written_function function.now) }
{
    Routine {
        place: function.place,
        name: function.name.as_str(),
        parameters: &function.parameters,
        body: &function.body,
    }
}
