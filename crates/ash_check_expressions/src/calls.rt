//! Names, calls and suffixes, once their parts are typed.

ghost use Rattle.std.specs.Prelude.{◌≡◌, map, option_map, IfOk};
ghost use Rattle.ash_typed.specs.TypedTreeViews.{expr_of};
ghost use Rattle.ash_type_rules.specs.Environment as environment;
ghost use Rattle.ash_type_rules.specs.Terms as terms;
ghost use Rattle.ash_type_rules.specs.ExpressionRules as typing;
ghost use Rattle.ash_check_names.specs.Agreement.{Agrees};
ghost use Rattle.ash_check_names.specs.EnvironmentViews.{parameters_of, callee_of, environment_of, classes_of};
ghost use Rattle.ash_check_expressions.specs.TypedExprViews.{typed_of, arguments_of, optional_method_callee};

use crate::forms::bracketed_form;
use crate::typed_expr::{TypedExpr, coerce_for_assignment};
use ash_check_names::{
    Callee, CheckResult, Environment, MethodCallee, Parameters, fault_at, var_type,
};
use ash_type_rules::{Callable, Rule, Ty};
use ash_typed::{Expr, ExprKind, Method, ObjectMember, ObjectType, VarType, nodes};
use std::alloc::{AllocError, Global};

/// A name in the source, with its offset.
#[derive(Clone, Copy)]
pub(crate) struct Name<'a> {
    pub(crate) at: usize,
    pub(crate) text: &'a str,
}

/// The arguments of a call, with the offset at which a wrong number of them is reported.
#[derive(Drop)]
pub struct Arguments {
    pub at: usize,
    pub exprs: Vec<TypedExpr>,
}

/// Converts each argument to the type of its parameter.
fn coerce_arguments(
    env: &Environment,
    parameters: &Parameters,
    arguments: Vec<TypedExpr>,
) -> CheckResult<Vec<Expr>>
    ensures agrees { Agrees arguments_of result
        (typing.all_coerced (classes_of env.now) (parameters_of parameters.now)
        (map typed_of arguments.items)) }
{
    let mut coerced = Vec::with_capacity(env.alloc, arguments.len())?;
    let mut rest = *parameters;
    for argument in arguments {
        let Some((of, others)) = rest.split_first() else {
            return Ok(coerced);
        };
        coerced.push(coerce_for_assignment(env, of, argument)?)?;
        rest = others;
    }
    Ok(coerced)
}

/// Compares the number of arguments with that of the parameters, and converts each argument.
#[tactic(auto, unfolding(ash_type_rules::specs::ExpressionRules::arguments_at))]
fn check_arguments(
    env: &Environment,
    parameters: &Parameters,
    arguments: Arguments,
) -> CheckResult<Vec<Expr>>
    ensures agrees { Agrees arguments_of result
        (typing.arguments_at (classes_of env.now) arguments.at (parameters_of parameters.now)
        (map typed_of arguments.exprs.items)) }
{
    if parameters.len() != arguments.exprs.len() {
        return Err(fault_at(Rule::WrongArgumentCount, arguments.at));
    }
    coerce_arguments(env, parameters, arguments.exprs)
}

/// The tree of a call by a name: a method is called on the object that runs.
fn call_tree(
    alloc: Global,
    callable: Callable,
    parameters: Vec<VarType>,
    arguments: Vec<Expr>,
) -> Result<Expr, AllocError>
    ensures value { IfOk result
        (λ e. expr_of e ≡ terms.call_of callable parameters.items (arguments_of arguments)) }
{
    match callable {
        Callable::OwnMethod {
            class,
            method,
            result,
        } => {
            let method = Method::Script {
                class,
                method,
                result,
            };
            let this = Expr::new(alloc, ExprKind::This(class))?;
            nodes::invoke(alloc, this, method, parameters, arguments)
        }
        Callable::Target(target) => nodes::call(alloc, target, parameters, arguments),
    }
}

/// A call of this callee.
#[tactic(auto, unfolding(ash_type_rules::specs::ExpressionRules::called))]
pub fn build_call(
    env: &Environment,
    callee: &Callee,
    arguments: Arguments,
) -> CheckResult<TypedExpr>
    ensures typed_call { Agrees typed_of result
        (typing.called (classes_of env.now) arguments.at (callee_of callee.now)
        (map typed_of arguments.exprs.items) (option_map parameters_of callee.now.parameters)) }
{
    let at = arguments.at;
    let Some(parameters) = callee.parameters else {
        return Err(fault_at(Rule::NoFactory, at));
    };
    let arguments = check_arguments(env, &parameters, arguments)?;
    let types = parameters.types(env.alloc)?;
    let tree = call_tree(env.alloc, callee.target, types, arguments)?;
    Ok(TypedExpr::value(at, callee.result, tree))
}

/// A name alone.
#[inline(never)]
pub(crate) fn check_name(env: &Environment, name: Name) -> CheckResult<TypedExpr>
    ensures agrees { Agrees typed_of result
        (typing.known_at name.entry.at
        (environment.variable_in (environment_of env.now) name.entry.text.now)) }
{
    match env.variable(name.text)? {
        None => Err(fault_at(Rule::UnknownName, name.at)),
        Some((tree, of)) => Ok(TypedExpr::place(name.at, of, tree)),
    }
}

/// The callee of a call by this name.
pub(crate) fn callee_named<'a>(env: &Environment<'a, '_>, name: Name) -> CheckResult<Callee<'a>>
    ensures agrees { Agrees callee_of result
        (typing.callee_at name.entry.at
        (environment.callee_in (environment_of env.now) name.entry.text.now)) }
{
    match env.callee(name.text) {
        None => Err(fault_at(Rule::UnknownName, name.at)),
        Some(callee) => Ok(callee),
    }
}

/// `this`
pub(crate) fn check_this(alloc: Global, at: usize, class: Option<usize>) -> CheckResult<TypedExpr>
    ensures agrees { Agrees typed_of result (typing.this_at at class) }
{
    match class {
        None => Err(fault_at(Rule::Misplaced, at)),
        Some(class) => {
            let of = Ty::Handle(ObjectType::Class(class));
            TypedExpr::of_kind(alloc, at, of, ExprKind::This(class))
        }
    }
}

fn build_member(
    env: &Environment,
    base: TypedExpr,
    of: ObjectType,
    name: Name,
) -> CheckResult<TypedExpr>
    ensures agrees { Agrees typed_of result
        (typing.member_at (typed_of base) name.entry.at
        (environment.member_in (environment_of env.now) of name.entry.text.now)) }
{
    match env.member(of, name.text) {
        None => Err(fault_at(Rule::UnknownName, name.at)),
        Some((member, of)) => Ok(TypedExpr::place(
            base.at,
            of,
            nodes::member(env.alloc, base.tree, member)?,
        )),
    }
}

/// `base.name`
#[tactic(auto, unfolding(ash_type_rules::specs::ExpressionRules::field_of))]
pub(crate) fn build_field(env: &Environment, base: TypedExpr, name: Name) -> CheckResult<TypedExpr>
    ensures agrees { Agrees typed_of result
        (typing.field_of (environment_of env.now) (typed_of base) base.ty name.entry.at
        name.entry.text.now) }
{
    match base.ty {
        Ty::Object(of) | Ty::Handle(of) => build_member(env, base, of, name),
        Ty::Unknown => {
            let unknown = ObjectMember::Field {
                class: 0,
                place: 0,
                of: var_type(Ty::Unknown),
            };
            let tree = nodes::member(env.alloc, base.tree, unknown)?;
            Ok(TypedExpr::place(base.at, Ty::Unknown, tree))
        }
        _ => Err(fault_at(Rule::TypeMismatch, base.at)),
    }
}

fn object_method<'a>(
    env: &Environment<'a, '_>,
    of: ObjectType,
    name: Name,
) -> CheckResult<Option<MethodCallee<'a>>>
    ensures agrees { Agrees optional_method_callee result
        (typing.invoked_at name.entry.at
        (environment.method_in (environment_of env.now) of name.entry.text.now)) }
{
    match env.method(of, name.text) {
        None => Err(fault_at(Rule::UnknownName, name.at)),
        Some(method) => Ok(Some(method)),
    }
}

/// The method of `base.name(..)`; nothing where the type of the base is unknown.
#[tactic(auto, unfolding(ash_type_rules::specs::ExpressionRules::method_of))]
pub(crate) fn find_method<'a>(
    env: &Environment<'a, '_>,
    base: &TypedExpr,
    name: Name,
) -> CheckResult<Option<MethodCallee<'a>>>
    ensures agrees { Agrees optional_method_callee result
        (typing.method_of (environment_of env.now) (typed_of base.now) base.now.ty name.entry.at
        name.entry.text.now) }
{
    match base.ty {
        Ty::Object(of) | Ty::Handle(of) => object_method(env, of, name),
        Ty::Unknown => Ok(None),
        _ => Err(fault_at(Rule::TypeMismatch, base.at)),
    }
}

/// `base.name(..)`
#[tactic(auto, unfolding(ash_type_rules::specs::ExpressionRules::invoked))]
pub(crate) fn build_method_call(
    env: &Environment,
    base: TypedExpr,
    method: Option<MethodCallee>,
    arguments: Arguments,
) -> CheckResult<TypedExpr>
    ensures agrees { Agrees typed_of result
        (typing.invoked (classes_of env.now) (typed_of base) arguments.at
        (map typed_of arguments.exprs.items) (optional_method_callee method.entry)) }
{
    let Some(method) = method else {
        return TypedExpr::of_kind(env.alloc, base.at, Ty::Unknown, ExprKind::Null);
    };
    let arguments = check_arguments(env, &method.parameters, arguments)?;
    let types = method.parameters.types(env.alloc)?;
    let tree = nodes::invoke(env.alloc, base.tree, method.method, types, arguments)?;
    Ok(TypedExpr::value(base.at, method.result, tree))
}

/// `(typed)`, at the bracket
pub(crate) fn build_brackets(at: usize, typed: TypedExpr) -> TypedExpr
    ensures value { typed_of result ≡ typing.in_brackets at (typed_of typed) }
{
    TypedExpr {
        at,
        ty: typed.ty,
        form: bracketed_form(typed.form),
        tree: typed.tree,
    }
}
