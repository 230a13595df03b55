//! Declared variables, and their initial values.

ghost use Rattle.std.specs.Prelude.{◌≡◌, map, option_map, IfOk, IsErrOf};
ghost use Rattle.ash_registrations.specs.Registered.{registered};
ghost use Rattle.ash_tree.specs.Tree.{place_of_type};
ghost use Rattle.ash_tree.specs.TreeViews.{element_of, type_of, initializer_of, decl_of};
ghost use Rattle.ash_typed.specs.BodyViews.{value_of};
ghost use Rattle.ash_type_rules.specs.Environment as environment;
ghost use Rattle.ash_type_rules.specs.ModuleDeclarations as type_names;
ghost use Rattle.ash_type_rules.specs.ExpressionRules as typing;
ghost use Rattle.ash_type_rules.specs.Declarations as definition;
ghost use Rattle.ash_check_names.specs.declared.error.CheckError.TheVariants.{NoMemory};
ghost use Rattle.ash_check_names.specs.Agreement.{Agrees};
ghost use Rattle.ash_check_names.specs.EnvironmentViews.{class_signature_of, classes_of, callee_of};
ghost use Rattle.ash_check_names.specs.EnvironmentViews.{environment_of};
ghost use Rattle.ash_check_expressions.specs.TypedExprViews.{typed_of};
ghost use Rattle.ash_check_statements.specs.StatementViews.{optional_expr};

use ash_check_expressions::{
    Arguments, AssignmentSide, TypedExpr, array_callee, build_call, check_expr, check_exprs,
    coerce_for_assignment,
};
use ash_check_names::{Callee, CheckResult, Environment, Parameters, fault_at, ty_named, var_type};
use ash_tree::{Decl, Element, Initializer, Position, Type, TypeKind};
use ash_type_rules::{Callable, Rule, Ty};
use ash_typed::{CallTarget, Expr, Initialization, ObjectType};

/// Where a type is written.
#[tactic(auto, using(ash_tree::proofs::Rows::type_place_is))]
pub fn place_of(of: &Type) -> Position
    ensures place_written { result ≡ place_of_type (type_of of.now) }
{
    of.place
}

/// The type that is written.
pub fn ty_in(env: &Environment, of: &Type) -> Ty
    ensures type_found { result ≡ type_names.ty_in (environment_of env.now) (type_of of.now) }
{
    ty_named(env.registry, env.signatures, of)
}

fn element_offset(of: &Element) -> usize
    ensures value { result ≡ typing.at_element (element_of of.now) }
{
    of.place.at
}

/// Where the name in a type is: of an array, that of its elements' type.
pub fn type_name_offset(of: &Type) -> usize
    ensures element_name_if_array { result ≡ definition.at_type_name (type_of of.now) }
{
    match &of.kind {
        TypeKind::Array(element) | TypeKind::ArrayHandle(element) => element_offset(element),
        _ => of.place.at,
    }
}

/// Requires that the type of variables is known, and that it is not that of objects of an interface. No memory is
/// taken.
#[tactic(auto, unfolding(ash_type_rules::specs::Declarations::known_ty))]
pub fn check_variable_type(written: &Type, of: Ty) -> CheckResult<Ty>
    ensures typed { Agrees (λ t. t) result (definition.known_ty (type_of written.now) of) }
    ensures same { IfOk result (λ known. known ≡ of) }
    ensures no_memory { IsErrOf result NoMemory → ⊥ }
{
    match of {
        Ty::Unknown => Err(fault_at(Rule::UnknownType, type_name_offset(written))),
        Ty::Object(ObjectType::Interface(_)) => {
            Err(fault_at(Rule::Misplaced, place_of(written).at))
        }
        _ => Ok(of),
    }
}

#[tactic(auto, unfolding(ash_type_rules::specs::Environment::class_construction))]
fn class_callee<'a>(env: &Environment<'a, '_>, place: usize) -> Option<Callee<'a>>
    ensures value { option_map callee_of result
        ≡ environment.class_construction
        (map class_signature_of env.now.signatures.now.classes.items) place }
{
    let class = env.signatures.classes.get(place)?;
    Some(Callee {
        target: Callable::Target(CallTarget::Class(place)),
        result: Ty::Handle(ObjectType::Class(place)),
        parameters: Some(Parameters::Script(&class.parameters)),
    })
}

#[tactic(auto, unfolding(ash_type_rules::specs::Environment::kind_construction))]
fn host_callee<'a>(env: &Environment<'a, '_>, kind: u16) -> Option<Callee<'a>>
    ensures value { option_map callee_of result
        ≡ environment.kind_construction (registered env.now.registry.now) kind }
{
    let registration = env.registry.of_kind(kind)?;
    env.host_type_callee(registration)
}

/// A type, with the offset at which it is written.
#[derive(Clone, Copy)]
pub struct WrittenType {
    pub at: usize,
    pub of: Ty,
}

/// The construction of an object from so many arguments.
#[tactic(auto, unfolding(ash_type_rules::specs::Environment::construction))]
fn object_callee<'a>(env: &Environment<'a, '_>, of: ObjectType, count: usize) -> Option<Callee<'a>>
    ensures value { option_map callee_of result
        ≡ environment.construction (environment_of env.now) of count }
{
    match of {
        ObjectType::Class(place) => class_callee(env, place),
        ObjectType::Interface(_) => None,
        ObjectType::Host(kind) => host_callee(env, kind),
        ObjectType::Array(element) => Some(array_callee(element, count)),
    }
}

/// An object, constructed by its callee.
#[tactic(auto, unfolding(ash_type_rules::specs::Declarations::constructed))]
fn build_object(
    env: &Environment,
    callee: Option<Callee>,
    arguments: Arguments,
) -> CheckResult<Option<Expr>>
    ensures agrees { Agrees optional_expr result
        (definition.constructed (classes_of env.now) arguments.at
        (map typed_of arguments.exprs.items) (option_map callee_of callee.entry)) }
{
    let Some(callee) = callee else {
        return Err(fault_at(Rule::NoFactory, arguments.at));
    };
    let object = build_call(env, &callee, arguments)?;
    Ok(Some(object.tree))
}

/// `T x`, of this type.
#[tactic(auto, unfolding(ash_type_rules::specs::Declarations::begun))]
fn build_default(env: &Environment, written: WrittenType) -> CheckResult<Option<Expr>>
    ensures agrees { Agrees optional_expr result
        (definition.begun (environment_of env.now) written.at written.of) }
{
    match written.of {
        Ty::Object(object) => {
            let callee = object_callee(env, object, 0);
            let arguments = Arguments {
                at: written.at,
                exprs: Vec::new(env.alloc),
            };
            build_object(env, callee, arguments)
        }
        _ => Ok(None),
    }
}

fn build_first_value(env: &Environment, of: Ty, typed: TypedExpr) -> CheckResult<Option<Expr>>
    ensures agrees { Agrees optional_expr result
        (definition.stored_first (classes_of env.now) of (typed_of typed)) }
{
    let value = coerce_for_assignment(env, of, typed)?;
    Ok(Some(value))
}

/// `T x = e`, with x at this offset: objects are not assigned.
#[tactic(auto, unfolding(ash_type_rules::specs::Declarations::begun_with))]
fn build_value(env: &Environment, at: usize, of: Ty, typed: TypedExpr) -> CheckResult<Option<Expr>>
    ensures agrees { Agrees optional_expr result
        (definition.begun_with (classes_of env.now) at of (typed_of typed)) }
{
    match of {
        Ty::Object(_) => Err(fault_at(Rule::NotAssignable, at)),
        _ => build_first_value(env, of, typed),
    }
}

/// `T x(e)` is `T x = e` for a primitive type.
#[tactic(auto, unfolding(ash_type_rules::specs::Declarations::begun_by_one))]
fn build_from_one(
    env: &Environment,
    at: usize,
    of: Ty,
    mut exprs: Vec<TypedExpr>,
) -> CheckResult<Option<Expr>>
    ensures agrees { Agrees optional_expr result
        (definition.begun_by_one (classes_of env.now) at of (map typed_of exprs.items)) }
{
    if exprs.len() != 1 {
        return Err(fault_at(Rule::TypeMismatch, at));
    }
    match exprs.pop() {
        Some(one) => build_first_value(env, of, one),
        None => Err(fault_at(Rule::TypeMismatch, at)),
    }
}

/// `T x(e ..)`, of this type, with x at this offset.
#[tactic(auto, unfolding(ash_type_rules::specs::Declarations::begun_by))]
fn build_from_arguments(
    env: &Environment,
    written: WrittenType,
    at: usize,
    exprs: Vec<TypedExpr>,
) -> CheckResult<Option<Expr>>
    ensures agrees { Agrees optional_expr result
        (definition.begun_by (environment_of env.now) written.at at written.of
        (map typed_of exprs.items)) }
{
    match written.of {
        Ty::Object(object) => {
            let callee = object_callee(env, object, exprs.len());
            let arguments = Arguments {
                at: written.at,
                exprs,
            };
            build_object(env, callee, arguments)
        }
        Ty::Handle(_) => Err(fault_at(Rule::TypeMismatch, at)),
        _ => build_from_one(env, at, written.of, exprs),
    }
}

/// Checks the initializer of a variable of this type, whose name is at this offset.
#[tactic(auto, unfolding(ash_type_rules::specs::Declarations::initialized))]
fn check_initializer(
    env: &Environment,
    written: WrittenType,
    at: usize,
    initializer: &Initializer,
) -> CheckResult<Option<Expr>>
    ensures agrees { Agrees optional_expr result
        (definition.initialized (environment_of env.now) written.at at written.of
        (initializer_of initializer.now)) }
{
    match initializer {
        Initializer::Default => build_default(env, written),
        Initializer::Value(value) => {
            let typed = check_expr(env, AssignmentSide::Value, value)?;
            build_value(env, at, written.of, typed)
        }
        Initializer::Arguments(arguments) => {
            let exprs = check_exprs(env, arguments)?;
            build_from_arguments(env, written, at, exprs)
        }
    }
}

/// Checks what a variable of this type is initialized with, and gives the variable with its first value. It tests
/// neither whether the type is known, as `check_variable_type` does, nor whether the name is free.
#[tactic(auto, unfolding(ash_type_rules::specs::Declarations::check_decl))]
pub fn check_decl(
    env: &Environment,
    written: WrittenType,
    decl: &Decl,
) -> CheckResult<Initialization>
    ensures typed { Agrees value_of result
        (definition.check_decl (environment_of env.now) written.at written.of (decl_of decl.now)) }
{
    let value = check_initializer(env, written, decl.place.at, &decl.initializer)?;
    Ok(Initialization {
        name: decl.name.clone()?,
        of: var_type(written.of),
        value,
    })
}
