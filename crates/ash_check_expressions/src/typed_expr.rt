//! Typed expressions, and conversions of their values.

ghost use Rattle.std.specs.Prelude.{◌≡◌, true, Ok, IfOk, IsErrOf};
ghost use Rattle.ash_typed.specs.TypedTree.{converted};
ghost use Rattle.ash_typed.specs.TypedTreeViews.{expr_in, expr_of};
ghost use Rattle.ash_type_rules.specs.Terms as terms;
ghost use Rattle.ash_type_rules.specs.ExpressionRules as typing;
ghost use Rattle.ash_check_names.specs.declared.error.CheckError.TheVariants.{NoMemory};
ghost use Rattle.ash_check_names.specs.Agreement.{Agrees};
ghost use Rattle.ash_check_names.specs.EnvironmentViews.{classes_of};
ghost use Rattle.ash_check_expressions.specs.TypedExprViews.{typed_of};

use ash_check_names::{CheckResult, Environment, conversion, fault_at, fits, holds, number_type};
use ash_type_rules::{Form, OperatorClass, Rule, Ty};
use ash_typed::{Expr, ExprKind, IntType, nodes};
use std::alloc::{AllocError, Global};

/// A typed expression, with the offset of its first token and what it is by itself.
#[derive(Drop)]
pub struct TypedExpr {
    pub at: usize,
    pub ty: Ty,
    pub form: Form,
    pub tree: Expr,
}

impl TypedExpr {
    /// An expression that is neither a number nor a place.
    pub(crate) fn value(at: usize, ty: Ty, tree: Expr) -> TypedExpr
        ensures value { typed_of result ≡ typing.term_at at ty (expr_of tree) }
    {
        TypedExpr {
            at,
            ty,
            form: Form::Value,
            tree,
        }
    }

    /// An expression of this kind, which is neither a number nor a place.
    pub(crate) fn of_kind(
        alloc: Global,
        at: usize,
        ty: Ty,
        kind: ExprKind,
    ) -> CheckResult<TypedExpr>
        ensures agrees { Agrees typed_of result (Ok (typing.term_at at ty (expr_in kind))) }
    {
        let tree = Expr::new(alloc, kind)?;
        Ok(TypedExpr::value(at, ty, tree))
    }

    /// What can be assigned: the tree reads the place.
    pub(crate) fn place(at: usize, ty: Ty, tree: Expr) -> TypedExpr
        ensures value { typed_of result ≡ typing.read_at at ty (expr_of tree) }
    {
        TypedExpr {
            at,
            ty,
            form: Form::Place,
            tree,
        }
    }

    /// A number by itself.
    pub(crate) fn number(alloc: Global, at: usize, number: u64) -> CheckResult<TypedExpr>
        ensures agrees { Agrees typed_of result (Ok (typing.placed at (terms.number_term number))) }
    {
        let int_type = number_type(number);
        let kind = ExprKind::Number {
            of: int_type,
            value: number,
        };
        let tree = Expr::new(alloc, kind)?;
        Ok(TypedExpr {
            at,
            ty: Ty::Integer(int_type),
            form: Form::Number(number),
            tree,
        })
    }
}

/// The value, converted to the type `to`.
pub(crate) fn coerce(alloc: Global, to: Ty, typed: TypedExpr) -> Result<Expr, AllocError>
    ensures value { IfOk result (λ e. expr_of e ≡ typing.coerced to (typed_of typed)) }
{
    nodes::convert(alloc, conversion(to, typed.ty), typed.tree)
}

/// The value, converted to the type `to` of the variable that it is assigned to.
#[tactic(auto, unfolding(ash_type_rules::specs::ExpressionRules::coerced_for_assignment))]
pub fn coerce_for_assignment(env: &Environment, to: Ty, typed: TypedExpr) -> CheckResult<Expr>
    ensures fits_and_converted { Agrees expr_of result
        (typing.coerced_for_assignment (classes_of env.now) to (typed_of typed)) }
{
    if !fits(&env.signatures.classes, to, typed.ty) {
        return Err(fault_at(Rule::TypeMismatch, typed.at));
    }
    Ok(coerce(env.alloc, to, typed)?)
}

/// The integer type of an operand. No memory is taken.
pub fn integer_type(at: usize, of: Ty) -> CheckResult<IntType>
    ensures integer_or_mismatch { Agrees (λ k. k) result (typing.integer_of at of) }
    ensures no_memory { IsErrOf result NoMemory → ⊥ }
{
    match of {
        Ty::Integer(int_type) => Ok(int_type),
        Ty::Unknown => Ok(IntType::Int),
        _ => Err(fault_at(Rule::TypeMismatch, at)),
    }
}

/// Requires that an operand is a truth value. No memory is taken.
pub fn check_bool(at: usize, of: Ty) -> CheckResult<()>
    ensures bool_or_mismatch { Agrees (λ _. true) result (typing.bool_of at of) }
    ensures no_memory { IsErrOf result NoMemory → ⊥ }
{
    match of {
        Ty::Bool | Ty::Unknown => Ok(()),
        _ => Err(fault_at(Rule::TypeMismatch, at)),
    }
}

/// The type of a handle of an operand's object.
pub(crate) fn handle_type(at: usize, of: Ty) -> CheckResult<Ty>
    ensures agrees { Agrees (λ k. k) result (typing.handle_of at of) }
{
    match of {
        Ty::Object(object) | Ty::Handle(object) => Ok(Ty::Handle(object)),
        Ty::Unknown => Ok(Ty::Unknown),
        _ => Err(fault_at(Rule::TypeMismatch, at)),
    }
}

/// A number takes the type of the other operand where that is an integer type that holds it.
fn adapt_number(other: Form, of: Ty, typed: &mut TypedExpr)
    ensures effect { typed_of typed.new
        ≡ typing.placed typed.old.at
        (terms.adapted_number other of typed.old.form (typing.term_of (typed_of typed.old))) }
{
    match (other, of, typed.form) {
        (Form::Number(_), _, Form::Number(_)) => {}
        (_, Ty::Integer(int_type), Form::Number(number)) if holds(int_type, number) => {
            typed.ty = Ty::Integer(int_type);
            *typed.tree.kind = ExprKind::Number {
                of: int_type,
                value: number,
            };
        }
        _ => {}
    }
}

/// An operand beside another, whose type and form are given.
#[tactic(auto, unfolding(ash_type_rules::specs::ExpressionRules::adapted))]
pub(crate) fn adapt_operand(class: OperatorClass, other: Form, of: Ty, typed: &mut TypedExpr)
    ensures effect { typed_of typed.new ≡ typing.adapted class other of (typed_of typed.old) }
{
    match class {
        OperatorClass::Shift => {}
        _ => adapt_number(other, of, typed),
    }
}
