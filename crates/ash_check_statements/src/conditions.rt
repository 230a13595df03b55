//! `if`, once its parts are typed: a condition has to be a truth value.

ghost use Rattle.std.specs.Prelude.{◌≡◌, Ok, IfOk};
ghost use Rattle.ash_typed.specs.TypedTreeViews.{expr_of};
ghost use Rattle.ash_typed.specs.StatementTree.{If, no_branch, branch};
ghost use Rattle.ash_typed.specs.BodyViews.{stmt_of};
ghost use Rattle.ash_type_rules.specs.StatementRules as definition;
ghost use Rattle.ash_check_names.specs.Agreement.{Agrees};
ghost use Rattle.ash_check_expressions.specs.TypedExprViews.{typed_of};

use ash_check_expressions::{TypedExpr, check_bool};
use ash_check_names::CheckResult;
use ash_typed::{Expr as Tree, Stmt, StmtKind};
use std::alloc::{AllocError, Global};

/// `if (condition) inner`
#[tactic(auto, unfolding(ash_type_rules::specs::StatementRules::check_if))]
pub(crate) fn build_if(line: usize, condition: TypedExpr, inner: Box<Stmt>) -> CheckResult<Stmt>
    ensures agrees { Agrees stmt_of result
        (definition.check_if line (Ok (typed_of condition)) (Ok (stmt_of inner.value))) }
{
    check_bool(condition.at, condition.ty)?;
    Ok(if_stmt(line, condition.tree, inner))
}

#[tactic(auto, using(crate::proofs::NodeLaws::if_is))]
fn if_stmt(line: usize, condition: Tree, then: Box<Stmt>) -> Stmt
    ensures value { stmt_of result ≡ If line (expr_of condition) (stmt_of then.value) no_branch }
{
    Stmt {
        line,
        kind: StmtKind::If {
            condition,
            then,
            otherwise: None,
        },
    }
}

/// `if (condition) inner else other`
#[tactic(auto, unfolding(ash_type_rules::specs::StatementRules::check_if_else))]
pub(crate) fn build_if_else(
    line: usize,
    condition: TypedExpr,
    inner: Box<Stmt>,
    other: Box<Stmt>,
) -> CheckResult<Stmt>
    ensures agrees { Agrees stmt_of result
        (definition.check_if_else line (Ok (typed_of condition)) (Ok (stmt_of inner.value))
        (Ok (stmt_of other.value))) }
{
    check_bool(condition.at, condition.ty)?;
    Ok(if_else_stmt(line, condition.tree, inner, other))
}

#[tactic(auto, using(crate::proofs::NodeLaws::if_else_is))]
fn if_else_stmt(line: usize, condition: Tree, then: Box<Stmt>, otherwise: Box<Stmt>) -> Stmt
    ensures value { stmt_of result
        ≡ If line (expr_of condition) (stmt_of then.value) (branch (stmt_of otherwise.value)) }
{
    Stmt {
        line,
        kind: StmtKind::If {
            condition,
            then,
            otherwise: Some(otherwise),
        },
    }
}

/// A statement in a box, where there is memory for it.
pub(crate) fn boxed_stmt(alloc: Global, inner: Stmt) -> Result<Box<Stmt>, AllocError>
    ensures value { IfOk result (λ b. b.value ≡ inner) }
{
    Ok(Box::new(alloc, inner)?)
}
