//! Statements that leave: `break`, `continue` and `return`.

ghost use Rattle.std.specs.Prelude.{◌≡◌, ◌||◌, map, option_map, IsErrOf};
ghost use Rattle.ash_tree.specs.TreeViews as written;
ghost use Rattle.ash_typed.specs.TypedTreeViews.{expr_of};
ghost use Rattle.ash_typed.specs.BodyViews.{stmt_of};
ghost use Rattle.ash_type_rules.specs.StatementRules as definition;
ghost use Rattle.ash_check_names.specs.declared.error.CheckError.TheVariants.{NoMemory};
ghost use Rattle.ash_check_names.specs.Agreement.{Agrees};
ghost use Rattle.ash_check_names.specs.EnvironmentViews.{classes_of, binding_of};
ghost use Rattle.ash_check_expressions.specs.TypedExprViews.{typed_of};
ghost use Rattle.ash_check_statements.specs.StatementViews.{scope_of};

use crate::scopes::Scope;
use ash_check_expressions::{AssignmentSide, TypedExpr, check_expr, coerce_for_assignment};
use ash_check_names::{Binding, CheckResult, Environment, fault_at, is_void};
use ash_tree::{Expr, Position};
use ash_type_rules::{Rule, Ty};
use ash_typed::{Expr as Tree, Stmt as TypedStmt, StmtKind as TypedKind};

/// `break`, which has to leave a loop or a `switch`. No memory is taken.
#[tactic(auto, unfolding(ash_type_rules::specs::StatementRules::check_break))]
pub(crate) fn check_break(scope: &Scope, place: Position) -> CheckResult<TypedStmt>
    ensures checked { Agrees stmt_of result
        (definition.check_break (scope.now.in_loop || scope.now.in_switch) place) }
    ensures no_memory { IsErrOf result NoMemory → ⊥ }
{
    let leaves = scope.in_loop || scope.in_switch;
    if !leaves {
        return Err(fault_at(Rule::Misplaced, place.at));
    }
    Ok(TypedStmt {
        line: place.line,
        kind: TypedKind::Break,
    })
}

/// `continue`, which has to be in a loop. No memory is taken.
#[tactic(auto, unfolding(ash_type_rules::specs::StatementRules::check_continue))]
pub(crate) fn check_continue(scope: &Scope, place: Position) -> CheckResult<TypedStmt>
    ensures checked { Agrees stmt_of result
        (definition.check_continue scope.now.in_loop place) }
    ensures no_memory { IsErrOf result NoMemory → ⊥ }
{
    if !scope.in_loop {
        return Err(fault_at(Rule::Misplaced, place.at));
    }
    Ok(TypedStmt {
        line: place.line,
        kind: TypedKind::Continue,
    })
}

/// Whether a function of this type returns without a value.
fn returns_nothing(of: Ty) -> bool
    ensures value { result ≡ definition.gives_nothing of }
{
    matches!(of, Ty::Void | Ty::Unknown)
}

/// A value that is returned at this offset.
#[tactic(auto, unfolding(ash_type_rules::specs::StatementRules::returned))]
fn build_return_value(env: &Environment, of: Ty, at: usize, value: TypedExpr) -> CheckResult<Tree>
    ensures agrees { Agrees expr_of result
        (definition.returned (classes_of env.now) of at (typed_of value)) }
{
    if is_void(of) {
        return Err(fault_at(Rule::TypeMismatch, at));
    }
    coerce_for_assignment(env, of, value)
}

/// `return`, with a value where its function returns one.
#[tactic(auto, unfolding(ash_type_rules::specs::StatementRules::check_return))]
pub(crate) fn check_return(
    scope: &Scope,
    locals: &[Binding],
    place: Position,
    value: &Option<Expr>,
) -> CheckResult<TypedStmt>
    ensures agrees { Agrees stmt_of result
        (definition.check_return (scope_of scope.now (map binding_of locals.now)) place
        (option_map written.expr_of value.now)) }
{
    let value = match value {
        None if !returns_nothing(scope.result) => {
            return Err(fault_at(Rule::TypeMismatch, place.at));
        }
        None => None,
        Some(value) => {
            let env = (&*scope).environment(locals);
            let value = check_expr(&env, AssignmentSide::Value, value)?;
            Some(build_return_value(&env, scope.result, place.at, value)?)
        }
    };
    Ok(TypedStmt {
        line: place.line,
        kind: TypedKind::Return(value),
    })
}
