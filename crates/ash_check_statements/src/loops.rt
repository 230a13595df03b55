//! Loops, once their parts are typed, and the head of a `for`.

ghost use Rattle.std.specs.Prelude.{◌≡◌, true, Ok, map, option_map, IfOk};
ghost use Rattle.ash_tree.specs.TreeViews as written;
ghost use Rattle.ash_typed.specs.TypedTreeViews.{expr_of};
ghost use Rattle.ash_typed.specs.BodyViews.{stmt_of, head_of};
ghost use Rattle.ash_type_rules.specs.Scopes as scopes;
ghost use Rattle.ash_type_rules.specs.StatementRules as definition;
ghost use Rattle.ash_check_names.specs.Agreement.{Agrees};
ghost use Rattle.ash_check_names.specs.EnvironmentViews.{environment_of};
ghost use Rattle.ash_check_expressions.specs.TypedExprViews.{typed_of, all_typed_of};
ghost use Rattle.ash_check_statements.specs.StatementViews.{locals_of, scope_of, optional_typed_of};
ghost use Rattle.ash_check_statements.specs.StatementViews.{optional_expr};

use crate::locals::check_local_vars;
use crate::scopes::Scope;
use ash_check_expressions::{AssignmentSide, TypedExpr, check_bool, check_expr};
use ash_check_names::{Binding, CheckResult, Environment, fault_at};
use ash_tree::{Expr, Position, Stmt as Source, StmtKind};
use ash_type_rules::Rule;
use ash_typed::{Expr as Tree, Head, Stmt, Test, nodes};
use std::alloc::{AllocError, Global};

/// Checks the head of a `for`, which the grammar has as a statement: nothing, variables, which are added to the locals,
/// or an expression.
#[tactic(auto, using(ash_tree::proofs::Rows::block_is, ash_tree::proofs::Rows::switch_is), unfolding(ash_type_rules::specs::StatementRules::check_head))]
pub(crate) fn check_for_head<'n>(
    scope: &Scope<'_, 'n>,
    locals: &mut Vec<Binding<'n>>,
    source: &'n Source,
) -> CheckResult<Head>
    ensures typed { Agrees head_of result
        (definition.check_head (scope_of scope.now (locals_of locals.old))
        (written.stmt_of source.now)) }
    ensures locals { IfOk result
        (λ _. scope_of scope.now (locals_of locals.new)
        ≡ scopes.after (scope_of scope.now (locals_of locals.old)) (written.stmt_of source.now)) }
{
    let at = source.place.at;
    match &*source.kind {
        StmtKind::Empty => Ok(Head::Empty),
        StmtKind::Vars(vars) => {
            let values = check_local_vars(scope, locals, vars)?;
            Ok(Head::Declare(values))
        }
        StmtKind::Expr(value) => {
            let value = check_expr(&(&*scope).environment(locals), AssignmentSide::Value, value)?;
            Ok(Head::Evaluate(value.tree))
        }
        StmtKind::Block(_) | StmtKind::If { .. } | StmtKind::IfElse { .. } => {
            Err(fault_at(Rule::Misplaced, at))
        }
        StmtKind::While { .. } | StmtKind::DoWhile { .. } | StmtKind::For { .. } => {
            Err(fault_at(Rule::Misplaced, at))
        }
        StmtKind::Switch { .. } => Err(fault_at(Rule::Misplaced, at)),
        StmtKind::Break | StmtKind::Continue | StmtKind::Return(_) => {
            Err(fault_at(Rule::Misplaced, at))
        }
    }
}

/// `while (condition) inner`
#[tactic(auto, unfolding(ash_type_rules::specs::StatementRules::check_while))]
pub(crate) fn build_while(
    alloc: Global,
    line: usize,
    condition: TypedExpr,
    inner: Box<Stmt>,
) -> CheckResult<Stmt>
    ensures agrees { Agrees stmt_of result
        (definition.check_while line (Ok (typed_of condition)) (Ok (stmt_of inner.value))) }
{
    check_bool(condition.at, condition.ty)?;
    let inside = nodes::repetition(Test::First, Some(condition.tree), Vec::new(alloc), inner);
    Ok(nodes::repeat(line, inside))
}

/// `do inner while (condition);`
#[tactic(auto, unfolding(ash_type_rules::specs::StatementRules::check_do_while))]
pub(crate) fn build_do_while(
    alloc: Global,
    line: usize,
    inner: Box<Stmt>,
    condition: TypedExpr,
) -> CheckResult<Stmt>
    ensures agrees { Agrees stmt_of result
        (definition.check_do_while line (Ok (stmt_of inner.value)) (Ok (typed_of condition))) }
{
    check_bool(condition.at, condition.ty)?;
    let inside = nodes::repetition(Test::Last, Some(condition.tree), Vec::new(alloc), inner);
    Ok(nodes::repeat(line, inside))
}

/// The parts of `for`, as the source has them.
#[derive(Clone, Copy)]
pub(crate) struct ForParts<'n> {
    pub(crate) place: Position,
    pub(crate) first: &'n Source,
    pub(crate) condition: &'n Option<Expr>,
    pub(crate) steps: &'n [Expr],
    pub(crate) body: &'n Source,
}

/// The checked parts of `for`.
#[derive(Drop)]
pub(crate) struct CheckedFor {
    pub(crate) head: Head,
    pub(crate) condition: Option<TypedExpr>,
    pub(crate) steps: Vec<TypedExpr>,
    pub(crate) body: Box<Stmt>,
}

/// `for (head condition; steps) body`
#[tactic(auto, unfolding(ash_type_rules::specs::StatementRules::check_for))]
pub(crate) fn build_for(alloc: Global, line: usize, parts: CheckedFor) -> CheckResult<Stmt>
    ensures agrees { Agrees stmt_of result
        (definition.check_for line (Ok (head_of parts.head))
        (Ok (optional_typed_of parts.condition)) (Ok (all_typed_of parts.steps))
        (Ok (stmt_of parts.body.value))) }
{
    check_optional_bool(&parts.condition)?;
    let steps = trees_of(alloc, parts.steps)?;
    let condition = optional_tree(parts.condition);
    let inside = nodes::repetition(Test::First, condition, steps, parts.body);
    Ok(nodes::for_loop(line, parts.head, inside))
}

/// Checks a condition, where there is one.
pub(crate) fn check_optional_expr(
    env: &Environment,
    condition: &Option<Expr>,
) -> CheckResult<Option<TypedExpr>>
    ensures agrees { Agrees optional_typed_of result
        (definition.check_optional (environment_of env.now)
        (option_map written.expr_of condition.now)) }
{
    match condition {
        None => Ok(None),
        Some(condition) => Ok(Some(check_expr(env, AssignmentSide::Value, condition)?)),
    }
}

/// Requires that a condition is a truth value, where there is one.
fn check_optional_bool(condition: &Option<TypedExpr>) -> CheckResult<()>
    ensures agrees { Agrees (λ _. true) result
        (definition.maybe_condition_is (optional_typed_of condition.now)) }
{
    match condition {
        None => Ok(()),
        Some(condition) => check_bool(condition.at, condition.ty),
    }
}

fn optional_tree(condition: Option<TypedExpr>) -> Option<Tree>
    ensures value { optional_expr result ≡ option_map definition.tree_of
        (optional_typed_of condition) }
{
    match condition {
        None => None,
        Some(condition) => Some(condition.tree),
    }
}

fn trees_of(alloc: Global, typed: Vec<TypedExpr>) -> Result<Vec<Tree>, AllocError>
    ensures value { IfOk result
        (λ trees. map expr_of trees.items ≡ map definition.tree_of (all_typed_of typed)) }
{
    let mut trees = Vec::with_capacity(alloc, typed.len())?;
    for one in typed {
        trees.push(one.tree)?;
    }
    Ok(trees)
}
