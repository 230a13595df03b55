//! The walk over statements: their parts in the order of the text, then the statement.

ghost use Rattle.std.specs.Prelude.{◌≡◌, [], map, option_map, IfOk};
ghost use Rattle.ash_tree.specs.Tree.{Declare, Evaluate, Block, If, IfElse, While};
ghost use Rattle.ash_tree.specs.Tree.{DoWhile, For, Switch, stmts, cases};
ghost use Rattle.ash_tree.specs.TreeViews as written;
ghost use Rattle.ash_typed.specs.BodyViews.{stmt_of};
ghost use Rattle.ash_type_rules.specs.Scopes as scopes;
ghost use Rattle.ash_type_rules.specs.StatementRules as definition;
ghost use Rattle.ash_check_names.specs.Agreement.{Agrees};
ghost use Rattle.ash_check_statements.specs.StatementViews.{locals_of, scope_of, stmts_in, cases_in};
ghost use Rattle.ash_check_names.specs.EnvironmentViews.{binding_of};

use crate::conditions::{boxed_stmt, build_if, build_if_else};
use crate::jumps::{check_break, check_continue, check_return};
use crate::locals::check_local_vars;
use crate::loops::{
    CheckedFor, ForParts, build_do_while, build_for, build_while, check_for_head,
    check_optional_expr,
};
use crate::scopes::Scope;
use crate::switches::{LabelContext, check_label, integer_type_in, is_last};
use ash_check_expressions::{AssignmentSide, check_expr, check_exprs, integer_type};
use ash_check_names::{Binding, CheckResult};
use ash_tree::{Case, Expr, Position, Stmt, StmtKind, Vars};
use ash_typed::{Case as TypedCase, IntType, Stmt as TypedStmt, StmtKind as TypedKind, nodes};

/// The branches of `if` with `else`.
#[derive(Clone, Copy)]
struct Branches<'n> {
    then: &'n Stmt,
    otherwise: &'n Stmt,
}

/// Checks a statement. Its variables are added to the locals.
#[cycle(statements)]
fn check_stmt<'n>(
    scope: &Scope<'_, 'n>,
    locals: &mut Vec<Binding<'n>>,
    source: &'n Stmt,
) -> CheckResult<TypedStmt>
    ensures typed { Agrees stmt_of result
        (definition.check_stmt (scope_of scope.now (locals_of locals.old))
        (written.stmt_of source.now)) }
    ensures locals { IfOk result
        (λ _. scope_of scope.now (locals_of locals.new)
        ≡ scopes.after (scope_of scope.now (locals_of locals.old)) (written.stmt_of source.now)) }
{
    let place = source.place;
    match &*source.kind {
        StmtKind::Empty => Ok(TypedStmt {
            line: place.line,
            kind: TypedKind::Empty,
        }),
        StmtKind::Vars(vars) => check_declaration(scope, locals, place, vars),
        StmtKind::Expr(value) => check_evaluation(scope, locals, place, value),
        StmtKind::Block(body) => check_inner_block(scope, locals, place, body),
        StmtKind::If { condition, then } => check_if(scope, locals, place, condition, then),
        StmtKind::IfElse {
            condition,
            then,
            otherwise,
        } => {
            let branches = Branches { then, otherwise };
            check_if_else(scope, locals, place, condition, branches)
        }
        StmtKind::While { condition, body } => check_while(scope, locals, place, condition, body),
        StmtKind::DoWhile { body, condition } => {
            check_do_while(scope, locals, place, body, condition)
        }
        StmtKind::For {
            first,
            condition,
            steps,
            body,
        } => {
            let parts = ForParts {
                place,
                first,
                condition,
                steps,
                body,
            };
            check_for(scope, locals, parts)
        }
        StmtKind::Switch { value, cases } => check_switch(scope, locals, place, value, cases),
        StmtKind::Break => check_break(scope, place),
        StmtKind::Continue => check_continue(scope, place),
        StmtKind::Return(value) => check_return(scope, locals, place, value),
    }
}

/// Variables, which are added to the locals.
fn check_declaration<'n>(
    scope: &Scope<'_, 'n>,
    locals: &mut Vec<Binding<'n>>,
    place: Position,
    vars: &'n Vars,
) -> CheckResult<TypedStmt>
    ensures typed { Agrees stmt_of result
        (definition.check_stmt (scope_of scope.now (locals_of locals.old))
        (Declare place (written.vars_of vars.now))) }
    ensures locals { IfOk result
        (λ _. scope_of scope.now (locals_of locals.new)
        ≡ scopes.after (scope_of scope.now (locals_of locals.old))
        (Declare place (written.vars_of vars.now))) }
{
    let values = check_local_vars(scope, locals, vars)?;
    Ok(TypedStmt {
        line: place.line,
        kind: TypedKind::Declare(values),
    })
}

/// An expression, whose value is dropped.
fn check_evaluation(
    scope: &Scope,
    locals: &[Binding],
    place: Position,
    value: &Expr,
) -> CheckResult<TypedStmt>
    ensures agrees { Agrees stmt_of result
        (definition.check_stmt (scope_of scope.now (map binding_of locals.now))
        (Evaluate place (written.expr_of value.now))) }
{
    let value = check_expr(&(&*scope).environment(locals), AssignmentSide::Value, value)?;
    Ok(TypedStmt {
        line: place.line,
        kind: TypedKind::Evaluate(value.tree),
    })
}

/// Checks a statement that is no statement of a block: after it, none of its variables is left.
#[cycle(statements)]
fn check_branch<'n>(
    scope: &Scope<'_, 'n>,
    locals: &mut Vec<Binding<'n>>,
    source: &'n Stmt,
) -> CheckResult<Box<TypedStmt>>
    ensures typed { Agrees (λ s. stmt_of s.value) result
        (definition.check_stmt (scope_of scope.now (locals_of locals.old))
        (written.stmt_of source.now)) }
    ensures unchanged { IfOk result (λ _. locals_of locals.new ≡ locals_of locals.old) }
{
    let outer = locals.len();
    let typed = check_stmt(scope, locals, source)?;
    locals.truncate(outer);
    Ok(boxed_stmt(scope.alloc, typed)?)
}

/// Checks the statements of a block. After it, none of its variables is left.
#[cycle(statements)]
pub(crate) fn check_block<'n>(
    scope: &Scope<'_, 'n>,
    locals: &mut Vec<Binding<'n>>,
    body: &'n [Stmt],
) -> CheckResult<Vec<TypedStmt>>
    ensures typed { Agrees stmts_in result
        (definition.check_stmts (scope_of scope.now (locals_of locals.old))
        (stmts (map written.stmt_of body.now))) }
    ensures unchanged { IfOk result (λ _. locals_of locals.new ≡ locals_of locals.old) }
{
    let outer = locals.len();
    let mut typed = Vec::with_capacity(scope.alloc, body.len())?;
    for source in body {
        typed.push(check_stmt(scope, locals, source)?)?;
    }
    locals.truncate(outer);
    Ok(typed)
}

/// `{ body }`: none of its names is taken yet.
#[cycle(statements)]
fn check_inner_block<'n>(
    scope: &Scope<'_, 'n>,
    locals: &mut Vec<Binding<'n>>,
    place: Position,
    body: &'n [Stmt],
) -> CheckResult<TypedStmt>
    ensures typed { Agrees stmt_of result
        (definition.check_stmt (scope_of scope.now (locals_of locals.old))
        (Block place (stmts (map written.stmt_of body.now)))) }
    ensures unchanged { IfOk result (λ _. locals_of locals.new ≡ locals_of locals.old) }
{
    let inner = Scope {
        block_start: locals.len(),
        ..*scope
    };
    let body = check_block(&inner, locals, body)?;
    let typed = nodes::block(place.line, body);
    Ok(typed)
}

/// `if (condition) inner`
#[cycle(statements)]
#[tactic(auto, unfolding(ash_type_rules::specs::StatementRules::check_if))]
fn check_if<'n>(
    scope: &Scope<'_, 'n>,
    locals: &mut Vec<Binding<'n>>,
    place: Position,
    condition: &Expr,
    inner: &'n Stmt,
) -> CheckResult<TypedStmt>
    ensures typed { Agrees stmt_of result
        (definition.check_stmt (scope_of scope.now (locals_of locals.old))
        (If place (written.expr_of condition.now) (written.stmt_of inner.now))) }
    ensures unchanged { IfOk result (λ _. locals_of locals.new ≡ locals_of locals.old) }
{
    let condition = check_expr(
        &(&*scope).environment(locals),
        AssignmentSide::Value,
        condition,
    )?;
    let inner = check_branch(scope, locals, inner)?;
    build_if(place.line, condition, inner)
}

/// `if (condition) inner else other`
#[cycle(statements)]
#[tactic(auto, unfolding(ash_type_rules::specs::StatementRules::check_if_else))]
fn check_if_else<'n>(
    scope: &Scope<'_, 'n>,
    locals: &mut Vec<Binding<'n>>,
    place: Position,
    condition: &Expr,
    branches: Branches<'n>,
) -> CheckResult<TypedStmt>
    ensures typed { Agrees stmt_of result
        (definition.check_stmt (scope_of scope.now (locals_of locals.old))
        (IfElse place (written.expr_of condition.now) (written.stmt_of branches.entry.then.now)
        (written.stmt_of branches.entry.otherwise.now))) }
    ensures unchanged { IfOk result (λ _. locals_of locals.new ≡ locals_of locals.old) }
{
    let condition = check_expr(
        &(&*scope).environment(locals),
        AssignmentSide::Value,
        condition,
    )?;
    let then = check_branch(scope, locals, branches.then)?;
    let otherwise = check_branch(scope, locals, branches.otherwise)?;
    build_if_else(place.line, condition, then, otherwise)
}

/// `while (condition) inner`
#[cycle(statements)]
#[tactic(auto, unfolding(ash_type_rules::specs::StatementRules::check_while))]
fn check_while<'n>(
    scope: &Scope<'_, 'n>,
    locals: &mut Vec<Binding<'n>>,
    place: Position,
    condition: &Expr,
    inner: &'n Stmt,
) -> CheckResult<TypedStmt>
    ensures typed { Agrees stmt_of result
        (definition.check_stmt (scope_of scope.now (locals_of locals.old))
        (While place (written.expr_of condition.now) (written.stmt_of inner.now))) }
    ensures unchanged { IfOk result (λ _. locals_of locals.new ≡ locals_of locals.old) }
{
    let condition = check_expr(
        &(&*scope).environment(locals),
        AssignmentSide::Value,
        condition,
    )?;
    let repeated = Scope {
        in_loop: true,
        ..*scope
    };
    let inner = check_branch(&repeated, locals, inner)?;
    build_while(scope.alloc, place.line, condition, inner)
}

/// `do inner while (condition);`
#[cycle(statements)]
#[tactic(auto, unfolding(ash_type_rules::specs::StatementRules::check_do_while))]
fn check_do_while<'n>(
    scope: &Scope<'_, 'n>,
    locals: &mut Vec<Binding<'n>>,
    place: Position,
    inner: &'n Stmt,
    condition: &Expr,
) -> CheckResult<TypedStmt>
    ensures typed { Agrees stmt_of result
        (definition.check_stmt (scope_of scope.now (locals_of locals.old))
        (DoWhile place (written.stmt_of inner.now) (written.expr_of condition.now))) }
    ensures unchanged { IfOk result (λ _. locals_of locals.new ≡ locals_of locals.old) }
{
    let repeated = Scope {
        in_loop: true,
        ..*scope
    };
    let inner = check_branch(&repeated, locals, inner)?;
    let condition = check_expr(
        &(&*scope).environment(locals),
        AssignmentSide::Value,
        condition,
    )?;
    build_do_while(scope.alloc, place.line, inner, condition)
}

/// `for (first; condition; steps) body`
#[cycle(statements)]
#[tactic(auto, unfolding(ash_type_rules::specs::StatementRules::check_for))]
fn check_for<'n>(
    scope: &Scope<'_, 'n>,
    locals: &mut Vec<Binding<'n>>,
    parts: ForParts<'n>,
) -> CheckResult<TypedStmt>
    ensures typed { Agrees stmt_of result
        (definition.check_stmt (scope_of scope.now (locals_of locals.old))
        (For parts.entry.place (written.stmt_of parts.entry.first.now)
        (option_map written.expr_of parts.entry.condition.now)
        (map written.expr_of parts.entry.steps.now) (written.stmt_of parts.entry.body.now))) }
    ensures unchanged { IfOk result (λ _. locals_of locals.new ≡ locals_of locals.old) }
{
    let outer = locals.len();
    let head = Scope {
        block_start: outer,
        ..*scope
    };
    let first = check_for_head(&head, locals, parts.first)?;
    let env = head.environment(locals);
    let condition = check_optional_expr(&env, parts.condition)?;
    let steps = check_exprs(&env, parts.steps)?;
    let repeated = Scope {
        in_loop: true,
        ..head
    };
    let body = check_branch(&repeated, locals, parts.body)?;
    locals.truncate(outer);
    let checked = CheckedFor {
        head: first,
        condition,
        steps,
        body,
    };
    build_for(scope.alloc, parts.place.line, checked)
}

/// `switch (value) { labels }`
#[cycle(statements)]
fn check_switch<'n>(
    scope: &Scope<'_, 'n>,
    locals: &mut Vec<Binding<'n>>,
    place: Position,
    value: &Expr,
    labels: &'n [Case],
) -> CheckResult<TypedStmt>
    ensures typed { Agrees stmt_of result
        (definition.check_stmt (scope_of scope.now (locals_of locals.old))
        (Switch place (written.expr_of value.now) (cases (map written.case_of labels.now)))) }
    ensures unchanged { IfOk result (λ _. locals_of locals.new ≡ locals_of locals.old) }
{
    let value = check_expr(&(&*scope).environment(locals), AssignmentSide::Value, value)?;
    let chosen = Scope {
        in_switch: true,
        ..*scope
    };
    let labels = check_cases(&chosen, locals, integer_type_in(value.ty), labels)?;
    let int_type = integer_type(value.at, value.ty)?;
    Ok(nodes::switch(place.line, int_type, value.tree, labels))
}

/// Checks labels in their order, with the statements after each.
#[cycle(statements)]
fn check_cases<'n>(
    scope: &Scope<'_, 'n>,
    locals: &mut Vec<Binding<'n>>,
    int_type: Option<IntType>,
    labels: &'n [Case],
) -> CheckResult<Vec<TypedCase>>
    ensures typed { Agrees cases_in result
        (definition.check_cases (scope_of scope.now (locals_of locals.old)) int_type []
        (cases (map written.case_of labels.now))) }
    ensures unchanged { IfOk result (λ _. locals_of locals.new ≡ locals_of locals.old) }
{
    let mut typed = Vec::with_capacity(scope.alloc, labels.len())?;
    let mut before = Vec::with_capacity(scope.alloc, labels.len())?;
    for (i, case) in labels.iter().enumerate() {
        let last = is_last(labels, i);
        let context = LabelContext {
            int_type,
            before: &before,
            is_last: last,
        };
        let known = check_label(context, case.place.at, case.label)?;
        let body = check_block(scope, locals, &case.body)?;
        before.push(case.label)?;
        typed.push(nodes::case(known, body))?;
    }
    Ok(typed)
}
