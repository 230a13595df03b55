//! Which statements return, however their conditions turn out.

ghost use Rattle.std.specs.Prelude.{◌≡◌, map};
ghost use Rattle.ash_tree.specs.Tree.{stmts, cases};
ghost use Rattle.ash_tree.specs.TreeViews.{stmt_of, case_of};
ghost use Rattle.ash_type_rules.specs.Returning as definition;

use ash_tree::{Case, Label, Stmt, StmtKind};

#[cycle(breaking)]
#[tactic(auto, using(crate::proofs::ReturnLaws::if_is, crate::proofs::ReturnLaws::if_else_is))]
fn breaks(stmt: &Stmt) -> bool
    ensures value { result ≡ definition.breaks (stmt_of stmt.now) }
{
    match &*stmt.kind {
        StmtKind::Break => true,
        StmtKind::Block(body) => any_breaks(body),
        StmtKind::If { then, .. } => breaks(then),
        StmtKind::IfElse {
            then,
            otherwise,
            ..
        } => breaks(then) || breaks(otherwise),
        _ => false,
    }
}

#[cycle(breaking)]
fn any_breaks(body: &[Stmt]) -> bool
    ensures value { result ≡ definition.any_breaks (stmts (map stmt_of body.now)) }
{
    for stmt in body {
        if breaks(stmt) {
            return true;
        }
    }
    false
}

fn breaks_out(labels: &[Case]) -> bool
    ensures value { result ≡ definition.breaks_out (cases (map case_of labels.now)) }
{
    for case in labels {
        if any_breaks(&case.body) {
            return true;
        }
    }
    false
}

fn is_default(label: Label) -> bool
    ensures value { result ≡ definition.is_default label }
{
    matches!(label, Label::Default)
}

fn has_default(labels: &[Case]) -> bool
    ensures value { result ≡ definition.has_default (cases (map case_of labels.now)) }
{
    for case in labels {
        if is_default(case.label) {
            return true;
        }
    }
    false
}

/// Whether a statement returns.
#[cycle(returning)]
#[tactic(auto, using(crate::proofs::ReturnLaws::if_else_is))]
fn returns(stmt: &Stmt) -> bool
    ensures value { result ≡ definition.returns (stmt_of stmt.now) }
{
    match &*stmt.kind {
        StmtKind::Return(_) => true,
        StmtKind::Block(body) => any_returns(body),
        StmtKind::IfElse {
            then,
            otherwise,
            ..
        } => returns(then) && returns(otherwise),
        StmtKind::Switch { cases: labels, .. } => {
            has_default(labels) && !breaks_out(labels) && last_returns(labels)
        }
        _ => false,
    }
}

/// Whether one of the statements of a body returns.
#[cycle(returning)]
pub(crate) fn any_returns(body: &[Stmt]) -> bool
    ensures value { result ≡ definition.any_returns (stmts (map stmt_of body.now)) }
{
    for stmt in body {
        if returns(stmt) {
            return true;
        }
    }
    false
}

#[cycle(returning)]
#[tactic(auto, using(crate::proofs::ReturnLaws::last_is))]
fn last_returns(labels: &[Case]) -> bool
    ensures value { result ≡ definition.last_returns (cases (map case_of labels.now)) }
{
    match labels.last() {
        Some(case) => any_returns(&case.body),
        None => false,
    }
}
