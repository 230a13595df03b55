//! Which statements have no `continue` of a loop that they are in.

ghost use Rattle.std.specs.Prelude.{IsTrue};
ghost use Rattle.ash_typed.specs.BodyViews.{stmt_of, body_of};
ghost use Rattle.ash_compile.specs.EmittedStatements.{HasNoContinue, HaveNoContinue};

use ash_typed::{Stmt, StmtKind};

/// Whether a statement has no `continue` of a loop that it is in. That may be so of others, which have a `switch`.
#[cycle(continues)]
pub(crate) fn has_no_continue(stmt: &Stmt) -> bool
    ensures none { IsTrue result → HasNoContinue (stmt_of stmt.now) }
{
    match &stmt.kind {
        StmtKind::Empty => true,
        StmtKind::Declare(_) => true,
        StmtKind::Evaluate(_) => true,
        StmtKind::Block(stmts) => have_no_continue(stmts),
        StmtKind::If {
            then,
            otherwise,
            ..
        } => match otherwise {
            None => has_no_continue(then),
            Some(otherwise) => has_no_continue(then) && has_no_continue(otherwise),
        },
        StmtKind::Repeat(_) => true,
        StmtKind::For { .. } => true,
        StmtKind::Break => true,
        StmtKind::Return(_) => true,
        StmtKind::Switch { .. } | StmtKind::Continue => false,
    }
}

/// Whether the statements of a list have no `continue` of a loop that they are in.
#[cycle(continues)]
fn have_no_continue(stmts: &[Stmt]) -> bool
    ensures none { IsTrue result → HaveNoContinue (body_of stmts.now) }
{
    for stmt in stmts {
        if !has_no_continue(stmt) {
            return false;
        }
    }
    true
}
