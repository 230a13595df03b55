//! The lines of statements and the slots of locals.

use crate::compare::{check_text, expect_text};
use crate::typing::sources::checked;
use ash_typed::{ExprKind, Function, Module, Stmt, StmtKind, Variable};
use std::alloc::{AllocError, Global};
use std::fmt::Write;
use std::panic::Expect;
use std::process::Abort;

/// The local that a statement has as its declared value or as its result.
fn local_in(stmt: &Stmt) -> Option<usize> {
    let value = match &stmt.kind {
        StmtKind::Declare(values) => &values.last()?.value,
        StmtKind::Return(value) => value,
        _ => return None,
    };
    match &*value.as_ref()?.kind {
        ExprKind::Variable(Variable::Local { slot, .. }) => Some(*slot),
        _ => None,
    }
}

/// Writes the line of a statement, and the local that it has.
fn write_local(out: &mut String, stmt: &Stmt) -> Result<(), AllocError> {
    let local = local_in(stmt);
    write!(out, "{} {local:?}; ", stmt.line)
}

/// The line of each statement of a function, and the local that it has.
fn locals_in(alloc: Global, function: &Function) -> Result<String, AllocError> {
    let mut found = String::new(alloc);
    for stmt in &function.body {
        write_local(&mut found, stmt)?;
    }
    Ok(found)
}

const SOURCE: &str = "int f(int a) {\n int b;\n { int c; }\n\n int d = b;\n return d; }";

const LOCALS: &str = "2 None; 3 None; 5 Some(1); 6 Some(2); ";

/// Compares the lines and the locals of a function's statements with those that are wanted.
fn check_locals(rt: &impl Abort, alloc: Global, function: &Function) {
    let found = expect_text(rt, locals_in(alloc, function));
    check_text(rt, found.as_str(), LOCALS, SOURCE);
}

/// Looks at the first function of a module.
fn check_first(rt: &impl Abort, alloc: Global, module: &Module) {
    match module.functions.first() {
        Some(function) => check_locals(rt, alloc, function),
        None => check_text(rt, "no function", LOCALS, SOURCE),
    }
}

/// After its block a local's slot is that of the next one.
#[test]
fn lines_and_slots(rt: HostRuntime) {
    let done = checked(rt.alloc(), SOURCE).expect(&rt, "no module");
    check_first(&rt, rt.alloc(), done.module());
}
