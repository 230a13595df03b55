//! Sources that are refused for a name or for a type where a small script is nearly right.

use crate::compare::expect_memory;
use crate::sources::checks::{check_rows, check_source_of};
use std::alloc::Global;
use std::fmt::Write;
use std::process::Abort;

/// A function's name is no variable, and an initializer has no parameters.
#[test]
fn refused_for_names(rt: HostRuntime) {
    check_rows(
        &rt,
        rt.alloc(),
        "
        NameTaken { at: 11 } | int a; int a;
        NameTaken { at: 11 } | int a; int a() { return 0; }
        NameTaken { at: 24 } | int f(int p, int q, int p) { return 0; }
        ok | int a; int f(int a) { return a; }
        UnknownName { at: 17 } | int f() { return f; }
        UnknownName { at: 8 } | int a = p; int f(int p) { return 0; }
        ok | int last = first; int f(int first, int g) { last += g * first - (last); return g; } int first = 5;
        ",
    )
}

#[test]
fn declarations(rt: HostRuntime) {
    check_rows(
        &rt,
        rt.alloc(),
        "
        ok | int64 a;
        ok | int a(1);
        TypeMismatch { at: 11 } | void f() { return 0; }
        ",
    )
}

#[test]
fn statements(rt: HostRuntime) {
    check_rows(
        &rt,
        rt.alloc(),
        "
        NotAssignable { at: 10 } | int f() { 1 = 2; return 0; }
        TypeMismatch { at: 10 } | int f() { return; return 0; } int a;
        ok | int f() { a -= 2; return 0; } int a;
        ok | int f() { ; return 0; }
        ok | int f() { return 2147483647; }
        ok | int f() { return 2147483648; }
        ",
    )
}

/// A source with so many globals.
fn globals(rt: &impl Abort, alloc: Global, count: u32) -> String {
    let mut source = String::new(alloc);
    for i in 0..count {
        expect_memory(rt, write!(source, "int v{i};"));
    }
    source
}

/// Looks at a source with so many globals.
fn check_globals(rt: &impl Abort, alloc: Global, count: u32, wanted: &str) {
    let source = globals(rt, alloc, count);
    check_source_of(rt, alloc, source.as_bytes(), wanted);
}

#[test]
fn globals_at_their_limit(rt: HostRuntime) {
    let alloc = rt.alloc();
    check_globals(&rt, alloc, 256, "ok");
    // The name of the last comes after 10 globals of 7 bytes, 90 of 8, 156 of 9, and 4 bytes.
    check_globals(&rt, alloc, 257, "TooMany { at: 2198 }");
}
