//! Sources that are compiled, with how many functions and classes their code has, counted by hand: a construction and
//! each method is a function.

use ash_code::code::Code;
use ash_compile::module::compile;
use ash_registry::Registry;
use ash_sources::sources::Sources;
use std::alloc::Global;
use std::process::Abort;

/// The code of a source, as the module of a slot, if it is a script.
fn code_of(alloc: Global, source: &str, slot: u8) -> Option<Code> {
    let registry = Registry::new(alloc);
    let sources = Sources {
        registry: &registry,
    };
    let Ok(tree) = sources.read_tree(alloc, source.as_bytes()) else {
        return None;
    };
    compile(alloc, &tree, slot).ok()
}

/// Fails a test unless a source has code with so many functions and classes.
fn check_code(rt: &impl Abort, alloc: Global, source: &str, functions: usize, classes: usize) {
    match code_of(alloc, source, 3) {
        Some(code) => {
            let parts = code.parts();
            assert_eq!(rt; parts.module, 3);
            assert_eq!(rt; parts.functions.len(), functions);
            assert_eq!(rt; parts.classes.len(), classes);
        }
        None => panic!(rt; "a source has no code"),
    }
}

#[test]
fn nothing_is_compiled(rt: HostRuntime) {
    check_code(&rt, rt.alloc(), "", 0, 0)
}

#[test]
fn functions_are_compiled(rt: HostRuntime) {
    check_code(
        &rt,
        rt.alloc(),
        "int twice(int a) { return a + a; } void run() { int b = twice(2); b = b - 1; }",
        2,
        0,
    )
}

#[test]
fn statements_are_compiled(rt: HostRuntime) {
    check_code(
        &rt,
        rt.alloc(),
        "int sum(int n) {
            int all = 0;
            for (int i = 0; i < n; i++) { if (i == 3) continue; if (i > 9) { break; } else all += i; }
            while (all > 100) { int less = all / 2; all = less; }
            do all--; while (all > 50 && n != 0);
            return n > 0 ? all : -all;
        }",
        1,
        0,
    )
}

#[test]
fn globals_are_compiled(rt: HostRuntime) {
    check_code(
        &rt,
        rt.alloc(),
        "int a = 1, b; int64 c = a + 2; bool d = c > 2; int f() { return a + b; }",
        1,
        0,
    )
}

#[test]
fn classes_are_compiled(rt: HostRuntime) {
    check_code(
        &rt,
        rt.alloc(),
        "interface Shape { int area(); }
        class Square : Shape { int side = 1; Square(int s) { side = s; if (s == 0) return; } int area() { return side * side; } }
        class Point : Shape { int x; int y = 2; int area() { return 0; } int sum() { return x + y; } }
        int area_of(Shape@ s) { return s is null ? 0 : s.area(); }
        int run() { Square@ q = Square(3); Point p; return area_of(q) + area_of(p) + p.sum(); }",
        7,
        2,
    )
}

#[test]
fn arrays_are_compiled(rt: HostRuntime) {
    check_code(
        &rt,
        rt.alloc(),
        "int run() { array<int> a(3); a[1] = 4; a[0] += 2; a.insertLast(5); return a[1] + int(a.length()); }",
        1,
        0,
    )
}
