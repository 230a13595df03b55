//! Rules of typing that sources break, and which fault comes first.

use crate::sources::checks::{
    bracketed, check_rows, check_source_of, check_sources, check_with_blanks,
};
use std::alloc::Global;
use std::process::Abort;

#[test]
fn rules_of_typing(rt: HostRuntime) {
    // The last row has a broken rule after a cycle, which comes before it.
    let rows = "
        UnknownName { at: 8 } | int n = m;
        UnknownType { at: 0 } | X y;
        NameTaken { at: 11 } | int n; int n;
        TypeMismatch { at: 9 } | bool b = 1;
        NotAssignable { at: 8 } | int n = 1 = 2;
        NoReturn { at: 4 } | int f() { }
        Misplaced { at: 8 } | int n = this.x;
        ClassNames([\"Node\"]) | class Node { Node@ next; }
        ClassNames([\"A\", \"B\"]) | class A { B b; } class B { A@ a; }
        UnknownName { at: 35 } | class Node { Node@ next; } int n = m;
        ";
    check_rows(&rt, rt.alloc(), rows)
}

#[test]
fn earlier_faults_first(rt: HostRuntime) {
    let rows: &[(&[u8], &str)] = &[
        (b"X y; \xff", "BadCharacter { at: 5 }"),
        (b"X y; \"", "BadCharacter { at: 5 }"),
        (b"X y; /*", "UnclosedComment { at: 5 }"),
        (b"X y = 18446744073709551616;", "NumberTooLarge { at: 6 }"),
        (b"X y; int f( {", "Unexpected { at: 12 }"),
        (b"X y; float x;", "Unsupported { word: Word(Float), at: 5 }"),
    ];
    check_sources(&rt, rt.alloc(), rows)
}

/// Looks at a variable of an unknown type, and after it a 1 in so many brackets.
fn check_brackets(rt: &impl Abort, alloc: Global, count: usize, wanted: &str) {
    let source = bracketed(rt, alloc, b"X y; int n = ", count, b";");
    check_source_of(rt, alloc, source.as_slice(), wanted);
}

#[test]
fn depth_and_length_before_types(rt: HostRuntime) {
    let alloc = rt.alloc();
    check_brackets(&rt, alloc, 65, "TooDeep { at: 78 }");
    check_brackets(&rt, alloc, 64, "UnknownType { at: 0 }");
    check_with_blanks(&rt, alloc, b"X y;", 65_533, "SourceTooLong");
    check_with_blanks(&rt, alloc, b"X y;", 65_532, "UnknownType { at: 0 }");
}

#[test]
fn sound_scripts(rt: HostRuntime) {
    let rows: &[(&[u8], &str)] = &[
        (b"", "ok"),
        (b"\xef\xbb\xbf", "ok"),
        (b";;", "ok"),
        (b"int n = 2; int f(int k) { n += k; return n; }", "ok"),
        (b"class A { }", "ok"),
        (b"bool b = true;", "ok"),
        (b"int n = -1;", "ok"),
        (b"int a, b;", "ok"),
        (b"class Box { A@ a; } class A { }", "ok"),
        (b"interface I { }", "ok"),
        (b"class A : I { } interface I { }", "ok"),
        (b"array<int> a;", "ok"),
        (b"int n = array<int>(1)[0];", "ok"),
        (b"class A { } A@ a; A@ b = cast<A>(a);", "ok"),
    ];
    check_sources(&rt, rt.alloc(), rows)
}

#[test]
fn interfaces_arrays_casts_and_indexes(rt: HostRuntime) {
    // The last rows have a fault of the grammar or of the tokens too, which comes first.
    let rows = "
        UnknownName { at: 8 } | int n = a[0];
        UnknownType { at: 0 } | X y; int n = cast<A>(m);
        UnknownType { at: 10 } | class A : I { } X y;
        TypeMismatch { at: 35 } | interface I { int v(); } class A : I { }
        TypeMismatch { at: 24 } | array<int> a; int n = a[true];
        UnknownName { at: 8 } | int n = m; array<X@>@ f() { }
        ClassNames([\"A\"]) | interface I { void g(); } class A : I { I@ n; void g() {} }
        Unexpected { at: 26 } | X y; int n = a[0]; int f( {
        BadCharacter { at: 19 } | X y; int n = a[0]; \"
        ";
    check_rows(&rt, rt.alloc(), rows)
}
