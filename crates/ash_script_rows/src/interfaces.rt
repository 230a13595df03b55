//! Interfaces and casts.

use crate::rows::{HOST, Row};

/// The rows.
pub static ROWS: [Row<'static>; 2] = [
    Row {
        what: "calls through an interface, and casts",
        host: HOST,
        steps: &[],
        exchanges: &[
            (
                "load m interface I { int v(); } class A : I { int k; int v() { return k; } } \
            class B : I { int v() { return 7; } } I@ g; \
            int f() { A@ a = A(); a.k = 3; @g = a; return g.v(); } \
            int h() { @g = B(); return g.v(); } bool c() { A@ a = cast<A>(g); return a is null; }",
                "ok seq 1",
                "",
            ),
            ("call m c", "ok true seq 2", ""),
            ("call m f", "ok 3 seq 3", ""),
            ("call m c", "ok false seq 4", ""),
            ("object 1", "ok object 1 m.A count 1 k 3", ""),
            ("call m h", "ok 7 seq 5", ""),
            ("call m c", "ok true seq 6", ""),
            ("get m g", "ok object 2", ""),
            ("object 1", "refused 407 NoObject", ""),
            ("object 2", "ok object 2 m.B count 1", ""),
        ],
        left: "seq 6 last 2 | m object 2 | objects 2 | services 00000000 | free 3 left 0",
    },
    Row {
        what: "an interface in a cycle, and a method that is missing",
        host: HOST,
        steps: &[],
        exchanges: &[
            (
                "load m interface I { void g(); } class A : I { I@ n; void g() {} }",
                "refused 309 CyclicType A",
                "",
            ),
            (
                "load m interface I { int v(); } class A : I { }",
                "refused 304 TypeMismatch 35",
                "",
            ),
        ],
        left: "seq 0 last 0 | objects | services 00000000 | free 3 left 0",
    },
];
