//! Classes and handles.

use crate::rows::{HOST, Row};

/// The rows.
pub static ROWS: [Row<'static>; 4] = [
    Row {
        what: "the right side of an assignment first",
        host: HOST,
        steps: &[],
        exchanges: &[
            (
                "load m class P { int v; } P@ o = P(); int n = 0; P@ pick() { n = n * 10 + 1; return o; } \
            int next() { n = n * 10 + 2; return n; } int f() { pick().v = next(); return n; }",
                "ok seq 1",
                "",
            ),
            ("call m f", "ok 21 seq 2", ""),
            ("object 1", "ok object 1 m.P count 1 v 2", ""),
            ("call m pick", "refused 404 NotCallable", ""),
            ("get m o", "ok object 1", ""),
            ("get m n", "ok 21", ""),
            ("seq", "ok 2", ""),
        ],
        left: "seq 2 last 1 | m object 1 21 | objects 1 | services 00000000 | free 3 left 0",
    },
    Row {
        what: "members, and a constructor",
        host: HOST,
        steps: &[],
        exchanges: &[
            (
                "load m class Q { int w = 1; } \
            class P { Q q; Q@ r; int v = 2; P(int k) { v = v + k; @r = q; } } P@ g = P(5); \
            int f() { return g.v; }",
                "ok seq 1",
                "",
            ),
            ("call m f", "ok 7 seq 2", ""),
            ("get m g", "ok object 1", ""),
            (
                "object 1",
                "ok object 1 m.P count 1 q object 2 r object 2 v 7",
                "",
            ),
            ("object 2", "ok object 2 m.Q count 2 w 1", ""),
            ("object 3", "refused 407 NoObject", ""),
        ],
        left: "seq 2 last 2 | m object 1 | objects 1 2 | services 00000000 | free 3 left 0",
    },
    Row {
        what: "a property through null",
        host: HOST,
        steps: &[],
        exchanges: &[
            (
                "load m Counter@ g; int f() { return g.value; }",
                "ok seq 1",
                "",
            ),
            ("call m f", "exception NullPointerAccess f 1 seq 2", ""),
            ("get m g", "ok null", ""),
        ],
        left: "seq 2 last 0 | m null | objects | services 00000000 | free 3 left 0",
    },
    Row {
        what: "classes that could form cycles",
        host: HOST,
        steps: &[],
        exchanges: &[
            (
                "load m class Node { Node@ next; }",
                "refused 309 CyclicType Node",
                "",
            ),
            (
                "load m class A { B b; } class B { A@ a; }",
                "refused 309 CyclicType A B",
                "",
            ),
            ("load m class Box { Counter@ c; }", "ok seq 1", ""),
        ],
        left: "seq 1 last 0 | m | objects | services 00000000 | free 3 left 0",
    },
];
