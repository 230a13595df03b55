//! Sources that use what is registered, and one that does not.

use crate::rows::{HOST, Row};

/// The rows.
pub static ROWS: [Row<'static>; 2] = [
    Row {
        what: "sources that use what is registered",
        host: HOST,
        steps: &[],
        exchanges: &[
            ("load a Counter@ g;", "ok seq 1", ""),
            ("load b void f(Counter@ c) { }", "ok seq 2", ""),
            ("load c class Box { Counter@ c; }", "ok seq 3", ""),
            ("load d array<Counter@> l;", "ok seq 4", ""),
            ("load e int t() { return total(); }", "ok seq 5", ""),
            ("get a g", "ok null", ""),
            ("object 1", "ok object 1 array count 1", ""),
            ("call b f 1", "refused 404 NotCallable", ""),
            // What checking finds.
            (
                "load m Counter@ g; class Node { Node@ next; }",
                "refused 309 CyclicType Node",
                "",
            ),
            (
                "load m Counter@ g; int f( {",
                "refused 104 Unexpected 19",
                "",
            ),
            ("load m int total = 1;", "refused 303 NameTaken 4", ""),
            ("seq", "ok 5", ""),
        ],
        left: "seq 5 last 1 | a null | b | c | d object 1 | e | objects 1 | services 00000000 | free 3 left 0",
    },
    Row {
        what: "a script that uses nothing registered",
        host: HOST,
        steps: &[],
        exchanges: &[
            (
                "load m class Q { int w = 1; } \
            class P { Q q; Q@ r; int v = 2; P(int k) { v = v + k; @r = q; } } P@ g = P(5); \
            int f() { return g.v; }",
                "ok seq 1",
                "",
            ),
            ("call m f", "ok 7 seq 2", ""),
            (
                "object 1",
                "ok object 1 m.P count 1 q object 2 r object 2 v 7",
                "",
            ),
        ],
        left: "seq 2 last 2 | m object 1 | objects 1 2 | services 00000000 | free 3 left 0",
    },
];
