//! Ticks, frames, numbers and objects that run out.

use crate::rows::{HOST, Host, Row};

/// The rows.
pub static ROWS: [Row<'static>; 6] = [
    Row {
        what: "as many ticks as are taken",
        host: Host { budget: 2, ..HOST },
        steps: &[],
        exchanges: &[
            ("load m int f() { return 1; }", "ok seq 1", ""),
            ("call m f", "ok 1 seq 2", ""),
        ],
        left: "seq 2 last 0 | m | objects | services 00000000 | free 3 left 0",
    },
    Row {
        what: "one tick fewer than are taken",
        host: Host { budget: 1, ..HOST },
        steps: &[],
        exchanges: &[
            ("load m int f() { return 1; }", "ok seq 1", ""),
            ("call m f", "aborted f 1 seq 2", ""),
        ],
        left: "seq 2 last 0 | m | objects | services 00000000 | free 3 left 0",
    },
    Row {
        what: "a load without ticks",
        host: Host { budget: 0, ..HOST },
        steps: &[],
        exchanges: &[
            (
                "load m int n = 2; int f(int k) { n += k; return n; }",
                "aborted (init) 1 seq 1",
                "",
            ),
            ("call m f", "refused 401 NoModule", ""),
        ],
        left: "seq 1 last 0 | objects | services 00000000 | free 3 left 0",
    },
    Row {
        what: "as many frames as there may be",
        host: Host {
            budget: 512,
            ..HOST
        },
        steps: &[],
        exchanges: &[
            (
                "load m int f() { return f(); } void g() { for (;;) {} }",
                "ok seq 1",
                "",
            ),
            ("call m f", "exception StackOverflow f 1 seq 2", ""),
            ("call m g", "aborted g 1 seq 3", ""),
        ],
        left: "seq 3 last 0 | m | objects | services 00000000 | free 3 left 0",
    },
    Row {
        what: "a tick fewer than the frames take",
        host: Host {
            budget: 511,
            ..HOST
        },
        steps: &[],
        exchanges: &[
            (
                "load m int f() { return f(); } void g() { for (;;) {} }",
                "ok seq 1",
                "",
            ),
            ("call m f", "aborted f 1 seq 2", ""),
        ],
        left: "seq 2 last 0 | m | objects | services 00000000 | free 3 left 0",
    },
    Row {
        what: "the last number, before an empty pool",
        host: Host {
            counters: 0,
            last: u64::MAX,
            ..HOST
        },
        steps: &[],
        exchanges: &[
            ("load m void f() { Counter c(1); }", "ok seq 1", ""),
            ("call m f", "exception NumbersSpent f 1 seq 2", ""),
        ],
        left: "seq 2 last 18446744073709551615 | m | objects | services 00000000 | free 1 left 0",
    },
];
