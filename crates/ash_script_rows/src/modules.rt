//! Several modules, and requests that are refused.

use crate::rows::{HOST, Row};

/// The rows.
pub static ROWS: [Row<'static>; 2] = [
    Row {
        what: "two modules of one source",
        host: HOST,
        steps: &[],
        exchanges: &[
            (
                "load m int n = 2; int f(int k) { n += k; return n; }",
                "ok seq 1",
                "",
            ),
            (
                "load k int n = 2; int f(int k) { n += k; return n; }",
                "ok seq 2",
                "",
            ),
            ("call m f 5", "ok 7 seq 3", ""),
            ("get k n", "ok 2", ""),
            ("discard m", "ok seq 4", ""),
            ("get m n", "refused 401 NoModule", ""),
        ],
        left: "seq 4 last 0 | k 2 | objects | services 00000000 | free 3 left 0",
    },
    Row {
        what: "requests that are refused",
        host: HOST,
        steps: &[],
        exchanges: &[
            (
                "load m int n = 2; int f(int k) { n += k; return n; }",
                "ok seq 1",
                "",
            ),
            ("call m nope", "refused 403 NoFunction", ""),
            ("call m f 1 2", "refused 405 BadArguments", ""),
            ("call m f 2147483648", "refused 405 BadArguments", ""),
            ("call z f", "refused 401 NoModule", ""),
            ("discard z", "refused 401 NoModule", ""),
            ("get m q", "refused 406 NoGlobal", ""),
            ("object 9", "refused 407 NoObject", ""),
            ("load m ", "refused 402 ModuleTaken", ""),
            ("load 9x ", "refused 409 BadName", ""),
            ("seq", "ok 1", ""),
        ],
        left: "seq 1 last 0 | m 2 | objects | services 00000000 | free 3 left 0",
    },
];
