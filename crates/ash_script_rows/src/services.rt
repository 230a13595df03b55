//! The service that the program registers.

use crate::rows::{HOST, Row};
use crate::steps::HostStep;

/// The rows.
pub static ROWS: [Row<'static>; 2] = [
    Row {
        what: "what was done before an exception",
        host: HOST,
        steps: &[HostStep::Tally(4), HostStep::Total],
        exchanges: &[
            (
                "load m int n = 0;\nint f(int d) {\nn = 1; tally(4);\nreturn 10 / d;\n}\n\
            int t() { return total(); }\n",
                "ok seq 1",
                "",
            ),
            (
                "call m f 0",
                "exception DivideByZero f 4 seq 2",
                "Called service 0 1; ",
            ),
            ("get m n", "ok 1", ""),
            ("call m t", "ok 4 seq 3", "Called service 0 2; "),
        ],
        left: "seq 3 last 0 | m 1 | objects | services 04000000 | free 3 left 0",
    },
    Row {
        what: "a load that comes to no end",
        host: HOST,
        steps: &[HostStep::Tally(3), HostStep::Total],
        exchanges: &[
            (
                "load m int a = tally(3); int b = 1; int c = 1 / 0;",
                "exception DivideByZero (init) 1 seq 1",
                "Called service 0 1; ",
            ),
            ("get m b", "refused 401 NoModule", ""),
            ("load m int t() { return total(); }", "ok seq 2", ""),
            ("call m t", "ok 3 seq 3", "Called service 0 2; "),
        ],
        left: "seq 3 last 0 | m | objects | services 03000000 | free 3 left 0",
    },
];
