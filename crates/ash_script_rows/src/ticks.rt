//! Host objects and services take no tick and no frame.

use crate::rows::{HOST, Host, Row};
use crate::steps::HostStep;

/// The rows.
pub static ROWS: [Row<'static>; 4] = [
    Row {
        what: "a tick for the entry, and one for each statement",
        host: Host { budget: 4, ..HOST },
        steps: &[
            HostStep::Start(1, 1),
            HostStep::Add(1, 1),
            HostStep::Read(1),
            HostStep::Tally(2),
            HostStep::Write(1, 4),
        ],
        exchanges: &[
            (
                "load m void f() { Counter c(1); c.add(1); c.value = c.value + tally(2); }",
                "ok seq 1",
                "",
            ),
            (
                "call m f",
                "ok seq 2 dropped 1",
                "Drew 1; Called 1 1; Called service 0 1; Dropped 1; ",
            ),
        ],
        left: "seq 2 last 1 | m | objects | services 02000000 | free 2 left 0",
    },
    Row {
        what: "one tick fewer",
        host: Host { budget: 3, ..HOST },
        steps: &[HostStep::Start(1, 1), HostStep::Add(1, 1)],
        exchanges: &[
            (
                "load m void f() { Counter c(1); c.add(1); c.value = c.value + tally(2); }",
                "ok seq 1",
                "",
            ),
            (
                "call m f",
                "aborted f 1 seq 2 dropped 1",
                "Drew 1; Called 1 1; Dropped 1; ",
            ),
        ],
        left: "seq 2 last 1 | m | objects | services 00000000 | free 2 left 0",
    },
    Row {
        what: "in the last frame that there may be",
        host: HOST,
        steps: &[
            HostStep::Start(1, 1),
            HostStep::Add(1, 1),
            HostStep::Tally(1),
        ],
        exchanges: &[
            (
                "load m void f(int k) { if (k > 0) f(k - 1); else { Counter c(1); c.add(1); tally(1); } }",
                "ok seq 1",
                "",
            ),
            (
                "call m f 255",
                "ok seq 2 dropped 1",
                "Drew 1; Called 1 1; Called service 0 1; Dropped 1; ",
            ),
        ],
        left: "seq 2 last 1 | m | objects | services 01000000 | free 2 left 0",
    },
    Row {
        what: "one frame more",
        host: HOST,
        steps: &[],
        exchanges: &[
            (
                "load m void f(int k) { if (k > 0) f(k - 1); else { Counter c(1); c.add(1); tally(1); } }",
                "ok seq 1",
                "",
            ),
            ("call m f 256", "exception StackOverflow f 1 seq 2", ""),
        ],
        left: "seq 2 last 0 | m | objects | services 00000000 | free 3 left 0",
    },
];
