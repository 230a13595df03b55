//! Host objects that scripts construct: counters, and a kind that answers badly.

use crate::rows::{HOST, Host, Row};
use crate::steps::HostStep;

/// The rows.
pub static ROWS: [Row<'static>; 8] = [
    Row {
        what: "a handle that is assigned to itself",
        host: HOST,
        steps: &[HostStep::Start(1, 1), HostStep::Add(1, 1)],
        exchanges: &[
            (
                "load m int f() { Counter@ a = Counter(1); @a = @a; return a.add(1); }",
                "ok seq 1",
                "",
            ),
            (
                "call m f",
                "ok 2 seq 2 dropped 1",
                "Drew 1; Called 1 1; Dropped 1; ",
            ),
        ],
        left: "seq 2 last 1 | m | objects | services 00000000 | free 2 left 0",
    },
    Row {
        what: "an object that an expression lets go",
        host: HOST,
        steps: &[
            HostStep::Start(1, 1),
            HostStep::Start(2, 5),
            HostStep::Add(2, 1),
            HostStep::Add(2, 1),
        ],
        exchanges: &[
            (
                "load m int two(Counter@ h, int k) { return k; } int f() { Counter@ a = Counter(1); \
            Counter@ c = Counter(5); int r = two(@a = null, c.add(1)); c.add(1); return r; }",
                "ok seq 1",
                "",
            ),
            (
                "call m f",
                "ok 6 seq 2 dropped 1 2",
                "Drew 1; Drew 2; Called 2 1; Dropped 1; Called 2 1; Dropped 2; ",
            ),
        ],
        left: "seq 2 last 2 | m | objects | services 00000000 | free 1 left 0",
    },
    Row {
        what: "two objects that are dropped together",
        host: HOST,
        steps: &[HostStep::Start(3, 1), HostStep::Start(5, 2)],
        exchanges: &[
            (
                "load m class B { Counter@ c; } void f() { B@ x = B(); B@ y = B(); @x.c = Counter(1); \
            B@ z = B(); @y.c = Counter(2); @z.c = x.c; }",
                "ok seq 1",
                "",
            ),
            (
                "call m f",
                "ok seq 2 dropped 3 5",
                "Drew 3; Drew 5; Dropped 3; Dropped 5; ",
            ),
        ],
        left: "seq 2 last 5 | m | objects | services 00000000 | free 1 left 0",
    },
    Row {
        what: "a pool that is empty",
        host: Host {
            counters: 1,
            ..HOST
        },
        steps: &[HostStep::Start(1, 1)],
        exchanges: &[
            ("load m void f() { Counter c(1); }", "ok seq 1", ""),
            ("call m f", "ok seq 2 dropped 1", "Drew 1; Dropped 1; "),
            ("call m f", "exception PoolEmpty f 1 seq 3", ""),
        ],
        left: "seq 3 last 1 | m | objects | services 00000000 | free 1 left 0",
    },
    Row {
        what: "a code that a method raises",
        host: HOST,
        steps: &[HostStep::Start(1, 1), HostStep::Fail(1, 9)],
        exchanges: &[
            (
                "load m void f() { Counter c(1); c.fail(9); }",
                "ok seq 1",
                "",
            ),
            (
                "call m f",
                "exception Raised 9 f 1 seq 2 dropped 1",
                "Drew 1; Called 1 2; Dropped 1; ",
            ),
        ],
        left: "seq 2 last 1 | m | objects | services 00000000 | free 2 left 0",
    },
    Row {
        what: "an answer of another type",
        host: HOST,
        steps: &[HostStep::StartOdd(1, 1), HostStep::Bad(1)],
        exchanges: &[
            ("load m void f() { Odd o(1); o.bad(); }", "ok seq 1", ""),
            (
                "call m f",
                "exception BadHostAnswer f 1 seq 2 dropped 1",
                "Drew 1; Called 1 1; Dropped 1; ",
            ),
        ],
        left: "seq 2 last 1 | m | objects | services 00000000 | free 2 left 0",
    },
    Row {
        what: "an object that is let go before the others",
        host: Host {
            counters: 3,
            ..HOST
        },
        steps: &[
            HostStep::Start(1, 1),
            HostStep::Start(2, 2),
            HostStep::Start(3, 3),
        ],
        exchanges: &[
            (
                "load m void f() { Counter@ a = Counter(1); Counter@ b = Counter(2); @a = null; \
            Counter@ c = Counter(3); }",
                "ok seq 1",
                "",
            ),
            (
                "call m f",
                "ok seq 2 dropped 1 2 3",
                "Drew 1; Drew 2; Dropped 1; Drew 3; Dropped 2; Dropped 3; ",
            ),
        ],
        left: "seq 2 last 3 | m | objects | services 00000000 | free 1 left 0",
    },
    Row {
        what: "an object that a global holds",
        host: HOST,
        steps: &[HostStep::Start(1, 7)],
        exchanges: &[
            ("load m Counter@ g = Counter(7);", "ok seq 1", "Drew 1; "),
            ("object 1", "ok object 1 Counter count 1 state 07000000", ""),
            ("snapshot", "ok", ""),
            ("object 1", "ok object 1 Counter count 1 state 07000000", ""),
            ("get m g", "ok object 1", ""),
            ("discard m", "ok seq 2 dropped 1", "Dropped 1; "),
            ("get m g", "refused 401 NoModule", ""),
        ],
        left: "seq 2 last 1 | objects | services 00000000 | free 2 left 0",
    },
];
