//! Counters that go where a frame is left, and where a run or a module ends, those of one point by ascending number.

use crate::points::FOUR;
use crate::rows::Row;
use crate::steps::HostStep;

/// The rows.
pub static ROWS: [Row<'static>; 13] = [
    Row {
        what: "a body that comes to its end",
        host: FOUR,
        steps: &[
            HostStep::Start(1, 1),
            HostStep::Start(2, 2),
            HostStep::Start(3, 3),
        ],
        exchanges: &[
            (
                "load m void g() { Counter a(1); Counter b(2); } void f() { g(); Counter c(3); }",
                "ok seq 1",
                "",
            ),
            (
                "call m f",
                "ok seq 2 dropped 1 2 3",
                "Drew 1; Drew 2; Dropped 1; Dropped 2; Drew 3; Dropped 3; ",
            ),
        ],
        left: "seq 2 last 3 | m | objects | services 00000000 | free 2 left 0",
    },
    Row {
        what: "a `return` in a block, with its value",
        host: FOUR,
        steps: &[
            HostStep::Start(1, 1),
            HostStep::Start(2, 2),
            HostStep::Add(1, 1),
            HostStep::Start(3, 3),
        ],
        exchanges: &[
            (
                "load m int g() { Counter a(1); { Counter b(2); return a.add(1); } } void f() { \
        g(); Counter c(3); }",
                "ok seq 1",
                "",
            ),
            (
                "call m f",
                "ok seq 2 dropped 1 2 3",
                "Drew 1; Drew 2; Called 1 1; Dropped 1; Dropped 2; Drew 3; Dropped 3; ",
            ),
        ],
        left: "seq 2 last 3 | m | objects | services 00000000 | free 2 left 0",
    },
    Row {
        what: "a result, which the caller holds",
        host: FOUR,
        steps: &[
            HostStep::Start(1, 1),
            HostStep::Start(2, 2),
            HostStep::Start(3, 3),
        ],
        exchanges: &[
            (
                "load m Counter@ g() { Counter a(1); Counter b(2); return a; } void f() { g(); \
        Counter c(3); }",
                "ok seq 1",
                "",
            ),
            (
                "call m f",
                "ok seq 2 dropped 2 1 3",
                "Drew 1; Drew 2; Dropped 2; Dropped 1; Drew 3; Dropped 3; ",
            ),
        ],
        left: "seq 2 last 3 | m | objects | services 00000000 | free 2 left 0",
    },
    Row {
        what: "an argument, which the caller holds",
        host: FOUR,
        steps: &[
            HostStep::Start(1, 1),
            HostStep::Start(2, 2),
            HostStep::Start(3, 3),
        ],
        exchanges: &[
            (
                "load m void g(Counter@ h) { Counter b(2); } void f() { g(Counter(1)); Counter \
        c(3); }",
                "ok seq 1",
                "",
            ),
            (
                "call m f",
                "ok seq 2 dropped 2 1 3",
                "Drew 1; Drew 2; Dropped 2; Dropped 1; Drew 3; Dropped 3; ",
            ),
        ],
        left: "seq 2 last 3 | m | objects | services 00000000 | free 2 left 0",
    },
    Row {
        what: "a construction",
        host: FOUR,
        steps: &[HostStep::Start(2, 2), HostStep::Start(3, 3)],
        exchanges: &[
            (
                "load m class A { A() { Counter b(2); } } void f() { A(); Counter c(3); }",
                "ok seq 1",
                "",
            ),
            (
                "call m f",
                "ok seq 2 dropped 2 3",
                "Drew 2; Dropped 2; Drew 3; Dropped 3; ",
            ),
        ],
        left: "seq 2 last 3 | m | objects | services 00000000 | free 3 left 0",
    },
    Row {
        what: "all frames, by an exception",
        host: FOUR,
        steps: &[HostStep::Start(1, 1), HostStep::Start(2, 2)],
        exchanges: &[
            (
                "load m void g(int z) { Counter b(2); z = 1 / z; } void f() { Counter a(1); g(0); \
        }",
                "ok seq 1",
                "",
            ),
            (
                "call m f",
                "exception DivideByZero g 1 seq 2 dropped 1 2",
                "Drew 1; Drew 2; Dropped 1; Dropped 2; ",
            ),
        ],
        left: "seq 2 last 2 | m | objects | services 00000000 | free 3 left 0",
    },
    Row {
        what: "all frames, where no tick is left",
        host: FOUR,
        steps: &[HostStep::Start(1, 1), HostStep::Start(2, 2)],
        exchanges: &[
            (
                "load m void g() { Counter b(2); for (;;) ; } void f() { Counter a(1); g(); }",
                "ok seq 1",
                "",
            ),
            (
                "call m f",
                "aborted g 1 seq 2 dropped 1 2",
                "Drew 1; Drew 2; Dropped 1; Dropped 2; ",
            ),
        ],
        left: "seq 2 last 2 | m | objects | services 00000000 | free 3 left 0",
    },
    Row {
        what: "an exception in a constructor, after a field",
        host: FOUR,
        steps: &[HostStep::Start(2, 1)],
        exchanges: &[
            (
                "load m class A { Counter c(1); A(int z) { z = 1 / z; } } void f() { A(0); }",
                "ok seq 1",
                "",
            ),
            (
                "call m f",
                "exception DivideByZero A.A 1 seq 2 dropped 2",
                "Drew 2; Dropped 2; ",
            ),
        ],
        left: "seq 2 last 2 | m | objects | services 00000000 | free 4 left 0",
    },
    Row {
        what: "an exception in an argument, after another",
        host: FOUR,
        steps: &[HostStep::Start(1, 1)],
        exchanges: &[
            (
                "load m int two(Counter@ h, int k) { return k; } void f() { two(Counter(1), 1 / \
        0); }",
                "ok seq 1",
                "",
            ),
            (
                "call m f",
                "exception DivideByZero f 1 seq 2 dropped 1",
                "Drew 1; Dropped 1; ",
            ),
        ],
        left: "seq 2 last 1 | m | objects | services 00000000 | free 4 left 0",
    },
    Row {
        what: "an exception in a condition",
        host: FOUR,
        steps: &[
            HostStep::Start(1, 1),
            HostStep::Start(2, 2),
            HostStep::Read(2),
        ],
        exchanges: &[
            (
                "load m void f() { Counter a(1); while (Counter(2).value / 0 > 0) ; }",
                "ok seq 1",
                "",
            ),
            (
                "call m f",
                "exception DivideByZero f 1 seq 2 dropped 1 2",
                "Drew 1; Drew 2; Dropped 1; Dropped 2; ",
            ),
        ],
        left: "seq 2 last 2 | m | objects | services 00000000 | free 3 left 0",
    },
    Row {
        what: "an exception in a step of a `for`",
        host: FOUR,
        steps: &[HostStep::Start(1, 1), HostStep::Start(2, 2)],
        exchanges: &[
            (
                "load m void f() { for (Counter a(1); ; 1 / 0) { Counter b(2); } }",
                "ok seq 1",
                "",
            ),
            (
                "call m f",
                "exception DivideByZero f 1 seq 2 dropped 2 1",
                "Drew 1; Drew 2; Dropped 2; Dropped 1; ",
            ),
        ],
        left: "seq 2 last 2 | m | objects | services 00000000 | free 3 left 0",
    },
    Row {
        what: "a load that does not finish: its frames, and then its globals",
        host: FOUR,
        steps: &[HostStep::Start(1, 1), HostStep::Start(2, 2)],
        exchanges: &[
            (
                "load m Counter a(1); int b = f(); int f() { Counter c(2); return 1 / 0; }",
                "exception DivideByZero f 1 seq 1 dropped 2 1",
                "Drew 1; Drew 2; Dropped 2; Dropped 1; ",
            ),
            ("get m b", "refused 401 NoModule", ""),
        ],
        left: "seq 1 last 2 | objects | services 00000000 | free 3 left 0",
    },
    Row {
        what: "a discard",
        host: FOUR,
        steps: &[HostStep::Start(1, 1), HostStep::Start(2, 2)],
        exchanges: &[
            (
                "load m Counter@ b; Counter a(1); Counter@ c = Counter(2);",
                "ok seq 1",
                "Drew 1; Drew 2; ",
            ),
            (
                "discard m",
                "ok seq 2 dropped 1 2",
                "Dropped 1; Dropped 2; ",
            ),
        ],
        left: "seq 2 last 2 | objects | services 00000000 | free 3 left 0",
    },
];
