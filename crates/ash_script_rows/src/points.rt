//! Counters that go at the end of a full expression and of blocks, those of one point by ascending number.

use crate::rows::{HOST, Host, Row};
use crate::steps::HostStep;

/// Four counters are free.
pub const FOUR: Host = Host {
    counters: 4,
    ..HOST
};

/// The rows.
pub static ROWS: [Row<'static>; 15] = [
    Row {
        what: "an expression statement",
        host: FOUR,
        steps: &[
            HostStep::Start(1, 1),
            HostStep::Start(2, 2),
            HostStep::Start(3, 3),
        ],
        exchanges: &[
            (
                "load m void f() { Counter(1); Counter(2); Counter(3); }",
                "ok seq 1",
                "",
            ),
            (
                "call m f",
                "ok seq 2 dropped 1 2 3",
                "Drew 1; Dropped 1; Drew 2; Dropped 2; Drew 3; Dropped 3; ",
            ),
        ],
        left: "seq 2 last 3 | m | objects | services 00000000 | free 2 left 0",
    },
    Row {
        what: "the initializer of each variable",
        host: FOUR,
        steps: &[
            HostStep::Start(1, 1),
            HostStep::Read(1),
            HostStep::Start(2, 2),
            HostStep::Read(2),
            HostStep::Start(3, 3),
        ],
        exchanges: &[
            (
                "load m void f() { int a = Counter(1).value, b = Counter(2).value; Counter c(3); }",
                "ok seq 1",
                "",
            ),
            (
                "call m f",
                "ok seq 2 dropped 1 2 3",
                "Drew 1; Dropped 1; Drew 2; Dropped 2; Drew 3; Dropped 3; ",
            ),
        ],
        left: "seq 2 last 3 | m | objects | services 00000000 | free 2 left 0",
    },
    Row {
        what: "a condition",
        host: FOUR,
        steps: &[
            HostStep::Start(1, 1),
            HostStep::Read(1),
            HostStep::Start(2, 2),
            HostStep::Start(3, 3),
        ],
        exchanges: &[
            (
                "load m void f() { if (Counter(1).value == 1) Counter(2); Counter c(3); }",
                "ok seq 1",
                "",
            ),
            (
                "call m f",
                "ok seq 2 dropped 1 2 3",
                "Drew 1; Dropped 1; Drew 2; Dropped 2; Drew 3; Dropped 3; ",
            ),
        ],
        left: "seq 2 last 3 | m | objects | services 00000000 | free 2 left 0",
    },
    Row {
        what: "the value of a `switch`",
        host: FOUR,
        steps: &[
            HostStep::Start(1, 1),
            HostStep::Read(1),
            HostStep::Start(2, 2),
            HostStep::Start(3, 3),
        ],
        exchanges: &[
            (
                "load m void f() { switch (Counter(1).value) { case 1: Counter(2); } Counter \
        c(3); }",
                "ok seq 1",
                "",
            ),
            (
                "call m f",
                "ok seq 2 dropped 1 2 3",
                "Drew 1; Dropped 1; Drew 2; Dropped 2; Drew 3; Dropped 3; ",
            ),
        ],
        left: "seq 2 last 3 | m | objects | services 00000000 | free 2 left 0",
    },
    Row {
        what: "the first part and the condition of a `for`",
        host: FOUR,
        steps: &[
            HostStep::Start(1, 1),
            HostStep::Start(2, 2),
            HostStep::Read(2),
            HostStep::Start(3, 3),
        ],
        exchanges: &[
            (
                "load m void f() { for (Counter(1); Counter(2).value < 2; ) ; Counter c(3); }",
                "ok seq 1",
                "",
            ),
            (
                "call m f",
                "ok seq 2 dropped 1 2 3",
                "Drew 1; Dropped 1; Drew 2; Dropped 2; Drew 3; Dropped 3; ",
            ),
        ],
        left: "seq 2 last 3 | m | objects | services 00000000 | free 2 left 0",
    },
    Row {
        what: "each step of a `for`",
        host: FOUR,
        steps: &[
            HostStep::Start(1, 1),
            HostStep::Start(2, 2),
            HostStep::Start(3, 3),
        ],
        exchanges: &[
            (
                "load m void f() { for (int i = 0; i < 1; Counter(1), i++, Counter(2)) ; Counter \
        c(3); }",
                "ok seq 1",
                "",
            ),
            (
                "call m f",
                "ok seq 2 dropped 1 2 3",
                "Drew 1; Dropped 1; Drew 2; Dropped 2; Drew 3; Dropped 3; ",
            ),
        ],
        left: "seq 2 last 3 | m | objects | services 00000000 | free 2 left 0",
    },
    Row {
        what: "the initializer of each field",
        host: FOUR,
        steps: &[
            HostStep::Start(2, 1),
            HostStep::Read(2),
            HostStep::Start(3, 2),
            HostStep::Read(3),
        ],
        exchanges: &[
            (
                "load m class A { int a = Counter(1).value; int b = Counter(2).value; } A@ g; \
        void f() { @g = A(); }",
                "ok seq 1",
                "",
            ),
            (
                "call m f",
                "ok seq 2 dropped 2 3",
                "Drew 2; Dropped 2; Drew 3; Dropped 3; ",
            ),
            ("object 1", "ok object 1 m.A count 1 a 1 b 2", ""),
        ],
        left: "seq 2 last 3 | m object 1 | objects 1 | services 00000000 | free 3 left 0",
    },
    Row {
        what: "the initializer of each global",
        host: FOUR,
        steps: &[
            HostStep::Start(1, 1),
            HostStep::Read(1),
            HostStep::Start(2, 2),
            HostStep::Read(2),
        ],
        exchanges: &[
            (
                "load m int a = Counter(1).value, b = Counter(2).value;",
                "ok seq 1 dropped 1 2",
                "Drew 1; Dropped 1; Drew 2; Dropped 2; ",
            ),
            ("get m b", "ok 2", ""),
        ],
        left: "seq 1 last 2 | m 1 2 | objects | services 00000000 | free 3 left 0",
    },
    Row {
        what: "a block: its locals in another order than their numbers",
        host: FOUR,
        steps: &[
            HostStep::Start(1, 1),
            HostStep::Start(2, 2),
            HostStep::Start(3, 3),
        ],
        exchanges: &[
            (
                "load m void f() { { Counter@ b; Counter a(1); @b = Counter(2); } Counter c(3); }",
                "ok seq 1",
                "",
            ),
            (
                "call m f",
                "ok seq 2 dropped 1 2 3",
                "Drew 1; Drew 2; Dropped 1; Dropped 2; Drew 3; Dropped 3; ",
            ),
        ],
        left: "seq 2 last 3 | m | objects | services 00000000 | free 2 left 0",
    },
    Row {
        what: "a block in a block",
        host: FOUR,
        steps: &[
            HostStep::Start(1, 1),
            HostStep::Start(2, 2),
            HostStep::Start(3, 3),
        ],
        exchanges: &[
            (
                "load m void f() { { Counter a(1); { Counter b(2); } } Counter c(3); }",
                "ok seq 1",
                "",
            ),
            (
                "call m f",
                "ok seq 2 dropped 2 1 3",
                "Drew 1; Drew 2; Dropped 2; Dropped 1; Drew 3; Dropped 3; ",
            ),
        ],
        left: "seq 2 last 3 | m | objects | services 00000000 | free 2 left 0",
    },
    Row {
        what: "blocks that a `break` leaves",
        host: FOUR,
        steps: &[
            HostStep::Start(1, 1),
            HostStep::Start(2, 2),
            HostStep::Start(3, 3),
        ],
        exchanges: &[
            (
                "load m void f() { while (true) { Counter a(1); { Counter b(2); break; } } \
        Counter c(3); }",
                "ok seq 1",
                "",
            ),
            (
                "call m f",
                "ok seq 2 dropped 1 2 3",
                "Drew 1; Drew 2; Dropped 1; Dropped 2; Drew 3; Dropped 3; ",
            ),
        ],
        left: "seq 2 last 3 | m | objects | services 00000000 | free 2 left 0",
    },
    Row {
        what: "blocks that a `break` of a `switch` leaves",
        host: FOUR,
        steps: &[
            HostStep::Start(1, 1),
            HostStep::Start(2, 2),
            HostStep::Start(3, 3),
        ],
        exchanges: &[
            (
                "load m void f() { switch (1) { case 1: { Counter a(1); { Counter b(2); break; } \
        } } Counter c(3); }",
                "ok seq 1",
                "",
            ),
            (
                "call m f",
                "ok seq 2 dropped 1 2 3",
                "Drew 1; Drew 2; Dropped 1; Dropped 2; Drew 3; Dropped 3; ",
            ),
        ],
        left: "seq 2 last 3 | m | objects | services 00000000 | free 2 left 0",
    },
    Row {
        what: "the head of a `for` that a `break` leaves",
        host: FOUR,
        steps: &[
            HostStep::Start(1, 1),
            HostStep::Start(2, 2),
            HostStep::Start(3, 3),
        ],
        exchanges: &[
            (
                "load m void f() { for (Counter a(1); ; ) { Counter b(2); break; } Counter c(3); }",
                "ok seq 1",
                "",
            ),
            (
                "call m f",
                "ok seq 2 dropped 1 2 3",
                "Drew 1; Drew 2; Dropped 1; Dropped 2; Drew 3; Dropped 3; ",
            ),
        ],
        left: "seq 2 last 3 | m | objects | services 00000000 | free 2 left 0",
    },
    Row {
        what: "blocks that a `continue` leaves",
        host: FOUR,
        steps: &[
            HostStep::Start(1, 1),
            HostStep::Start(2, 2),
            HostStep::Start(3, 1),
            HostStep::Start(4, 2),
        ],
        exchanges: &[
            (
                "load m void f() { for (int i = 0; i < 2; i++) { Counter a(1); { Counter b(2); \
        continue; } } }",
                "ok seq 1",
                "",
            ),
            (
                "call m f",
                "ok seq 2 dropped 1 2 3 4",
                "Drew 1; Drew 2; Dropped 1; Dropped 2; Drew 3; Drew 4; Dropped 3; Dropped 4; ",
            ),
        ],
        left: "seq 2 last 4 | m | objects | services 00000000 | free 1 left 0",
    },
    Row {
        what: "the head of a `for` that a `continue` does not leave",
        host: FOUR,
        steps: &[
            HostStep::Start(1, 1),
            HostStep::Read(1),
            HostStep::Start(2, 2),
            HostStep::Write(1, 2),
            HostStep::Read(1),
            HostStep::Start(3, 3),
        ],
        exchanges: &[
            (
                "load m void f() { for (Counter a(1); a.value == 1; a.value = 2) { Counter b(2); \
        continue; } Counter c(3); }",
                "ok seq 1",
                "",
            ),
            (
                "call m f",
                "ok seq 2 dropped 2 1 3",
                "Drew 1; Drew 2; Dropped 2; Dropped 1; Drew 3; Dropped 3; ",
            ),
        ],
        left: "seq 2 last 3 | m | objects | services 00000000 | free 2 left 0",
    },
];
