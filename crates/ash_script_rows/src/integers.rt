//! Integers and control flow, which scripts without objects have too.

use crate::rows::{HOST, Row};

/// The rows.
pub static ROWS: [Row<'static>; 4] = [
    Row {
        what: "sums that wrap, and divisors that are refused",
        host: HOST,
        steps: &[],
        exchanges: &[
            (
                "load m int a() { return 2147483647 + 1; } int q(int x, int y) { return x / y; } \
            int r(int x, int y) { return x % y; }",
                "ok seq 1",
                "",
            ),
            ("call m a", "ok -2147483648 seq 2", ""),
            ("call m q -7 2", "ok -3 seq 3", ""),
            ("call m r -7 2", "ok -1 seq 4", ""),
            (
                "call m q -2147483648 -1",
                "exception DivideOverflow q 1 seq 5",
                "",
            ),
            (
                "call m r -2147483648 -1",
                "exception DivideOverflow r 1 seq 6",
                "",
            ),
            ("call m q 5 0", "exception DivideByZero q 1 seq 7", ""),
        ],
        left: "seq 7 last 0 | m | objects | services 00000000 | free 3 left 0",
    },
    Row {
        what: "what decides alone is computed",
        host: HOST,
        steps: &[],
        exchanges: &[
            (
                "load m int n = 0; bool g() { n += 1; return true; } int h() { n += 1; return 1; } \
            int f() { bool b = false && g(); int k = false ? h() : 0; return n; } \
            bool p() { return 1 | 2 == 2; }",
                "ok seq 1",
                "",
            ),
            ("call m f", "ok 0 seq 2", ""),
            ("call m p", "ok false seq 3", ""),
        ],
        left: "seq 3 last 0 | m 0 | objects | services 00000000 | free 3 left 0",
    },
    Row {
        what: "signs that meet, and shifts",
        host: HOST,
        steps: &[],
        exchanges: &[
            (
                "load m uint x = 4000000000; uint f() { return x / 2; } bool g() { return x > -1; } \
            int64 h() { return -2147483648; } int a(int x) { return x >> 28; } \
            int b(int x) { return x >>> 28; } int c(int x) { return x << 33; }",
                "ok seq 1",
                "",
            ),
            ("call m f", "ok 2000000000 seq 2", ""),
            ("call m g", "ok false seq 3", ""),
            ("call m h", "ok -2147483648 seq 4", ""),
            ("call m a -1", "ok 15 seq 5", ""),
            ("call m b -1", "ok -1 seq 6", ""),
            ("call m c 1", "ok 2 seq 7", ""),
        ],
        left: "seq 7 last 0 | m 4000000000 | objects | services 00000000 | free 3 left 0",
    },
    Row {
        what: "cases that fall through",
        host: HOST,
        steps: &[],
        exchanges: &[
            (
                "load m int f(int k) { switch (k) { case 1: k += 10; case 2: k += 100; break; \
            default: k = 0; } return k; }",
                "ok seq 1",
                "",
            ),
            ("call m f 1", "ok 111 seq 2", ""),
            ("call m f 2", "ok 102 seq 3", ""),
            ("call m f 3", "ok 0 seq 4", ""),
        ],
        left: "seq 4 last 0 | m | objects | services 00000000 | free 3 left 0",
    },
];
