//! Integers and control flow.

use crate::rows::{Row, check_rows};
use std::test::Fail;

static ROWS: [Row; 7] = [
    Row {
        what: "sums wrap, quotients go toward zero, and remainders have the sign of the dividend",
        budget: 1000,
        parts: &[
            "load m 110\n\
             int a() { return 2147483647 + 1; } int q(int x, int y) { return x / y; } int r(int x, int y) { \
             return x % y; }\n\
             -> ok seq 1\n\
             call m a\n\
             -> ok -2147483648 seq 2\n\
             call m q -7 2\n\
             -> ok -3 seq 3\n\
             call m r -7 2\n\
             -> ok -1 seq 4\n\
             call m q -2147483648 -1\n\
             -> exception DivideOverflow q 1 seq 5\n\
             call m r -2147483648 -1\n\
             -> exception DivideOverflow r 1 seq 6\n\
             call m q 5 0\n\
             -> exception DivideByZero q 1 seq 7\n",
        ],
    },
    Row {
        what: "`|` comes before `==`",
        budget: 1000,
        parts: &[
            "load m 31\n\
             bool p() { return 1 | 2 == 2; }\n\
             -> ok seq 1\n\
             call m p\n\
             -> ok false seq 2\n",
        ],
    },
    Row {
        what: "only what decides is computed",
        budget: 1000,
        parts: &[
            "load m 144\n\
             int n = 0; bool g() { n += 1; return true; } int h() { n += 1; return 1; } int f() { bool b = false \
             && g(); int k = false ? h() : 0; return n; }\n\
             -> ok seq 1\n\
             call m f\n\
             -> ok 0 seq 2\n",
        ],
    },
    Row {
        what: "signs that meet, and the number 2^31 after a minus",
        budget: 1000,
        parts: &[
            "load m 109\n\
             uint x = 4000000000; uint f() { return x / 2; } bool g() { return x > -1; } int64 h() { return \
             -2147483648; }\n\
             -> ok seq 1\n\
             call m f\n\
             -> ok 2000000000 seq 2\n\
             call m g\n\
             -> ok false seq 3\n\
             call m h\n\
             -> ok -2147483648 seq 4\n",
        ],
    },
    Row {
        what: "shifts: zeros come in, or the top bit, and the count is modulo the width",
        budget: 1000,
        parts: &[
            "load m 99\n\
             int a(int x) { return x >> 28; } int b(int x) { return x >>> 28; } int c(int x) { return x << 33; }\n\
             -> ok seq 1\n\
             call m a -1\n\
             -> ok 15 seq 2\n\
             call m b -1\n\
             -> ok -1 seq 3\n\
             call m c 1\n\
             -> ok 2 seq 4\n",
        ],
    },
    Row {
        what: "cases fall through up to a break",
        budget: 1000,
        parts: &[
            "load m 99\n\
             int f(int k) { switch (k) { case 1: k += 10; case 2: k += 100; break; default: k = 0; } return k; }\n\
             -> ok seq 1\n\
             call m f 1\n\
             -> ok 111 seq 2\n\
             call m f 2\n\
             -> ok 102 seq 3\n\
             call m f 3\n\
             -> ok 0 seq 4\n",
        ],
    },
    Row {
        what: "the greatest number, and one more",
        budget: 1000,
        parts: &[
            "load m 32\n\
             uint64 x = 18446744073709551616;\n\
             -> refused 103 NumberTooLarge 11\n\
             load m 32\n\
             uint64 x = 18446744073709551615;\n\
             -> ok seq 1\n\
             get m x\n\
             -> ok 18446744073709551615\n",
            "get m x\n\
             -> ok 18446744073709551615\n",
        ],
    },
];

#[test]
fn sums_shifts_and_choices(rt: HostRuntime) -> Result<(), Fail> {
    check_rows(&rt, rt.alloc(), &ROWS)
}
