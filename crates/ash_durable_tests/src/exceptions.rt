//! Exceptions, and what they keep.

use crate::rows::{Row, check_rows};
use std::test::Fail;

static ROWS: [Row; 3] = [
    Row {
        what: "what was done before an exception stays",
        budget: 1000,
        parts: &[
            "load m 49\n\
             int n = 0;\n\
             int f(int d) {\n\
             n = 1;\n\
             return 10 / d;\n\
             }\n\
             -> ok seq 1\n\
             call m f 0\n\
             -> exception DivideByZero f 4 seq 2\n\
             get m n\n\
             -> ok 1\n",
            "get m n\n\
             -> ok 1\n\
             seq\n\
             -> ok 2\n\
             call m f 5\n\
             -> ok 2 seq 3\n",
        ],
    },
    Row {
        what: "a load that does not finish leaves no module",
        budget: 1000,
        parts: &[
            "load m 36\n\
             int a = 3; int b = 1; int c = 1 / 0;\n\
             -> exception DivideByZero (init) 1 seq 1\n\
             get m a\n\
             -> refused 401 NoModule\n\
             load m 10\n\
             int n = 4;\n\
             -> ok seq 2\n\
             get m n\n\
             -> ok 4\n",
            "get m n\n\
             -> ok 4\n\
             seq\n\
             -> ok 2\n",
        ],
    },
    Row {
        what: "a field of null, and an exception in a method",
        budget: 1000,
        parts: &[
            "load m 112\n\
             class C { int v; int m() { return 1 / v; } } C@ g; C@ h = C(); int f() { return g.v; } int i() { \
             return h.m(); }\n\
             -> ok seq 1\n\
             call m f\n\
             -> exception NullPointerAccess f 1 seq 2\n\
             get m g\n\
             -> ok null\n\
             call m i\n\
             -> exception DivideByZero C.m 1 seq 3\n",
        ],
    },
];

#[test]
fn what_exceptions_keep(rt: HostRuntime) -> Result<(), Fail> {
    check_rows(&rt, rt.alloc(), &ROWS)
}
