//! The first example, ticks, and frames that run out.

use crate::rows::{Row, check_rows};
use std::test::Fail;

static FIRST: [Row; 4] = [
    Row {
        what: "the first example",
        budget: 1000,
        parts: &[
            "load m 45\n\
             int n = 2; int f(int k) { n += k; return n; }\n\
             -> ok seq 1\n\
             call m f 5\n\
             -> ok 7 seq 2\n\
             get m n\n\
             -> ok 7\n\
             quit\n\
             -> ok\n",
            "get m n\n\
             -> ok 7\n\
             seq\n\
             -> ok 2\n",
        ],
    },
    Row {
        what: "as many ticks as are taken",
        budget: 2,
        parts: &[
            "load m 21\n\
             int f() { return 1; }\n\
             -> ok seq 1\n\
             call m f\n\
             -> ok 1 seq 2\n",
        ],
    },
    Row {
        what: "one tick fewer than are taken",
        budget: 1,
        parts: &[
            "load m 21\n\
             int f() { return 1; }\n\
             -> ok seq 1\n\
             call m f\n\
             -> aborted f 1 seq 2\n",
        ],
    },
    Row {
        what: "a load without ticks",
        budget: 0,
        parts: &[
            "load m 45\n\
             int n = 2; int f(int k) { n += k; return n; }\n\
             -> aborted (init) 1 seq 1\n\
             call m f 5\n\
             -> refused 401 NoModule\n\
             get m n\n\
             -> refused 401 NoModule\n\
             quit\n\
             -> ok\n",
        ],
    },
];

#[test]
fn the_first_example_and_its_ticks(rt: HostRuntime) -> Result<(), Fail> {
    check_rows(&rt, rt.alloc(), &FIRST)
}

static FRAMES: [Row; 3] = [
    Row {
        what: "as many frames as there may be, with as many ticks as they take",
        budget: 512,
        parts: &[
            "load m 48\n\
             int f() { return f(); } void g() { for (;;) {} }\n\
             -> ok seq 1\n\
             call m f\n\
             -> exception StackOverflow f 1 seq 2\n\
             call m g\n\
             -> aborted g 1 seq 3\n",
        ],
    },
    Row {
        what: "one tick fewer",
        budget: 511,
        parts: &[
            "load m 23\n\
             int f() { return f(); }\n\
             -> ok seq 1\n\
             call m f\n\
             -> aborted f 1 seq 2\n",
        ],
    },
    Row {
        what: "a loop without end",
        budget: 1000,
        parts: &[
            "load m 24\n\
             void g() { for (;;) {} }\n\
             -> ok seq 1\n\
             call m g\n\
             -> aborted g 1 seq 2\n",
        ],
    },
];

#[test]
fn frames_that_run_out(rt: HostRuntime) -> Result<(), Fail> {
    check_rows(&rt, rt.alloc(), &FRAMES)
}
