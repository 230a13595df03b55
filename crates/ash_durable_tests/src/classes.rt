//! Classes, handles and their counts.

use crate::rows::{Row, check_rows};
use std::test::Fail;

static ONE: [Row; 2] = [
    Row {
        what: "the right side of an assignment comes first",
        budget: 1000,
        parts: &[
            "load m 163\n\
             class P { int v; } P@ o = P(); int n = 0; P@ pick() { n = n * 10 + 1; return o; } int next() { n = \
             n * 10 + 2; return n; } int f() { pick().v = next(); return n; }\n\
             -> ok seq 1\n\
             call m f\n\
             -> ok 21 seq 2\n\
             object 1\n\
             -> ok object 1 m.P count 1 v 2\n\
             call m pick\n\
             -> refused 404 NotCallable\n\
             get m o\n\
             -> ok object 1\n",
            "object 1\n\
             -> ok object 1 m.P count 1 v 2\n\
             seq\n\
             -> ok 2\n\
             call m f\n\
             -> ok 2121 seq 3\n\
             object 1\n\
             -> ok object 1 m.P count 1 v 212\n",
        ],
    },
    Row {
        what: "a constructor, and two handles of one object",
        budget: 1000,
        parts: &[
            "load m 125\n\
             class Q { int w = 1; } class P { Q q; Q@ r; int v = 2; P(int k) { v = v + k; @r = q; } } P@ g = \
             P(5); int f() { return g.v; }\n\
             -> ok seq 1\n\
             call m f\n\
             -> ok 7 seq 2\n\
             get m g\n\
             -> ok object 1\n\
             object 1\n\
             -> ok object 1 m.P count 1 q object 2 r object 2 v 7\n\
             object 2\n\
             -> ok object 2 m.Q count 2 w 1\n\
             object 3\n\
             -> refused 407 NoObject\n\
             object 0\n\
             -> refused 407 NoObject\n",
            "object 1\n\
             -> ok object 1 m.P count 1 q object 2 r object 2 v 7\n\
             object 2\n\
             -> ok object 2 m.Q count 2 w 1\n\
             object 3\n\
             -> refused 407 NoObject\n\
             call m f\n\
             -> ok 7 seq 3\n",
        ],
    },
];

#[test]
fn objects_of_one_module(rt: HostRuntime) -> Result<(), Fail> {
    check_rows(&rt, rt.alloc(), &ONE)
}

static MORE: [Row; 3] = [
    Row {
        what: "objects of two modules. What one of them holds goes with it, and no number is given twice",
        budget: 1000,
        parts: &[
            "load m 125\n\
             class Q { int w = 1; } class P { Q q; Q@ r; int v = 2; P(int k) { v = v + k; @r = q; } } P@ g = \
             P(5); int f() { return g.v; }\n\
             -> ok seq 1\n\
             load k 125\n\
             class Q { int w = 1; } class P { Q q; Q@ r; int v = 2; P(int k) { v = v + k; @r = q; } } P@ g = \
             P(5); int f() { return g.v; }\n\
             -> ok seq 2\n\
             object 3\n\
             -> ok object 3 k.P count 1 q object 4 r object 4 v 7\n\
             object 4\n\
             -> ok object 4 k.Q count 2 w 1\n\
             discard m\n\
             -> ok seq 3\n\
             object 1\n\
             -> refused 407 NoObject\n\
             object 2\n\
             -> refused 407 NoObject\n\
             object 3\n\
             -> ok object 3 k.P count 1 q object 4 r object 4 v 7\n",
            "object 1\n\
             -> refused 407 NoObject\n\
             object 3\n\
             -> ok object 3 k.P count 1 q object 4 r object 4 v 7\n\
             call k f\n\
             -> ok 7 seq 4\n\
             load m 125\n\
             class Q { int w = 1; } class P { Q q; Q@ r; int v = 2; P(int k) { v = v + k; @r = q; } } P@ g = \
             P(5); int f() { return g.v; }\n\
             -> ok seq 5\n\
             get m g\n\
             -> ok object 5\n\
             object 6\n\
             -> ok object 6 m.Q count 2 w 1\n",
            "object 6\n\
             -> ok object 6 m.Q count 2 w 1\n\
             discard k\n\
             -> ok seq 6\n\
             object 3\n\
             -> refused 407 NoObject\n\
             object 5\n\
             -> ok object 5 m.P count 1 q object 6 r object 6 v 7\n",
        ],
    },
    Row {
        what: "what nothing holds any more is gone after the request, and stays gone",
        budget: 1000,
        parts: &[
            "load m 96\n\
             class C { int v; } C@ g = C(); void f() { C@ c = C(); c.v = 3; @g = c; } void h() { @g = null; }\n\
             -> ok seq 1\n\
             call m f\n\
             -> ok seq 2\n\
             object 1\n\
             -> refused 407 NoObject\n\
             object 2\n\
             -> ok object 2 m.C count 1 v 3\n\
             call m h\n\
             -> ok seq 3\n\
             object 2\n\
             -> refused 407 NoObject\n",
            "object 2\n\
             -> refused 407 NoObject\n\
             get m g\n\
             -> ok null\n\
             call m f\n\
             -> ok seq 4\n\
             get m g\n\
             -> ok object 3\n",
        ],
    },
    Row {
        what: "objects are handed over by no call",
        budget: 1000,
        parts: &[
            "load m 123\n\
             class C { } void f(C@ c) { } C@ g() { return null; } array<int>@ h() { return null; } int i(bool b, \
             uint64 n) { return 1; }\n\
             -> ok seq 1\n\
             call m f\n\
             -> refused 404 NotCallable\n\
             call m f 1 2\n\
             -> refused 404 NotCallable\n\
             call m g\n\
             -> refused 404 NotCallable\n\
             call m h\n\
             -> refused 404 NotCallable\n\
             call m i true\n\
             -> refused 405 BadArguments\n\
             call m i 1 1\n\
             -> refused 405 BadArguments\n\
             call m i true -1\n\
             -> refused 405 BadArguments\n\
             call m i true 18446744073709551615\n\
             -> ok 1 seq 2\n",
        ],
    },
];

#[test]
fn objects_that_go_and_calls_without_them(rt: HostRuntime) -> Result<(), Fail> {
    check_rows(&rt, rt.alloc(), &MORE)
}
