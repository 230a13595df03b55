//! Host objects and the service, which are stored and go on after a crash.

use crate::rows::{Row, check_rows_with};
use std::test::Fail;

static TWO_COUNTERS: [Row; 7] = [
    Row {
        what: "objects that go together, and a pool that is empty until the store is opened again",
        budget: 1000,
        parts: &[
            "load m 122\n\
             class B { Counter@ c; } void f() { B@ x = B(); B@ y = B(); @x.c = Counter(1); B@ z = B(); @y.c = \
             Counter(2); @z.c = x.c; }\n\
             -> ok seq 1\n\
             call m f\n\
             -> ok seq 2 dropped 3 5\n\
             call m f\n\
             -> exception PoolEmpty f 1 seq 3\n",
            "call m f\n\
             -> ok seq 4 dropped 10 12\n",
        ],
    },
    Row {
        what: "an object that an expression lets go",
        budget: 1000,
        parts: &[
            "load m 156\n\
             int two(Counter@ h, int k) { return k; } int f() { Counter@ a = Counter(1); Counter@ c = \
             Counter(5); int r = two(@a = null, c.add(1)); c.add(1); return r; }\n\
             -> ok seq 1\n",
            "call m f\n\
             -> ok 6 seq 2 dropped 1 2\n\
             seq\n\
             -> ok 2\n",
            "call m f\n\
             -> ok 6 seq 3 dropped 3 4\n\
             object 3\n\
             -> refused 407 NoObject\n",
        ],
    },
    Row {
        what: "what was done before an exception",
        budget: 1000,
        parts: &[
            "load m 87\n\
             int n = 0;\n\
             int f(int d) {\n\
             n = 1; tally(4);\n\
             return 10 / d;\n\
             }\n\
             int t() { return total(); }\n\
             -> ok seq 1\n\
             call m f 0\n\
             -> exception DivideByZero f 4 seq 2\n",
            "get m n\n\
             -> ok 1\n\
             call m t\n\
             -> ok 4 seq 3\n",
            "call m f 5\n\
             -> ok 2 seq 4\n\
             call m t\n\
             -> ok 8 seq 5\n",
            "call m t\n\
             -> ok 8 seq 6\n",
        ],
    },
    Row {
        what: "a load that comes to no end",
        budget: 1000,
        parts: &[
            "load m 43\n\
             int a = tally(3); int b = 1; int c = 1 / 0;\n\
             -> exception DivideByZero (init) 1 seq 1\n",
            "load m 27\n\
             int t() { return total(); }\n\
             -> ok seq 2\n\
             call m t\n\
             -> ok 3 seq 3\n",
            "load k 39\n\
             Counter@ g = Counter(7); int c = 1 / 0;\n\
             -> exception DivideByZero (init) 1 seq 4 dropped 1\n",
            "object 1\n\
             -> refused 407 NoObject\n\
             load k 24\n\
             Counter@ g = Counter(8);\n\
             -> ok seq 5\n\
             get k g\n\
             -> ok object 2\n",
        ],
    },
    Row {
        what: "a property through null, and a code that a method raises",
        budget: 1000,
        parts: &[
            "load m 90\n\
             Counter@ g; int f() { return g.value; } void r() { @g = Counter(1); g.add(2); g.fail(9); }\n\
             -> ok seq 1\n\
             call m f\n\
             -> exception NullPointerAccess f 1 seq 2\n\
             get m g\n\
             -> ok null\n",
            "get m g\n\
             -> ok null\n\
             call m r\n\
             -> exception Raised 9 r 1 seq 3\n",
            "object 1\n\
             -> ok object 1 Counter count 1 state 03000000\n\
             call m f\n\
             -> ok 3 seq 4\n\
             call m r\n\
             -> exception Raised 9 r 1 seq 5 dropped 1\n",
            "object 2\n\
             -> ok object 2 Counter count 1 state 03000000\n",
        ],
    },
    Row {
        what: "a counter that a global holds",
        budget: 1000,
        parts: &[
            "load m 24\n\
             Counter@ g = Counter(7);\n\
             -> ok seq 1\n\
             object 1\n\
             -> ok object 1 Counter count 1 state 07000000\n\
             snapshot\n\
             -> ok\n",
            "object 1\n\
             -> ok object 1 Counter count 1 state 07000000\n\
             get m g\n\
             -> ok object 1\n\
             discard m\n\
             -> ok seq 2 dropped 1\n",
            "object 1\n\
             -> refused 407 NoObject\n\
             get m g\n\
             -> refused 401 NoModule\n",
        ],
    },
    Row {
        what: "counters in a field and in an array",
        budget: 1000,
        parts: &[
            "load m 136\n\
             class Box { Counter@ c; int v = 3; } Box b; void f() { @b.c = Counter(4); } int g() { b.c.value \
             = b.c.value * 10; return b.c.add(b.v); }\n\
             -> ok seq 1\n\
             call m f\n\
             -> ok seq 2\n",
            "object 1\n\
             -> ok object 1 m.Box count 1 c object 2 v 3\n\
             call m g\n\
             -> ok 43 seq 3\n",
            "object 2\n\
             -> ok object 2 Counter count 1 state 2b000000\n\
             load k 146\n\
             array<Counter@> l; int f(int k) { l.insertLast(Counter(k)); return l.length(); } void g() { \
             l.removeLast(); } int h(uint i) { return l[i].value; }\n\
             -> ok seq 4\n\
             call k f 5\n\
             -> ok 1 seq 5\n",
            "object 3\n\
             -> ok object 3 array count 1 object 4\n\
             call k h 0\n\
             -> ok 5 seq 6\n\
             call k g\n\
             -> ok seq 7 dropped 4\n",
            "object 3\n\
             -> ok object 3 array count 1\n\
             discard m\n\
             -> ok seq 8 dropped 2\n\
             call k f 6\n\
             -> ok 1 seq 9\n",
            "object 3\n\
             -> ok object 3 array count 1 object 5\n",
        ],
    },
];

static ONE_COUNTER: [Row; 1] = [Row {
    what: "a pool that is empty",
    budget: 1000,
    parts: &[
        "load m 26\n\
             void f() { Counter c(1); }\n\
             -> ok seq 1\n\
             call m f\n\
             -> ok seq 2 dropped 1\n\
             call m f\n\
             -> exception PoolEmpty f 1 seq 3\n",
        "call m f\n\
             -> ok seq 4 dropped 2\n\
             load k 24\n\
             Counter@ g = Counter(7);\n\
             -> exception PoolEmpty (init) 1 seq 5\n",
        "load k 24\n\
             Counter@ g = Counter(7);\n\
             -> ok seq 6\n\
             call m f\n\
             -> exception PoolEmpty f 1 seq 7\n",
        "call m f\n\
             -> exception PoolEmpty f 1 seq 8\n\
             discard k\n\
             -> ok seq 9 dropped 3\n",
    ],
}];

#[test]
fn counters_and_a_tally(rt: HostRuntime) -> Result<(), Fail> {
    check_rows_with(&rt, rt.alloc(), 2, &TWO_COUNTERS)?;
    check_rows_with(&rt, rt.alloc(), 1, &ONE_COUNTER)
}
