//! Interfaces and casts.

use crate::rows::{Row, check_rows};
use std::test::Fail;

static ROWS: [Row; 3] = [
    Row {
        what: "a call through an interface runs the object's own method, and a cast finds what the object is",
        budget: 1000,
        parts: &[
            "load m 254\n\
             interface I { int v(); } class A : I { int k; int v() { return k; } } class B : I { int v() { \
             return 7; } } I@ g; int f() { A@ a = A(); a.k = 3; @g = a; return g.v(); } int h() { @g = B(); \
             return g.v(); } bool c() { A@ a = cast<A>(g); return a is null; }\n\
             -> ok seq 1\n\
             call m c\n\
             -> ok true seq 2\n\
             call m f\n\
             -> ok 3 seq 3\n\
             call m c\n\
             -> ok false seq 4\n\
             object 1\n\
             -> ok object 1 m.A count 1 k 3\n\
             call m h\n\
             -> ok 7 seq 5\n\
             call m c\n\
             -> ok true seq 6\n\
             object 1\n\
             -> refused 407 NoObject\n\
             object 2\n\
             -> ok object 2 m.B count 1\n",
        ],
    },
    Row {
        what: "the same, where the store is opened again after `f`",
        budget: 1000,
        parts: &[
            "load m 254\n\
             interface I { int v(); } class A : I { int k; int v() { return k; } } class B : I { int v() { \
             return 7; } } I@ g; int f() { A@ a = A(); a.k = 3; @g = a; return g.v(); } int h() { @g = B(); \
             return g.v(); } bool c() { A@ a = cast<A>(g); return a is null; }\n\
             -> ok seq 1\n\
             call m c\n\
             -> ok true seq 2\n\
             call m f\n\
             -> ok 3 seq 3\n",
            "call m c\n\
             -> ok false seq 4\n\
             object 1\n\
             -> ok object 1 m.A count 1 k 3\n\
             call m h\n\
             -> ok 7 seq 5\n\
             call m c\n\
             -> ok true seq 6\n",
            "get m g\n\
             -> ok object 2\n\
             object 2\n\
             -> ok object 2 m.B count 1\n\
             call m c\n\
             -> ok true seq 7\n",
        ],
    },
    Row {
        what: "an interface in a cycle, and a method that is missing",
        budget: 1000,
        parts: &[
            "load m 59\n\
             interface I { void g(); } class A : I { I@ n; void g() {} }\n\
             -> refused 309 CyclicType A\n\
             load m 40\n\
             interface I { int v(); } class A : I { }\n\
             -> refused 304 TypeMismatch 35\n\
             seq\n\
             -> ok 0\n",
        ],
    },
];

#[test]
fn calls_through_an_interface(rt: HostRuntime) -> Result<(), Fail> {
    check_rows(&rt, rt.alloc(), &ROWS)
}
