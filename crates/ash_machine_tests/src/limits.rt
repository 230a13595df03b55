//! Limits, at and past each: frames, living objects, elements of an array, numbers of objects. A row that ends with a
//! discard says nothing of what is left.

use crate::rows::check_rows;
use ash_script_rows::rows::{HOST, Host, Row};
use std::test::Fail;

/// As many ticks as the rows need.
const LONG: Host = Host {
    budget: 100_000,
    ..HOST
};

static FRAMES: [Row<'static>; 3] = [
    Row {
        what: "frames of functions, methods and constructions",
        host: LONG,
        steps: &[],
        exchanges: &[
            (
                "load m interface I { int v(int k); } \
        class P : I { int v(int k) { return k <= 1 ? 1 : 1 + v(k - 1); } } P p; I@ i = p; \
        class C { int n; C(int k) { if (k > 1) { C c(k - 1); n = c.n + 1; } else n = 1; } } \
        int f(int k) { return k <= 1 ? 1 : 1 + f(k - 1); } int g(int k) { return 1 + p.v(k - 1); } \
        int h(int k) { return 1 + i.v(k - 1); } int c(int k) { C o(k - 1); return o.n + 1; }",
                "ok seq 1",
                "",
            ),
            ("call m f 256", "ok 256 seq 2", ""),
            ("call m f 257", "exception StackOverflow f 1 seq 3", ""),
            ("call m g 256", "ok 256 seq 4", ""),
            ("call m g 257", "exception StackOverflow P.v 1 seq 5", ""),
            ("call m h 256", "ok 256 seq 6", ""),
            ("call m h 257", "exception StackOverflow P.v 1 seq 7", ""),
            ("call m c 256", "ok 256 seq 8", ""),
            ("call m c 257", "exception StackOverflow C.C 1 seq 9", ""),
            ("call m f 256", "ok 256 seq 10", ""),
        ],
        left: "seq 10 last 512 | m object 1 object 1 | objects 1 | services 00000000 | free 3 left 0",
    },
    Row {
        what: "frames below initializers",
        host: LONG,
        steps: &[],
        exchanges: &[(
            "load m int n = f(255); int f(int k) { return k <= 1 ? 1 : 1 + f(k - 1); }",
            "ok seq 1",
            "",
        )],
        left: "seq 1 last 0 | m 255 | objects | services 00000000 | free 3 left 0",
    },
    Row {
        what: "one frame more below initializers",
        host: LONG,
        steps: &[],
        exchanges: &[(
            "load m int n = f(256); int f(int k) { return k <= 1 ? 1 : 1 + f(k - 1); }",
            "exception StackOverflow f 1 seq 1",
            "",
        )],
        left: "seq 1 last 0 | objects | services 00000000 | free 3 left 0",
    },
];

#[test]
fn frames(rt: HostRuntime) -> Result<(), Fail> {
    check_rows(&rt, rt.alloc(), &FRAMES)
}

static OBJECTS: [Row<'static>; 1] = [Row {
    what: "as many objects as may live, and one more of each sort",
    host: LONG,
    steps: &[],
    exchanges: &[
        (
            "load m class A { } array<A@> l; void f(int n) { for (int i = 0; i < n; i++) l.insertLast(A()); } \
        void a() { A(); } void b() { array<int>(); } void c() { Counter(1); } void less() { l.removeLast(); } \
        void two() { A() is A(); } void big() { array<int>(4097); }",
            "ok seq 1",
            "",
        ),
        ("call m f 4095", "ok seq 2", ""),
        ("call m a", "exception ObjectLimit a 1 seq 3", ""),
        ("call m b", "exception ObjectLimit b 1 seq 4", ""),
        ("call m c", "exception ObjectLimit c 1 seq 5", ""),
        ("call m less", "ok seq 6", ""),
        ("call m a", "ok seq 7", ""),
        (
            "call m c",
            "ok seq 8 dropped 4098",
            "Drew 4098; Dropped 4098; ",
        ),
        ("call m two", "exception ObjectLimit two 1 seq 9", ""),
        ("call m b", "ok seq 10", ""),
        ("discard m", "ok seq 11", ""),
    ],
    left: "",
}];

#[test]
fn objects(rt: HostRuntime) -> Result<(), Fail> {
    check_rows(&rt, rt.alloc(), &OBJECTS)
}

static ELEMENTS: [Row<'static>; 1] = [Row {
    what: "as many elements as an array may have, and one more",
    host: LONG,
    steps: &[],
    exchanges: &[
        (
            "load m array<int> a; void f(uint n) { a.resize(n); } \
        uint push(int k) { a.insertLast(k); return a.length(); } \
        uint made(uint n) { return array<bool>(n).length(); } int at(uint i) { return a[i]; }",
            "ok seq 1",
            "",
        ),
        ("call m f 4096", "ok seq 2", ""),
        ("call m push 1", "exception ArrayLimit push 1 seq 3", ""),
        ("call m f 4097", "exception ArrayLimit f 1 seq 4", ""),
        ("call m f 4095", "ok seq 5", ""),
        ("call m push 7", "ok 4096 seq 6", ""),
        ("call m at 4095", "ok 7 seq 7", ""),
        (
            "call m at 4096",
            "exception IndexOutOfBounds at 1 seq 8",
            "",
        ),
        ("call m made 4096", "ok 4096 seq 9", ""),
        ("call m made 4097", "exception ArrayLimit made 1 seq 10", ""),
        ("call m f 2", "ok seq 11", ""),
    ],
    left: "seq 11 last 2 | m object 1 | objects 1 | services 00000000 | free 3 left 0",
}];

#[test]
fn elements(rt: HostRuntime) -> Result<(), Fail> {
    check_rows(&rt, rt.alloc(), &ELEMENTS)
}

/// One number is left.
const ALMOST_SPENT: Host = Host {
    last: u64::MAX - 1,
    ..HOST
};

static NUMBERS: [Row<'static>; 2] = [
    Row {
        what: "the last number, of an object of a class",
        host: ALMOST_SPENT,
        steps: &[],
        exchanges: &[
            (
                "load m class A { } A@ g; void f() { @g = A(); } void a() { array<int>(3); } void c() { Counter(1); }",
                "ok seq 1",
                "",
            ),
            ("call m f", "ok seq 2", ""),
            ("call m f", "exception NumbersSpent f 1 seq 3", ""),
            ("call m a", "exception NumbersSpent a 1 seq 4", ""),
            ("call m c", "exception NumbersSpent c 1 seq 5", ""),
        ],
        left: "seq 5 last 18446744073709551615 | m object 18446744073709551615 | objects 18446744073709551615 \
        | services 00000000 | free 3 left 0",
    },
    Row {
        what: "the last number, of a counter",
        host: ALMOST_SPENT,
        steps: &[],
        exchanges: &[
            (
                "load m void f() { Counter(1); Counter(2); }",
                "ok seq 1",
                "",
            ),
            (
                "call m f",
                "exception NumbersSpent f 1 seq 2 dropped 18446744073709551615",
                "Drew 18446744073709551615; Dropped 18446744073709551615; ",
            ),
        ],
        left: "seq 2 last 18446744073709551615 | m | objects | services 00000000 | free 2 left 0",
    },
];

#[test]
fn numbers(rt: HostRuntime) -> Result<(), Fail> {
    check_rows(&rt, rt.alloc(), &NUMBERS)
}
