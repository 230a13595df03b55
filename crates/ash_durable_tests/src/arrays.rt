//! Arrays.

use crate::checks::check_text;
use crate::hosts::{check_exchange, replies_once, unregistered_after_crash, unregistered_host};
use crate::rows::{Row, check_rows};
use std::alloc::{AllocError, Global};
use std::test::Fail;

static ROWS: [Row; 4] = [
    Row {
        what: "an array of handles",
        budget: 1000,
        parts: &[
            "load m 179\n\
             class C { int value; } array<C@> l; int f(int k) { C@ c = C(); c.value = k; l.insertLast(c); return \
             l.length(); } void g() { l.removeLast(); } int h(uint i) { return l[i].value; }\n\
             -> ok seq 1\n\
             object 1\n\
             -> ok object 1 array count 1\n\
             call m f 5\n\
             -> ok 1 seq 2\n\
             object 1\n\
             -> ok object 1 array count 1 object 2\n\
             object 2\n\
             -> ok object 2 m.C count 1 value 5\n",
            "object 1\n\
             -> ok object 1 array count 1 object 2\n\
             call m h 0\n\
             -> ok 5 seq 3\n\
             call m h 1\n\
             -> exception IndexOutOfBounds h 1 seq 4\n\
             call m g\n\
             -> ok seq 5\n\
             object 2\n\
             -> refused 407 NoObject\n\
             call m g\n\
             -> exception IndexOutOfBounds g 1 seq 6\n\
             object 1\n\
             -> ok object 1 array count 1\n",
        ],
    },
    Row {
        what: "elements of each primitive type, with their least and greatest values",
        budget: 1000,
        parts: &[
            "load m 233\n\
             array<bool> b(2); array<int> i(2); array<uint> u(1); array<int64> s(1); array<uint64> w(1); void \
             f() { b[1] = true; i[0] = -2147483648; i[1] = 2147483647; u[0] = 4294967295; s[0] = \
             -9223372036854775808; w[0] = 18446744073709551615; }\n\
             -> ok seq 1\n\
             object 1\n\
             -> ok object 1 array count 1 false false\n\
             call m f\n\
             -> ok seq 2\n\
             object 1\n\
             -> ok object 1 array count 1 false true\n\
             object 2\n\
             -> ok object 2 array count 1 -2147483648 2147483647\n\
             object 3\n\
             -> ok object 3 array count 1 4294967295\n\
             object 4\n\
             -> ok object 4 array count 1 -9223372036854775808\n\
             object 5\n\
             -> ok object 5 array count 1 18446744073709551615\n",
            "object 1\n\
             -> ok object 1 array count 1 false true\n\
             object 2\n\
             -> ok object 2 array count 1 -2147483648 2147483647\n\
             object 3\n\
             -> ok object 3 array count 1 4294967295\n\
             object 4\n\
             -> ok object 4 array count 1 -9223372036854775808\n\
             object 5\n\
             -> ok object 5 array count 1 18446744073709551615\n",
        ],
    },
    Row {
        what: "handles of an interface, of which one is null, and one object that is twice in an array",
        budget: 1000,
        parts: &[
            "load m 172\n\
             interface I { int v(); } class A : I { int v() { return 1; } } array<I@> l(2); void f() { @l[1] = \
             A(); } void d() { l.insertLast(l[1]); } int g(uint i) { return l[i].v(); }\n\
             -> ok seq 1\n\
             call m g 1\n\
             -> exception NullPointerAccess g 1 seq 2\n\
             call m f\n\
             -> ok seq 3\n\
             call m g 1\n\
             -> ok 1 seq 4\n\
             object 1\n\
             -> ok object 1 array count 1 null object 2\n\
             call m d\n\
             -> ok seq 5\n\
             object 1\n\
             -> ok object 1 array count 1 null object 2 object 2\n\
             object 2\n\
             -> ok object 2 m.A count 2\n",
            "object 1\n\
             -> ok object 1 array count 1 null object 2 object 2\n\
             object 2\n\
             -> ok object 2 m.A count 2\n\
             call m g 0\n\
             -> exception NullPointerAccess g 1 seq 6\n\
             call m g 2\n\
             -> ok 1 seq 7\n",
        ],
    },
    Row {
        what: "an array in a field, and one that is longer than an array may be",
        budget: 1000,
        parts: &[
            "load m 78\n\
             class A { int n = 7; array<int> l(2); } A a; void f(uint n) { a.l.resize(n); }\n\
             -> ok seq 1\n\
             object 1\n\
             -> ok object 1 m.A count 1 n 7 l object 2\n\
             object 2\n\
             -> ok object 2 array count 1 0 0\n\
             call m f 4097\n\
             -> exception ArrayLimit f 1 seq 2\n\
             call m f 3\n\
             -> ok seq 3\n\
             object 2\n\
             -> ok object 2 array count 1 0 0 0\n",
            "object 2\n\
             -> ok object 2 array count 1 0 0 0\n\
             object 1\n\
             -> ok object 1 m.A count 1 n 7 l object 2\n",
        ],
    },
];

#[test]
fn elements_and_their_handles(rt: HostRuntime) -> Result<(), Fail> {
    check_rows(&rt, rt.alloc(), &ROWS)
}

const LONGEST: &[u8] =
    b"load m 45\narray<int> a; void f(uint n) { a.resize(n); }\ncall m f 4096\ncall m f 4097\n";

const LIMITED: &str = "ok seq 1\nok seq 2\nexception ArrayLimit f 1 seq 3\n";

const SHOW: &[u8] = b"object 1\n";

/// How the longest array is shown that there may be, of zeros.
fn longest_shown(alloc: Global) -> Result<String, AllocError> {
    let mut line = String::from_str(alloc, "ok object 1 array count 1")?;
    for _ in 0..4096 {
        line.push_str(" 0")?;
    }
    line.push_str("\n")?;
    Ok(line)
}

#[test]
fn the_longest_array(rt: HostRuntime) -> Result<(), Fail> {
    let alloc = rt.alloc();
    let shown = longest_shown(alloc)?;
    let host = unregistered_host(alloc)?;
    let host = check_exchange(&rt, alloc, host, (LONGEST, LIMITED), "the longest array")?;
    let what = "the longest array, shown";
    let host = check_exchange(&rt, alloc, host, (SHOW, shown.as_str()), what)?;
    let host = unregistered_after_crash(alloc, host)?;
    let found = replies_once(alloc, host, SHOW)?;
    check_text(&rt, &found, &shown, "the longest array, opened again");
    Ok(())
}
