//! Scripts beside the plain evaluator, with every budget up to the one with which no run is aborted: how each run ends,
//! on which line, what it has done to host objects, and the globals and objects that it leaves.

use crate::checks::check_text;
use ash_machine_fixtures::boxes::Pool;
use ash_machine_fixtures::registered::registry;
use ash_machine_fixtures::scripts::{Played, play};
use ash_sources::sources::Sources;
use ash_typed::Module;
use std::alloc::Global;
use std::process::Abort;
use std::test::Fail;

/// A script, its calls, and a budget that is enough for each of its runs.
struct Script {
    what: &'static str,
    source: &'static str,
    calls: &'static [&'static str],
    enough: u64,
}

const POOL: Pool = Pool {
    counters: 6,
    buffers: 0,
    odds: 2,
};

static PHRASES: [Script; 8] = [
    Script {
        what: "operands that change each other",
        source: "int g; int f(int a) { int b = a + (a = 5) * a++ - (g = a) + g--;
return b + (a > 3 ? a-- : ++a) * a; }
int h(int k) { int x = k; x += (x = 3) + x; x -= x++ - --x; return x; }",
        calls: &["f 2", "h 7"],
        enough: 5,
    },
    Script {
        what: "what decides alone",
        source: "int n; bool t(bool b) { n++; return b; }
int f(bool a, bool b) { if (t(a) && (t(b) || t(a)) ^^ t(b)) n += 100; return t(a) || t(b) ? n : -n; }",
        calls: &[
            "f true false",
            "f false true",
            "f true true",
            "f false false",
        ],
        enough: 30,
    },
    Script {
        what: "loops that are left and gone on with",
        source: "int f(int n) {
int s = 0;
for (int i = 0; i < n; i++) {
if (i == 1) continue;
int j = i;
while (true) { if (j-- <= 0) break; { int k = j; if (k == 1) continue; s += k; } }
do { s++; if (s > 20) return -s; } while (s % 3 != 0);
switch (s) { case 3: s += 2; case 4: break; case 6: { int q = s; s += q; } default: continue; }
s += 10;
}
return s;
}",
        calls: &["f 4", "f 0", "f 9"],
        enough: 100,
    },
    Script {
        what: "calls in arguments, and methods",
        source: "class P { int v; P(int k) { v = k; } int m(int a, int b) { v = v * 10 + a; return b - v; } }
P p(1); int two(int a, int b) { return a * 100 + b; }
int f(int k) { P@ q = P(k); return two(two(k++, k), q.m(two(1, k), p.m(k--, k))) + q.v + p.v; }
int r(int k) { return k <= 0 ? 1 : r(k - 1) + r(k - 2); }",
        calls: &["f 3", "r 4"],
        enough: 60,
    },
    Script {
        what: "interfaces, casts and identity",
        source: "interface I { int v(); void set(int k); } class A : I { int k; int v() { return k; }
void set(int j) { k = j; } }
class B : I { array<int> l; int v() { return l.length(); } void set(int j) { l.insertLast(j); } }
I@ g; A a;
int f(int n) { @g = n == 0 ? cast<I>(a) : cast<I>(B()); g.set(n + 4); A@ b = cast<A>(g); if (b is a) return g.v();
return b is null ? 10 + g.v() : -1; } int h() { I@ i = g; @g = null; return i is g ? 1 : i.v() + g.v(); }",
        calls: &["f 0", "f 1", "h"],
        enough: 20,
    },
    Script {
        what: "arrays, and places in them",
        source: "class A { int v; A(int k) { v = k; } } array<A@> l(2); array<int64> w(2);
int f(int n) { @l[0] = A(n); @l[1] = l[0]; l[l[0].v & 1].v += w.length(); w[n & 1] = l[1].v; w[1]++; w[0] += w[1]--;
l.insertLast(A(w[0])); l.resize(2); l.insertLast(l[0]); l.removeLast(); return l[1].v * 100 + w[0] * 10 + w[1]; }
int past(uint i) { return l[i].v; }",
        calls: &["f 4", "f 7", "past 1", "past 2", "f -1"],
        enough: 25,
    },
    Script {
        what: "conversions, shifts and quotients",
        source: "int64 f(int a, uint b, int64 c, uint64 d) { a = b; b = c >>> 3; c = a * b; d = d << c; a -= d;
b /= (a | 1);
return int(d) + int64(b) - (a >> 1) + uint(c % (b + 1)) + ~a; } int q(int a, int b) { return a / b + a % b; }",
        calls: &[
            "f -5 4000000000 -77 18446744073709551615",
            "q -2147483648 -1",
            "q 1 0",
        ],
        enough: 8,
    },
    Script {
        what: "initializers of fields and globals",
        source: "int n = 2; int next() { n *= 2; return n; } class Q { int w = next(); }
class P { Q q; Q@ r; int v = next(); P(int k) { v += k; @r = q; if (k == 0) return; next(); } }
P@ g = P(5), h = P(0); array<P@> l(1); bool b = g.r is g.q; int z = next() / (n - 128);
int f() { return n + z + g.v + h.q.w; }",
        calls: &["f"],
        enough: 40,
    },
];

const ANSWERING_BADLY: &str =
    "int n; int bad(int k) { Odd o(0); n++; switch (k) { case 0: return o.bad(); case 1: return o.none();
case 2: o.some(); break; case 3: return o.raise(9); case 4: return o.truth; case 5: n = int(o.number);
o.number = 3; o.truth = 4; }
n++; return n; }";

static HOSTS: [Script; 9] = [
    Script {
        what: "counters in a batch, in a block and in arguments",
        source: "class B { Counter@ c; } int two(Counter@ h, int k) { return h.value + k; }
void f() { B@ x = B(); B@ y = B(); @x.c = Counter(1); B@ z = B(); @y.c = Counter(2); @z.c = x.c; }
int g() { Counter@ a = Counter(1); { Counter b(5); int r = two(@a = b, b.add(1)); @a = null; }
return two(Counter(7), 3); }",
        calls: &["f", "g"],
        enough: 20,
    },
    Script {
        what: "properties and services",
        source: "Counter c(3); int f(int k) { c.value += c.add(k) * tally(c.value++); --c.value;
return c.value = total() + k; }
int g() { return (c.value = 4) + c.value + tally(c.value) - total(); }",
        calls: &["f 2", "g", "f -1"],
        enough: 8,
    },
    Script {
        what: "a raised code, out of frames that hold counters",
        source: "int n; void deep(int k, Counter@ h) { Counter c(k); n++; if (k == 0) h.fail(70000);
deep(k - 1, c); n += 100; }
void f() { Counter c(9); deep(2, c); }",
        calls: &["f", "f"],
        enough: 20,
    },
    Script {
        what: "answers of another type, and none",
        source: ANSWERING_BADLY,
        calls: &["bad 0", "bad 1"],
        enough: 12,
    },
    Script {
        what: "an answer if none is declared, and a raised code",
        source: ANSWERING_BADLY,
        calls: &["bad 2", "bad 3"],
        enough: 12,
    },
    Script {
        what: "properties of another type",
        source: ANSWERING_BADLY,
        calls: &["bad 4", "bad 5"],
        enough: 12,
    },
    Script {
        what: "answers of another type to a start",
        source: "void f(int k) { Counter c(1); Odd o(k); c.add(1); }",
        calls: &["f 101", "f 102", "f 0"],
        enough: 5,
    },
    Script {
        what: "a box without memory",
        source: "int n; int f(int k) { Odd o(k); n++; return o.starve(); }",
        calls: &["f 0"],
        enough: 5,
    },
    Script {
        what: "a pool that runs out",
        source: "array<Counter@> l; int f() { for (int i = 0; ; i++) l.insertLast(Counter(i)); return 1; }
int g() { l.resize(2); Counter c(8); return l[1].value + c.add(1); } void h() { Odd a(0); Odd b(0); Odd c(0); }",
        calls: &["f", "g", "h"],
        enough: 30,
    },
];

/// The module of a script.
pub fn tree_of(alloc: Global, source: &str) -> Result<Module, Fail> {
    let registry = registry(alloc)?;
    let sources = Sources {
        registry: &registry,
    };
    Ok(sources.read_tree(alloc, source.as_bytes())?)
}

/// Plays calls with a budget, and fails if the ends of a run differ.
pub fn play_once(
    rt: &impl Abort,
    alloc: Global,
    calls: (&str, &[&str]),
    tree: &Module,
    budget: u64,
) -> Result<Played, Fail> {
    let played = play(alloc, tree, POOL, calls.1, budget)?;
    if let Some(fault) = &played.fault {
        check_text(rt, fault, "", (calls.0, "the run"));
    }
    Ok(played)
}

/// Plays scripts with every budget up to one that is enough.
fn check_scripts(rt: &impl Abort, alloc: Global, scripts: &[Script]) -> Result<(), Fail> {
    for script in scripts {
        let tree = tree_of(alloc, script.source)?;
        for budget in 0..script.enough {
            drop(play_once(rt, alloc, (script.what, script.calls), &tree, budget)?);
        }
        let last = play_once(rt, alloc, (script.what, script.calls), &tree, script.enough)?;
        if last.is_aborted {
            check_text(rt, "aborted", "enough", (script.what, "the budget"));
        }
    }
    Ok(())
}

#[test]
fn phrases_beside_the_plain_evaluator(rt: HostRuntime) -> Result<(), Fail> {
    check_scripts(&rt, rt.alloc(), &PHRASES)
}

#[test]
fn hosts_beside_the_plain_evaluator(rt: HostRuntime) -> Result<(), Fail> {
    check_scripts(&rt, rt.alloc(), &HOSTS)
}
