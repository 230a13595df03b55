//! The phrases of which scripts are made. In each a hole is `$` and a letter, in which a phrase of that sort comes: `i`
//! an `int`, `c` a `Counter`, `p` a `P`, `s` a statement, `t` a statement that calls no function of the script, `n` a
//! number.

/// A sort of phrases: those without holes, and those with some.
#[derive(Clone, Copy)]
pub struct Sort {
    pub plain: &'static [&'static str],
    pub nested: &'static [&'static str],
}

const NUMBERS: &[&str] = &["0", "1", "2", "3", "5", "-1", "-4", "40", "2147483647"];

const INTS: Sort = Sort {
    plain: &[
        "k",
        "k",
        "n",
        "1",
        "0",
        "-1",
        "3",
        "2147483647",
        "int(w)",
        "int(u)",
        "total()",
        "int(l.length())",
        "int(cs.length())",
        "h.value",
    ],
    nested: &[
        "($i + $i)",
        "($i * $i)",
        "($i - $i)",
        "($i / $i)",
        "($i % ($i | 1))",
        "($i & $i)",
        "($i << 3)",
        "($i >>> 1)",
        "$c.value",
        "$c.add($i)",
        "$c.add($i)",
        "tally($i)",
        "tally($i)",
        "$p.v",
        "$p.m($i)",
        "l[$i & 1]",
        "l[$i]",
        "two($c, $i)",
        "two($c, $i)",
        "(n = $i)",
        "n++",
        "--n",
        "($i > $i ? $i : $i)",
        "($c is $c ? $i : $i)",
        "($p !is null && $p.v > $i ? $i : $i)",
        "(n > 3 || $c is null ? $i : $i)",
        "i.m($i)",
        "d.length",
        "d.take()",
        "($c.value = $i)",
        "($c.value += $i)",
        "$c.value++",
        "(cast<P>(i) is null ? $i : $i)",
        "~$i",
    ],
};

const COUNTERS: Sort = Sort {
    plain: &["g", "h", "h", "a", "q.c"],
    nested: &[
        "Counter($i)",
        "Counter($i)",
        "(@g = $c)",
        "(@a = $c)",
        "(@h = $c)",
        "$p.c",
        "cs[$i & 1]",
        "($i > 0 ? $c : $c)",
    ],
};

const PLAINS: Sort = Sort {
    plain: &["p", "b", "q.p", "s"],
    nested: &[
        "P($i)",
        "P($i)",
        "(@p = $p)",
        "(@b = $p)",
        "ps[$i & 1]",
        "q.l[$i & 1]",
        "cast<P>(i)",
    ],
};

const STATEMENTS: Sort = Sort {
    plain: &[
        "n++;",
        "h.add(k);",
        "@g = h;",
        "@a = null;",
        "@h = Counter(2);",
        "tally(n);",
        "cs.insertLast(a);",
        "@p = P(n);",
        "{ Counter y(k); y.add(n); }",
        "l[0] = n;",
        "w += k;",
    ],
    nested: &[
        "n += $i;",
        "$c.add($i);",
        "$c.add($i);",
        "@g = $c;",
        "@a = $c;",
        "@h = $c;",
        "@p = $p;",
        "@b = $p;",
        "@i = $p;",
        "@i = null;",
        "@ps[$i & 1] = $p;",
        "$p.v = $i;",
        "$p.v += $i;",
        "@$p.c = $c;",
        "$c.value = $i;",
        "$c.value -= $i;",
        "if ($i > $i) { $s } else { $s }",
        "if (k > 0) { $s } $s",
        "for (int j = 0; j < 3; j++) { $s }",
        "for (int j = $i; j < 4; j += 2) { if (j == 2) continue; $s }",
        "while (n < 5) { n += 2; $s if (n == 4) break; }",
        "do { $s } while (n++ < 2);",
        "{ Counter x($i); $s }",
        "{ Counter@ x = $c; $s x.add($i); }",
        "{ P x($i); @x.c = $c; $s }",
        "{ Buffer x; x.put($i); @d = x; }",
        "d.put($i);",
        "@d = Buffer();",
        "n = d.take();",
        "switch ($i) { case 0: $s case 1: $s break; default: $s }",
        "cs.insertLast($c);",
        "cs.resize($i & 3);",
        "cs.removeLast();",
        "ps.insertLast($p);",
        "ps.resize($i & 3);",
        "@q.p = $p;",
        "q.l.insertLast($p);",
        "@q.c = $c;",
        "l.insertLast($i);",
        "l[$i & 1] += $i;",
        "w = w * 3 + $i;",
        "u = u - $i;",
        "t = $c is g;",
        "if (k > 1) { z(k - 1); } $s",
        "$c.fail($i);",
        "@o = Odd($i);",
        "n = o.raise($i);",
        "{ Odd x(k); n = x.none(); }",
        "{ Odd x(k); x.some(); }",
        "n = Odd(1).truth;",
        "w = Odd(1).number;",
        "Odd(0).bad();",
        "if (k == 3) Odd(0).starve();",
    ],
};

const TAME: Sort = Sort {
    plain: &[
        "n++;",
        "v++;",
        "h.add(k);",
        "tally(v);",
        "@c = h;",
        "@g = c;",
        "w -= v;",
    ],
    nested: &[
        "@c = Counter(v);",
        "{ Counter x(k); @c = x; }",
        "if (v > 2) { $t } else { $t }",
        "for (int j = 0; j < 2; j++) { $t }",
        "v = 10 / v;",
        "$t $t",
        "c.value += k;",
    ],
};

/// The phrases of a sort. A letter that is none has no phrases.
pub fn sort_of(letter: char) -> Sort {
    match letter {
        'i' => INTS,
        'c' => COUNTERS,
        'p' => PLAINS,
        's' => STATEMENTS,
        't' => TAME,
        'n' => Sort {
            plain: NUMBERS,
            nested: NUMBERS,
        },
        _ => Sort {
            plain: &[],
            nested: &[],
        },
    }
}

/// What scripts are made from.
pub const SCRIPTS: [&str; 3] = [
    "interface I { int m(int k); }
class P : I { int v; Counter@ c; P(int k) { v = k; $t } int m(int k) { v += k; $t return v; } }
class Q { P@ p; array<P@> l(2); Counter@ c; }
int n = $n; int64 w = $n; uint u; bool t; array<int> l(2);
Counter@ g; Counter@ h = Counter($n); P@ p = P($n); P s($n); Q q; I@ i; Buffer@ d = Buffer(); Odd@ o;
array<Counter@> cs(1); array<P@> ps(2);
int two(Counter@ x, int k) { return x.value + k; }
int f(int k) { Counter@ a; P@ b; @a = $c; @b = $p; $s $s $s return $i; }
int r(int k) { Counter@ a; P@ b; @a = h; if (k <= 0) { $s return $i; } $s int x = r(k - 1); $s return x + $i; }
void z(int k) { Counter@ a; P@ b; @b = s; $s $s $s }
bool y(int k, bool v) { Counter@ a; P@ b; @a = h; @b = p; $s return v ^^ $i > 0; }",
    "interface I { int m(int k); }
class P : I { int v; Counter@ c = Counter($n); P(int k) { v = k; } int m(int k) { $t $t return v + k; } }
class Q { P@ p = P($n); P@ l0; array<P@> l(2); Counter@ c = Counter($n); }
int n = $n; int64 w; uint u = $n; bool t = true; array<int> l(3); Buffer@ d; Odd@ o = Odd($n);
Counter@ h = Counter($n); Counter@ g = h; Q q; P@ p = q.p; P@ s; I@ i = p; array<Counter@> cs(2);
array<P@> ps(1); int last = two(g, $n) + p.m($n);
int two(Counter@ x, int k) { return x.add(k); }
int r(int k) { Counter@ a; P@ b; @a = $c; if (k <= 0) return $i; { $s } return r(k - 1) + $i; }
int f(int k) { Counter@ a; P@ b; $s $s $s $s return r(k & 3); }
void z(int k) { Counter@ a; P@ b; @a = $c; @b = $p; $s }
bool y(int k, bool v) { Counter@ a; P@ b; while (k < 3) { k++; $s } return v; }",
    "interface I { int m(int k); } class P : I { int v; Counter@ c; P(int k) { v = k; $t } int m(int k) { return k; } }
class R : I { P p(1); int m(int k) { return p.m(k) + total(); } } class Q { R@ r = R(); P@ p; array<P@> l; Counter@ c; }
int n; int64 w = tally($n); uint u; bool t; array<int> l(1); Buffer@ d = Buffer(); Odd@ o; Counter@ g = Counter($n);
Counter@ h = Counter($n); P@ p; P@ s = P($n); Q@ q = Q(); I@ i = R(); array<Counter@> cs; array<P@> ps; int e = $n / $n;
int two(Counter@ x, int k) { Counter@ a; P@ b; @a = x; $s return k; }
int f(int k) { Counter@ a; P@ b; @a = $c; @b = $p; $s $s $s return $i; }
int r(int k) { Counter@ a; P@ b; @a = Counter(k); @b = P(k); if (k <= 0) { $s return 1; } r(k - 1); $s return n; }
void z(int k) { Counter@ a; P@ b; @a = g; $s $s }
bool y(int k, bool v) { Counter@ a; P@ b; @b = p; @g = $c; @p = $p; @i = p; return v && i !is null; }",
];
