//! Sources of several shapes and lengths: a unit is repeated until the source is full.

use ash_lex::MAX_SOURCE_BYTES;
use std::alloc::{AllocError, Global};

/// The lengths that are measured, in bytes.
pub const LENGTHS: [usize; 3] = [MAX_SOURCE_BYTES / 4, MAX_SOURCE_BYTES / 2, MAX_SOURCE_BYTES];

/// A unit that is cut into tokens and parsed, and not checked: a class, and a function with a loop.
const SERIES: &str = "\
// Adds the terms of a series, and notes where it stopped.
class Series { int64 total; uint steps; Counter@ log; }
int64 sum_of(Series@ series, int first, int64 last) {
    for (int term = first; term <= last && series.steps < 0xffff; term++) {
        series.total += term * 3 - (series.total >>> 2) % 1000003;
        if (series.log !is null) { series.log.add(1); } /* one step more */
    }
    return series.total;
}
";

/// A shape of scripts. In a unit `#` is its number from 0, and `$` that of the next.
#[derive(Clone, Copy)]
pub struct Shape {
    pub name: &'static str,
    unit: &'static str,
    /// What follows the units, with the number of one more.
    last: &'static str,
}

/// What a script does: a class, a variable, and a function with a loop and a `switch`.
const SCRIPT: Shape = Shape {
    name: "script",
    unit: "\
class Series# { int64 total; uint steps; Series#@ more() { return this; } }
int64 bound# = 1000003;
// Adds the terms of a series, and notes where it stopped.
int64 sum#(Series#@ series, int first, int64 last) {
    for (int term = first; term <= last && series.steps < 0xffff; term++) {
        series.total += term * 3 - (series.total >>> 2) % bound#;
        switch (term % 5) { case 0: series.steps++; break; case 1: case 2: continue; default: break; }
    }
    return series.total > bound# ? sum$(Series$(), first + 1, last) : series.more().total;
}
",
    last: "\
class Series# { int64 total; uint steps; }
int64 sum#(Series#@ series, int first, int64 last) { return last; }
",
};

/// Small functions, each of which calls the next.
const FUNCTIONS: Shape = Shape {
    name: "functions",
    unit: "int f#(int a, int b) { return a > b ? f$(a - 1, b) : b; }\n",
    last: "int f#(int a, int b) { return a; }\n",
};

/// Long expressions.
const EXPRESSIONS: Shape = Shape {
    name: "expressions",
    unit: "\
int64 mix#(int64 x, int64 y, bool odd) {
    return ((x + 3 * y) << 2 ^ (x - y) % 97 | x & 0xff) + (odd ? x * x - y / 5 : -y * (y + 1 - x % 7) + (x ^ ~y))
        - (x << 1 | y >>> 3) * (x > y && !odd || x == y + 1 ? 1 : 2) + (x + (y + (x + (y + (x - (y - (x * 2)))))));
}
",
    last: "",
};

/// Functions of many locals.
const LOCALS: Shape = Shape {
    name: "locals",
    unit: "\
int steps#(int first) {
    int a = first; int b = a + 1; int c = a + b; int d = b + c; int e = c + d; int f = d + e; int g = e + f;
    int h = f + g; int i = g + h; int j = h + i; int k = i + j; int l = j + k; int m = k + l; int n = l + m;
    int o = m + n; int p = n + o; int q = o + p; int r = p + q; int s = q + r; int t = r + s; int u = s + t;
    return a + h + o + u;
}
",
    last: "",
};

/// Classes of many members.
const MEMBERS: Shape = Shape {
    name: "members",
    unit: "\
class Body# {
    int x; int y; int dx; int dy; int mass; bool fixed; int64 energy;
    Body#(int m) { mass = m; x = 0; y = 0; }
    int distance() { return x * x + y * y; }
    void step() { x += dx; y += dy; energy = mass * (dx * dx + dy * dy) / 2; }
    void hit(Body$@ other) { if (!fixed) { dx = other.dx; other.step(); } }
}
",
    last: "class Body# { int dx; void step() {} }\n",
};

/// Variables of the script with long initializers, each of which reads the next variable.
const VARIABLES: Shape = Shape {
    name: "variables",
    unit: "\
int64 v# = ((17 + 3 * v$) << 2 ^ (v$ - 5) % 97 | v$ & 0xff) + (v$ > 3 ? v$ * v$ - 7 / 5 : -v$ * (v$ + 1 - 9 % 7)
    + (v$ ^ ~v$)) - (v$ << 1 | v$ >>> 3) * (v$ > 3 && !(v$ < 5) || v$ == 4 + 1 ? 1 : 2) + (v$ + (3 + (v$ + (5 + v$))))
    - v$ / 3 * (v$ % 4);
",
    last: "int64 v# = 0;\n",
};

/// The shapes.
pub const SHAPES: [Shape; 6] = [SCRIPT, FUNCTIONS, EXPRESSIONS, LOCALS, MEMBERS, VARIABLES];

/// The end of a script: a name that nothing has, so that all is read and no tree results.
const FAULT: &str = "int end = nothing;\n";

/// How many bytes are left for what follows the units.
const ROOM: usize = 200;

/// A unit of this number.
fn unit_of(alloc: Global, unit: &str, number: usize) -> Result<String, AllocError> {
    let this = format!(in alloc; "{number}")?;
    let next = format!(in alloc; "{}", number.saturating_add(1))?;
    unit.replace(alloc, '#', &this)?.replace(alloc, '$', &next)
}

/// As many units as so many bytes have room for, and how many they are.
fn units(alloc: Global, unit: &str, bytes: usize) -> Result<(String, usize), AllocError> {
    let mut text = String::with_capacity(alloc, bytes)?;
    let mut count = 0;
    for number in 0..bytes {
        let next = unit_of(alloc, unit, number)?;
        if text.len().saturating_add(next.len()) > bytes {
            break;
        }
        text.push_str(next.as_str())?;
        count = number.saturating_add(1);
    }
    Ok((text, count))
}

/// A source of this many bytes that can be parsed.
pub fn series(alloc: Global, bytes: usize) -> Result<String, AllocError> {
    let (text, _) = units(alloc, SERIES, bytes)?;
    Ok(text)
}

/// A script of this many bytes, with a fault at its end.
pub fn script(alloc: Global, shape: Shape, bytes: usize) -> Result<String, AllocError> {
    let (mut text, count) = units(alloc, shape.unit, bytes.saturating_sub(ROOM))?;
    text.push_str(unit_of(alloc, shape.last, count)?.as_str())?;
    text.push_str(FAULT)?;
    Ok(text)
}
