//! Boxes that note that they go: in the order of their numbers if they go at one point, as the events say.

use crate::beside::{play_once, tree_of};
use ash_machine_fixtures::scripts::Played;
use std::alloc::Global;
use std::process::Abort;
use std::test::Fail;

/// What a row shows, a script with a function `f`, and the numbers of the boxes that go when it is called.
struct Row {
    what: &'static str,
    source: &'static str,
    gone: &'static str,
}

static ROWS: [Row; 6] = [
    Row {
        what: "one",
        source: "void f() { Counter(1); }",
        gone: "| gone 1 |",
    },
    Row {
        what: "two at one point",
        source: "class B { Counter@ c; } void f() { B@ x = B(); B@ y = B(); @x.c = Counter(1); B@ z = B();
@y.c = Counter(2); @z.c = x.c; }",
        gone: "| gone 3 5 |",
    },
    Row {
        what: "a batch that is held in another order",
        source: "array<Counter@> l(5); void f() { for (uint i = 5; i > 0; i--) @l[i - 1] = Counter(i);
l.resize(0); }",
        gone: "| gone 2 3 4 5 6 |",
    },
    Row {
        what: "at the end of expressions, one after the other",
        source: "void f() { Counter@ a = Counter(1); Counter@ b = Counter(2); @b = null; @a = null; Counter(3); }",
        gone: "| gone 2 1 3 |",
    },
    Row {
        what: "all frames at once, by an exception",
        source: "void g(int z, Counter@ h) { Counter b(2); { Counter c(3); z = 1 / z; } }
void f() { g(0, Counter(1)); }",
        gone: "| gone 1 2 3 |",
    },
    Row {
        what: "none that something still holds",
        source: "Counter@ k; void f() { Counter a(1); Counter b(2); @k = a; }",
        gone: "| gone 2 |",
    },
];

fn check_gone(rt: &impl Abort, row: &Row, played: &Played) {
    if !played.last.contains(row.gone) {
        panic!(rt; "{}: found {}, wanted {}", row.what, played.last, row.gone);
    }
}

fn check_drops(rt: &impl Abort, alloc: Global, rows: &[Row]) -> Result<(), Fail> {
    for row in rows {
        let tree = tree_of(alloc, row.source)?;
        let played = play_once(rt, alloc, (row.what, &["f"]), &tree, 1000)?;
        check_gone(rt, row, &played);
    }
    Ok(())
}

#[test]
fn boxes_go_in_order(rt: HostRuntime) -> Result<(), Fail> {
    check_drops(&rt, rt.alloc(), &ROWS)
}
