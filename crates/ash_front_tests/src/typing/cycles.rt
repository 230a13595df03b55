//! Cycles of classes: the places, among the classes alone, of those on the cycle that is reported, worked out by hand.

use crate::compare::{check_number, expect_memory, expect_text};
use crate::typing::sources::{Question, check_rows, printed, tree_of};
use ash_class_cycles::{Cycle, class_ranks};
use std::alloc::{AllocError, Global};
use std::fmt::Write;
use std::process::Abort;

/// The ranks of a source's classes, or the cycle that is reported of it, or why there is neither.
fn ranks_of(alloc: Global, source: &str) -> Result<Result<Vec<usize>, Cycle>, String> {
    let script = tree_of(alloc, source)?;
    match class_ranks(alloc, &script) {
        Ok(found) => Ok(found),
        Err(AllocError) => Err(String::new(alloc)),
    }
}

/// The places of a cycle's classes.
fn places_of(rt: &impl Abort, alloc: Global, cycle: &Cycle) -> String {
    let mut places = expect_text(rt, format!(in alloc; "{}", cycle.first));
    for place in &cycle.others {
        expect_memory(rt, write!(places, " {place}"));
    }
    places
}

/// The cycle that is reported of a source, or `none`; or why the source has no tree.
pub(crate) fn cycle_of(rt: &impl Abort, alloc: Global, source: &str) -> String {
    match ranks_of(alloc, source) {
        Ok(Ok(_)) => printed(alloc, &"none"),
        Ok(Err(cycle)) => places_of(rt, alloc, &cycle),
        Err(fault) => fault,
    }
}

// In the order of the rows: a class with a handle of itself; objects and handles both count; a class that only leads to
// a cycle; names of no class are no reference; a shorter way comes before one that begins earlier; of two shortest ways
// the first in source order; the first class that reaches itself and not the shortest cycle.
const CYCLES: &str = "
    0 | class Node { Node@ x; }
    0 1 | class A { B x; } class B { A@ x; }
    1 | class A { B@ x; } class B { B@ x; }
    1 2 | A@ x; class A { C@ x; } class B { C@ x; } class C { B x; }
    none | class Box { Counter@ x; Bo x; box@ x; }
    0 3 | class A { B@ x; D@ x; } class B { C@ x; } class C { A@ x; } class D { A@ x; }
    0 1 2 | class A { D@ x; B@ x; } class B { E@ x; C@ x; } class C { A@ x; } class D { C@ x; } class E { A@ x; }
    0 1 | class A { B@ x; } class B { B@ x; A@ x; }
    0 | class B { A@ x; B@ x; } class A { B@ x; }
    ";

#[test]
fn cycles_that_are_reported(rt: HostRuntime) {
    check_rows(&rt, rt.alloc(), Question::Cycle, CYCLES)
}

// In the order of the rows: a class with a handle of an interface that it lists; one with an object of it; an
// interface that two classes list, where the later one refers back; the same where the first one does; two classes
// and an interface; the second interface that a class lists; an interface that no class lists; a class before the
// interfaces and classes between and after them, of which the first has no way back; a way by an interface that is
// shorter than the one by classes alone; two classes by two interfaces; an interface whose name begins that of the
// one listed; parameters and results of methods are no fields.
const CYCLES_BY_INTERFACES: &str = "
    0 | interface I { void g(); } class A : I { I@ n; void g() {} }
    0 | interface I { } class A : I { I n; }
    0 2 | interface I { } class A { I@ x; } class B : I { } class C : I { A@ x; }
    0 1 | interface I { } class A { I@ x; } class B : I { A@ x; } class C : I { }
    0 1 | interface I { } class A : I { B@ x; } class B { I@ x; }
    0 | interface I { } interface J { } class A : I, J { J@ x; }
    none | interface I { } interface J { } class A : I { J@ x; B@ y; } class B { J x; }
    1 2 | class A { } interface I { } class B : I { C@ x; } interface J { } class C : J { A@ x; I@ y; }
    0 2 | interface I { } class A { B@ x; I@ y; } class B { C@ x; } class C : I { A@ x; }
    0 1 | interface I { } interface J { } class A : I { J@ x; } class B : J { I@ x; }
    none | interface I { } interface In { } class A : In { I@ x; }
    none | interface I { } class A : I { void g(I@ x) { } I@ h() { return null; } }
    ";

#[test]
fn cycles_by_interfaces(rt: HostRuntime) {
    check_rows(&rt, rt.alloc(), Question::Cycle, CYCLES_BY_INTERFACES)
}

// In the order of the rows: an array of handles; a handle of one; both of an interface's handles; arrays of
// integers are no reference; nor are those of what is no class, and no interface; a cycle through an array, an
// interface and an object; an array of an interface's handles leads to each class that lists it, and the first of
// two comes first.
const CYCLES_BY_ARRAYS: &str = "
    0 | class Node { array<Node@> x; }
    0 | class Node { array<Node@>@ x; }
    0 | interface I { } class A : I { array<I@> x; }
    0 | interface I { } class A : I { array<I@>@ x; }
    none | class A { array<int> x; array<bool>@ y; array<int64> z; }
    none | interface I { } class A : I { array<Counter@> x; array<Unknown@>@ y; Unknown@ z; }
    0 1 2 | interface I { } class A { array<B@> x; } class B { I@ x; } class C : I { A x; }
    0 1 | interface I { } class A { array<I@>@ x; } class B : I { A@ x; } class C : I { A@ x; }
    ";

#[test]
fn cycles_by_arrays(rt: HostRuntime) {
    check_rows(&rt, rt.alloc(), Question::Cycle, CYCLES_BY_ARRAYS)
}

/// Writes the class of this number, with a handle of the class of that one.
pub(crate) fn write_class(out: &mut String, number: usize, of: usize) -> Result<(), AllocError> {
    write!(out, "class C{number} {{ C{of}@ x; }} ")
}

/// 255 classes, each with a handle of the next, and this last one.
fn chain(rt: &impl Abort, alloc: Global, last: &str) -> String {
    let mut source = String::new(alloc);
    for number in 0..255_usize {
        expect_memory(rt, write_class(&mut source, number, number.wrapping_add(1)));
    }
    expect_memory(rt, source.push_str(last));
    source
}

/// Looks at ranks that fall from each class to the next, to 0.
fn check_falling(rt: &impl Abort, ranks: &[usize], count: usize) {
    check_number(rt, ranks.len(), count, "the classes");
    let mut wanted = count;
    for rank in ranks {
        wanted = wanted.saturating_sub(1);
        check_number(rt, *rank, wanted, "the rank of a class");
    }
}

/// Looks at the places of the classes on a cycle, which follow each other from 0 on.
fn check_rising(rt: &impl Abort, cycle: &Cycle, count: usize) {
    check_number(rt, cycle.first, 0, "the first class");
    check_number(rt, cycle.others.len(), count, "the other classes");
    let mut wanted = 1_usize;
    for place in &cycle.others {
        check_number(rt, *place, wanted, "the place of a class");
        wanted = wanted.wrapping_add(1);
    }
}

/// Looks at the ranks of the classes of a source that has no cycle, which are so many.
fn check_ranks(rt: &impl Abort, alloc: Global, source: &str, count: usize) {
    match ranks_of(alloc, source) {
        Ok(Ok(ranks)) => check_falling(rt, ranks.as_slice(), count),
        _ => panic!(rt; "no ranks"),
    }
}

/// Looks at the cycle that is reported of a source, which has so many other classes.
fn check_ring(rt: &impl Abort, alloc: Global, source: &str, count: usize) {
    match ranks_of(alloc, source) {
        Ok(Err(cycle)) => check_rising(rt, &cycle, count),
        _ => panic!(rt; "no cycle"),
    }
}

// Below 256, and falling from each class to the next: there is one way only.
#[test]
fn the_ranks_of_a_long_chain(rt: HostRuntime) {
    let source = chain(&rt, rt.alloc(), "class C255 { Counter@ x; }");
    check_ranks(&rt, rt.alloc(), source.as_str(), 256);
}

#[test]
fn no_class_at_all(rt: HostRuntime) {
    check_ranks(&rt, rt.alloc(), "", 0);
}

#[test]
fn a_ring_of_256_classes(rt: HostRuntime) {
    let source = chain(&rt, rt.alloc(), "class C255 { C0@ x; }");
    check_ring(&rt, rt.alloc(), source.as_str(), 255);
}
