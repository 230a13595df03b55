//! Limits: how many variables, classes and interfaces a module has, and how many members a class or an interface.

use crate::compare::{check_number, expect_memory, expect_text};
use crate::typing::cycles::write_class;
use crate::typing::sources::{Expectation, Question, check_answer, checked};
use ash_check::CheckedScript;
use std::alloc::Global;
use std::fmt::Write;
use std::panic::Expect;
use std::process::Abort;

/// A source with so many repetitions, and how its check ends. It has a name, since it is too long to be printed.
struct Row {
    name: &'static str,
    first: &'static str,
    count: usize,
    prefix: &'static str,
    suffix: &'static str,
    last: &'static str,
    wanted: &'static str,
}

/// The source of a row: `first`, so many times `prefix`, a number of three digits from 0 and `suffix`, and `last`.
fn source_of(rt: &impl Abort, alloc: Global, row: &Row) -> String {
    let mut source = expect_text(rt, String::from_str(alloc, row.first));
    for i in 0..row.count {
        expect_memory(rt, write!(source, "{}{i:03}{}", row.prefix, row.suffix));
    }
    expect_memory(rt, source.push_str(row.last));
    source
}

/// Checks a row's source.
fn check_limit(rt: &impl Abort, alloc: Global, row: &Row) {
    let source = source_of(rt, alloc, row);
    let expectation = Expectation {
        source: source.as_str(),
        wanted: row.wanted,
        name: row.name,
    };
    check_answer(rt, alloc, Question::Outcome, expectation);
}

/// Checks each row's source.
fn check_limits(rt: &impl Abort, alloc: Global, rows: &[Row]) {
    for row in rows {
        check_limit(rt, alloc, row);
    }
}

static VARIABLES_OF_A_MODULE: [Row; 4] = [
    // `int a000;` has 9 bytes, and its name is at its fourth, counted from 0.
    Row {
        name: "256 globals",
        first: "",
        count: 256,
        prefix: "int a",
        suffix: ";",
        last: "",
        wanted: "ok",
    },
    Row {
        name: "257 globals",
        first: "",
        count: 257,
        prefix: "int a",
        suffix: ";",
        last: "",
        wanted: "311 TooMany 2308",
    },
    // `bool ` has 5 bytes, and so has each `a000,`.
    Row {
        name: "257 names of one declaration",
        first: "bool ",
        count: 256,
        prefix: "a",
        suffix: ",",
        last: "b;",
        wanted: "311 TooMany 1285",
    },
    // Of the two faults of one name the first in the list of faults is reported.
    Row {
        name: "256 names of one declaration, then the first again",
        first: "bool ",
        count: 256,
        prefix: "a",
        suffix: ",",
        last: "a000;",
        wanted: "303 NameTaken 1285",
    },
];

#[test]
fn variables_of_a_module(rt: HostRuntime) {
    check_limits(&rt, rt.alloc(), &VARIABLES_OF_A_MODULE)
}

static CLASSES_OF_A_MODULE: [Row; 2] = [
    // `class a000{}` has 12 bytes, and its name is at its sixth.
    Row {
        name: "256 classes",
        first: "",
        count: 256,
        prefix: "class a",
        suffix: "{}",
        last: "",
        wanted: "ok",
    },
    Row {
        name: "257 classes",
        first: "",
        count: 257,
        prefix: "class a",
        suffix: "{}",
        last: "",
        wanted: "311 TooMany 3078",
    },
];

#[test]
fn classes_of_a_module(rt: HostRuntime) {
    check_limits(&rt, rt.alloc(), &CLASSES_OF_A_MODULE)
}

static INTERFACES_OF_A_MODULE: [Row; 6] = [
    // `interface a000{}` has 16 bytes, and its name is at its tenth.
    Row {
        name: "256 interfaces",
        first: "",
        count: 256,
        prefix: "interface a",
        suffix: "{}",
        last: "",
        wanted: "ok",
    },
    Row {
        name: "257 interfaces",
        first: "",
        count: 257,
        prefix: "interface a",
        suffix: "{}",
        last: "",
        wanted: "311 TooMany 4106",
    },
    // `interface I{}` has 13 bytes, and `class a000{}` 12.
    Row {
        name: "an interface and 255 classes",
        first: "interface I{}",
        count: 255,
        prefix: "class a",
        suffix: "{}",
        last: "",
        wanted: "ok",
    },
    Row {
        name: "an interface and 256 classes",
        first: "interface I{}",
        count: 256,
        prefix: "class a",
        suffix: "{}",
        last: "",
        wanted: "311 TooMany 3079",
    },
    Row {
        name: "256 classes and an interface with a fault",
        first: "",
        count: 256,
        prefix: "class a",
        suffix: "{}",
        last: "interface I{X x();}",
        wanted: "311 TooMany 3082",
    },
    // Of the two faults of one name the first in the list of faults is reported.
    Row {
        name: "256 interfaces and a class named as the first",
        first: "",
        count: 256,
        prefix: "interface a",
        suffix: "{}",
        last: "class a000:X{}",
        wanted: "303 NameTaken 4102",
    },
];

#[test]
fn interfaces_of_a_module(rt: HostRuntime) {
    check_limits(&rt, rt.alloc(), &INTERFACES_OF_A_MODULE)
}

static FUNCTIONS_HAVE_NO_LIMIT: [Row; 2] = [
    Row {
        name: "300 functions",
        first: "",
        count: 300,
        prefix: "void a",
        suffix: "(){}",
        last: "",
        wanted: "ok",
    },
    Row {
        name: "300 locals",
        first: "void f(){",
        count: 300,
        prefix: "int a",
        suffix: ";",
        last: "}",
        wanted: "ok",
    },
];

#[test]
fn functions_have_no_limit(rt: HostRuntime) {
    check_limits(&rt, rt.alloc(), &FUNCTIONS_HAVE_NO_LIMIT)
}

static MEMBERS_OF_A_CLASS: [Row; 5] = [
    // `class A{` has 8 bytes, and each `int m000;` 9. A constructor is no member.
    Row {
        name: "32 fields",
        first: "class A{",
        count: 32,
        prefix: "int m",
        suffix: ";",
        last: "A(){}}",
        wanted: "ok",
    },
    Row {
        name: "32 fields and one more",
        first: "class A{",
        count: 32,
        prefix: "int m",
        suffix: ";",
        last: "int x;}",
        wanted: "311 TooMany 300",
    },
    Row {
        name: "32 fields and a method",
        first: "class A{",
        count: 32,
        prefix: "int m",
        suffix: ";",
        last: "void x(){}}",
        wanted: "311 TooMany 301",
    },
    Row {
        name: "32 fields and a method named as the first",
        first: "class A{",
        count: 32,
        prefix: "int m",
        suffix: ";",
        last: "void m000(){}}",
        wanted: "303 NameTaken 301",
    },
    // `class A{int ` has 12 bytes, and each `m000,` 5.
    Row {
        name: "33 fields of one declaration",
        first: "class A{int ",
        count: 32,
        prefix: "m",
        suffix: ",",
        last: "x;}",
        wanted: "311 TooMany 172",
    },
];

#[test]
fn members_of_a_class(rt: HostRuntime) {
    check_limits(&rt, rt.alloc(), &MEMBERS_OF_A_CLASS)
}

static METHODS_OF_AN_INTERFACE: [Row; 3] = [
    // `interface I{` has 12 bytes, and so has each `void m000();`.
    Row {
        name: "32 methods of an interface",
        first: "interface I{",
        count: 32,
        prefix: "void m",
        suffix: "();",
        last: "}",
        wanted: "ok",
    },
    Row {
        name: "33 methods of an interface",
        first: "interface I{",
        count: 32,
        prefix: "void m",
        suffix: "();",
        last: "void x(X x);}",
        wanted: "311 TooMany 401",
    },
    Row {
        name: "32 methods of an interface and one named as the first",
        first: "interface I{",
        count: 32,
        prefix: "void m",
        suffix: "();",
        last: "void m000();}",
        wanted: "303 NameTaken 401",
    },
];

#[test]
fn methods_of_an_interface(rt: HostRuntime) {
    check_limits(&rt, rt.alloc(), &METHODS_OF_AN_INTERFACE)
}

/// So many classes, of which each but the first has a field with a handle of the one before.
fn chain(rt: &impl Abort, alloc: Global, count: usize) -> String {
    let mut source = expect_text(rt, String::from_str(alloc, "class C0 {} "));
    for number in 1..count {
        expect_memory(rt, write_class(&mut source, number, number.wrapping_sub(1)));
    }
    source
}

/// Looks at the typed module of a chain of 256 classes.
fn check_chain(rt: &impl Abort, done: &CheckedScript) {
    check_ranks(rt, done.ranks());
    check_number(rt, done.module().classes.len(), 256, "the classes");
}

/// Looks at ranks that rise from 0 with the places.
fn check_ranks(rt: &impl Abort, ranks: &[usize]) {
    check_number(rt, ranks.len(), 256, "the ranks");
    let mut place = 0_usize;
    for rank in ranks {
        check_number(rt, *rank, place, "the rank of a class");
        place = place.wrapping_add(1);
    }
}

#[test]
fn ranks_of_a_chain(rt: HostRuntime) {
    let source = chain(&rt, rt.alloc(), 256);
    let done = checked(rt.alloc(), source.as_str()).expect(&rt, "a chain is no module");
    check_chain(&rt, &done);
}
