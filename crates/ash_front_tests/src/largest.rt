//! Sources of 65,536 bytes: their trees are shallow, so that comparing and dropping one takes little stack.

use crate::compare::{check_number, check_text, expect_memory, expect_text};
use crate::declarations::{coded, parsed};
use crate::tokens::{coded_fault, push_times};
use crate::trees::printed_tree;
use ash_lex::{LexFault, MAX_SOURCE_BYTES, Token, lex};
use std::alloc::{AllocError, Global};
use std::process::Abort;

/// Writes a phrase again and again, as often as it leaves so many bytes of the greatest length.
fn fill(source: &mut String, phrase: &str, left: usize) -> Result<(), AllocError> {
    let free = MAX_SOURCE_BYTES
        .saturating_sub(source.len())
        .saturating_sub(left);
    let times = free.checked_div(phrase.len()).unwrap_or(0);
    push_times(source, phrase, times)
}

/// A source of the greatest length: a phrase again and again, and blanks after it.
fn largest(rt: &impl Abort, alloc: Global, prefix: &str, phrase: &str, suffix: &str) -> String {
    let mut source = expect_text(rt, String::from_str(alloc, prefix));
    expect_memory(rt, fill(&mut source, phrase, suffix.len()));
    expect_memory(rt, source.push_str(suffix));
    expect_memory(rt, fill(&mut source, " ", 0));
    source
}

/// How these tokens are parsed: `ok`, or their fault.
fn outcome(alloc: Global, tokens: &[Token]) -> Result<String, AllocError> {
    match parsed(alloc, tokens) {
        Ok(_) => String::from_str(alloc, "ok"),
        Err(fault) => coded(alloc, &fault),
    }
}

/// Compares two trees of these tokens.
fn check_trees(rt: &impl Abort, alloc: Global, tokens: &[Token], row: &str) {
    let outcome = expect_text(rt, outcome(alloc, tokens));
    check_text(rt, outcome.as_str(), "ok", row);
    let first = expect_text(rt, printed_tree(alloc, tokens));
    let second = expect_text(rt, printed_tree(alloc, tokens));
    check_text(rt, first.as_str(), second.as_str(), row);
}

/// Fails where a source has no tokens.
fn fail_for(rt: &impl Abort, alloc: Global, fault: &LexFault, row: &str) {
    let fault = expect_text(rt, coded_fault(alloc, fault));
    check_text(rt, fault.as_str(), "tokens", row);
}

/// Compares two trees of a source.
fn check(rt: &impl Abort, alloc: Global, source: &str, row: &str) {
    check_number(rt, source.len(), 65_536, row);
    match lex(alloc, source) {
        Ok(tokens) => check_trees(rt, alloc, tokens.as_slice(), row),
        Err(fault) => fail_for(rt, alloc, &fault, row),
    }
}

/// What a source begins with, a phrase, and what it ends with.
type Row<'a> = (&'a str, &'a str, &'a str);

/// Compares two trees of a row's source.
fn check_row(rt: &impl Abort, alloc: Global, row: Row) {
    let (prefix, phrase, suffix) = row;
    let source = largest(rt, alloc, prefix, phrase, suffix);
    let row = expect_text(rt, format!(in alloc; "{prefix} {phrase} {suffix}"));
    check(rt, alloc, source.as_str(), row.as_str())
}

#[test]
fn largest_sources(rt: HostRuntime) {
    let rows: &[Row] = &[
        ("", " ", ""),
        ("", ";", ""),
        ("", "int a;", ""),
        ("int a", ",a", ";"),
        ("class A {", "A() {}", "}"),
        ("void f() {", ";", "}"),
        ("void f() {", "{}", "}"),
        ("void f() { switch (a) {", " case 1: ;", "} }"),
        ("int a = 1", "+1", ";"),
        ("int a = 1", " || 1 && 2 + 3", ";"),
        ("int a = b", ".c", ";"),
        ("int a = b", "++", ";"),
        ("int a = f(1", ",2", ");"),
        ("int a = b", "[1]", ";"),
        ("int a = b", "[c[d]]", ";"),
        ("int a = b", "[array<int>(1)[c]]", ";"),
        ("int a = 1", "+cast<A>(b)[c]", ";"),
        ("", "array<A@>@ a;", ""),
        ("void f(array<int> a", ", array<A@>@ a", ") {}"),
        ("void f(int a", ", int a", ") {}"),
    ];
    for row in rows {
        check_row(&rt, rt.alloc(), *row);
    }
}

/// An index with an array in it whose argument is indexed by the same again, and so on to depth 64.
fn deep_index(alloc: Global) -> Result<String, AllocError> {
    let mut phrase = String::new(alloc);
    push_times(&mut phrase, "[array<int>(b", 32)?;
    push_times(&mut phrase, ")]", 32)?;
    Ok(phrase)
}

/// Compares two trees of the source with such indexes.
fn check_arrays_in_indexes(rt: &impl Abort, alloc: Global) {
    let phrase = expect_text(rt, deep_index(alloc));
    let source = largest(rt, alloc, "int a = b", phrase.as_str(), ";");
    check(rt, alloc, source.as_str(), "arrays in indexes")
}

#[test]
fn largest_source_of_arrays_in_indexes(rt: HostRuntime) {
    check_arrays_in_indexes(&rt, rt.alloc());
}
