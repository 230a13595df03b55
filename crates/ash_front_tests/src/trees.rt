//! What the trees are compared with. They are written out by hand: `@8` is the place of offset 8 in the first line,
//! `@8/2` of offset 8 in the second.

use crate::compare::{check_text, expect_text};
use crate::declarations::{coded, parsed};
use crate::tokens::coded_fault;
use ash_lex::{Token, lex};
use ash_parse::{has_one_fault, has_one_module};
use std::alloc::{AllocError, Global};
use std::process::Abort;

/// What `{:?}` prints of the tree of these tokens, or of their fault.
pub(crate) fn printed_tree(alloc: Global, tokens: &[Token]) -> Result<String, AllocError> {
    has_one_module(tokens);
    has_one_fault(tokens);
    match parsed(alloc, tokens) {
        Ok(tree) => format!(in alloc; "{tree:?}"),
        Err(fault) => coded(alloc, &fault),
    }
}

/// What `{:?}` prints of a script's tree, or its fault.
fn printed(alloc: Global, source: &str) -> Result<String, AllocError> {
    match lex(alloc, source) {
        Ok(tokens) => printed_tree(alloc, tokens.as_slice()),
        Err(fault) => coded_fault(alloc, &fault),
    }
}

/// A text with each of these parts by what is to be in its place.
fn replaced(rt: &impl Abort, alloc: Global, text: String, parts: &[(&str, &str)]) -> String {
    let mut text = text;
    for (long, short) in parts {
        text = expect_text(rt, text.replace(alloc, long, short));
    }
    text
}

/// What `{:?}` prints of a tree, with places as `@offset` or `@offset/line`, and without the names of the fields
/// `place` and `kind`.
fn short(rt: &impl Abort, alloc: Global, source: &str) -> String {
    let parts = &[
        ("Position { at: ", "@"),
        (", line: 1 }", ""),
        (", line: 2 }", "/2"),
        (", line: 3 }", "/3"),
        (", line: 4 }", "/4"),
        ("place: ", ""),
        ("kind: ", ""),
    ];
    let text = expect_text(rt, printed(alloc, source));
    replaced(rt, alloc, text, parts)
}

/// A text between two others.
fn between(alloc: Global, before: &str, text: &str, after: &str) -> Result<String, AllocError> {
    format!(in alloc; "{before}{text}{after}")
}

/// The tree of a source with these items.
fn check(rt: &impl Abort, alloc: Global, source: &str, items: &str) {
    let found = short(rt, alloc, source);
    let wanted = expect_text(rt, between(alloc, "Module { items: [", items, "] }"));
    check_text(rt, found.as_str(), wanted.as_str(), source);
}

/// The tree of a variable `int a` with this value.
fn check_value(rt: &impl Abort, alloc: Global, source: &str, value: &str) {
    let before = "Vars(Vars { of: Type { @0, Primitive(Int) }, \
        decls: [Decl { @4, name: \"a\", initializer: Value(";
    let items = expect_text(rt, between(alloc, before, value, ") }] })"));
    check(rt, alloc, source, items.as_str())
}

/// The tree of a function `void f()` with this body.
fn check_body(rt: &impl Abort, alloc: Global, source: &str, body: &str) {
    let before = "Function(Function { @5, result: None, name: \"f\", parameters: [], body: [";
    let items = expect_text(rt, between(alloc, before, body, "] })"));
    check(rt, alloc, source, items.as_str())
}

/// Each row has a source, and the value of its variable.
pub(crate) fn check_values(rt: &impl Abort, alloc: Global, rows: &[(&str, &str)]) {
    for (source, value) in rows {
        check_value(rt, alloc, source, value);
    }
}

/// Each row has a source, and the body of its function.
pub(crate) fn check_bodies(rt: &impl Abort, alloc: Global, rows: &[(&str, &str)]) {
    for (source, body) in rows {
        check_body(rt, alloc, source, body);
    }
}

/// Each row has a source, and its items.
pub(crate) fn check_items(rt: &impl Abort, alloc: Global, rows: &[(&str, &str)]) {
    for (source, items) in rows {
        check(rt, alloc, source, items);
    }
}
