//! Registered declarations: `ok`, or the first fault by the grammar. The offsets are counted by hand.

use crate::compare::{check_text, expect_text};
use crate::tokens::{code_at, coded_fault};
use ash_lex::{Token, lex};
use ash_parse::{
    ParseFault, has_one_declaration, has_one_declaration_fault, parse_declaration, parse_module,
};
use ash_tree::Module;
use std::alloc::{AllocError, Global};
use std::process::Abort;

/// A fault by its code, with its word and its offset if it has any.
pub(crate) fn coded(alloc: Global, fault: &ParseFault) -> Result<String, AllocError> {
    let code = fault.code();
    match fault {
        ParseFault::Unexpected { at } | ParseFault::TooDeep { at } => code_at(alloc, code, *at),
        ParseFault::Unsupported { word, at } => format!(in alloc; "{code} {word} {at}"),
        ParseFault::NoMemory => String::from_str(alloc, code),
    }
}

/// `ok`, or a fault.
fn outcome_of(alloc: Global, fault: Option<&ParseFault>) -> Result<String, AllocError> {
    match fault {
        None => String::from_str(alloc, "ok"),
        Some(fault) => coded(alloc, fault),
    }
}

/// The tree of a script's tokens.
pub(crate) fn parsed(alloc: Global, tokens: &[Token]) -> Result<Module, ParseFault> {
    parse_module(alloc, tokens)
}

/// The fault of a registered declaration's tokens.
fn declaration_fault(alloc: Global, tokens: &[Token]) -> Option<ParseFault> {
    has_one_declaration(tokens);
    has_one_declaration_fault(tokens);
    parse_declaration(alloc, tokens).err()
}

/// How a registered declaration is parsed: `ok`, or its fault.
fn declaration_outcome_of(alloc: Global, source: &str) -> Result<String, AllocError> {
    match lex(alloc, source) {
        Ok(tokens) => outcome_of(alloc, declaration_fault(alloc, tokens.as_slice()).as_ref()),
        Err(fault) => coded_fault(alloc, &fault),
    }
}

/// Compares how a registered declaration is parsed with what is wanted.
fn check_declaration(rt: &impl Abort, alloc: Global, source: &str, wanted: &str) {
    let found = expect_text(rt, declaration_outcome_of(alloc, source));
    check_text(rt, found.as_str(), wanted, source);
}

/// Each row has a registered declaration, and how it is parsed.
fn check_declarations(rt: &impl Abort, alloc: Global, rows: &[(&str, &str)]) {
    for (source, wanted) in rows {
        check_declaration(rt, alloc, source, wanted);
    }
}

static READS_DECLARATIONS: [(&str, &str); 22] = [
    ("int add(int)", "ok"),
    ("int add(int a, Foo@ b, bool)", "ok"),
    ("void fail()", "ok"),
    ("Foo@ make(int n)", "ok"),
    ("int value", "ok"),
    ("array<int>@ g(array<Foo@>, array<int>@ a)", "ok"),
    ("array<int> value", "ok"),
    ("int g(array<Foo>)", "104 Unexpected 15"),
    ("int g(array<array<int>>)", "104 Unexpected 12"),
    ("int g(array<int>>)", "104 Unexpected 15"),
    ("int g(I@ i)", "ok"),
    ("int g(cast<A> a)", "104 Unexpected 6"),
    ("int g[2]", "104 Unexpected 5"),
    ("int[] g()", "104 Unexpected 3"),
    ("int g() : I", "104 Unexpected 8"),
    ("interface I { }", "104 Unexpected 0"),
    ("class A : I { }", "104 Unexpected 0"),
    ("int g(", "104 Unexpected 6"),
    ("int g() ;", "104 Unexpected 8"),
    ("void x", "104 Unexpected 6"),
    ("int if(int)", "104 Unexpected 4"),
    ("double d", "105 Unsupported double 0"),
];

#[test]
fn reads_declarations(rt: HostRuntime) {
    check_declarations(&rt, rt.alloc(), &READS_DECLARATIONS)
}
