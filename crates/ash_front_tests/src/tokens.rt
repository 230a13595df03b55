//! Tokens of texts, and the first faults of texts that have none. Lines and bytes are counted by hand.

use crate::compare::{check_text, expect_memory, expect_text};
use ash_lex::{LexFault, MAX_SOURCE_BYTES, Token, TokenKind, lex};
use std::alloc::{AllocError, Global};
use std::fmt::{Display, Write};
use std::process::Abort;

/// What a token is, and its text.
fn show_text<T: Display>(out: &mut String, kind: &str, text: &T) -> Result<(), AllocError> {
    write!(out, "{kind} {text}; ")
}

/// A token's kind and its text.
fn show_kind(out: &mut String, kind: &TokenKind) -> Result<(), AllocError> {
    match kind {
        TokenKind::Name(name) => show_text(out, "name", name),
        TokenKind::Number(number) => show_text(out, "number", number),
        TokenKind::Sign(sign) => show_text(out, "sign", sign),
        TokenKind::Reserved(word) => show_text(out, "reserved", word),
        TokenKind::Unsupported(word) => show_text(out, "unsupported", word),
    }
}

/// A token as `line:from-to`, its kind and its text.
fn show_token(out: &mut String, token: &Token) -> Result<(), AllocError> {
    write!(out, "{}:{}-{} ", token.line, token.from, token.to)?;
    show_kind(out, &token.kind)
}

/// A code, and an offset.
pub(crate) fn code_at(alloc: Global, code: &str, at: usize) -> Result<String, AllocError> {
    format!(in alloc; "{code} {at}")
}

/// A fault by its code, with its offset if it has one.
pub(crate) fn coded_fault(alloc: Global, fault: &LexFault) -> Result<String, AllocError> {
    let code = fault.code();
    match fault {
        LexFault::BadCharacter { at }
        | LexFault::UnclosedComment { at }
        | LexFault::NumberTooLarge { at } => code_at(alloc, code, *at),
        LexFault::SourceTooLong | LexFault::NoMemory => String::from_str(alloc, code),
    }
}

/// These tokens.
fn shown_tokens(rt: &impl Abort, alloc: Global, tokens: &[Token]) -> String {
    let mut out = String::new(alloc);
    for token in tokens {
        expect_memory(rt, show_token(&mut out, token));
    }
    out
}

/// The tokens of a text, or its fault.
fn shown(rt: &impl Abort, alloc: Global, text: &str) -> String {
    match lex(alloc, text) {
        Ok(tokens) => shown_tokens(rt, alloc, tokens.as_slice()),
        Err(fault) => expect_text(rt, coded_fault(alloc, &fault)),
    }
}

/// Compares the tokens of a text, or its fault, with those that are wanted.
pub(crate) fn check_shown(rt: &impl Abort, alloc: Global, text: &str, wanted: &str) {
    let found = shown(rt, alloc, text);
    check_text(rt, found.as_str(), wanted, text);
}

/// Each row has a text, and its tokens or its fault.
fn check_rows(rt: &impl Abort, alloc: Global, rows: &[(&str, &str)]) {
    for (text, wanted) in rows {
        check_shown(rt, alloc, text, wanted);
    }
}

static TOKENS_OF_TEXTS: [(&str, &str); 13] = [
    ("", ""),
    ("a+b", "1:0-1 name a; 1:1-2 sign +; 1:2-3 name b; "),
    ("_a9 A\t", "1:0-3 name _a9; 1:4-5 name A; "),
    ("int32 x", "1:0-5 reserved int32; 1:6-7 name x; "),
    (
        "int320 INT not",
        "1:0-6 name int320; 1:7-10 name INT; 1:11-14 reserved not; ",
    ),
    (
        "const**A::b",
        "1:0-5 unsupported const; 1:5-7 sign **; 1:7-8 name A; 1:8-10 sign ::; 1:10-11 name b; ",
    ),
    (
        "0 007 18446744073709551615",
        "1:0-1 number 0; 1:2-5 number 7; 1:6-26 number 18446744073709551615; ",
    ),
    (
        "0xfF 0xffffffffffffffff",
        "1:0-4 number 255; 1:5-23 number 18446744073709551615; ",
    ),
    (
        "0x 0xg 0X1 12ab",
        "1:0-1 number 0; 1:1-2 name x; 1:3-4 number 0; 1:4-6 name xg; 1:7-8 number 0; 1:8-10 name X1; \
                1:11-13 number 12; 1:13-15 name ab; ",
    ),
    ("a!is b", "1:0-1 name a; 1:1-4 sign !is; 1:5-6 name b; "),
    (
        "!isb !is_ !is0",
        "1:0-1 sign !; 1:1-4 name isb; 1:5-6 sign !; 1:6-9 name is_; 1:10-11 sign !; 1:11-14 name is0; ",
    ),
    ("!is", "1:0-3 sign !is; "),
    ("a>>>=b", "1:0-1 name a; 1:1-5 sign >>>=; 1:5-6 name b; "),
];

#[test]
fn tokens_of_texts(rt: HostRuntime) {
    check_rows(&rt, rt.alloc(), &TOKENS_OF_TEXTS)
}

static LINES_AND_COMMENTS: [(&str, &str); 9] = [
    (
        "a\r\nb\nc\rd",
        "1:0-1 name a; 2:3-4 name b; 3:5-6 name c; 3:7-8 name d; ",
    ),
    ("a // b\nc", "1:0-1 name a; 2:7-8 name c; "),
    ("// a\r b\nc", "2:8-9 name c; "),
    ("a /*\n\n*/ b", "1:0-1 name a; 3:9-10 name b; "),
    ("/* /* */ a", "1:9-10 name a; "),
    (
        "/**/a/***/b/*/*/c",
        "1:4-5 name a; 1:10-11 name b; 1:16-17 name c; ",
    ),
    ("/* \u{e9} */ // \u{20ac}", ""),
    ("//", ""),
    ("a/b", "1:0-1 name a; 1:1-2 sign /; 1:2-3 name b; "),
];

#[test]
fn lines_and_comments(rt: HostRuntime) {
    check_rows(&rt, rt.alloc(), &LINES_AND_COMMENTS)
}

static FIRST_FAULTS: [(&str, &str); 13] = [
    ("int \"", "101 BadCharacter 4"),
    ("'", "101 BadCharacter 0"),
    ("a $ /*", "101 BadCharacter 2"),
    ("a \u{e9}", "101 BadCharacter 2"),
    ("a\0", "101 BadCharacter 1"),
    ("a\u{b}", "101 BadCharacter 1"),
    ("a\u{c}", "101 BadCharacter 1"),
    ("/* x", "102 UnclosedComment 0"),
    ("a /*/ \"", "102 UnclosedComment 2"),
    ("/* */ /* $", "102 UnclosedComment 6"),
    ("uint64 x = 18446744073709551616;", "103 NumberTooLarge 11"),
    ("0x10000000000000000 $", "103 NumberTooLarge 0"),
    ("99999999999999999999999999999999", "103 NumberTooLarge 0"),
];

#[test]
fn first_faults(rt: HostRuntime) {
    check_rows(&rt, rt.alloc(), &FIRST_FAULTS)
}

static BYTE_ORDER_MARKS: [(&str, &str); 4] = [
    ("\u{feff}", ""),
    ("\u{feff}a", "1:3-4 name a; "),
    (" \u{feff}", "101 BadCharacter 1"),
    ("\u{feff}\u{feff}", "101 BadCharacter 3"),
];

#[test]
fn byte_order_marks(rt: HostRuntime) {
    check_rows(&rt, rt.alloc(), &BYTE_ORDER_MARKS)
}

/// So many times this part.
pub(crate) fn push_times(text: &mut String, part: &str, times: usize) -> Result<(), AllocError> {
    for _ in 0..times {
        text.push_str(part)?;
    }
    Ok(())
}

/// A row with a part, how many of it a text has, and its fault.
type Repeated<'a> = (&'a str, usize, &'a str);

/// The tokens of a row's text, or its fault.
fn shown_repeated(rt: &impl Abort, alloc: Global, part: &str, count: usize) -> String {
    let mut text = String::new(alloc);
    expect_memory(rt, push_times(&mut text, part, count));
    shown(rt, alloc, text.as_str())
}

/// Compares the fault of a row's text with the one that is wanted.
fn check_repeated(rt: &impl Abort, alloc: Global, row: Repeated) {
    let (part, count, wanted) = row;
    let found = shown_repeated(rt, alloc, part, count);
    let row = expect_text(rt, format!(in alloc; "{count} of {part:?}"));
    check_text(rt, found.as_str(), wanted, row.as_str());
}

/// Compares the code of the fault that memory was refused.
fn check_refused_memory(rt: &impl Abort, alloc: Global) {
    let found = expect_text(rt, coded_fault(alloc, &LexFault::NoMemory));
    check_text(rt, found.as_str(), "509 NoMemory", "no memory");
}

#[test]
fn longest_source(rt: HostRuntime) {
    let rows: &[Repeated] = &[
        (" ", MAX_SOURCE_BYTES, ""),
        (" ", 65_537, "107 SourceTooLong"),
        ("\"", 65_537, "107 SourceTooLong"),
    ];
    for row in rows {
        check_repeated(&rt, rt.alloc(), *row);
    }
    check_refused_memory(&rt, rt.alloc());
}
