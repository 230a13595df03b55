//! Signs, alone and two side by side.

use crate::compare::{check_text, expect_memory, expect_text};
use crate::tokens::{check_shown, code_at, coded_fault};
use ash_lex::{Sign, Token, TokenKind, lex};
use std::alloc::{AllocError, Global};
use std::fmt::Write;
use std::process::Abort;

/// Each sign, as it is written.
const SIGNS: [(&str, Sign); 51] = [
    ("(", Sign::OpenParenthesis),
    (")", Sign::CloseParenthesis),
    ("{", Sign::OpenBrace),
    ("}", Sign::CloseBrace),
    ("[", Sign::OpenBracket),
    ("]", Sign::CloseBracket),
    (";", Sign::Semicolon),
    (",", Sign::Comma),
    (":", Sign::Colon),
    ("?", Sign::Question),
    (".", Sign::Dot),
    ("@", Sign::Handle),
    ("~", Sign::BitNot),
    ("!", Sign::LogicalNot),
    ("!is", Sign::NotIs),
    ("=", Sign::Assign),
    ("==", Sign::Equal),
    ("!=", Sign::NotEqual),
    ("<", Sign::Less),
    ("<=", Sign::LessOrEqual),
    (">", Sign::Greater),
    (">=", Sign::GreaterOrEqual),
    ("+", Sign::Plus),
    ("++", Sign::Increment),
    ("+=", Sign::PlusAssign),
    ("-", Sign::Minus),
    ("--", Sign::Decrement),
    ("-=", Sign::MinusAssign),
    ("*", Sign::Star),
    ("*=", Sign::StarAssign),
    ("/", Sign::Slash),
    ("/=", Sign::SlashAssign),
    ("%", Sign::Percent),
    ("%=", Sign::PercentAssign),
    ("&", Sign::BitAnd),
    ("&&", Sign::LogicalAnd),
    ("&=", Sign::BitAndAssign),
    ("|", Sign::BitOr),
    ("||", Sign::LogicalOr),
    ("|=", Sign::BitOrAssign),
    ("^", Sign::BitXor),
    ("^^", Sign::LogicalXor),
    ("^=", Sign::BitXorAssign),
    ("<<", Sign::ShiftLeft),
    ("<<=", Sign::ShiftLeftAssign),
    (">>", Sign::ShiftRight),
    (">>=", Sign::ShiftRightAssign),
    (">>>", Sign::ShiftRightArithmetic),
    (">>>=", Sign::ShiftRightArithmeticAssign),
    ("**", Sign::Power),
    ("::", Sign::Scope),
];

fn signs() -> &'static [(&'static str, Sign)] {
    &SIGNS
}

/// The longest sign that the text begins with, found by trying each.
fn longest_sign(text: &str) -> Option<&'static str> {
    let mut longest = None;
    for (sign, _) in signs() {
        let is_longer = match longest {
            None => true,
            Some(found) => str::len(found) < sign.len(),
        };
        if is_longer && text.starts_with(*sign) {
            longest = Some(*sign);
        }
    }
    longest
}

/// What `{:?}` prints of the tokens of a text, or its fault.
fn printed_tokens(alloc: Global, text: &str) -> Result<String, AllocError> {
    match lex(alloc, text) {
        Ok(tokens) => format!(in alloc; "{tokens:?}"),
        Err(fault) => coded_fault(alloc, &fault),
    }
}

/// What `{:?}` prints of the token of a sign alone, which is so long.
fn printed_sign(alloc: Global, sign: Sign, len: usize) -> Result<String, AllocError> {
    let token = Token {
        kind: TokenKind::Sign(sign),
        line: 1,
        from: 0,
        to: len,
    };
    format!(in alloc; "[{token:?}]")
}

/// Looks at a sign alone.
fn check_alone(rt: &impl Abort, alloc: Global, text: &str, sign: Sign) {
    let found = expect_text(rt, printed_tokens(alloc, text));
    let wanted = expect_text(rt, printed_sign(alloc, sign, text.len()));
    check_text(rt, found.as_str(), wanted.as_str(), text);
}

#[test]
fn signs_alone(rt: HostRuntime) {
    for (text, sign) in signs() {
        check_alone(&rt, rt.alloc(), text, *sign);
    }
}

/// The longest sign that a text begins with, if it begins with no comment.
fn sign_of(text: &str) -> Option<&'static str> {
    if text.starts_with("//") {
        None
    } else {
        longest_sign(text)
    }
}

/// Writes the sign at a place, and gives the place after it.
fn write_sign(rt: &impl Abort, out: &mut String, sign: &str, at: usize) -> usize {
    let to = sign.len().wrapping_add(at);
    expect_memory(rt, write!(out, "1:{at}-{to} sign {sign}; "));
    to
}

/// What two signs side by side are, by hand: the longest sign at each place, unless a comment begins.
fn signs_by_hand(rt: &impl Abort, alloc: Global, text: &str) -> String {
    let mut out = String::new(alloc);
    let mut at = 0;
    for _ in 0..text.len() {
        let rest = text.get(at..).unwrap_or("");
        if rest.starts_with("/*") {
            return expect_text(rt, code_at(alloc, "102 UnclosedComment", at));
        }
        match sign_of(rest) {
            Some(sign) => at = write_sign(rt, &mut out, sign, at),
            None => break,
        }
    }
    out
}

/// Looks at two signs side by side.
fn check_beside(rt: &impl Abort, alloc: Global, first: &str, second: &str) {
    let text = expect_text(rt, format!(in alloc; "{first}{second}"));
    let wanted = signs_by_hand(rt, alloc, text.as_str());
    check_shown(rt, alloc, text.as_str(), wanted.as_str())
}

/// Looks at this sign with each sign after it.
fn check_beside_each(rt: &impl Abort, alloc: Global, first: &str) {
    for (second, _) in signs() {
        check_beside(rt, alloc, first, second);
    }
}

#[test]
fn signs_side_by_side(rt: HostRuntime) {
    for (first, _) in signs() {
        check_beside_each(&rt, rt.alloc(), first);
    }
}
