//! Words of the language, and words of parts of it that the profile does not have.

use crate::compare::expect_text;
use crate::tokens::check_shown;
use std::alloc::Global;
use std::process::Abort;

/// Looks for a word as a token of this kind.
fn check_word(rt: &impl Abort, alloc: Global, kind: &str, word: &str) {
    let wanted = expect_text(rt, format!(in alloc; "1:0-{} {kind} {word}; ", word.len()));
    check_shown(rt, alloc, word, wanted.as_str())
}

/// Looks for each word as a token of this kind.
fn check_words(rt: &impl Abort, alloc: Global, kind: &str, words: &[&str]) {
    for word in words {
        check_word(rt, alloc, kind, word);
    }
}

#[test]
fn reserved_words(rt: HostRuntime) {
    let words = &[
        "and",
        "or",
        "xor",
        "not",
        "is",
        "null",
        "true",
        "false",
        "void",
        "bool",
        "int",
        "int32",
        "int64",
        "uint",
        "uint32",
        "uint64",
        "class",
        "interface",
        "cast",
        "array",
        "this",
        "if",
        "else",
        "while",
        "do",
        "for",
        "switch",
        "case",
        "default",
        "break",
        "continue",
        "return",
    ];
    check_words(&rt, rt.alloc(), "reserved", words)
}

#[test]
fn unsupported_words(rt: HostRuntime) {
    let words = &[
        "auto",
        "catch",
        "const",
        "double",
        "enum",
        "float",
        "funcdef",
        "import",
        "in",
        "inout",
        "int8",
        "int16",
        "mixin",
        "namespace",
        "out",
        "private",
        "protected",
        "try",
        "typedef",
        "uint8",
        "uint16",
    ];
    check_words(&rt, rt.alloc(), "unsupported", words)
}
