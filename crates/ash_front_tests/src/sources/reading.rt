//! Sources, and what reading refuses them for before their types are looked at.

use crate::sources::checks::{
    bracketed, check_rows, check_source_of, check_sources, check_with_blanks,
};
use std::alloc::Global;
use std::process::Abort;

#[test]
fn refused_for_length(rt: HostRuntime) {
    let alloc = rt.alloc();
    check_with_blanks(&rt, alloc, b"", 65_536, "ok");
    check_with_blanks(&rt, alloc, b"", 65_537, "SourceTooLong");
    check_with_blanks(&rt, alloc, b"\xff", 65_536, "SourceTooLong");
}

#[test]
fn refused_for_bytes(rt: HostRuntime) {
    // A lexical fault comes before bytes after it that are no text.
    let rows: &[(&[u8], &str)] = &[
        (b"int \"", "BadCharacter { at: 4 }"),
        (b"int a\xff;", "BadCharacter { at: 5 }"),
        (b"\" \xff", "BadCharacter { at: 2 }"),
        (b"// \xe2\x82", "BadCharacter { at: 3 }"),
        (b"int \xc3\xa4;", "BadCharacter { at: 4 }"),
        (b" \xef\xbb\xbf", "BadCharacter { at: 1 }"),
        (b"int f( { \"", "BadCharacter { at: 9 }"),
    ];
    check_sources(&rt, rt.alloc(), rows)
}

#[test]
fn refused_for_comments_and_numbers(rt: HostRuntime) {
    check_rows(
        &rt,
        rt.alloc(),
        "
        UnclosedComment { at: 0 } | /* x
        NumberTooLarge { at: 8 } | int n = 18446744073709551616;
        ok | int n = 18446744073709551615;
        ",
    )
}

#[test]
fn refused_for_the_first_token_that_fits_nowhere(rt: HostRuntime) {
    check_rows(
        &rt,
        rt.alloc(),
        "
        Unexpected { at: 7 } | int f( {
        Unexpected { at: 7 } | int f()
        Unexpected { at: 19 } | class A { } int f( {
        Unexpected { at: 4 } | int int;
        Unexpected { at: 12 } | int f(int a,) { }
        Unexpected { at: 14 } | int f() { a + = 1; }
        Unexpected { at: 19 } | int f() { return 1 }
        Unexpected { at: 10 } | int n = 1 2;
        Unexpected { at: 9 } | int n = 1)
        Unexpected { at: 4 } | int 1n;
        Unexpected { at: 2 } | n = 1;
        ",
    )
}

#[test]
fn refused_for_what_the_profile_does_not_have(rt: HostRuntime) {
    check_rows(
        &rt,
        rt.alloc(),
        "
        Unsupported { word: Word(Float), at: 0 } | float x;
        Unexpected { at: 10 } | int n; int[] a;
        Unsupported { word: Power, at: 10 } | int n = a ** b;
        Unsupported { word: Word(Auto), at: 4 } | int auto;
        ",
    )
}

/// Each row has how many brackets a source has, and how reading it ends.
fn check_brackets(rt: &impl Abort, alloc: Global, rows: &[(usize, &str)]) {
    for (count, wanted) in rows {
        let source = bracketed(rt, alloc, b"int f() { return ", *count, b"; }");
        check_source_of(rt, alloc, source.as_slice(), wanted);
    }
}

#[test]
fn refused_for_depth(rt: HostRuntime) {
    let rows = &[
        (16, "ok"),
        (17, "ok"),
        (63, "ok"),
        (64, "TooDeep { at: 81 }"),
    ];
    check_brackets(&rt, rt.alloc(), rows)
}

#[test]
fn sources_that_are_read(rt: HostRuntime) {
    let rows: &[(&[u8], &str)] = &[
        (b" \t\r\n", "ok"),
        (b"int n = 2147483647;", "ok"),
        (b"int n = 2147483648;", "ok"),
        (b"int n = 0x80000000;", "ok"),
        (b"int n = 00000000000002147483647;", "ok"),
        (b"int n = 0x7fffffff; // the greatest\n", "ok"),
        (b"/* none */ int n; /* more */", "ok"),
        (b"void f() { }", "ok"),
        (b"int f() { int a; return a; }", "ok"),
        (b"int n; int f() { n++; return n; }", "ok"),
        (
            b"int integer; int returns; int _; int in_; int f(int a, int b) { a=1; a+=0+1; return b; }",
            "ok",
        ),
    ];
    check_sources(&rt, rt.alloc(), rows)
}
