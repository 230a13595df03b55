//! Requests that are refused, and sources as long as they may be.

use crate::checks::{check, check_text};
use crate::hosts::{BoxedHost, ending, registered_host, replies_once, unregistered_host};
use crate::rows::{Row, check_rows};
use ash_serve::RunFault;
use std::alloc::{AllocError, Global};
use std::process::Abort;
use std::test::Fail;

static REGISTERED: [Row; 1] = [Row {
    what: "scripts that use what is registered, and what is wrong with some",
    budget: 1000,
    parts: &[
        "load m 38\n\
             Counter@ g; class Node { Node@ next; }\n\
             -> refused 309 CyclicType Node\n\
             load m 20\n\
             Counter@ g; int f( {\n\
             -> refused 104 Unexpected 19\n\
             load m 16\n\
             int Counter = 1;\n\
             -> refused 303 NameTaken 4\n\
             load m 67\n\
             void f(Counter@ c) { } class Box { Counter@ c; } array<Counter@> l;\n\
             -> ok seq 1\n\
             call m f 1\n\
             -> refused 404 NotCallable\n\
             object 1\n\
             -> ok object 1 array count 1\n\
             seq\n\
             -> ok 1\n",
    ],
}];

#[test]
fn scripts_that_use_what_is_registered(rt: HostRuntime) -> Result<(), Fail> {
    check_rows(&rt, rt.alloc(), &REGISTERED)
}

static REFUSED: [Row; 2] = [
    Row {
        what: "requests that are refused change nothing",
        budget: 1000,
        parts: &[
            "load m 45\n\
             int n = 2; int f(int k) { n += k; return n; }\n\
             -> ok seq 1\n\
             frob\n\
             -> refused 601 BadRequest\n\
             call m f x\n\
             -> refused 601 BadRequest\n\
             call m nope\n\
             -> refused 403 NoFunction\n\
             call m f 1 2\n\
             -> refused 405 BadArguments\n\
             call m f 2147483648\n\
             -> refused 405 BadArguments\n\
             call z f\n\
             -> refused 401 NoModule\n\
             discard z\n\
             -> refused 401 NoModule\n\
             get m q\n\
             -> refused 406 NoGlobal\n\
             object 9\n\
             -> refused 407 NoObject\n\
             load m 0\n\n\
             -> refused 402 ModuleTaken\n\
             load 9x 0\n\n\
             -> refused 409 BadName\n\
             seq\n\
             -> ok 1\n\
             get m n\n\
             -> ok 2\n",
        ],
    },
    Row {
        what: "a look at an object has one number",
        budget: 1000,
        parts: &[
            "object\n\
             -> refused 601 BadRequest\n\
             object x\n\
             -> refused 601 BadRequest\n\
             object -1\n\
             -> refused 601 BadRequest\n\
             object 1 2\n\
             -> refused 601 BadRequest\n\
             object 18446744073709551616\n\
             -> refused 601 BadRequest\n\
             object 18446744073709551615\n\
             -> refused 407 NoObject\n\
             object 000000000000000000001\n\
             -> refused 601 BadRequest\n\
             object 00000000000000000001\n\
             -> refused 407 NoObject\n\
             seq\n\
             -> ok 0\n",
        ],
    },
];

#[test]
fn refused_requests(rt: HostRuntime) -> Result<(), Fail> {
    check_rows(&rt, rt.alloc(), &REFUSED)
}

/// What a row shows, the bytes before some others, how many and which these are, and what is replied to them and a
/// request more.
struct Filled {
    what: &'static str,
    first: &'static str,
    count: usize,
    byte: u8,
    replies: &'static str,
}

static LENGTHS: [Filled; 6] = [
    Filled {
        what: "the longest line",
        first: "",
        count: 4096,
        byte: b'a',
        replies: "refused 601 BadRequest\nok 0\n",
    },
    Filled {
        what: "a line that is too long",
        first: "",
        count: 4097,
        byte: b'a',
        replies: "refused 602 LineTooLong\nok 0\n",
    },
    Filled {
        what: "the longest source",
        first: "load m 65536\n",
        count: 65536,
        byte: b' ',
        replies: "ok seq 1\nok 1\n",
    },
    Filled {
        what: "a source that is too long",
        first: "load m 65537\n",
        count: 65537,
        byte: b' ',
        replies: "refused 107 SourceTooLong\nok 0\n",
    },
    Filled {
        what: "an empty source",
        first: "load m 0\n",
        count: 0,
        byte: b' ',
        replies: "ok seq 1\nok 1\n",
    },
    Filled {
        what: "a byte order mark",
        first: "load m 3\n\u{feff}",
        count: 0,
        byte: b' ',
        replies: "ok seq 1\nok 1\n",
    },
];

/// The bytes of a row, a line feed, and a request more.
fn with_filling(alloc: Global, row: &Filled) -> Result<Vec<u8>, AllocError> {
    let mut requests = Vec::from_slice(alloc, row.first.as_bytes())?;
    requests.extend_from_slice(&vec![in alloc; row.byte; row.count]?)?;
    requests.extend_from_slice(b"\nseq\n")?;
    Ok(requests)
}

fn check_filled(rt: &impl Abort, alloc: Global, row: &Filled) -> Result<(), Fail> {
    let requests = with_filling(alloc, row)?;
    let found = replies_once(alloc, unregistered_host(alloc)?, &requests)?;
    check_text(rt, &found, row.replies, row.what);
    Ok(())
}

#[test]
fn lines_and_sources_as_long_as_they_may_be(rt: HostRuntime) -> Result<(), Fail> {
    for row in &LENGTHS {
        check_filled(&rt, rt.alloc(), row)?;
    }
    Ok(())
}

/// Compares what is written in a run whose last request is cut by the end, and gives the host.
fn check_cut(
    rt: &impl Abort,
    alloc: Global,
    mut host: BoxedHost,
    requests: &[u8],
    wanted: &str,
) -> Result<BoxedHost, Fail> {
    let mut written = Vec::new(alloc);
    let end = ending(alloc, requests, &mut written, &mut host);
    check(rt, &end, &Err(RunFault::Truncated), "how the run ends");
    let found = String::from_utf8(written)?;
    check_text(rt, &found, wanted, "what is written");
    Ok(host)
}

#[test]
fn a_source_that_is_cut_by_the_end(rt: HostRuntime) -> Result<(), Fail> {
    let alloc = rt.alloc();
    let requests = b"load m 10\nint n = 2;\nload k 3\nab";
    let host = check_cut(
        &rt,
        alloc,
        unregistered_host(alloc)?,
        requests,
        "ok seq 1\n",
    )?;
    let found = replies_once(alloc, host, b"get m n\nseq\n")?;
    check_text(&rt, &found, "ok 2\nok 1\n", "what is found then");
    Ok(())
}

const BEFORE_A_LONG_LINE: &[u8] = b"load m 45\nint n = 2; int f(int k) { n += k; return n; }\n\
    frob\ncall m f x\ncall m nope\ncall m f 1 2\ncall m f 2147483648\ncall z f\ndiscard z\nget m q\nobject 9\n";

const AFTER_A_LONG_LINE: &[u8] = b"\nload m 0\n\nload 9x 0\n\nseq\nload k 3\nab";

const REPLIES_OF_ONE_RUN: &str = "ok seq 1\n\
    refused 601 BadRequest\nrefused 601 BadRequest\nrefused 403 NoFunction\nrefused 405 BadArguments\n\
    refused 405 BadArguments\nrefused 401 NoModule\nrefused 401 NoModule\nrefused 406 NoGlobal\n\
    refused 407 NoObject\nrefused 602 LineTooLong\nrefused 402 ModuleTaken\nrefused 409 BadName\nok 1\n";

/// Requests of which each is refused, one of them too long for a line, and the last is cut by the end.
fn refused_in_one_run(alloc: Global) -> Result<Vec<u8>, AllocError> {
    let mut requests = Vec::from_slice(alloc, BEFORE_A_LONG_LINE)?;
    requests.extend_from_slice(&vec![in alloc; b'a'; 4097]?)?;
    requests.extend_from_slice(AFTER_A_LONG_LINE)?;
    Ok(requests)
}

#[test]
fn each_refusal_in_one_run(rt: HostRuntime) -> Result<(), Fail> {
    let alloc = rt.alloc();
    let requests = refused_in_one_run(alloc)?;
    let host = registered_host(alloc)?;
    let host = check_cut(&rt, alloc, host, &requests, REPLIES_OF_ONE_RUN)?;
    let found = replies_once(alloc, host, b"seq\nget m n\n")?;
    check_text(&rt, &found, "ok 1\nok 2\n", "what is found then");
    Ok(())
}
