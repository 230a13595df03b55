//! The calls of a host, each once, where memory is ample.

use crate::checks::{check, check_text};
use crate::hosts::{BoxedHost, unregistered_host, with_module};
use crate::stores::runs::{RunSeries, check_life};
use ash_requests::{Arg, Request};
use ash_store_fixtures::hosts::{SOURCE, call, line_for, line_of, lines_for, seq, shown};
use ash_store_fixtures::lives::{File, HostStep, Run, Start};
use std::alloc::Global;
use std::process::Abort;
use std::test::Fail;

static EACH_CALL: RunSeries = (
    File::Bytes(&[]),
    File::Bytes(&[]),
    &[Run {
        what: "each call",
        start: Start::Make,
        steps: &[
            HostStep::Seq,
            HostStep::Load,
            HostStep::Call(5),
            HostStep::Global("n"),
            HostStep::Global("f"),
            HostStep::Seq,
            HostStep::Snapshot,
            HostStep::Global("n"),
            HostStep::Global("f"),
            HostStep::Seq,
            HostStep::Discard,
            HostStep::Discard,
            HostStep::Seq,
        ],
        answers: "0\nok seq 1\nok 7 seq 2\nok 7\nrefused 406 NoGlobal\n2\n\
            ok\nok 7\nrefused 406 NoGlobal\n2\nok seq 3\nrefused 401 NoModule\n3\n",
        is_reopened: false,
        first: File::Written(1, (0, None), &[(1, Some(2)), (2, Some(7))], &[]),
        second: File::Written(2, (2, Some(7)), &[(3, None)], &[]),
        calls: (6 + 2 * 4, 2 + 4 + 4),
    }],
);

#[test]
fn each_call(rt: HostRuntime) -> Result<(), Fail> {
    check_life(&rt, rt.alloc(), &EACH_CALL)
}

static REQUESTS: [Request; 9] = [
    Request::Load {
        module: "m",
        source: SOURCE,
    },
    Request::Call {
        module: "m",
        function: "f",
        arguments: &[Arg::Number(-2)],
    },
    Request::Global {
        module: "m",
        name: "n",
    },
    Request::Object { number: 1 },
    Request::Snapshot,
    Request::Discard { module: "m" },
    Request::Discard { module: "m" },
    Request::Seq,
    Request::Global {
        module: "m",
        name: "n",
    },
];

const REPLIES: &str =
    "refused 402 ModuleTaken\nok 0 seq 2\nok 0\nrefused 407 NoObject\nok\nok seq 3\n\
    refused 401 NoModule\nok 3\nrefused 401 NoModule\n";

#[test]
fn each_request(rt: HostRuntime) -> Result<(), Fail> {
    let mut host = unregistered_host(rt.alloc())?;
    let found = line_for(rt.alloc(), &mut host, &REQUESTS[0])?;
    check_text(&rt, found.as_str(), "ok seq 1\n", "the first request");
    let found = lines_for(rt.alloc(), &mut host, &REQUESTS)?;
    check_text(&rt, found.as_str(), REPLIES, "all requests");
    Ok(())
}

static MISFITS: [Arg; 3] = [
    Arg::Truth(true),
    Arg::Number(2_147_483_648),
    Arg::Number(-2_147_483_649),
];

/// Compares how a call with this argument is refused.
fn check_refused(
    rt: &impl Abort,
    alloc: Global,
    host: &mut BoxedHost,
    argument: Arg,
) -> Result<(), Fail> {
    let found = line_of(alloc, call(host, &[argument]))?;
    let what = shown(alloc, &argument)?;
    check_text(
        rt,
        found.as_str(),
        "refused 405 BadArguments\n",
        what.as_str(),
    );
    Ok(())
}

#[test]
fn an_argument_that_does_not_fit(rt: HostRuntime) -> Result<(), Fail> {
    let mut host = with_module(rt.alloc(), unregistered_host(rt.alloc())?, SOURCE)?;
    for argument in &MISFITS {
        check_refused(&rt, rt.alloc(), &mut host, *argument)?;
    }
    check(&rt, &seq(&host), &1, "after the refusals");
    Ok(())
}

// A host with the module `m`, whose number is the greatest that there is, in a file whose image holds all of the state.
// No number is given to a snapshot.
static SPENT: RunSeries = (
    File::Written(2, (u64::MAX, Some(7)), &[], &[]),
    File::Bytes(&[0]),
    &[Run {
        what: "a number that is spent",
        start: Start::Open,
        steps: &[
            HostStep::Load,
            HostStep::CallIn("m"),
            HostStep::Discard,
            HostStep::Snapshot,
            HostStep::Global("n"),
            HostStep::Seq,
        ],
        answers: "refused 410 SequenceSpent\nrefused 410 SequenceSpent\nrefused 410 SequenceSpent\nok\nok 7\n\
            18446744073709551615\n",
        is_reopened: false,
        first: File::Written(2, (u64::MAX, Some(7)), &[], &[]),
        second: File::Written(3, (u64::MAX, Some(7)), &[], &[]),
        calls: (1, 1 + 4),
    }],
);

#[test]
fn a_number_that_is_spent(rt: HostRuntime) -> Result<(), Fail> {
    check_life(&rt, rt.alloc(), &SPENT)
}
