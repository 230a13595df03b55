//! Several requests in one call: the bytes of their record, what they are replied, and stops at each call of a disk.

ghost use Rattle.std.specs.Prelude.{◌≤◌, length};

use crate::checks::{check, check_bytes, check_text};
use crate::stores::crashes::crash_of;
use crate::stores::fuses::{FusedHost, close_host, fused_host, inner_disks};
use ash_disk::Disk;
use ash_durable::Host;
use ash_durable::batch::{BatchRefusal, BatchReply, BatchRequest};
use ash_host::Tally;
use ash_requests::{Arg, Reply};
use ash_states::state::HostRefusal;
use ash_store_fixtures::hosts::{
    EMPTY, SOURCE, State, closed, found_state, image_after, line_of, load, need, new_host,
};
use std::alloc::Global;
use std::process::Abort;
use std::test::Fail;

/// How many ticks a request has.
const BUDGET: u64 = 1000;

/// What a host replies to a batch.
fn handled<D: Disk>(
    host: &mut Host<D, Tally>,
    requests: &[BatchRequest<'_>],
) -> Result<Vec<BatchReply>, HostRefusal>
    requires { length requests.now ≤ 16 }
{
    host.batch(requests, BUDGET)
}

/// One reply as a line.
fn line_of_one(alloc: Global, reply: BatchReply) -> Result<String, Fail> {
    match reply {
        BatchReply::Answer(answer) => line_of(alloc, Reply::Answer(answer)),
        BatchReply::Value(word) => line_of(alloc, Reply::Value(word)),
        BatchReply::Shown(shown) => line_of(alloc, Reply::Shown(shown)),
        BatchReply::Seq(seq) => line_of(alloc, Reply::Seq(seq)),
        BatchReply::Refused(BatchRefusal::Host(refusal)) => line_of(alloc, Reply::Refused(refusal)),
        BatchReply::Refused(BatchRefusal::Bad(number)) => {
            Ok(format!(in alloc; "refused {number}\n")?)
        }
    }
}

/// The replies to a batch as lines, or the one of its refusal.
fn lines_of(alloc: Global, replies: Result<Vec<BatchReply>, HostRefusal>) -> Result<String, Fail> {
    let mut lines = String::new(alloc);
    match replies {
        Ok(replies) => {
            for reply in replies {
                lines.push_str(&line_of_one(alloc, reply)?)?;
            }
        }
        Err(refusal) => lines.push_str(&line_of(alloc, Reply::Refused(refusal))?)?,
    }
    Ok(lines)
}

/// A module without source, which is loaded and removed.
static LOADED_AND_REMOVED: [BatchRequest<'static>; 2] = [
    BatchRequest::Load {
        name: "m",
        source: b"",
    },
    BatchRequest::Discard { name: "m" },
];

/// The open gate of the record, the record and the gate after it.
static TWO_DELTAS: [u8; 72] = [
    0x01, 0x42, 0x00, 0x00, 0x00, 0x03, 0x02, 0x01, 0x00, 0x00, 0x00, 0x00, 0x00, 0x00, 0x00, 0x00,
    0x00, 0x00, 0x00, 0x00, 0x00, 0x00, 0x00, 0x00, 0x00, 0x01, 0x01, 0x6d, 0x00, 0x00, 0x00, 0x00,
    0x00, 0x00, 0x00, 0x00, 0x00, 0x00, 0x00, 0x00, 0x00, 0x00, 0x02, 0x00, 0x00, 0x00, 0x00, 0x00,
    0x00, 0x00, 0x00, 0x00, 0x00, 0x00, 0x00, 0x00, 0x00, 0x00, 0x00, 0x00, 0x02, 0x01, 0x6d, 0x00,
    0x00, 0x00, 0x00, 0x00, 0x00, 0x00, 0x00, 0x00,
];

#[test]
fn a_batch_is_one_record(rt: HostRuntime) -> Result<(), Fail> {
    let mut host = new_host(rt.alloc(), &[], &[])?;
    let replies = lines_of(rt.alloc(), handled(&mut host, &LOADED_AND_REMOVED))?;
    check_text(&rt, &replies, "ok seq 1\nok seq 2\n", "the replies");
    let (first, second) = closed(host);
    let (before, after) = first.bytes().split_at(50.min(first.bytes().len()));
    check_bytes(&rt, before, &EMPTY[..50], "the generation");
    check_bytes(&rt, after, &TWO_DELTAS, "the record");
    check_bytes(&rt, second.bytes(), &[0], "the second file");
    Ok(())
}

/// A call, a look at what it changed, and a call of a function that is not there.
const CALLED: &[BatchRequest<'static>] = &[
    BatchRequest::Call {
        module: "m",
        function: "f",
        args: &[Arg::Number(5)],
    },
    BatchRequest::Global {
        module: "m",
        name: "n",
    },
    BatchRequest::Call {
        module: "m",
        function: "nope",
        args: &[],
    },
];

const REPLIES: &str = "ok 7 seq 2\nok 7\nrefused 403 NoFunction\n";

/// Requests of a batch, and what is replied after the module was loaded.
type Row = (&'static [BatchRequest<'static>], &'static str);

static ROWS: [Row; 3] = [
    (&[], ""),
    (CALLED, REPLIES),
    (
        &[
            BatchRequest::Bad(601),
            BatchRequest::Seq,
            BatchRequest::Bad(602),
        ],
        "refused 601\nok 2\nrefused 602\n",
    ),
];

#[test]
fn replies_to_batches(rt: HostRuntime) -> Result<(), Fail> {
    let mut host = new_host(rt.alloc(), &[], &[])?;
    need(rt.alloc(), load(&mut host, SOURCE))?;
    for (requests, wanted) in &ROWS {
        if requests.len() <= 16 {
            let replies = lines_of(rt.alloc(), handled(&mut host, requests))?;
            check_text(&rt, &replies, wanted, "the replies");
        }
    }
    Ok(())
}

/// The calls of the first disk that make a store and load the module.
const CALLS_BEFORE: u64 = 9 + 4;

/// What a batch, and then an empty one, are replied if the first disk fails after so many calls.
fn stopped(alloc: Global, host: &mut FusedHost) -> Result<(String, String), Fail> {
    need(alloc, load(host, SOURCE))?;
    let replies = lines_of(alloc, handled(host, CALLED))?;
    let nothing = lines_of(alloc, handled(host, &[]))?;
    Ok((replies, nothing))
}

const FAILED: &str = "refused 507 DeviceFailed\n";

/// Whether a state is the one before the batch or the one after it.
fn is_either(found: State) -> bool {
    found == (1, Some(2)) || found == (2, Some(7))
}

/// Looks at what a crash leaves of a host that was stopped, or was not.
fn check_left(
    rt: &impl Abort,
    alloc: Global,
    disks: (&[u8], &[u8]),
    is_stopped: bool,
) -> Result<(), Fail> {
    let found = found_state(alloc, disks.0, disks.1)??;
    let is_right = if is_stopped {
        is_either(found)
    } else {
        found == (2, Some(7))
    };
    check(
        rt,
        &(found, is_right),
        &(found, true),
        "what a crash leaves",
    );
    Ok(())
}

/// Stops the first disk after so many calls of a batch, and opens what crashes leave.
fn check_stop(rt: &impl Abort, alloc: Global, calls: u64) -> Result<(), Fail> {
    let mut host = fused_host(alloc, (CALLS_BEFORE.saturating_add(calls), u64::MAX))??;
    let (replies, nothing) = stopped(alloc, &mut host)?;
    let is_stopped = calls < 4;
    check_text(
        rt,
        &replies,
        if is_stopped { FAILED } else { REPLIES },
        "the replies",
    );
    check_text(
        rt,
        &nothing,
        if is_stopped {
            "refused 508 Reopen\n"
        } else {
            ""
        },
        "of none",
    );
    let disks = inner_disks(alloc, close_host(alloc, host)?)?;
    for number in 0..20 {
        let crash = crash_of(number);
        let first = image_after(&disks.first, usize::MAX, crash.0)?;
        let second = image_after(&disks.second, usize::MAX, crash.1)?;
        check_left(rt, alloc, (&first, &second), is_stopped)?;
    }
    Ok(())
}

#[test]
fn a_stop_at_each_call_of_a_batch(rt: HostRuntime) -> Result<(), Fail> {
    for calls in 0..5 {
        check_stop(&rt, rt.alloc(), calls)?;
    }
    Ok(())
}
