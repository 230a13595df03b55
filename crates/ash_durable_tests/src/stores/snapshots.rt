//! New generations: by a snapshot, and in place of records of 16,777,216 bytes or more. What is asked of a host is
//! data, so that each call is proved once and not in each test.

use crate::checks::{check, check_bytes, check_text};
use crate::hosts::{BoxedHost, Disks, closed_disks, disks_with, unregistered_host, when_done};
use crate::stores::fuses::answers_on_fuses;
use crate::stores::runs::{RunSeries, answers_in, check_calls, check_lives};
use ash_disk::{MemoryDisk, Survives};
use ash_durable::FULL_RECORD_BYTES;
use ash_store_fixtures::deltas::{ModuleDelta, add_delta, delta_of_modules};
use ash_store_fixtures::files::{ImageModule, generation, image};
use ash_store_fixtures::full::{AT_THE_LIMIT, full_file, spaces};
use ash_store_fixtures::hosts::{EMPTY, discard, found_state, image_after, load};
use ash_store_fixtures::lives::{File, HostStep, Run, Start, bytes_of};
use std::alloc::{AllocError, Global};
use std::process::Abort;
use std::test::Fail;

// The file after two requests to a new store.
const USED: File = File::Written(1, (0, None), &[(1, Some(2)), (2, Some(7))], &[]);

static LIVES: [RunSeries; 5] = [
    // The second disk is shut since the store was made. The generation is written and synced, and then its gate.
    (
        File::Bytes(&[]),
        File::Bytes(&[]),
        &[
            Run {
                what: "a snapshot",
                start: Start::Make,
                steps: &[
                    HostStep::Load,
                    HostStep::Call(5),
                    HostStep::Snapshot,
                    HostStep::State,
                ],
                answers: "ok seq 1\nok 7 seq 2\nok\n(2, Some(7))\n",
                is_reopened: false,
                first: USED,
                second: File::Written(2, (2, Some(7)), &[], &[]),
                calls: (14, 2 + 4),
            },
            Run {
                what: "what is opened",
                start: Start::Open,
                steps: &[HostStep::State],
                answers: "(2, Some(7))\n",
                is_reopened: false,
                first: USED,
                second: File::Written(2, (2, Some(7)), &[], &[]),
                calls: (14 + 1, 6 + 1),
            },
        ],
    ),
    (
        File::Bytes(&[]),
        File::Bytes(&[]),
        &[
            Run {
                what: "a request after a snapshot",
                start: Start::Make,
                steps: &[
                    HostStep::Load,
                    HostStep::Call(5),
                    HostStep::Snapshot,
                    HostStep::Call(1),
                ],
                answers: "ok seq 1\nok 7 seq 2\nok\nok 8 seq 3\n",
                is_reopened: false,
                first: USED,
                second: File::Written(2, (2, Some(7)), &[(3, Some(8))], &[]),
                calls: (14, 6 + 4),
            },
            Run {
                what: "what is opened after it",
                start: Start::Open,
                steps: &[HostStep::State],
                answers: "(3, Some(8))\n",
                is_reopened: false,
                first: USED,
                second: File::Written(2, (2, Some(7)), &[(3, Some(8))], &[]),
                calls: (14 + 1, 10 + 1),
            },
        ],
    ),
    // The first gate of the older generation is shut and synced before. Each of two openings syncs both disks.
    (
        File::Bytes(&[]),
        File::Bytes(&[]),
        &[
            Run {
                what: "two snapshots",
                start: Start::Make,
                steps: &[
                    HostStep::Load,
                    HostStep::Call(5),
                    HostStep::Snapshot,
                    HostStep::Snapshot,
                ],
                answers: "ok seq 1\nok 7 seq 2\nok\nok\n",
                is_reopened: false,
                first: File::Over(3, (2, Some(7)), &[(1, Some(2)), (2, Some(7))]),
                second: File::Written(2, (2, Some(7)), &[], &[]),
                calls: (14 + 2 + 4, 6),
            },
            Run {
                what: "a third snapshot",
                start: Start::Open,
                steps: &[HostStep::State, HostStep::Snapshot],
                answers: "(2, Some(7))\nok\n",
                is_reopened: true,
                first: File::Over(3, (2, Some(7)), &[(1, Some(2)), (2, Some(7))]),
                second: File::Written(4, (2, Some(7)), &[], &[]),
                calls: (20 + 1 + 1, 6 + 1 + 6 + 1),
            },
        ],
    ),
    (
        File::Bytes(&[]),
        File::Bytes(&[]),
        &[Run {
            what: "a snapshot of nothing",
            start: Start::Make,
            steps: &[HostStep::Snapshot],
            answers: "ok\n",
            is_reopened: false,
            first: File::Empty,
            second: File::Written(2, (0, None), &[], &[]),
            calls: (6, 2 + 4),
        }],
    ),
    // It goes on, with records.
    (
        File::Written(u64::MAX, (0, None), &[], &[]),
        File::Bytes(&[0]),
        &[Run {
            what: "the last generation",
            start: Start::Open,
            steps: &[
                HostStep::Snapshot,
                HostStep::Snapshot,
                HostStep::Load,
                HostStep::State,
                HostStep::Snapshot,
            ],
            answers: "refused 511 GenerationSpent\nrefused 511 GenerationSpent\nok seq 1\n\
                (1, Some(2))\nrefused 511 GenerationSpent\n",
            is_reopened: false,
            first: File::Written(u64::MAX, (0, None), &[(1, Some(2))], &[]),
            second: File::Bytes(&[0]),
            calls: (1 + 4, 1),
        }],
    ),
];

#[test]
fn snapshots_with_their_bytes_and_device_calls(rt: HostRuntime) -> Result<(), Fail> {
    check_lives(&rt, rt.alloc(), &LIVES)
}

// A snapshot and the requests after it, on a host with a module whose second disk fails.
static FAILED: [HostStep; 6] = [
    HostStep::Load,
    HostStep::Snapshot,
    HostStep::Snapshot,
    HostStep::Load,
    HostStep::Discard,
    HostStep::Seq,
];

const REFUSED: &str = "ok seq 1\nrefused 507 DeviceFailed\nrefused 508 Reopen\nrefused 508 Reopen\n\
    refused 508 Reopen\n1\n";

/// The disks of a host whose second disk fails after so many calls. Compares what it answers.
fn failed(rt: &impl Abort, alloc: Global, calls: u64, what: &str) -> Result<Disks, Fail> {
    let (found, disks) = answers_on_fuses(alloc, (u64::MAX, calls), &FAILED)?;
    check_text(rt, found.as_str(), REFUSED, what);
    Ok(disks)
}

/// Compares what is left of a snapshot where the second disk fails after so many calls, of which five make the store.
fn check_failed(rt: &impl Abort, alloc: Global, calls: u64) -> Result<(), Fail> {
    let what = format!(in alloc; "a snapshot that fails after {calls} calls")?;
    let disks = failed(rt, alloc, calls, &what)?;
    let found = found_state(alloc, disks.first.bytes(), disks.second.bytes())?;
    check(rt, &found, &Ok((1, Some(2))), what.as_str());
    Ok(())
}

#[test]
fn a_snapshot_that_fails(rt: HostRuntime) -> Result<(), Fail> {
    for calls in 5..9 {
        check_failed(&rt, rt.alloc(), calls)?;
    }
    Ok(())
}

/// Loads a source as the module `m`, or removes it, by turns.
fn take_turn(
    alloc: Global,
    mut host: BoxedHost,
    source: &[u8],
    request: u64,
) -> Result<BoxedHost, Fail> {
    let reply = if request % 2 == 0 {
        load(&mut host, source)
    } else {
        discard(&mut host)
    };
    when_done(alloc, host, reply)
}

/// The disks after so many such requests with a source of as many spaces as there may be.
fn disks_after(alloc: Global, requests: u64) -> Result<Disks, Fail> {
    let source = spaces(alloc, 65_536)?;
    let mut host = unregistered_host(alloc)?;
    for request in 0..requests {
        host = take_turn(alloc, host, &source, request)?;
    }
    Ok(closed_disks(alloc, host)?)
}

// A load has a record of 5 + 36 + 65,536 bytes, with the name of one byte, and a discard one of 5 + 30.
const LOAD: usize = 65_577;

const DISCARD: usize = 35;

/// The file after an installation by the 512th request, a discard, before which `m` is loaded.
fn second_file(alloc: Global) -> Result<Vec<u8>, AllocError> {
    let source = spaces(alloc, 65_536)?;
    let module = ImageModule {
        name: "m",
        source: &source,
        global: None,
    };
    let mut file = generation(alloc, 2, &image(alloc, 511, &[module])?)?;
    let removed = delta_of_modules(512, ModuleDelta::Removed("m"));
    add_delta(alloc, &mut file, &removed)?;
    Ok(file)
}

/// Looks at the first disk after a load and a discard have filled a generation.
fn check_filled(rt: &impl Abort, first: &[u8]) {
    // After 510 requests there are 255 * (65,577 + 35) = 16,731,060 bytes of records, and so the load after them is
    // added to these. With it there are 16,796,637, which is past 16,777,216, and so the discard after it installs
    // first.
    let length = 51 + 255 * (LOAD + DISCARD) + LOAD;
    check(rt, &length, &(51 + 16_796_637), "by hand");
    check(rt, &first.len(), &length, "the first disk");
}

/// Looks at the second disk, where the discard has installed.
fn check_second(rt: &impl Abort, alloc: Global, second: &MemoryDisk) -> Result<(), Fail> {
    let file = second_file(alloc)?;
    check_bytes(rt, second.bytes(), file.as_slice(), "the second disk");
    // Before that it held one byte.
    let before = image_after(second, 2, Survives::Everything)?;
    check_bytes(rt, before.as_slice(), &[0], "the second disk before");
    Ok(())
}

/// Looks at the disks after a load and a discard have filled a generation.
fn check_installed(rt: &impl Abort, alloc: Global) -> Result<(), Fail> {
    let disks = disks_after(alloc, 512)?;
    check_filled(rt, disks.first.bytes());
    check_calls(rt, &disks, (6 + 511 * 4, 2 + 4 + 4), "512 requests");
    check_second(rt, alloc, &disks.second)
}

#[test]
fn an_installation_by_size(rt: HostRuntime) -> Result<(), Fail> {
    check_installed(&rt, rt.alloc())
}

/// What is asked of a store that is full but for some bytes, or that has no next generation: what that is called, the
/// number of its generation, how long the largest source but one is, the steps with what is answered, how many bytes
/// are added to the first disk, and what is on the second.
struct Full {
    what: &'static str,
    number: u64,
    last: usize,
    steps: &'static [HostStep],
    answers: &'static str,
    added: usize,
    second: File,
}

/// Compares the bytes of the first disk with the file before them.
fn check_added(rt: &impl Abort, row: &Full, found: &[u8], file: &[u8]) {
    let length = file.len().wrapping_add(row.added);
    check(rt, &found.len(), &length, row.what);
    // Where nothing is added, nothing is changed.
    let is_same = found == file;
    check(rt, &is_same, &(row.added == 0), row.what);
}

/// Compares what such a store leaves, which began with this file.
fn check_full_files(
    rt: &impl Abort,
    alloc: Global,
    row: &Full,
    disks: &Disks,
    file: &[u8],
) -> Result<(), AllocError> {
    check_added(rt, row, disks.first.bytes(), file);
    let second = bytes_of(alloc, row.second)?;
    check_bytes(rt, disks.second.bytes(), second.as_slice(), row.what);
    Ok(())
}

/// Compares what such a store answers, and what it leaves.
fn check_full(rt: &impl Abort, alloc: Global, row: &Full) -> Result<(), Fail> {
    let file = full_file(alloc, row.number, row.last)?;
    let disks = disks_with(alloc, file.as_slice(), &[0])?;
    let (answers, disks) = answers_in(alloc, disks, row.steps)?;
    check_text(rt, answers.as_str(), row.answers, row.what);
    check_full_files(rt, alloc, row, &disks, &file)?;
    Ok(())
}

// A record that is added has 5 + 39 bytes.
static AT_THE_SIZE: [Full; 2] = [
    Full {
        what: "at the limit",
        number: 1,
        last: AT_THE_LIMIT,
        steps: &[HostStep::State, HostStep::Call(5)],
        answers: "(17, Some(2))\nok 7 seq 18\n",
        added: 0,
        second: File::Written(2, (17, Some(2)), &[(18, Some(7))], &[]),
    },
    Full {
        what: "a byte less",
        number: 1,
        last: AT_THE_LIMIT - 1,
        steps: &[HostStep::State, HostStep::Call(5)],
        answers: "(17, Some(2))\nok 7 seq 18\n",
        added: 44,
        second: File::Bytes(&[0]),
    },
];

#[test]
fn a_byte_less_than_the_limit(rt: HostRuntime) -> Result<(), Fail> {
    let full = full_file(rt.alloc(), 1, AT_THE_LIMIT)?;
    let records = full.len().saturating_sub(EMPTY.len());
    check(
        &rt,
        &(records as u64),
        &FULL_RECORD_BYTES,
        "the bytes of records",
    );
    for row in &AT_THE_SIZE {
        check_full(&rt, rt.alloc(), row)?;
    }
    Ok(())
}

static REFUSED_REQUESTS: Full = Full {
    what: "a refused request installs too",
    number: 1,
    last: AT_THE_LIMIT,
    steps: &[
        HostStep::CallIn("z"),
        HostStep::CallIn("y"),
        HostStep::State,
    ],
    answers: "refused 401 NoModule\nrefused 401 NoModule\n(17, Some(2))\n",
    added: 0,
    second: File::Written(2, (17, Some(2)), &[], &[]),
};

#[test]
fn a_refused_request_installs_too(rt: HostRuntime) -> Result<(), Fail> {
    check_full(&rt, rt.alloc(), &REFUSED_REQUESTS)
}

static NO_ROOM: Full = Full {
    what: "no room in the last generation",
    number: u64::MAX,
    last: AT_THE_LIMIT,
    steps: &[
        HostStep::Load,
        HostStep::Call(1),
        HostStep::Discard,
        HostStep::Snapshot,
        HostStep::CallIn("z"),
        HostStep::State,
    ],
    answers: "refused 511 GenerationSpent\nrefused 511 GenerationSpent\nrefused 511 GenerationSpent\n\
        refused 511 GenerationSpent\nrefused 511 GenerationSpent\n(17, Some(2))\n",
    added: 0,
    second: File::Bytes(&[0]),
};

#[test]
fn no_room_in_the_last_generation(rt: HostRuntime) -> Result<(), Fail> {
    check_full(&rt, rt.alloc(), &NO_ROOM)
}
