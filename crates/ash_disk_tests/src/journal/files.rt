//! Runs of a journal, with the bytes that they leave.

use super::{Run, Start, Step, check_runs};
use std::test::Fail;

// The empty state of a host with no kinds and no services: version 1, and nothing else but zeros.
const EMPTY: &[u8] = &[
    1, 0, 0, 0, 0, 0, 0, 0, 0, 0, 0, 0, 0, 0, 0, 0, 0, 0, 0, 0, 0, 0, 0, 0, 0, 0, 0, 0, 0,
];

// A record that stores a module `m` with no source.
const MODULE: &[u8] = &[
    1, 1, 0, 0, 0, 0, 0, 1, 0, 0, 0, 0, 0, 0, 0, 0, 0, 0, 0, 0, 0, 0, 0, 0, 0, 1, 1, b'm', 0, 0, 0,
    0, 0, 0, 0, 0, 0, 0,
];

/// The first generation with that image and that record, of 94 bytes.
pub(crate) const WITH_A_MODULE: &[u8] = &[
    0x01, 0x41, 0x53, 0x48, 0x4f, 0x53, 0x54, 0x30, 0x31, 0x01, 0x00, 0x00, 0x00, 0x00, 0x00, 0x00,
    0x00, 0x1d, 0x00, 0x00, 0x00, 0x01, 0x00, 0x00, 0x00, 0x00, 0x00, 0x00, 0x00, 0x00, 0x00, 0x00,
    0x00, 0x00, 0x00, 0x00, 0x00, 0x00, 0x00, 0x00, 0x00, 0x00, 0x00, 0x00, 0x00, 0x00, 0x00, 0x00,
    0x00, 0x00, 0x01, 0x26, 0x00, 0x00, 0x00, 0x01, 0x01, 0x00, 0x00, 0x00, 0x00, 0x00, 0x01, 0x00,
    0x00, 0x00, 0x00, 0x00, 0x00, 0x00, 0x00, 0x00, 0x00, 0x00, 0x00, 0x00, 0x00, 0x00, 0x00, 0x00,
    0x01, 0x01, 0x6d, 0x00, 0x00, 0x00, 0x00, 0x00, 0x00, 0x00, 0x00, 0x00, 0x00, 0x00,
];

static FILES: [Run; 1] = [Run {
    what: "a module is loaded",
    start: Start::Create(EMPTY),
    steps: &[
        Step::Generation(1),
        Step::RecordBytes(0),
        Step::Append(MODULE),
        Step::Generation(1),
        Step::RecordBytes(43),
    ],
    files: (WITH_A_MODULE, &[0]),
    calls: (6 + 4, 2),
}];

#[test]
fn files_byte_for_byte(rt: HostRuntime) -> Result<(), Fail> {
    check_runs(&rt, rt.alloc(), (b"", b""), &FILES)
}

const SECOND_GENERATION: &[u8] = b"\x01ASHOST01\x02\0\0\0\0\0\0\0\x03\0\0\0two\x01\0\0\0\0\0";

// The second generation is committed over an idle file, the third over an older generation that is shut before, of
// which what is longer stays.
static TURNS: [Run; 2] = [
    Run {
        what: "two generations, with a record in each",
        start: Start::Create(b"one"),
        steps: &[
            Step::Append(b"lost with its generation"),
            Step::Install(b"two"),
            Step::Generation(2),
            Step::RecordBytes(0),
            Step::Append(b""),
        ],
        files: (
            b"\x01ASHOST01\x01\0\0\0\0\0\0\0\x03\0\0\0one\x01\x18\0\0\0lost with its generation\0",
            SECOND_GENERATION,
        ),
        calls: (6 + 4, 2 + 4 + 4),
    },
    Run {
        what: "a third generation",
        start: Start::Open(b"two", &[(24, b"")]),
        steps: &[Step::Settle, Step::Install(b"three"), Step::Generation(3)],
        files: (
            b"\x01ASHOST01\x03\0\0\0\0\0\0\0\x05\0\0\0three\0\0\0lost with its generation\0",
            SECOND_GENERATION,
        ),
        calls: (6 + 4 + 1 + 6, 2 + 4 + 4 + 1),
    },
];

#[test]
fn generations_take_turns(rt: HostRuntime) -> Result<(), Fail> {
    check_runs(&rt, rt.alloc(), (b"", b""), &TURNS)
}

// A byte for each gate and a sync; a generation and a sync; its gate and a sync. Opening syncs, settling has nothing to
// do, and a record is two writes and two syncs.
static CALLS: [Run; 2] = [
    Run {
        what: "a journal is created",
        start: Start::Create(b"image"),
        steps: &[],
        files: (b"\x01ASHOST01\x01\0\0\0\0\0\0\0\x05\0\0\0image\0", &[0]),
        calls: (6, 2),
    },
    Run {
        what: "it is opened, and a record is added",
        start: Start::Open(b"image", &[]),
        steps: &[Step::Settle, Step::Append(b"body")],
        files: (
            b"\x01ASHOST01\x01\0\0\0\0\0\0\0\x05\0\0\0image\x01\x04\0\0\0body\0",
            &[0],
        ),
        calls: (11, 3),
    },
];

#[test]
fn calls_of_the_device_are_fixed(rt: HostRuntime) -> Result<(), Fail> {
    check_runs(&rt, rt.alloc(), (b"", b""), &CALLS)
}

const LAST: &[u8] = b"\x01ASHOST01\xff\xff\xff\xff\xff\xff\xff\xff\0\0\0\0\0";

// Opening syncs both disks, and settling gives the second its gate, with a sync.
static SPENT: [Run; 1] = [Run {
    what: "the last generation",
    start: Start::Open(b"", &[]),
    steps: &[
        Step::Settle,
        Step::Spent(b"more"),
        Step::Append(b"still"),
        Step::Generation(u64::MAX),
    ],
    files: (
        b"\x01ASHOST01\xff\xff\xff\xff\xff\xff\xff\xff\0\0\0\0\x01\x05\0\0\0still\0",
        &[0],
    ),
    calls: (1 + 4, 1 + 2),
}];

#[test]
fn the_last_generation_is_spent(rt: HostRuntime) -> Result<(), Fail> {
    check_runs(&rt, rt.alloc(), (LAST, b""), &SPENT)
}
