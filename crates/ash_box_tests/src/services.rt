//! Which services a host takes, with what states, and what becomes of the boxes beyond them.

use crate::checks::{check_bytes, check_text};
use crate::files::{File, bytes_of, disks_of};
use crate::visits::{Registered, Visit, visited};
use crate::watched::{Named, new_log, reports_of};
use ash_disk::MemoryDisk;
use ash_store_fixtures::lives::{HostStep, Start};
use std::alloc::{AllocError, Global};
use std::process::Abort;
use std::test::Fail;

/// What a row is called, the visit of a store on disks with two files, what is answered, the files that it leaves, and
/// what the boxes report.
struct Row {
    what: &'static str,
    visit: Visit,
    files: (File, File),
    answers: &'static str,
    left: (File, File),
    reports: &'static str,
}

const CLOSED: File = File::Bytes(&[0]);

static ROWS: [Row; 7] = [
    Row {
        what: "a store with nothing registered",
        visit: Visit {
            start: Start::Make,
            registered: Registered::Nothing,
            pool: &[Named::Taking(4, 1, 9)],
            services: &[Named::Taking(1, 2, 5), Named::Taking(2, 3, -2)],
            steps: &[HostStep::Seq],
        },
        files: (File::Bytes(&[]), File::Bytes(&[])),
        answers: "0\n",
        left: (File::Empty, CLOSED),
        reports: "taken | given up 1 2 | then 4",
    },
    Row {
        what: "a new store with services",
        visit: Visit {
            start: Start::Make,
            registered: Registered::Services(&[2, 3]),
            pool: &[Named::Taking(4, 2, 9)],
            services: &[
                Named::Taking(1, 2, 5),
                Named::Taking(2, 3, -2),
                Named::Taking(3, 2, 7),
            ],
            steps: &[HostStep::Seq],
        },
        files: (File::Bytes(&[]), File::Bytes(&[])),
        answers: "0\n",
        left: (File::Bytes(MADE), CLOSED),
        reports: "taken | given up 3 | then 1 2 4",
    },
    Row {
        what: "that store, opened",
        visit: OPENED,
        files: (File::Bytes(MADE), CLOSED),
        answers: "0\n",
        left: (File::Bytes(MADE), CLOSED),
        reports: "taken 5:5 6:-2 | given up 7 | then 4 5 6",
    },
    Row {
        what: "the states in the last record",
        visit: OPENED,
        files: (File::Loaded(3, (5, -2), (7, -3), 2), File::Bytes(&[7])),
        answers: "1\n",
        left: (File::Loaded(3, (5, -2), (7, -3), 0), CLOSED),
        reports: "taken 5:7 6:-3 | given up 7 | then 4 5 6",
    },
    Row {
        what: "a store of version 1",
        visit: OPENED,
        files: (File::Older(3, (5, -2), (7, -3), 0), CLOSED),
        answers: "1\n",
        left: (
            File::Older(3, (5, -2), (7, -3), 0),
            File::Installed(4, (7, -3)),
        ),
        reports: "taken 5:7 6:-3 | given up 7 | then 4 5 6",
    },
    Row {
        what: "a record and a new generation",
        visit: Visit {
            steps: &[HostStep::LoadAs("m", b""), HostStep::Snapshot],
            ..OPENED
        },
        files: (File::Bytes(MADE), CLOSED),
        answers: "ok seq 1\nok\n",
        left: (
            File::Loaded(1, (5, -2), (5, -2), 0),
            File::Installed(2, (5, -2)),
        ),
        reports: "taken 5:5 6:-2 | given up 7 | then 4 5 6",
    },
    Row {
        what: "a store of the program",
        visit: Visit {
            start: Start::Open,
            registered: Registered::Program,
            pool: &[Named::Taking(4, 1, 0)],
            services: &[Named::Taking(5, 2, 0)],
            steps: &[HostStep::Seq],
        },
        files: (File::Program(&[(2, 5)]), CLOSED),
        answers: "0\n",
        left: (File::Program(&[(2, 5)]), CLOSED),
        reports: "taken 5:5 | given up | then 4 5",
    },
];

const OPENED: Visit = Visit {
    start: Start::Open,
    registered: Registered::Services(&[2, 3]),
    pool: &[Named::Taking(4, 2, 9)],
    services: &[
        Named::Taking(5, 2, 0),
        Named::Taking(6, 3, 1),
        Named::Taking(7, 2, 2),
    ],
    steps: &[HostStep::Seq],
};

/// The file of a new store with a service of the kind 2, whose state is 5, and one of the kind 3, whose state is -2:
/// the gate, the mark, the generation 1, the length of the image, and the image, a part on each line; the next gate.
const MADE: &[u8] = b"\
    \x01ASHOST01\
    \x01\x00\x00\x00\x00\x00\x00\x00\
    \x41\x00\x00\x00\
    \x02\x00\
    \x14\x00\x00\x00service 2\nservice 3\n\
    \x00\x00\x00\x00\x00\x00\x00\x00\
    \x00\x00\x00\x00\x00\x00\x00\x00\
    \x02\x00\
    \x02\x00\x04\x00\x05\x00\x00\x00\
    \x03\x00\x04\x00\xfe\xff\xff\xff\
    \x00\
    \x00\x00\x00\x00\
    \x00";

/// Compares the bytes of a disk with a file by hand.
fn check_file(
    rt: &impl Abort,
    alloc: Global,
    found: &MemoryDisk,
    wanted: File,
    what: &str,
) -> Result<(), AllocError> {
    let wanted = bytes_of(alloc, wanted)?;
    check_bytes(rt, found.bytes(), &wanted, what);
    Ok(())
}

fn check_row(rt: &impl Abort, alloc: Global, row: &Row) -> Result<(), Fail> {
    let log = new_log(alloc)?;
    let disks = disks_of(alloc, row.files)?;
    let (answers, (first, second)) = visited(alloc, disks, &row.visit, &log)?;
    check_text(rt, answers.as_str(), row.answers, row.what);
    check_file(rt, alloc, &first, row.left.0, row.what)?;
    check_file(rt, alloc, &second, row.left.1, row.what)?;
    let reports = reports_of(alloc, &log)?;
    check_text(rt, reports.as_str(), row.reports, row.what);
    Ok(())
}

#[test]
fn services_and_their_states(rt: HostRuntime) -> Result<(), Fail> {
    for row in &ROWS {
        check_row(&rt, rt.alloc(), row)?;
    }
    Ok(())
}
