//! Stores that are not made or not opened, in the order of what is wrong. Their disks read as before.

use crate::checks::{check, check_bytes, check_text};
use crate::files::{File, bytes_of, disks_of};
use crate::visits::{Registered, Visit, visited};
use crate::watched::{Named, new_log, reports_of};
use ash_disk::MemoryDisk;
use ash_store_fixtures::lives::Start;
use std::alloc::Global;
use std::process::Abort;
use std::test::Fail;

/// What a row is called, the files of a store, what is registered, the free boxes and the services with which it is
/// made or opened, the fault, and what the boxes report.
struct Row {
    what: &'static str,
    files: (File, File),
    registered: Registered,
    pool: &'static [Named],
    services: &'static [Named],
    fault: &'static str,
    reports: &'static str,
}

const TWO: Registered = Registered::Services(&[2, 3]);

const BOTH: &[Named] = &[Named::Taking(1, 2, 0), Named::Taking(2, 3, 0)];

const FIRST_ALONE: &[Named] = &[Named::Taking(1, 2, 0)];

const BOTH_GIVEN_UP: &str = "taken | given up 1 2 | then";

// A gate of the other file that an opening writes over, and one after the last record.
const OTHER: File = File::Bytes(&[7]);

const LOADED: (File, File) = (File::Loaded(1, (5, -2), (7, -3), 2), OTHER);

static OPENED: [Row; 21] = [
    Row {
        what: "no service",
        files: LOADED,
        registered: TWO,
        pool: &[Named::Taking(4, 2, 0)],
        services: &[],
        fault: "PoolShort(2)",
        reports: "taken | given up 4 | then",
    },
    Row {
        what: "a service too few",
        files: LOADED,
        registered: TWO,
        pool: &[Named::Taking(4, 3, 0)],
        services: FIRST_ALONE,
        fault: "PoolShort(3)",
        reports: "taken | given up 1 4 | then",
    },
    Row {
        what: "services in the other order",
        files: LOADED,
        registered: TWO,
        pool: &[],
        services: &[Named::Taking(1, 3, 0), Named::Taking(2, 2, 0)],
        fault: "PoolShort(2)",
        reports: BOTH_GIVEN_UP,
    },
    Row {
        what: "a second service of another kind",
        files: LOADED,
        registered: TWO,
        pool: &[],
        services: &[
            Named::Taking(1, 2, 0),
            Named::Taking(2, 2, 0),
            Named::Taking(3, 3, 0),
        ],
        fault: "PoolShort(3)",
        reports: "taken | given up 1 2 3 | then",
    },
    Row {
        what: "a service that refuses its state",
        files: LOADED,
        registered: TWO,
        pool: &[],
        services: &[Named::Refusing(1, 2), Named::Taking(2, 3, 0)],
        fault: "RestoreRefused(0)",
        reports: BOTH_GIVEN_UP,
    },
    Row {
        what: "a second service that refuses its state",
        files: LOADED,
        registered: TWO,
        pool: &[],
        services: &[Named::Taking(1, 2, 0), Named::Refusing(2, 3)],
        fault: "RestoreRefused(0)",
        reports: "taken 1:7 | given up 1 2 | then",
    },
    Row {
        what: "a service that refuses its state before one that is not there",
        files: LOADED,
        registered: TWO,
        pool: &[],
        services: &[Named::Refusing(1, 2)],
        fault: "PoolShort(3)",
        reports: "taken | given up 1 | then",
    },
    // Version 1 is moved after the boxes are tested, and the last generation is found then.
    Row {
        what: "version 1, and a service too few",
        files: (File::Older(1, (5, -2), (7, -3), 2), OTHER),
        registered: TWO,
        pool: &[],
        services: FIRST_ALONE,
        fault: "PoolShort(3)",
        reports: "taken | given up 1 | then",
    },
    Row {
        what: "version 1, and a service that refuses its state",
        files: (File::Older(u64::MAX, (5, -2), (7, -3), 2), OTHER),
        registered: TWO,
        pool: &[],
        services: &[Named::Taking(1, 2, 0), Named::Refusing(2, 3)],
        fault: "RestoreRefused(0)",
        reports: "taken 1:7 | given up 1 2 | then",
    },
    Row {
        what: "version 1, and no generation left",
        files: (File::Older(u64::MAX, (5, -2), (7, -3), 2), OTHER),
        registered: TWO,
        pool: &[],
        services: BOTH,
        fault: "GenerationSpent",
        reports: "taken 1:7 2:-3 | given up 1 2 | then",
    },
    // What comes before the boxes.
    Row {
        what: "closed files",
        files: (File::Bytes(&[2, 1]), OTHER),
        registered: TWO,
        pool: &[],
        services: &[],
        fault: "Open(NoGeneration)",
        reports: "taken | given up | then",
    },
    Row {
        what: "one more method",
        files: (File::Program(&[(2, 5)]), OTHER),
        registered: Registered::OneMore,
        pool: &[],
        services: &[],
        fault: "OtherInterface",
        reports: "taken | given up | then",
    },
    Row {
        what: "a service more",
        files: (File::Made(1, (5, -2)), OTHER),
        registered: Registered::Services(&[2, 3, 4]),
        pool: &[],
        services: BOTH,
        fault: "OtherInterface",
        reports: BOTH_GIVEN_UP,
    },
    // Services of other kinds than are registered are damage, which the registry alone can find.
    Row {
        what: "stored services in the other order",
        files: (File::Swapped, OTHER),
        registered: TWO,
        pool: &[],
        services: &[],
        fault: "Open(Damaged(0))",
        reports: "taken | given up | then",
    },
    Row {
        what: "stored services in the other order, with others registered",
        files: (File::Swapped, OTHER),
        registered: Registered::Services(&[3, 2]),
        pool: &[],
        services: &[],
        fault: "OtherInterface",
        reports: "taken | given up | then",
    },
    Row {
        what: "a stored service too few",
        files: (File::First, OTHER),
        registered: TWO,
        pool: &[],
        services: BOTH,
        fault: "Open(Damaged(0))",
        reports: BOTH_GIVEN_UP,
    },
    // Hosts without services wrote none, whatever was registered.
    Row {
        what: "the program's store without services",
        files: (File::Program(&[]), OTHER),
        registered: Registered::Program,
        pool: &[],
        services: &[Named::Taking(1, 2, 0)],
        fault: "Open(Damaged(0))",
        reports: "taken | given up 1 | then",
    },
    // A host object that lives.
    Row {
        what: "a host object, and no box",
        files: (File::Living(0), OTHER),
        registered: Registered::Program,
        pool: &[],
        services: &[Named::Taking(1, 2, 0)],
        fault: "PoolShort(1)",
        reports: "taken | given up 1 | then",
    },
    Row {
        what: "a host object, no box, and a service that refuses its state",
        files: (File::Living(2), OTHER),
        registered: Registered::Program,
        pool: &[Named::Taking(4, 2, 0)],
        services: &[Named::Refusing(1, 2)],
        fault: "PoolShort(1)",
        reports: "taken | given up 1 4 | then",
    },
    Row {
        what: "a host object, and a box that refuses its state",
        files: (File::Living(2), OTHER),
        registered: Registered::Program,
        pool: &[Named::Refusing(4, 1)],
        services: &[Named::Taking(1, 2, 0)],
        fault: "RestoreRefused(1)",
        reports: "taken 1:0 | given up 1 4 | then",
    },
    Row {
        what: "a host object, and a box and a service that refuse their states",
        files: (File::Living(2), OTHER),
        registered: Registered::Program,
        pool: &[Named::Refusing(4, 1)],
        services: &[Named::Refusing(1, 2)],
        fault: "RestoreRefused(0)",
        reports: "taken | given up 1 4 | then",
    },
];

static MADE: [Row; 5] = [
    Row {
        what: "no service for a new store",
        files: (File::Bytes(&[2, 1]), OTHER),
        registered: TWO,
        pool: &[Named::Taking(4, 2, 0)],
        services: &[],
        fault: "PoolShort(2)",
        reports: "taken | given up 4 | then",
    },
    Row {
        what: "a service too few for a new store",
        files: (File::Bytes(&[]), File::Bytes(&[])),
        registered: TWO,
        pool: &[Named::Taking(4, 3, 0)],
        services: FIRST_ALONE,
        fault: "PoolShort(3)",
        reports: "taken | given up 1 4 | then",
    },
    Row {
        what: "services in the other order for a new store",
        files: (File::Bytes(&[1]), OTHER),
        registered: TWO,
        pool: &[],
        services: &[Named::Taking(1, 3, 0), Named::Taking(2, 2, 0)],
        fault: "PoolShort(2)",
        reports: BOTH_GIVEN_UP,
    },
    Row {
        what: "a store that is there, and no service",
        files: (File::Made(1, (5, -2)), OTHER),
        registered: TWO,
        pool: &[],
        services: &[],
        fault: "Create(AlreadyThere)",
        reports: "taken | given up | then",
    },
    Row {
        what: "a store that is there in the second file, and no service",
        files: (OTHER, File::Made(1, (5, -2))),
        registered: TWO,
        pool: &[],
        services: &[],
        fault: "Create(AlreadyThere)",
        reports: "taken | given up | then",
    },
];

/// Compares a disk with the file that it had before, and how many writes and syncs it has had.
fn check_disk(
    rt: &impl Abort,
    alloc: Global,
    disk: &MemoryDisk,
    wanted: (File, usize),
    what: &str,
) -> Result<(), Fail> {
    let (file, calls) = wanted;
    check_bytes(rt, disk.bytes(), &bytes_of(alloc, file)?, what);
    check(rt, &disk.calls(), &calls, what);
    Ok(())
}

/// Compares what is refused, and the disks, which have had so many writes and syncs each.
fn check_row(
    rt: &impl Abort,
    alloc: Global,
    row: &Row,
    start: Start,
    calls: usize,
) -> Result<(), Fail> {
    let visit = Visit {
        start,
        registered: row.registered,
        pool: row.pool,
        services: row.services,
        steps: &[],
    };
    let log = new_log(alloc)?;
    let (fault, (first, second)) = visited(alloc, disks_of(alloc, row.files)?, &visit, &log)?;
    check_text(rt, fault.as_str(), row.fault, row.what);
    check_disk(rt, alloc, &first, (row.files.0, calls), row.what)?;
    check_disk(rt, alloc, &second, (row.files.1, calls), row.what)?;
    check_text(rt, reports_of(alloc, &log)?.as_str(), row.reports, row.what);
    Ok(())
}

// An opening syncs both disks before it reads.
#[test]
fn stores_that_are_not_opened(rt: HostRuntime) -> Result<(), Fail> {
    for row in &OPENED {
        check_row(&rt, rt.alloc(), row, Start::Open, 1)?;
    }
    Ok(())
}

#[test]
fn stores_that_are_not_made(rt: HostRuntime) -> Result<(), Fail> {
    for row in &MADE {
        check_row(&rt, rt.alloc(), row, Start::Make, 0)?;
    }
    Ok(())
}
