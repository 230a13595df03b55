//! Which boxes host objects take, what these answer, and when they are given up.

use crate::checks::check_text;
use crate::files::{File, disks_of};
use crate::visits::{Registered, Visit, visited};
use crate::watched::{Named, new_log, reports_of};
use ash_host::{HostAnswer, Word};
use ash_store_fixtures::lives::{HostStep, Start};
use std::alloc::Global;
use std::process::Abort;
use std::test::Fail;

/// What a row is called, the files of a store, how it is begun, what is registered, the free boxes, what is asked, what is
/// answered, and what the boxes report. The service is named 2.
struct Row {
    what: &'static str,
    files: (File, File),
    start: Start,
    registered: Registered,
    pool: &'static [Named],
    steps: &'static [HostStep],
    answers: &'static str,
    reports: &'static str,
}

const SERVICES: &[Named] = &[Named::Taking(2, 2, 0)];

const EMPTY: (File, File) = (File::Bytes(&[]), File::Bytes(&[]));

static ROWS: [Row; 9] = [
    Row {
        what: "two objects that are dropped together",
        files: EMPTY,
        start: Start::Make,
        registered: Registered::Program,
        pool: &[Named::Taking(3, 1, 0), Named::Taking(5, 1, 0)],
        steps: &[
            HostStep::LoadAs(
                "m",
                b"class B { Counter@ c; } void f() { B@ x = B(); B@ y = B(); @x.c = Counter(1); \
                  B@ z = B(); @y.c = Counter(2); @z.c = x.c; }",
            ),
            HostStep::CallIn("m"),
        ],
        answers: "ok seq 1\nok seq 2 dropped 3 5\n",
        reports: "taken | given up | then 3 5 2",
    },
    Row {
        what: "a pool that is empty",
        files: EMPTY,
        start: Start::Make,
        registered: Registered::Program,
        pool: &[Named::Taking(1, 1, 0)],
        steps: &[
            HostStep::LoadAs("m", b"void f() { Counter c(1); }"),
            HostStep::CallIn("m"),
            HostStep::CallIn("m"),
        ],
        answers: "ok seq 1\nok seq 2 dropped 1\nexception PoolEmpty f 1 seq 3\n",
        reports: "taken | given up | then 1 2",
    },
    Row {
        what: "an object that is let go before the others",
        files: EMPTY,
        start: Start::Make,
        registered: Registered::Program,
        pool: &[
            Named::Taking(7, 1, 0),
            Named::Taking(6, 1, 0),
            Named::Taking(5, 1, 0),
        ],
        steps: &[
            HostStep::LoadAs(
                "m",
                b"void f() { Counter@ a = Counter(1); Counter@ b = Counter(2); @a = null; \
                  Counter@ c = Counter(3); }",
            ),
            HostStep::CallIn("m"),
        ],
        answers: "ok seq 1\nok seq 2 dropped 1 2 3\n",
        reports: "taken | given up | then 7 6 5 2",
    },
    Row {
        what: "the first free box of a kind, of which the object goes with its module",
        files: EMPTY,
        start: Start::Make,
        registered: Registered::Program,
        pool: &[
            Named::Taking(7, 2, 0),
            Named::Taking(6, 1, 0),
            Named::Taking(5, 1, 0),
        ],
        steps: &[
            HostStep::LoadAs("m", b"Counter@ g = Counter(7);"),
            HostStep::DiscardOf("m"),
        ],
        answers: "ok seq 1\nok seq 2 dropped 1\n",
        reports: "taken | given up | then 6 2 5 7",
    },
    Row {
        what: "a load that comes to no end",
        files: EMPTY,
        start: Start::Make,
        registered: Registered::Program,
        pool: &[Named::Taking(4, 1, 0), Named::Taking(5, 1, 0)],
        steps: &[
            HostStep::LoadAs("m", b"Counter@ g = Counter(7); int c = 1 / 0;"),
            HostStep::Object(1),
        ],
        answers: "exception DivideByZero (init) 1 seq 1 dropped 1\nrefused 407 NoObject\n",
        reports: "taken | given up | then 4 2 5",
    },
    Row {
        what: "a counter that is stored, and goes with its module",
        files: (File::Living(2), File::Bytes(&[7])),
        start: Start::Open,
        registered: Registered::Program,
        pool: &[
            Named::Taking(7, 2, 0),
            Named::Taking(6, 1, 0),
            Named::Taking(5, 1, 0),
        ],
        steps: &[
            HostStep::Object(1),
            HostStep::Get("m", "g"),
            HostStep::DiscardOf("m"),
            HostStep::Object(1),
        ],
        answers: "ok object 1 Counter count 1 state 07000000\nok object 1\nok seq 2 dropped 1\n\
                  refused 407 NoObject\n",
        reports: "taken 2:0 6:7 | given up | then 6 2 5 7",
    },
    Row {
        what: "a value of another type",
        files: EMPTY,
        start: Start::Make,
        registered: Registered::Odd,
        pool: &[Named::Answering(4, 9, HostAnswer::Value(Word::Bool(true)))],
        steps: &[
            HostStep::LoadAs("m", b"void f() { Odd o(1); o.bad(); }"),
            HostStep::CallIn("m"),
        ],
        answers: "ok seq 1\nexception BadHostAnswer f 1 seq 2 dropped 1\n",
        reports: "taken | given up | then 4 2",
    },
    Row {
        what: "no value",
        files: EMPTY,
        start: Start::Make,
        registered: Registered::Odd,
        pool: &[Named::Answering(4, 9, HostAnswer::Nothing)],
        steps: &[
            HostStep::LoadAs("m", b"void f() { Odd o(1); o.bad(); }"),
            HostStep::CallIn("m"),
        ],
        answers: "ok seq 1\nexception BadHostAnswer f 1 seq 2 dropped 1\n",
        reports: "taken | given up | then 4 2",
    },
    // The state is lost, and all boxes with it, in any order: both have one name.
    Row {
        what: "a method that is refused memory",
        files: EMPTY,
        start: Start::Make,
        registered: Registered::Odd,
        pool: &[Named::Answering(2, 9, HostAnswer::NoMemory)],
        steps: &[
            HostStep::LoadAs("m", b"void f() { Odd o(1); o.bad(); }"),
            HostStep::CallIn("m"),
            HostStep::CallIn("m"),
            HostStep::Seq,
        ],
        answers: "ok seq 1\nrefused 509 NoMemory\nrefused 508 Reopen\n1\n",
        reports: "taken | given up | then 2 2",
    },
];

fn check_row(rt: &impl Abort, alloc: Global, row: &Row) -> Result<(), Fail> {
    let visit = Visit {
        start: row.start,
        registered: row.registered,
        pool: row.pool,
        services: SERVICES,
        steps: row.steps,
    };
    let log = new_log(alloc)?;
    let (answers, _) = visited(alloc, disks_of(alloc, row.files)?, &visit, &log)?;
    check_text(rt, answers.as_str(), row.answers, row.what);
    check_text(rt, reports_of(alloc, &log)?.as_str(), row.reports, row.what);
    Ok(())
}

#[test]
fn boxes_of_host_objects(rt: HostRuntime) -> Result<(), Fail> {
    for row in &ROWS {
        check_row(&rt, rt.alloc(), row)?;
    }
    Ok(())
}
