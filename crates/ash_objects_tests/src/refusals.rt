//! Memory that is refused once: `tests/program objects` has each allocation of each of these tests fail in turn, and
//! they pass whichever it is. A call that is refused memory leaves all as it was, and does what it must when it is made
//! again.
ghost use Rattle.std.specs.Prelude.{◌≡◌, ◌<◌, IfOk, length};

use crate::checks::{expect, expect_all};
use crate::reporter::{Log, has_reported_then};
use crate::states::{RestoreInput, SavedHost, Service, restored};
use crate::steps::{HANDLES, Memory, Sequence, TableStep, counts, first_unmet};
use crate::table::new_log;
use ash_host::{Counter, Event, HostAnswer, NoMemory, Target, Word};
use ash_objects::{Objects, TableFault};
use std::alloc::Global;

static CALLS: Sequence<'static> = Sequence {
    pool: &[11],
    steps: &[
        TableStep::Make(2, Ok(1)),
        TableStep::Make(2, Ok(2)),
        TableStep::Draw(1, 7, Ok(3)),
        TableStep::SetField(1, 0, Word::Object(2)),
        TableStep::SetField(2, 0, Word::Object(3)),
        TableStep::Hold(1),
        TableStep::Touched(&[1, 2, 3], &[]),
        TableStep::Add(3, 1, 8),
        TableStep::Sweep,
        TableStep::Touched(&[3], &[]),
        TableStep::SetField(1, 0, Word::Null),
        TableStep::Sweep,
        TableStep::Touched(&[1], &[2, 3]),
    ],
    events: &[
        Event::Drew(3),
        Event::Called(Target::Object(3), 1),
        Event::Dropped(3),
    ],
    given_up: &[(11, 8)],
    with_the_table: &[(11, 8)],
};

#[test]
fn a_refused_call_changes_nothing(rt: HostRuntime) {
    expect_all(&rt, first_unmet(rt.alloc(), &CALLS, Memory::RefusedOnce));
}

static ARRAYS: Sequence<'static> = Sequence {
    pool: &[11],
    steps: &[
        TableStep::Make(2, Ok(1)),
        TableStep::MakeArray(HANDLES, 3, Ok(2)),
        TableStep::Insert(2, Word::Object(1), Ok(())),
        TableStep::Insert(2, Word::Object(1), Ok(())),
        TableStep::Resize(2, 40, Ok(())),
        TableStep::Insert(2, Word::Object(1), Ok(())),
        TableStep::HasWords(2, 41),
        TableStep::HasCount(1, 3),
        TableStep::Remove(2, Ok(())),
        TableStep::Resize(2, 4, Ok(())),
        TableStep::HasWords(2, 4),
        TableStep::HasCount(1, 1),
        TableStep::MakeArray(HANDLES, 0, Ok(3)),
        TableStep::Resize(3, 1, Ok(())),
        TableStep::Insert(3, Word::Object(2), Ok(())),
        TableStep::Hold(3),
        TableStep::Sweep,
        TableStep::HasCount(2, 1),
        TableStep::Touched(&[1, 2, 3], &[]),
        TableStep::Resize(3, 0, Ok(())),
        TableStep::Sweep,
        TableStep::Touched(&[3], &[1, 2]),
    ],
    events: &[],
    given_up: &[],
    with_the_table: &[(11, 0)],
};

#[test]
fn an_array_refused_memory_stays_as_it_is(rt: HostRuntime) {
    expect_all(&rt, first_unmet(rt.alloc(), &ARRAYS, Memory::RefusedOnce));
}

// A table with one service, which is a counter.
fn new_service(alloc: Global) -> Result<Objects<Counter>, NoMemory>
    ensures services { IfOk result (λ objects. 0 < length objects.services) }
{
    let mut services = Vec::new(alloc);
    services.push(Counter::new())?;
    Ok(Objects::new(alloc, Vec::new(alloc), services))
}

// The same, and once more where memory was refused.
fn retry_service(alloc: Global) -> Result<Objects<Counter>, NoMemory>
    ensures services { IfOk result (λ objects. 0 < length objects.services) }
{
    match new_service(alloc) {
        Ok(objects) => Ok(objects),
        Err(_) => new_service(alloc),
    }
}

fn add_one(objects: &mut Objects<Counter>, events: &mut Vec<Event>) -> Result<i32, NoMemory>
    requires within { 0 < length objects.old.services }
    ensures effect { length objects.new.services ≡ length objects.old.services }
{
    match objects.invoke_service(0, 1, &[Word::Int(1)], events)? {
        HostAnswer::Value(word) => Ok(word.int()),
        _ => Ok(0),
    }
}

// Has a service add one, and once more where memory was refused and no event was appended.
fn add_with_retry(objects: &mut Objects<Counter>, events: &mut Vec<Event>) -> Result<i32, NoMemory>
    requires within { 0 < length objects.old.services }
    ensures effect { length objects.new.services ≡ length objects.old.services }
{
    let many = events.len();
    if let Ok(sum) = add_one(objects, events) {
        return Ok(sum);
    }
    if events.len() > many {
        return Err(NoMemory);
    }
    add_one(objects, events)
}

// A service that was refused memory was not run: it has added once for each call that was answered.
fn check_sums(objects: &mut Objects<Counter>, events: &mut Vec<Event>) -> bool
    requires within { 0 < length objects.old.services }
{
    for sum in 1..10 {
        if add_with_retry(objects, events) != Ok(sum) {
            return false;
        }
    }
    true
}

fn counts_each_call(alloc: Global) -> Result<bool, NoMemory> {
    let mut objects = retry_service(alloc)?;
    let mut events = Vec::new(alloc);
    let is_met = check_sums(&mut objects, &mut events);
    let called = [Event::Called(Target::Service(0), 1); 9];
    Ok(is_met && events.as_slice() == called.as_slice())
}

#[test]
fn a_service_refused_memory_is_not_run(rt: HostRuntime) {
    expect(&rt, counts_each_call(rt.alloc()));
}

// A state over four boxes, of which two are left, and a service.
static INPUT: RestoreInput<'static> = RestoreInput {
    pool: &[11, 21, 12, 22],
    third: SavedHost {
        kind: 1,
        state: &[3, 0, 0, 0],
    },
    fifth: SavedHost {
        kind: 2,
        state: &[5, 0, 0, 0],
    },
    services: &[Service {
        name: 31,
        state: &[8, 0, 0, 0],
    }],
};

fn retry_log(alloc: Global) -> Result<Log, NoMemory> {
    match new_log(alloc, 10) {
        Ok(log) => Ok(log),
        Err(_) => new_log(alloc, 10),
    }
}

// Whether a table from that state has the counts that it must.
fn has_its_counts(alloc: Global, log: &Log) -> Result<bool, NoMemory> {
    match restored(alloc, log, &INPUT)? {
        Ok(objects) => Ok(counts(&objects) == [Some(0), Some(0), Some(2), Some(0)]),
        Err(TableFault::NoMemory) => Err(NoMemory),
        Err(_) => Ok(false),
    }
}

// The same, and once more where memory was refused.
fn restores_with_retry(alloc: Global) -> Result<bool, NoMemory> {
    let log = retry_log(alloc)?;
    match has_its_counts(alloc, &log) {
        Ok(is_met) => Ok(is_met),
        Err(_) => has_its_counts(alloc, &log),
    }
}

#[test]
fn a_state_is_restored_once_there_is_memory(rt: HostRuntime) {
    expect(&rt, restores_with_retry(rt.alloc()));
}

// Whether boxes that were passed in are given up, each once, with the table or where memory was refused.
fn gives_up_boxes(alloc: Global) -> Result<bool, NoMemory> {
    let log = retry_log(alloc)?;
    let Ok(answer) = restored(alloc, &log, &INPUT) else {
        return Ok(true);
    };
    let is_met = matches!(answer, Ok(_) | Err(TableFault::NoMemory));
    drop(answer);
    let boxes = [(11, None), (12, None), (21, None), (22, None), (31, None)];
    Ok(is_met && has_reported_then(&log, 0, &boxes))
}

#[test]
fn boxes_of_a_state_refused_memory_are_given_up(rt: HostRuntime) {
    expect(&rt, gives_up_boxes(rt.alloc()));
}
