//! How long the calls of the object table take, among few objects and among many: `ash_bench objects`.
ghost use Rattle.std.specs.Prelude.{◌≡◌, ◌<◌, ℕ, All, IfOk, IfSome, IsTrue, Some};
ghost use Rattle.ash_objects.specs.Table.{IsAlive, slot_of, held, unheld, holds_of, with_object};
ghost use Rattle.ash_bench.specs.Uses.{HasField, MayBeHeld};

use crate::rates::Timing;
use anyhow::{Result, bail, ensure};
use ash_host::{Counter, Event, Word};
use ash_objects::{MAX_OBJECTS, Objects, Words};
use std::alloc::Global;
use std::io;
use std::time::Instant;

type Table = Objects<Counter>;

/// How many objects live.
const LIVING: [u64; 3] = [4, 400, MAX_OBJECTS as u64];

/// How many calls of one sort a round has, where a call is too short to be timed alone.
const CALLS: u64 = 4096;

/// How many objects a chain has.
const CHAIN: u64 = 4;

fn is_alive(objects: &Table, word: Word) -> bool
    ensures alive { IsTrue result → IsAlive word objects.now }
{
    match word {
        Word::Object(number) => objects.slot(number).is_some(),
        _ => true,
    }
}

/// Makes an object with one field.
fn make(alloc: Global, objects: &mut Table, field: Word) -> Result<u64> {
    ensure!(is_alive(objects, field), "the field's object is not there");
    let mut fields = Vec::new(alloc);
    fields.push(field)?;
    match objects.new_script(0, 0, Words::new(fields)) {
        Ok(number) => Ok(number),
        Err(_) => bail!("no object was made"),
    }
}

fn hold(objects: &mut Table, number: u64) -> Result<()> {
    ensure!(objects.slot(number).is_some(), "the object is not there");
    ensure!(
        objects.count(number) < CALLS.into(),
        "the object is held too often"
    );
    objects.hold(number);
    Ok(())
}

/// The slot of an object that has a field and may be held once more.
fn usable(objects: &Table, number: u64) -> Option<usize>
    ensures field { IfSome result (λ slot. HasField objects.now slot) }
    ensures held { IfSome result (λ slot. MayBeHeld objects.now slot) }
{
    let slot = objects.slot(number)?;
    let body = objects.body(number)?;
    if body.words().len() == 0 || objects.count(number) > u128::from(u64::MAX) {
        return None;
    }
    Some(slot)
}

/// Writes the first field of an object.
fn set_field(objects: &mut Table, number: u64, word: Word) -> Result<()> {
    ensure!(is_alive(objects, word), "the field's object is not there");
    let Some(slot) = usable(objects, number) else {
        bail!("the object is not there")
    };
    objects.set_field_at(slot, 0, word);
    Ok(())
}

/// Makes so many objects, each held once.
fn make_held(alloc: Global, objects: &mut Table, living: u64) -> Result<()> {
    for _ in 0..living {
        let number = make(alloc, objects, Word::Int(1))?;
        hold(objects, number)?;
    }
    Ok(())
}

/// Leaves no object that waits for the sweep, and none that is marked.
fn settle(alloc: Global, objects: &mut Table) -> Result<()> {
    let mut events = Vec::new(alloc);
    objects.sweep(&mut events)?;
    let _ = objects.touched()?;
    Ok(())
}

/// A table with so many objects, each held once, of which none waits for the sweep and none is marked. It is in a box,
/// since it is large.
fn new_table(alloc: Global, living: u64) -> Result<Box<Table>> {
    let mut objects = Box::new(alloc, Objects::new(alloc, Vec::new(alloc), Vec::new(alloc)))?;
    make_held(alloc, &mut objects, living)?;
    settle(alloc, &mut objects)?;
    Ok(objects)
}

/// The slots of the objects, in turn, as many as a round has calls.
fn turns(alloc: Global, objects: &Table, living: u64) -> Result<Vec<usize>>
    ensures fields { IfOk result (λ slots. All (λ slot. HasField objects.now slot) slots.items) }
    ensures held { IfOk result (λ slots. All (λ slot. MayBeHeld objects.now slot) slots.items) }
{
    let mut slots = Vec::new(alloc);
    for call in 0..CALLS {
        let number = call.checked_rem(living).unwrap_or(0).wrapping_add(1);
        let Some(slot) = usable(objects, number) else {
            bail!("the object is not there")
        };
        slots.push(slot)?;
    }
    Ok(slots)
}

/// Reads the first field of the object in each slot, and adds the numbers up.
fn read_each(objects: &Table, slots: &[usize]) -> u64
    requires has_field { All (λ slot. HasField objects.now slot) slots.now }
{
    let mut sum = 0u64;
    for slot in slots {
        if let Word::Int(number) = objects.field_at(*slot, 0) {
            sum = sum.wrapping_add(u64::from(number.cast_unsigned()));
        }
    }
    sum
}

/// Writes a word to the first field of the object in each slot.
fn write_each(objects: &mut Table, slots: &[usize], word: Word)
    requires fields { All (λ slot. HasField objects.old slot) slots.now }
    requires alive { IsAlive word objects.old }
{
    for slot in slots {
        objects.set_field_at(*slot, 0, word);
    }
}

// These two are calls of their own, so that a hold that is undone at once is not left out.
#[inline(never)]
fn hold_at(objects: &mut Table, slot: usize)
    requires may_be_held { MayBeHeld objects.old slot }
    ensures effect { (number : ℕ) → slot_of number objects.old ≡ Some slot
        → objects.new ≡ with_object number held objects.old }
{
    objects.hold_at(slot);
}

#[inline(never)]
fn unhold_at(objects: &mut Table, slot: usize)
    requires within { (number : ℕ) × (slot_of number objects.old ≡ Some slot)
        × (0 < holds_of number objects.old) }
    ensures effect { (number : ℕ) → slot_of number objects.old ≡ Some slot
        → objects.new ≡ with_object number unheld objects.old }
{
    objects.unhold_at(slot);
}

/// Holds the object in each slot once more, and undoes that.
fn hold_each(objects: &mut Table, slots: &[usize])
    requires may_be_held { All (λ slot. MayBeHeld objects.old slot) slots.now }
{
    for slot in slots {
        hold_at(objects, *slot);
        unhold_at(objects, *slot);
    }
}

// A call of its own, so that sweeps in a row are not made one. Whether there was memory for it.
#[inline(never)]
fn sweep(objects: &mut Table, events: &mut Vec<Event>) -> bool {
    objects.sweep(events).is_ok()
}

/// Sweeps as often as a round has calls. Whether there was memory for each.
fn sweep_each(objects: &mut Table, events: &mut Vec<Event>) -> bool {
    let mut is_well = true;
    for _ in 0..CALLS {
        is_well &= sweep(objects, events);
    }
    is_well
}

/// What there is in each time of one call: two readings of the clock.
fn time_nothing(rt: &HostRuntime, rounds: u64) -> Result<Timing> {
    let mut timing = Timing::zero();
    for _ in 0..rounds {
        let start = Instant::now(rt)?;
        timing.add(rt, start)?;
    }
    Ok(timing)
}

fn time_reads(rt: &HostRuntime, objects: &Table, living: u64, rounds: u64) -> Result<Timing> {
    let slots = turns(rt.alloc(), objects, living)?;
    let mut timing = Timing::zero();
    for _ in 0..rounds {
        let start = Instant::now(rt)?;
        let sum = read_each(objects, &slots);
        timing.add(rt, start)?;
        ensure!(sum == CALLS, "a field was not read");
    }
    Ok(timing)
}

fn time_writes(
    rt: &HostRuntime,
    objects: &mut Table,
    living: u64,
    word: Word,
    rounds: u64,
) -> Result<Timing> {
    let mut timing = Timing::zero();
    for _ in 0..rounds {
        let slots = turns(rt.alloc(), objects, living)?;
        ensure!(is_alive(objects, word), "the field's object is not there");
        let start = Instant::now(rt)?;
        write_each(objects, &slots, word);
        timing.add(rt, start)?;
    }
    Ok(timing)
}

fn time_holds(rt: &HostRuntime, objects: &mut Table, living: u64, rounds: u64) -> Result<Timing> {
    let mut timing = Timing::zero();
    for _ in 0..rounds {
        let slots = turns(rt.alloc(), objects, living)?;
        let start = Instant::now(rt)?;
        hold_each(objects, &slots);
        timing.add(rt, start)?;
    }
    Ok(timing)
}

/// Sweeps with nothing to take.
fn time_empty_sweeps(rt: &HostRuntime, objects: &mut Table, rounds: u64) -> Result<Timing> {
    let mut timing = Timing::zero();
    let mut events = Vec::new(rt.alloc());
    for _ in 0..rounds {
        let start = Instant::now(rt)?;
        let is_well = sweep_each(objects, &mut events);
        timing.add(rt, start)?;
        ensure!(is_well, "there was no memory for a sweep");
    }
    Ok(timing)
}

/// Makes a chain that the first field of the first object holds, and has the sweep look at it.
fn make_chain(alloc: Global, objects: &mut Table, events: &mut Vec<Event>) -> Result<()> {
    let mut number = make(alloc, objects, Word::Null)?;
    for _ in 1..CHAIN {
        number = make(alloc, objects, Word::Object(number))?;
    }
    set_field(objects, 1, Word::Object(number))?;
    ensure!(sweep(objects, events), "there was no memory for a sweep");
    Ok(())
}

/// Sweeps of a chain that was let go.
fn time_chains(rt: &HostRuntime, objects: &mut Table, rounds: u64) -> Result<Timing> {
    let mut timing = Timing::zero();
    let mut events = Vec::new(rt.alloc());
    for _ in 0..rounds {
        make_chain(rt.alloc(), objects, &mut events)?;
        set_field(objects, 1, Word::Null)?;
        let start = Instant::now(rt)?;
        let is_well = sweep(objects, &mut events);
        timing.add(rt, start)?;
        ensure!(is_well, "there was no memory for a sweep");
    }
    Ok(timing)
}

/// What changed, after one change.
fn time_touched(rt: &HostRuntime, objects: &mut Table, rounds: u64) -> Result<Timing> {
    let mut timing = Timing::zero();
    let _ = objects.touched()?;
    for _ in 0..rounds {
        set_field(objects, 1, Word::Int(1))?;
        let start = Instant::now(rt)?;
        let touched = objects.touched()?;
        timing.add(rt, start)?;
        ensure!(touched.living.len() == 1, "one object was changed");
    }
    Ok(timing)
}

/// How long the calls of an object take.
#[derive(Clone, Copy)]
struct ObjectTimes {
    reads: Timing,
    writes: Timing,
    handles: Timing,
    holds: Timing,
}

/// How long the calls of the whole table take, and what there is in each time of one call.
#[derive(Clone, Copy)]
struct TableTimes {
    sweeps: Timing,
    nothing: Timing,
    touches: Timing,
}

/// How long each call takes among so many objects, and a sweep beside so many others.
#[derive(Clone, Copy)]
struct Times {
    objects: ObjectTimes,
    table: TableTimes,
    chains: Timing,
}

fn time_object_calls(
    rt: &HostRuntime,
    objects: &mut Table,
    living: u64,
    rounds: u64,
) -> Result<ObjectTimes> {
    let reads = time_reads(rt, objects, living, rounds)?;
    let writes = time_writes(rt, objects, living, Word::Int(1), rounds)?;
    let handles = time_writes(rt, objects, living, Word::Object(1), rounds)?;
    let holds = time_holds(rt, objects, living, rounds)?;
    Ok(ObjectTimes {
        reads,
        writes,
        handles,
        holds,
    })
}

fn time_table_calls(rt: &HostRuntime, objects: &mut Table, rounds: u64) -> Result<TableTimes> {
    let sweeps = time_empty_sweeps(rt, objects, rounds)?;
    let nothing = time_nothing(rt, rounds)?;
    let touches = time_touched(rt, objects, rounds)?;
    Ok(TableTimes {
        sweeps,
        nothing,
        touches,
    })
}

fn time_chains_beside(rt: &HostRuntime, others: u64, rounds: u64) -> Result<Timing> {
    let mut objects = new_table(rt.alloc(), others)?;
    time_chains(rt, &mut objects, rounds)
}

fn measure_table(rt: &HostRuntime, living: u64, rounds: u64) -> Result<(ObjectTimes, TableTimes)> {
    let mut objects = new_table(rt.alloc(), living)?;
    let of_objects = time_object_calls(rt, &mut objects, living, rounds)?;
    let of_table = time_table_calls(rt, &mut objects, rounds)?;
    Ok((of_objects, of_table))
}

fn measure(rt: &HostRuntime, living: u64, others: u64, rounds: u64) -> Result<Times> {
    let (objects, table) = measure_table(rt, living, rounds)?;
    let chains = time_chains_beside(rt, others, rounds)?;
    Ok(Times {
        objects,
        table,
        chains,
    })
}

fn write_time(rt: &HostRuntime, what: &str, timing: Timing, calls: u64) -> Result<()> {
    let tenths = timing.tenths_of_nanoseconds(calls);
    let (whole, tenth) = (tenths / 10, tenths % 10);
    println!(rt; "  {what}: {whole}.{tenth} ns")?;
    Ok(())
}

fn write_object_times(rt: &HostRuntime, times: &ObjectTimes) -> Result<()> {
    write_time(rt, "a field is read", times.reads, CALLS)?;
    write_time(rt, "a number is written to a field", times.writes, CALLS)?;
    write_time(rt, "a handle is written to a field", times.handles, CALLS)?;
    write_time(rt, "a hold and its undoing", times.holds, CALLS)
}

fn write_table_times(rt: &HostRuntime, times: &TableTimes) -> Result<()> {
    write_time(rt, "a sweep with nothing to take", times.sweeps, CALLS)?;
    write_time(rt, "nothing, with the clock", times.nothing, 1)?;
    write_time(
        rt,
        "what changed, after one change, with the clock",
        times.touches,
        1,
    )
}

fn write_times(rt: &HostRuntime, times: &Times) -> Result<()> {
    write_object_times(rt, &times.objects)?;
    write_table_times(rt, &times.table)?;
    write_time(rt, "a sweep of a chain, with the clock", times.chains, 1)
}

/// Makes each call among few objects and among many.
pub fn run(rt: &HostRuntime, rounds: Option<u64>) -> Result<()> {
    for living in LIVING {
        let others = living.min(MAX_OBJECTS as u64 - CHAIN);
        let times = measure(rt, living, others, rounds.unwrap_or(1))?;
        println!(rt; "{living} objects, and {others} beside a chain of {CHAIN}")?;
        if rounds.is_some() {
            write_times(rt, &times)?;
        }
    }
    Ok(())
}
