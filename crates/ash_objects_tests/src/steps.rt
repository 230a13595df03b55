//! What a test does with a table, step by step: the steps are data, so that the calls are proved once and not in each
//! test. Memory is ample, or is refused once: then a step that is refused it leaves all as it was, and does what it
//! must when it is taken again.

use crate::reporter::{Log, has_reported};
use crate::table::{
    Table, count, draw, hold, invoke, is_alive, is_array, make, new_table, set_field, sweep_but,
    words_in,
};
use ash_host::{Event, HostAnswer, NoMemory, Word};
use ash_objects::{ElementTag, IndexOutOfBounds, LengthFault, MakeFault};
use std::alloc::Global;

/// A step, with what it must come to.
#[derive(Clone, Copy)]
pub enum TableStep {
    /// An object of a class with so many fields is made, and gets this number, or is not made.
    Make(usize, Result<u64, MakeFault>),
    /// So many objects of a class without fields are made.
    MakeEach(usize),
    /// An array of so many elements is made, and gets this number, or is not made.
    MakeArray(ElementTag, usize, Result<u64, MakeFault>),
    /// A box of this kind is drawn, and gets this number and is started with this value, or is not drawn.
    Draw(u16, i32, Result<u64, MakeFault>),
    /// A counter adds the first value and returns the second.
    Add(u64, i32, i32),
    /// A counter raises this code.
    Raise(u64, u16),
    /// A word is written to a field of an object.
    SetField(u64, usize, Word),
    /// A word is written to an array at an index.
    SetElement(u64, usize, Word, Result<(), IndexOutOfBounds>),
    /// An array gets so many elements.
    Resize(u64, usize, Result<(), LengthFault>),
    /// An array gets one element more.
    Insert(u64, Word, Result<(), LengthFault>),
    /// An array loses its last element.
    Remove(u64, Result<(), IndexOutOfBounds>),
    /// An object is held once more.
    Hold(u64),
    /// What nothing holds goes.
    Sweep,
    /// What nothing holds goes, while this object is held. It is for ample memory.
    SweepBut(u64),
    /// The first numbers are named as those of objects that were made or changed, the others as of those that went.
    Touched(&'static [u64], &'static [u64]),
    /// An object holds so many words.
    HasWords(u64, usize),
    /// An object is held by so many.
    HasCount(u64, u128),
    /// An array has this number at an index.
    HasNumber(u64, usize, i32),
    /// An array has nothing at an index.
    HasNothing(u64, usize),
    /// An object is in this slot.
    IsIn(u64, usize),
    /// An object is found in this slot, and remembered there.
    Finds(u64, usize),
    /// No object has this number.
    IsGone(u64),
}

/// What the elements of an array of handles are.
pub const HANDLES: ElementTag = ElementTag::Class(0, 0);

/// Whether memory is ample, or one allocation may be refused.
#[derive(Clone, Copy)]
pub enum Memory {
    Ample,
    RefusedOnce,
}

/// Steps over a table, and what they must leave.
pub struct Sequence<'a> {
    /// The names of the free boxes, in order.
    pub pool: &'a [u16],
    pub steps: &'a [TableStep],
    pub events: &'a [Event],
    /// The names and numbers of the counters that were given up, in order.
    pub given_up: &'a [(u16, i32)],
    /// The same, once the table is gone too.
    pub with_the_table: &'a [(u16, i32)],
}

// Whether an object was made or not made as it must be.
fn is_made(
    answer: Result<u64, MakeFault>,
    wanted: Result<u64, MakeFault>,
) -> Result<bool, NoMemory> {
    match answer {
        Err(MakeFault::NoMemory) => Err(NoMemory),
        _ => Ok(answer == wanted),
    }
}

fn make_each(alloc: Global, objects: &mut Table, many: usize) -> bool {
    for _ in 0..many {
        if make(alloc, objects, 0).is_err() {
            return false;
        }
    }
    true
}

fn make_array(objects: &mut Table, element: ElementTag, length: usize) -> Result<u64, MakeFault> {
    objects.new_array(element, length)
}

fn adds(
    objects: &mut Table,
    number: u64,
    by: i32,
    sum: i32,
    events: &mut Vec<Event>,
) -> Result<bool, NoMemory> {
    match invoke(objects, number, 1, by, events)? {
        Some(HostAnswer::Value(Word::Int(found))) => Ok(found == sum),
        _ => Ok(false),
    }
}

fn raises(
    objects: &mut Table,
    number: u64,
    code: u16,
    events: &mut Vec<Event>,
) -> Result<bool, NoMemory> {
    match invoke(objects, number, 2, i32::from(code), events)? {
        Some(HostAnswer::Raise(found)) => Ok(found == code),
        _ => Ok(false),
    }
}

fn is_written(
    objects: &mut Table,
    number: u64,
    index: usize,
    word: Word,
    wanted: Result<(), IndexOutOfBounds>,
) -> bool {
    is_array(objects, number)
        && is_alive(objects, word)
        && objects.set_element(number, index, word) == wanted
}

// Whether an array got its length, or did not, as it must be.
fn has_length(
    answer: Result<(), LengthFault>,
    wanted: Result<(), LengthFault>,
) -> Result<bool, NoMemory> {
    match answer {
        Err(LengthFault::NoMemory) => Err(NoMemory),
        _ => Ok(answer == wanted),
    }
}

fn resizes(
    objects: &mut Table,
    number: u64,
    length: usize,
    wanted: Result<(), LengthFault>,
) -> Result<bool, NoMemory> {
    if !is_array(objects, number) {
        return Ok(false);
    }
    has_length(objects.resize(number, length), wanted)
}

fn inserts(
    objects: &mut Table,
    number: u64,
    word: Word,
    wanted: Result<(), LengthFault>,
) -> Result<bool, NoMemory> {
    if !is_array(objects, number) || !is_alive(objects, word) {
        return Ok(false);
    }
    has_length(objects.insert_last(number, word), wanted)
}

fn removes(objects: &mut Table, number: u64, wanted: Result<(), IndexOutOfBounds>) -> bool {
    is_array(objects, number) && objects.remove_last(number) == wanted
}

fn sweeps(objects: &mut Table, events: &mut Vec<Event>) -> Result<bool, NoMemory> {
    objects.sweep(events)?;
    Ok(true)
}

fn touches(objects: &mut Table, living: &[u64], gone: &[u64]) -> Result<bool, NoMemory> {
    let touched = objects.touched()?;
    Ok(touched.living.as_slice() == living && touched.gone.as_slice() == gone)
}

// What an array has at an index.
fn element(objects: &Table, number: u64, index: usize) -> Option<Word> {
    if is_array(objects, number) {
        objects.element(number, index)
    } else {
        Some(Word::Null)
    }
}

// Takes a step that changes the table, and returns whether it came to what it must; else looks at the table.
fn take(
    alloc: Global,
    objects: &mut Table,
    step: TableStep,
    events: &mut Vec<Event>,
) -> Result<bool, NoMemory> {
    match step {
        TableStep::Make(fields, wanted) => is_made(make(alloc, objects, fields), wanted),
        TableStep::MakeEach(many) => Ok(make_each(alloc, objects, many)),
        TableStep::MakeArray(element, length, wanted) => {
            is_made(make_array(objects, element, length), wanted)
        }
        TableStep::Draw(kind, start, wanted) => is_made(draw(objects, kind, start, events), wanted),
        TableStep::Add(number, by, sum) => adds(objects, number, by, sum, events),
        TableStep::Raise(number, code) => raises(objects, number, code, events),
        TableStep::SetField(number, place, word) => Ok(set_field(objects, number, place, word)),
        TableStep::SetElement(number, index, word, wanted) => {
            Ok(is_written(objects, number, index, word, wanted))
        }
        TableStep::Resize(number, length, wanted) => resizes(objects, number, length, wanted),
        TableStep::Insert(number, word, wanted) => inserts(objects, number, word, wanted),
        TableStep::Remove(number, wanted) => Ok(removes(objects, number, wanted)),
        TableStep::Hold(number) => Ok(hold(objects, number)),
        TableStep::Finds(number, slot) => Ok(objects.find(number) == Some(slot)),
        TableStep::Sweep => sweeps(objects, events),
        TableStep::SweepBut(number) => sweep_but(objects, number, events),
        TableStep::Touched(living, gone) => touches(objects, living, gone),
        _ => Ok(shows(objects, step)),
    }
}

// Whether a table is as a step that only looks at it says.
fn shows(objects: &Table, step: TableStep) -> bool {
    match step {
        TableStep::HasWords(number, many) => words_in(objects, number) == many,
        TableStep::HasCount(number, many) => count(objects, number) == Some(many),
        TableStep::HasNumber(number, index, wanted) => {
            matches!(element(objects, number, index), Some(Word::Int(found)) if found == wanted)
        }
        TableStep::HasNothing(number, index) => element(objects, number, index).is_none(),
        TableStep::IsIn(number, slot) => objects.slot(number) == Some(slot),
        TableStep::IsGone(number) => objects.slot(number).is_none(),
        _ => false,
    }
}

/// The counts of the objects with the numbers from 1 to 4.
pub fn counts(objects: &Table) -> [Option<u128>; 4] {
    [
        count(objects, 1),
        count(objects, 2),
        count(objects, 3),
        count(objects, 4),
    ]
}

// How many words the objects with the numbers from 1 to 4 hold.
fn words(objects: &Table) -> [usize; 4] {
    [
        words_in(objects, 1),
        words_in(objects, 2),
        words_in(objects, 3),
        words_in(objects, 4),
    ]
}

// Takes a step, and once more where memory was refused and all was left as it was.
fn take_with_retry(
    alloc: Global,
    objects: &mut Table,
    step: TableStep,
    events: &mut Vec<Event>,
) -> bool {
    let before = (counts(objects), words(objects), events.len());
    if let Ok(is_met) = take(alloc, objects, step, events) {
        return is_met;
    }
    let after = (counts(objects), words(objects), events.len());
    before == after && take(alloc, objects, step, events) == Ok(true)
}

fn take_with(
    alloc: Global,
    objects: &mut Table,
    step: TableStep,
    events: &mut Vec<Event>,
    memory: Memory,
) -> Result<bool, NoMemory> {
    match memory {
        Memory::Ample => take(alloc, objects, step, events),
        Memory::RefusedOnce => Ok(take_with_retry(alloc, objects, step, events)),
    }
}

// Takes the steps in order up to the first that does not come to what it must.
fn first_unmet_step(
    alloc: Global,
    objects: &mut Table,
    steps: &[TableStep],
    events: &mut Vec<Event>,
    memory: Memory,
) -> Result<Option<usize>, NoMemory> {
    for place in 0..steps.len() {
        if !take_with(alloc, objects, steps[place], events, memory)? {
            return Ok(Some(place));
        }
    }
    Ok(None)
}

fn new_table_with(alloc: Global, pool: &[u16], memory: Memory) -> Result<(Table, Log), NoMemory> {
    match memory {
        Memory::Ample => new_table(alloc, pool),
        Memory::RefusedOnce => match new_table(alloc, pool) {
            Ok(table) => Ok(table),
            Err(_) => new_table(alloc, pool),
        },
    }
}

// Whether the counters that must be were given up; then the table goes, and with it those that must.
fn gives_up(objects: Table, log: &Log, sequence: &Sequence<'_>) -> bool {
    let is_met = has_reported(log, sequence.given_up);
    drop(objects);
    is_met && has_reported(log, sequence.with_the_table)
}

// Takes the steps in order over a table, and looks at what they leave.
fn first_unmet_with(
    alloc: Global,
    mut objects: Table,
    log: &Log,
    sequence: &Sequence<'_>,
    memory: Memory,
) -> Result<Option<usize>, NoMemory> {
    let mut events = Vec::new(alloc);
    let steps = sequence.steps;
    let unmet = first_unmet_step(alloc, &mut objects, steps, &mut events, memory)?;
    let leaves_events = events.as_slice() == sequence.events;
    if unmet.is_none() && !(gives_up(objects, log, sequence) && leaves_events) {
        return Ok(Some(steps.len()));
    }
    Ok(unmet)
}

/// The same over this table, with ample memory.
pub fn first_unmet_of(
    alloc: Global,
    objects: Table,
    log: &Log,
    sequence: &Sequence<'_>,
) -> Result<Option<usize>, NoMemory> {
    first_unmet_with(alloc, objects, log, sequence, Memory::Ample)
}

/// Takes the steps in order, and looks at what each comes to and at what they leave. The place of the first step that
/// does not come to what it must, and the one after the last step where what they leave is not what it must be.
pub fn first_unmet(
    alloc: Global,
    sequence: &Sequence<'_>,
    memory: Memory,
) -> Result<Option<usize>, NoMemory> {
    let (objects, log) = new_table_with(alloc, sequence.pool, memory)?;
    first_unmet_with(alloc, objects, &log, sequence, memory)
}
