//! A table of counters that report, and its calls, each made only where a test finds that it may be.
ghost use Rattle.std.specs.Prelude.{IsTrue, IsSome};
ghost use Rattle.ash_host.specs.Objects.{Lives};
ghost use Rattle.ash_objects.specs.Table.{IsAlive, field_of};
ghost use Rattle.ash_objects.specs.Arrays.{array_at, elements_at};
ghost use Rattle.ash_objects.specs.Responses.{box_at};

use crate::reporter::{Log, Reporter};
use ash_host::{Counter, Event, HostAnswer, NoMemory, Word};
use ash_objects::{Body, MakeFault, Objects, Words};
use std::alloc::Global;
use std::cell::RefCell;
use std::rc::Rc;

/// A table whose boxes report what becomes of them.
pub type Table = Objects<Reporter>;

/// A log that counters report to, with room for so many of them.
pub fn new_log(alloc: Global, many: usize) -> Result<Log, NoMemory> {
    let mut names = Vec::new(alloc);
    names.reserve(many)?;
    Ok(Rc::new(alloc, RefCell::new(names))?)
}

/// The box of a name, whose first digit is its kind.
pub fn new_box(log: &Log, name: u16) -> Result<Reporter, NoMemory> {
    let log = log.clone()?;
    Ok(Reporter {
        name,
        kind: name / 10,
        counter: Counter::new(),
        log,
    })
}

/// Boxes with these names, in order.
pub fn new_boxes(alloc: Global, log: &Log, names: &[u16]) -> Result<Vec<Reporter>, NoMemory> {
    let mut boxes = Vec::new(alloc);
    for name in names {
        boxes.push(new_box(log, *name)?)?;
    }
    Ok(boxes)
}

/// A table with free boxes of these names, and what they report to.
pub fn new_table(alloc: Global, pool: &[u16]) -> Result<(Table, Log), NoMemory> {
    let log = new_log(alloc, pool.len())?;
    let pool = new_boxes(alloc, &log, pool)?;
    Ok((Objects::new(alloc, pool, Vec::new(alloc)), log))
}

/// Whether an object of this number lives.
pub fn lives(objects: &Table, number: u64) -> bool
    ensures lives { IsTrue result → Lives objects.now.objects number }
{
    objects.slot(number).is_some()
}

/// Whether the object that a word is a handle to lives, if it is one.
pub fn is_alive(objects: &Table, word: Word) -> bool
    ensures alive { IsTrue result → IsAlive word objects.now }
{
    match word {
        Word::Object(number) => lives(objects, number),
        _ => true,
    }
}

/// Whether an object that lives has a word at this place.
pub fn has_field(objects: &Table, number: u64, place: usize) -> bool
    ensures there { IsTrue result → IsSome (field_of number place objects.now) }
{
    match objects.body(number) {
        Some(body) => place < body.words().len(),
        None => false,
    }
}

/// Whether it is a host object that lives.
pub fn is_host(objects: &Table, number: u64) -> bool
    ensures there { IsTrue result → IsSome (box_at number objects.now) }
{
    match objects.body(number) {
        Some(body) => body.is_host(),
        None => false,
    }
}

/// Whether it is an array that lives.
pub fn is_array(objects: &Table, number: u64) -> bool
    ensures array { IsTrue result → IsSome (array_at number objects.now) }
    ensures elements { IsTrue result → IsSome (elements_at number objects.now) }
{
    matches!(objects.body(number), Some(Body::Array(_)))
}

/// The count of an object. `None` where it does not live.
pub fn count(objects: &Table, number: u64) -> Option<u128> {
    if lives(objects, number) {
        Some(objects.count(number))
    } else {
        None
    }
}

/// How many words an object holds.
pub fn words_in(objects: &Table, number: u64) -> usize {
    match objects.body(number) {
        Some(body) => body.words().len(),
        None => 0,
    }
}

/// Makes an object of a script's class with so many fields, each null.
pub fn make(alloc: Global, objects: &mut Table, fields: usize) -> Result<u64, MakeFault> {
    if fields > 32 {
        return Err(MakeFault::ArrayLimit);
    }
    let mut words = Vec::new(alloc);
    if words.resize(fields, Word::Null).is_err() {
        return Err(MakeFault::NoMemory);
    }
    objects.new_script(0, 0, Words::new(words))
}

/// Draws a box of a kind and starts it with a number.
pub fn draw(
    objects: &mut Table,
    kind: u16,
    start: i32,
    events: &mut Vec<Event>,
) -> Result<u64, MakeFault> {
    let number = objects.draw(kind, events)?;
    if !is_host(objects, number) {
        return Err(MakeFault::PoolEmpty);
    }
    objects.start(number, &[Word::Int(start)]);
    Ok(number)
}

/// Runs a method at one number. `None` where there is no such host object.
pub fn invoke(
    objects: &mut Table,
    number: u64,
    method: u16,
    argument: i32,
    events: &mut Vec<Event>,
) -> Result<Option<HostAnswer>, NoMemory> {
    if !is_host(objects, number) {
        return Ok(None);
    }
    let answer = objects.invoke(number, method, &[Word::Int(argument)], events)?;
    Ok(Some(answer))
}

/// Writes a field, and returns whether it is there and what is written lives.
pub fn set_field(objects: &mut Table, number: u64, place: usize, word: Word) -> bool {
    if !has_field(objects, number, place) || !is_alive(objects, word) {
        return false;
    }
    objects.set_field(number, place, word);
    true
}

/// Holds an object once more, and returns whether it lives and was not held too often.
pub fn hold(objects: &mut Table, number: u64) -> bool {
    if !lives(objects, number) || objects.count(number) > 4096 {
        return false;
    }
    objects.hold(number);
    true
}

/// Sweeps while an object is held, and returns whether it lives and was not held too often. It stays held where memory
/// is refused.
pub fn sweep_but(
    objects: &mut Table,
    number: u64,
    events: &mut Vec<Event>,
) -> Result<bool, NoMemory> {
    if !lives(objects, number) {
        return Ok(false);
    }
    if objects.count(number) > 4096 {
        return Ok(false);
    }
    objects.hold(number);
    objects.sweep(events)?;
    objects.unhold(number);
    Ok(true)
}
