//! Each call that takes a slot, beside the one that takes the number of the object in it, over two tables that are made
//! alike: both come to what a row says, and leave the tables alike.
ghost use Rattle.std.specs.Prelude.{IfSome, IsSome};
ghost use Rattle.ash_objects.specs.Table.{field_of, IsInUse, HasFieldIn};
ghost use Rattle.ash_objects.specs.Arrays.{array_at, elements_at, HasElementsIn, IsArrayOfTable};
ghost use Rattle.ash_objects.specs.Responses.{box_at, IsHostOfTable};

use crate::checks::expect_all;
use crate::steps::HANDLES;
use crate::table::{
    Table, count, draw, has_field, is_alive, is_array, is_host, lives, make, new_table, words_in,
};
use ash_host::{Event, HostAnswer, NoMemory, Target, Word};
use ash_objects::{IndexOutOfBounds, LengthFault, MAX_ELEMENTS};
use std::alloc::Global;

/// By what a call finds its object.
#[derive(Clone, Copy)]
enum By {
    Number,
    Slot,
}

/// A call of an object.
#[derive(Clone, Copy)]
enum Call {
    /// It is held once more.
    Hold,
    /// The same, and that is undone.
    HoldAndUnhold,
    Field(usize),
    /// The same, at a place that it may not have.
    Word(usize),
    SetField(usize, Word),
    Property(u16),
    SetProperty(u16, Word),
    Invoke(u16, i32),
    Length,
    Element(usize),
    SetElement(usize, Word),
    Resize(usize),
    Insert(Word),
    Remove,
}

/// What a call comes to.
#[derive(Clone, Copy, PartialEq, Eq)]
enum Found {
    Done,
    Number(i32),
    Null,
    Handle(u64),
    Length(usize),
    Raised(u16),
    /// There is no element, or it is not that of an array.
    Nothing,
    TooLong,
    NoMemory,
    /// The object is not one that has such a call.
    NotAsked,
}

/// The number of an object, a call of it, and what the call comes to.
type Row = (u64, Call, Found);

fn found_word(word: Word) -> Found {
    match word {
        Word::Int(number) => Found::Number(number),
        Word::Object(number) => Found::Handle(number),
        Word::Null => Found::Null,
        _ => Found::Nothing,
    }
}

fn found_element(word: Option<Word>) -> Found {
    match word {
        Some(word) => found_word(word),
        None => Found::Nothing,
    }
}

fn found_answer(answer: Result<HostAnswer, NoMemory>) -> Found {
    match answer {
        Ok(HostAnswer::Value(word)) => found_word(word),
        Ok(HostAnswer::Nothing) => Found::Done,
        Ok(HostAnswer::Raise(code)) => Found::Raised(code),
        Ok(HostAnswer::NoMemory) | Err(_) => Found::NoMemory,
    }
}

fn found_length(length: Result<(), LengthFault>) -> Found {
    match length {
        Ok(()) => Found::Done,
        Err(LengthFault::TooLong) => Found::TooLong,
        Err(LengthFault::NoMemory) => Found::NoMemory,
    }
}

fn found_write(written: Result<(), IndexOutOfBounds>) -> Found {
    match written {
        Ok(()) => Found::Done,
        Err(_) => Found::Nothing,
    }
}

// The slot of an object that lives, which is that of its number.
fn slot_in_use(objects: &mut Table, number: u64) -> Option<usize>
    ensures used { IfSome result (λ slot. IsInUse slot objects.new) }
{
    let slot = objects.slot(number)?;
    if objects.find(number) == Some(slot) && objects.number(slot) == number {
        Some(slot)
    } else {
        None
    }
}

// The slot of an object that has a word at a place.
fn slot_with_field(objects: &Table, number: u64, place: usize) -> Option<usize>
    ensures there { IfSome result (λ slot. HasFieldIn slot place objects.now) }
    ensures field { IfSome result (λ slot. IsSome (field_of number place objects.now)) }
{
    if has_field(objects, number, place) {
        objects.slot(number)
    } else {
        None
    }
}

// The slot of a host object.
fn slot_of_host(objects: &Table, number: u64) -> Option<usize>
    ensures host { IfSome result (λ slot. IsHostOfTable slot objects.now) }
    ensures found { IfSome result (λ slot. IsSome (box_at number objects.now)) }
{
    if is_host(objects, number) {
        objects.slot(number)
    } else {
        None
    }
}

// The slot of an array.
fn slot_of_array(objects: &Table, number: u64) -> Option<usize>
    ensures array { IfSome result (λ slot. IsArrayOfTable slot objects.now) }
    ensures elements { IfSome result (λ slot. HasElementsIn slot objects.now) }
    ensures found { IfSome result (λ slot. IsSome (array_at number objects.now)) }
    ensures has { IfSome result (λ slot. IsSome (elements_at number objects.now)) }
{
    if is_array(objects, number) {
        objects.slot(number)
    } else {
        None
    }
}

fn hold(objects: &mut Table, by: By, number: u64) -> Found {
    if !lives(objects, number) || objects.count(number) > 4096 {
        return Found::NotAsked;
    }
    match (by, objects.slot(number)) {
        (By::Slot, Some(slot)) => objects.hold_at(slot),
        _ => objects.hold(number),
    }
    Found::Done
}

// Holds an object and undoes it.
fn hold_and_unhold(objects: &mut Table, number: u64) -> Found {
    if !lives(objects, number) {
        return Found::NotAsked;
    }
    if objects.count(number) > 4096 {
        return Found::NotAsked;
    }
    objects.hold(number);
    objects.unhold(number);
    Found::Done
}

// The same by its slot.
fn hold_and_unhold_at(objects: &mut Table, number: u64) -> Found {
    let Some(slot) = objects.slot(number) else {
        return Found::NotAsked;
    };
    if objects.count(number) > 4096 {
        return Found::NotAsked;
    }
    objects.hold_at(slot);
    objects.unhold_at(slot);
    Found::Done
}

fn field(objects: &Table, by: By, number: u64, place: usize) -> Found {
    let Some(slot) = slot_with_field(objects, number, place) else {
        return Found::NotAsked;
    };
    found_word(match by {
        By::Number => objects.field(number, place),
        By::Slot => objects.field_at(slot, place),
    })
}

fn word_at(objects: &mut Table, by: By, number: u64, place: usize) -> Found {
    let Some(slot) = slot_in_use(objects, number) else {
        return Found::NotAsked;
    };
    let word = match (by, objects.body(number)) {
        (By::Slot, _) => objects.word_at(slot, place),
        (By::Number, Some(body)) => body.words().get(place).copied(),
        (By::Number, None) => None,
    };
    found_element(word)
}

fn set_field(objects: &mut Table, by: By, number: u64, place: usize, word: Word) -> Found {
    let Some(slot) = slot_with_field(objects, number, place) else {
        return Found::NotAsked;
    };
    if !is_alive(objects, word) {
        return Found::NotAsked;
    }
    match by {
        By::Number => objects.set_field(number, place, word),
        By::Slot => objects.set_field_at(slot, place, word),
    }
    Found::Done
}

fn property(objects: &Table, by: By, number: u64, property: u16) -> Found {
    let Some(slot) = slot_of_host(objects, number) else {
        return Found::NotAsked;
    };
    found_word(match by {
        By::Number => objects.get_prop(number, property),
        By::Slot => objects.get_prop_at(slot, property),
    })
}

fn set_property(objects: &mut Table, by: By, number: u64, property: u16, word: Word) -> Found {
    let Some(slot) = slot_of_host(objects, number) else {
        return Found::NotAsked;
    };
    match by {
        By::Number => objects.set_prop(number, property, word),
        By::Slot => objects.set_prop_at(slot, property, word),
    }
    Found::Done
}

fn invoke(
    objects: &mut Table,
    by: By,
    number: u64,
    method: u16,
    argument: i32,
    events: &mut Vec<Event>,
) -> Found {
    let Some(slot) = slot_of_host(objects, number) else {
        return Found::NotAsked;
    };
    let args = [Word::Int(argument)];
    found_answer(match by {
        By::Number => objects.invoke(number, method, &args, events),
        By::Slot => objects.invoke_at(slot, method, &args, events),
    })
}

fn length(objects: &Table, by: By, number: u64) -> Found {
    let Some(slot) = slot_of_array(objects, number) else {
        return Found::NotAsked;
    };
    Found::Length(match by {
        By::Number => objects.length(number),
        By::Slot => objects.length_at(slot),
    })
}

fn element(objects: &Table, by: By, number: u64, index: usize) -> Found {
    let Some(slot) = slot_of_array(objects, number) else {
        return Found::NotAsked;
    };
    found_element(match by {
        By::Number => objects.element(number, index),
        By::Slot => objects.element_at(slot, index),
    })
}

fn set_element(objects: &mut Table, by: By, number: u64, index: usize, word: Word) -> Found {
    let Some(slot) = slot_of_array(objects, number) else {
        return Found::NotAsked;
    };
    if !is_alive(objects, word) {
        return Found::NotAsked;
    }
    found_write(match by {
        By::Number => objects.set_element(number, index, word),
        By::Slot => objects.set_element_at(slot, index, word),
    })
}

fn resize(objects: &mut Table, by: By, number: u64, length: usize) -> Found {
    let Some(slot) = slot_of_array(objects, number) else {
        return Found::NotAsked;
    };
    found_length(match by {
        By::Number => objects.resize(number, length),
        By::Slot => objects.resize_at(slot, length),
    })
}

fn insert(objects: &mut Table, by: By, number: u64, word: Word) -> Found {
    let Some(slot) = slot_of_array(objects, number) else {
        return Found::NotAsked;
    };
    if !is_alive(objects, word) {
        return Found::NotAsked;
    }
    found_length(match by {
        By::Number => objects.insert_last(number, word),
        By::Slot => objects.insert_last_at(slot, word),
    })
}

fn remove(objects: &mut Table, by: By, number: u64) -> Found {
    let Some(slot) = slot_of_array(objects, number) else {
        return Found::NotAsked;
    };
    found_write(match by {
        By::Number => objects.remove_last(number),
        By::Slot => objects.remove_last_at(slot),
    })
}

/// A table whose calls name objects in one way, and its events.
#[derive(Drop)]
struct Side {
    by: By,
    objects: Table,
    events: Vec<Event>,
}

// Makes a call of the object of a number.
fn make_call(side: &mut Side, number: u64, call: Call) -> Found {
    let Side {
        by,
        objects,
        events,
    } = side;
    let by = *by;
    match call {
        Call::Hold => hold(objects, by, number),
        Call::HoldAndUnhold => match by {
            By::Number => hold_and_unhold(objects, number),
            By::Slot => hold_and_unhold_at(objects, number),
        },
        Call::Field(place) => field(objects, by, number, place),
        Call::Word(place) => word_at(objects, by, number, place),
        Call::SetField(place, word) => set_field(objects, by, number, place, word),
        Call::Property(of) => property(objects, by, number, of),
        Call::SetProperty(of, word) => set_property(objects, by, number, of, word),
        Call::Invoke(method, argument) => invoke(objects, by, number, method, argument, events),
        Call::Length => length(objects, by, number),
        Call::Element(index) => element(objects, by, number, index),
        Call::SetElement(index, word) => set_element(objects, by, number, index, word),
        Call::Resize(length) => resize(objects, by, number, length),
        Call::Insert(word) => insert(objects, by, number, word),
        Call::Remove => remove(objects, by, number),
    }
}

// An object with two fields, a counter that begins with 5, and an empty array of handles.
fn new_side(alloc: Global, by: By) -> Result<Option<Side>, NoMemory> {
    let (mut objects, _) = new_table(alloc, &[11])?;
    let mut events = Vec::new(alloc);
    let one = make(alloc, &mut objects, 2);
    let two = draw(&mut objects, 1, 5, &mut events);
    let three = objects.new_array(HANDLES, 0);
    let is_made = one == Ok(1) && two == Ok(2) && three == Ok(3);
    let side = Side {
        by,
        objects,
        events,
    };
    Ok(if is_made { Some(side) } else { None })
}

// Whether two tables have the same objects at these numbers, by their counts and how many words they hold.
fn are_alike(one: &Table, other: &Table) -> bool {
    (1..=4).all(|number| {
        count(one, number) == count(other, number)
            && words_in(one, number) == words_in(other, number)
    })
}

// Whether both calls come to what the row says, and leave the tables alike.
fn is_met(by_number: &mut Side, by_slot: &mut Side, row: Row) -> bool {
    let (number, call, wanted) = row;
    let found = make_call(by_number, number, call);
    let other = make_call(by_slot, number, call);
    found == wanted && other == wanted && are_alike(&by_number.objects, &by_slot.objects)
}

// Whether both have the same events, and name the same changes.
fn ends_alike(mut by_number: Side, mut by_slot: Side, events: &[Event]) -> Result<bool, NoMemory> {
    let one = by_number.objects.touched()?;
    let other = by_slot.objects.touched()?;
    let are_named = one.living == other.living && one.gone == other.gone;
    let are_events = by_number.events.as_slice() == events && by_slot.events.as_slice() == events;
    Ok(are_named && are_events)
}

// The place of the first row that is not met, and the one after the last if the tables do not end alike.
fn first_unmet(alloc: Global, rows: &[Row], events: &[Event]) -> Result<Option<usize>, NoMemory> {
    let (Some(mut by_number), Some(mut by_slot)) = (
        new_side(alloc, By::Number)?,
        new_side(alloc, By::Slot)?,
    ) else {
        return Ok(Some(0));
    };
    for place in 0..rows.len() {
        if !is_met(&mut by_number, &mut by_slot, rows[place]) {
            return Ok(Some(place));
        }
    }
    Ok(if ends_alike(by_number, by_slot, events)? {
        None
    } else {
        Some(rows.len())
    })
}

const ONE: Word = Word::Object(1);

const TWO: Word = Word::Object(2);

static OBJECTS: [Row; 16] = [
    (1, Call::Hold, Found::Done),
    (1, Call::HoldAndUnhold, Found::Done),
    (2, Call::HoldAndUnhold, Found::Done),
    (4, Call::Hold, Found::NotAsked),
    (1, Call::Field(1), Found::Null),
    (1, Call::SetField(0, TWO), Found::Done),
    (1, Call::Field(0), Found::Handle(2)),
    (1, Call::Word(0), Found::Handle(2)),
    (1, Call::Word(2), Found::Nothing),
    (1, Call::SetField(0, Word::Int(-7)), Found::Done),
    (1, Call::Field(0), Found::Number(-7)),
    (1, Call::SetField(1, ONE), Found::Done),
    (1, Call::Field(2), Found::NotAsked),
    (2, Call::Word(0), Found::Nothing),
    (2, Call::Field(0), Found::NotAsked),
    (1, Call::HoldAndUnhold, Found::Done),
];

#[test]
fn objects_by_slot(rt: HostRuntime) {
    expect_all(&rt, first_unmet(rt.alloc(), &OBJECTS, &[Event::Drew(2)]));
}

static HOSTS: [Row; 9] = [
    (2, Call::Property(1), Found::Number(5)),
    (2, Call::Property(2), Found::Null),
    (2, Call::SetProperty(1, Word::Int(8)), Found::Done),
    (2, Call::Property(1), Found::Number(8)),
    (2, Call::Invoke(1, 4), Found::Number(12)),
    (2, Call::Invoke(2, 9), Found::Raised(9)),
    (2, Call::Invoke(3, 9), Found::Done),
    (2, Call::Property(1), Found::Number(12)),
    (1, Call::Property(1), Found::NotAsked),
];

#[test]
fn host_objects_by_slot(rt: HostRuntime) {
    let events = [
        Event::Drew(2),
        Event::Called(Target::Object(2), 1),
        Event::Called(Target::Object(2), 2),
        Event::Called(Target::Object(2), 3),
    ];
    expect_all(&rt, first_unmet(rt.alloc(), &HOSTS, &events));
}

static ARRAYS: [Row; 22] = [
    (3, Call::Length, Found::Length(0)),
    (3, Call::Remove, Found::Nothing),
    (3, Call::Element(0), Found::Nothing),
    (3, Call::SetElement(0, ONE), Found::Nothing),
    (3, Call::Insert(ONE), Found::Done),
    (3, Call::Insert(TWO), Found::Done),
    (3, Call::Element(1), Found::Handle(2)),
    (3, Call::SetElement(0, TWO), Found::Done),
    (3, Call::Element(0), Found::Handle(2)),
    (3, Call::SetElement(2, ONE), Found::Nothing),
    (3, Call::Insert(Word::Object(4)), Found::NotAsked),
    (3, Call::Resize(4), Found::Done),
    (3, Call::Element(3), Found::Null),
    (3, Call::Length, Found::Length(4)),
    (3, Call::Resize(MAX_ELEMENTS + 1), Found::TooLong),
    (3, Call::Resize(MAX_ELEMENTS), Found::Done),
    (3, Call::Insert(ONE), Found::TooLong),
    (3, Call::Remove, Found::Done),
    (3, Call::Length, Found::Length(4095)),
    (3, Call::Resize(1), Found::Done),
    (3, Call::Element(0), Found::Handle(2)),
    (1, Call::Length, Found::NotAsked),
];

#[test]
fn arrays_by_slot(rt: HostRuntime) {
    expect_all(&rt, first_unmet(rt.alloc(), &ARRAYS, &[Event::Drew(2)]));
}
