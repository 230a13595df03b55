//! What the kinds of host objects answer, through a box and through their own type.

use crate::checks::expect_all;
use Ask::{Get, Invoke, Restore, Set, Start};
use Reply::{Nothing, Null, Number, Raised, Refused, Restored};
use ash_example_kind::Buffer;
use ash_host::{Counter, HostAnswer, HostObject, NoMemory, RestoreFault, Tally, Word};
use std::alloc::Global;

// A call of a host object.
#[derive(Clone, Copy)]
enum Ask {
    Start(&'static [Word]),
    Invoke(u16, &'static [Word]),
    Get(u16),
    Set(u16, Word),
    Restore(&'static [u8]),
}

// What a call comes to.
#[derive(Clone, Copy)]
enum Reply {
    Number(i32),
    Null,
    Nothing,
    Raised(u16),
    Restored,
    Refused,
}

// A call, what it comes to, and the state after it.
type Row = (Ask, Reply, &'static [u8]);

fn is_answer(found: HostAnswer, wanted: Reply) -> bool {
    match (found, wanted) {
        (HostAnswer::Value(Word::Int(found)), Number(wanted)) => found == wanted,
        (HostAnswer::Value(Word::Null), Null) => true,
        (HostAnswer::Nothing, Nothing) => true,
        (HostAnswer::Raise(found), Raised(wanted)) => found == wanted,
        _ => false,
    }
}

fn is_restored(found: Result<(), RestoreFault>, wanted: Reply) -> bool {
    match (found, wanted) {
        (Ok(()), Restored) => true,
        (Err(RestoreFault::Refused), Refused) => true,
        _ => false,
    }
}

// The calls and the constructors are in functions of their own, which promise nothing: so each contract is seen once,
// and not in every test.

fn counter() -> Counter {
    Counter::new()
}

fn tally() -> Tally {
    Tally::new()
}

fn buffer(alloc: Global) -> Buffer {
    Buffer::new(alloc)
}

// Makes a call, and returns whether it comes to what it must.
fn is_met<B: HostObject>(object: &mut B, ask: Ask, wanted: Reply) -> bool {
    match ask {
        Start(args) => is_answer(object.start(args), wanted),
        Invoke(method, args) => is_answer(object.invoke(method, args), wanted),
        Get(prop) => is_answer(HostAnswer::Value(object.get(prop)), wanted),
        Set(prop, word) => {
            object.set(prop, word);
            is_answer(HostAnswer::Nothing, wanted)
        }
        Restore(state) => is_restored(object.restore(state), wanted),
    }
}

// Whether this is the state of an object.
fn is_state<B: HostObject>(alloc: Global, object: &B, wanted: &[u8]) -> Result<bool, NoMemory> {
    let mut state = Vec::new(alloc);
    object.save(&mut state)?;
    Ok(state.as_slice() == wanted)
}

// Makes each call in turn up to the first after which the kind, the answer or the state is not what it must be.
fn first_unmet<B: HostObject>(
    alloc: Global,
    object: &mut B,
    kind: u16,
    rows: &[Row],
) -> Result<Option<usize>, NoMemory> {
    for place in 0..rows.len() {
        let (ask, wanted, state) = rows[place];
        let is_met = is_met(object, ask, wanted) && object.kind() == kind;
        if !is_state(alloc, object, state)? || !is_met {
            return Ok(Some(place));
        }
    }
    Ok(None)
}

static COUNTER: [Row; 17] = [
    (Get(1), Number(0), &[0, 0, 0, 0]),
    (
        Start(&[Word::Int(2147483647)]),
        Nothing,
        &[255, 255, 255, 127],
    ),
    (
        Invoke(1, &[Word::Int(1)]),
        Number(-2147483648),
        &[0, 0, 0, 128],
    ),
    (Get(1), Number(-2147483648), &[0, 0, 0, 128]),
    (
        Invoke(1, &[Word::Int(-1)]),
        Number(2147483647),
        &[255, 255, 255, 127],
    ),
    (
        Invoke(2, &[Word::Int(65545)]),
        Raised(9),
        &[255, 255, 255, 127],
    ),
    (
        Invoke(2, &[Word::Int(-1)]),
        Raised(65535),
        &[255, 255, 255, 127],
    ),
    (Set(1, Word::Int(258)), Nothing, &[2, 1, 0, 0]),
    (Set(2, Word::Int(7)), Nothing, &[2, 1, 0, 0]),
    (Set(1, Word::Uint(7)), Nothing, &[2, 1, 0, 0]),
    (Get(2), Null, &[2, 1, 0, 0]),
    (Invoke(3, &[Word::Int(7)]), Nothing, &[2, 1, 0, 0]),
    (Invoke(1, &[]), Nothing, &[2, 1, 0, 0]),
    (Invoke(1, &[Word::Int64(7)]), Nothing, &[2, 1, 0, 0]),
    (
        Invoke(2, &[Word::Int(7), Word::Int(7)]),
        Nothing,
        &[2, 1, 0, 0],
    ),
    (Start(&[]), Nothing, &[2, 1, 0, 0]),
    (Start(&[Word::Bool(true)]), Nothing, &[2, 1, 0, 0]),
];

static TALLY: [Row; 9] = [
    (Invoke(2, &[]), Number(0), &[0, 0, 0, 0]),
    (
        Invoke(1, &[Word::Int(2147483647)]),
        Number(2147483647),
        &[255, 255, 255, 127],
    ),
    (
        Invoke(1, &[Word::Int(2)]),
        Number(-2147483647),
        &[1, 0, 0, 128],
    ),
    (Invoke(2, &[]), Number(-2147483647), &[1, 0, 0, 128]),
    (Invoke(2, &[Word::Int(1)]), Nothing, &[1, 0, 0, 128]),
    (Invoke(0, &[]), Nothing, &[1, 0, 0, 128]),
    (Start(&[Word::Int(5)]), Nothing, &[1, 0, 0, 128]),
    (Set(1, Word::Int(5)), Nothing, &[1, 0, 0, 128]),
    (Get(1), Null, &[1, 0, 0, 128]),
];

static BUFFER: [Row; 9] = [
    (Invoke(2, &[]), Raised(2), &[]),
    (Invoke(1, &[Word::Int(258)]), Nothing, &[2]),
    (Invoke(1, &[Word::Int(-1)]), Nothing, &[2, 255]),
    (Get(1), Number(2), &[2, 255]),
    (Set(1, Word::Int(0)), Nothing, &[2, 255]),
    (Invoke(2, &[]), Number(255), &[2]),
    (Invoke(3, &[]), Nothing, &[2]),
    (Start(&[Word::Int(1)]), Nothing, &[2]),
    (Start(&[]), Nothing, &[]),
];

#[test]
fn kinds_answer(rt: HostRuntime) {
    expect_all(&rt, first_unmet(rt.alloc(), &mut counter(), 1, &COUNTER));
    expect_all(&rt, first_unmet(rt.alloc(), &mut tally(), 2, &TALLY));
    expect_all(
        &rt,
        first_unmet(rt.alloc(), &mut buffer(rt.alloc()), 3, &BUFFER),
    );
}

static RESTORED: [Row; 2] = [
    (Restore(&[1, 2, 3]), Refused, &[2, 1, 0, 0]),
    (Restore(&[9, 0, 0, 0]), Restored, &[9, 0, 0, 0]),
];

fn first_unmet_of_boxed_counter(alloc: Global) -> Result<Option<usize>, NoMemory> {
    let mut boxed: Box<dyn HostObject> = Box::new(alloc, counter())?;
    match first_unmet(alloc, &mut boxed, 1, &COUNTER)? {
        None => first_unmet(alloc, &mut boxed, 1, &RESTORED),
        unmet => Ok(unmet),
    }
}

#[test]
fn a_boxed_counter_answers_as_a_counter(rt: HostRuntime) {
    expect_all(&rt, first_unmet_of_boxed_counter(rt.alloc()));
}

fn first_unmet_of_boxed_tally(alloc: Global) -> Result<Option<usize>, NoMemory> {
    let mut boxed: Box<dyn HostObject> = Box::new(alloc, tally())?;
    first_unmet(alloc, &mut boxed, 2, &TALLY)
}

#[test]
fn a_boxed_tally_answers_as_a_tally(rt: HostRuntime) {
    expect_all(&rt, first_unmet_of_boxed_tally(rt.alloc()));
}

static COUNTER_RESTORED: [Row; 5] = [
    (Restore(&[]), Refused, &[0, 0, 0, 0]),
    (Restore(&[1, 2, 3]), Refused, &[0, 0, 0, 0]),
    (Restore(&[1, 2, 3, 4, 5]), Refused, &[0, 0, 0, 0]),
    (Restore(&[0, 0, 0, 128]), Restored, &[0, 0, 0, 128]),
    (Get(1), Number(-2147483648), &[0, 0, 0, 128]),
];

static TALLY_RESTORED: [Row; 5] = [
    (Restore(&[]), Refused, &[0, 0, 0, 0]),
    (Restore(&[1, 2, 3]), Refused, &[0, 0, 0, 0]),
    (Restore(&[1, 2, 3, 4, 5]), Refused, &[0, 0, 0, 0]),
    (
        Restore(&[254, 255, 255, 255]),
        Restored,
        &[254, 255, 255, 255],
    ),
    (Invoke(2, &[]), Number(-2), &[254, 255, 255, 255]),
];

#[test]
fn a_state_comes_back(rt: HostRuntime) {
    expect_all(
        &rt,
        first_unmet(rt.alloc(), &mut counter(), 1, &COUNTER_RESTORED),
    );
    expect_all(
        &rt,
        first_unmet(rt.alloc(), &mut tally(), 2, &TALLY_RESTORED),
    );
}

static FILLED: [Row; 3] = [
    (Restore(&[7; 1024]), Restored, &[7; 1024]),
    (Invoke(1, &[Word::Int(1)]), Raised(1), &[7; 1024]),
    (Restore(&[7; 1025]), Refused, &[7; 1024]),
];

#[test]
fn a_full_buffer_raises(rt: HostRuntime) {
    expect_all(
        &rt,
        first_unmet(rt.alloc(), &mut buffer(rt.alloc()), 3, &FILLED),
    );
}
