//! How many instructions the last run did: as many again if it is run again, a fixed number more for each turn of a
//! loop, more with each tick as long as it is aborted, and with more ticks than it takes no more. And the counts of the
//! objects that a run leaves.

use crate::beside::tree_of;
use ash_context::outcome::{Outcome, RunFault};
use ash_host::{Counter, NoMemory, Word};
use ash_machine_fixtures::machine::Machine;
use ash_objects::Objects;
use ash_typed::Module;
use std::alloc::Global;
use std::process::Abort;
use std::test::Fail;

/// Its one function is called with how many turns it takes.
const SCRIPT: &str =
    "int n; int f(int k) { int s = 0; for (int i = 0; i < k; i++) { s += i; n++; } return s; }";

/// As many ticks as the runs need.
const LONG: u64 = 1000;

/// A run of the function: the machine after it, how it ended, and how many instructions it did.
#[derive(Drop)]
struct Counted {
    machine: Machine<Counter>,
    outcome: Result<Outcome, RunFault>,
    steps: u128,
}

fn machine_of(alloc: Global, tree: &Module) -> Result<Machine<Counter>, NoMemory> {
    let table = Objects::new(alloc, Vec::new(alloc), Vec::new(alloc));
    Machine::new(alloc, tree, table)
}

/// Calls the function with a number of turns and so many ticks.
fn count(machine: Machine<Counter>, turns: i32, budget: u64) -> Counted {
    let (machine, outcome) = machine.run(0, &[Word::Int(turns)], budget);
    let steps = machine.steps();
    Counted {
        machine,
        outcome,
        steps,
    }
}

/// How many instructions runs of up to three turns do, one after the other, and then one more of three.
fn counts(alloc: Global, tree: &Module) -> Result<[u128; 5], NoMemory> {
    let none = count(machine_of(alloc, tree)?, 0, LONG);
    let one = count(none.machine, 1, LONG);
    let two = count(one.machine, 2, LONG);
    let three = count(two.machine, 3, LONG);
    let again = count(three.machine, 3, LONG);
    Ok([none.steps, one.steps, two.steps, three.steps, again.steps])
}

fn check_counts(rt: &impl Abort, counts: [u128; 5]) {
    let [none, one, two, three, again] = counts;
    let turn = one.wrapping_sub(none);
    let is_met = none < one && two.wrapping_sub(one) == turn && three.wrapping_sub(two) == turn;
    if !is_met || again != three {
        panic!(rt; "instructions of 0, 1, 2, 3 and 3 turns: {counts:?}");
    }
}

#[test]
fn each_turn_counts_alike(rt: HostRuntime) -> Result<(), Fail> {
    let tree = tree_of(rt.alloc(), SCRIPT)?;
    let before = machine_of(rt.alloc(), &tree)?.steps();
    if before != 0 {
        panic!(rt; "{before} instructions before the first run");
    }
    check_counts(&rt, counts(rt.alloc(), &tree)?);
    Ok(())
}

/// Compares the instructions of a run with those of one with a tick less.
fn check_tick(rt: &impl Abort, budget: u64, before: (bool, u128), after: (bool, u128)) {
    let (was_finished, fewer) = before;
    let (is_finished, more) = after;
    let is_met = if was_finished {
        is_finished && more == fewer
    } else {
        more > fewer
    };
    if !is_met {
        panic!(rt; "{more} instructions with {budget} ticks, {fewer} with one less");
    }
}

/// Runs three turns with each number of ticks below 40, and returns whether the last came to its end.
fn check_ticks(rt: &impl Abort, alloc: Global, tree: &Module) -> Result<bool, NoMemory> {
    let mut machine = machine_of(alloc, tree)?;
    let mut before = (false, 0);
    for budget in 0..40 {
        let ran = count(machine, 3, budget);
        let after = (matches!(ran.outcome, Ok(Outcome::Finished(_))), ran.steps);
        check_tick(rt, budget, before, after);
        machine = ran.machine;
        before = after;
    }
    Ok(before.0)
}

#[test]
fn each_tick_is_more_instructions(rt: HostRuntime) -> Result<(), Fail> {
    let tree = tree_of(rt.alloc(), SCRIPT)?;
    if !check_ticks(&rt, rt.alloc(), &tree)? {
        panic!(rt; "the run came to no end");
    }
    Ok(())
}

/// A global and two fields are handles to the first object. The row of `tests/rows` that begins so has the replies of
/// `object`, with the counts of the table here.
const SHARED: &str =
    "class A { } class B { A@ x; A@ y; } A@ a; B@ b; void f() { @a = A(); @b = B(); @b.x = a; @b.y = a; }";

/// The counts of the first three numbers in the table after a call of the function.
fn counts_of_objects(alloc: Global, tree: &Module) -> Result<[u128; 3], NoMemory> {
    let (machine, _) = machine_of(alloc, tree)?.run(0, &[], LONG);
    let table = &machine.parts().table;
    Ok([table.count(1), table.count(2), table.count(3)])
}

#[test]
fn counts_are_those_of_the_replies(rt: HostRuntime) -> Result<(), Fail> {
    let tree = tree_of(rt.alloc(), SHARED)?;
    let counts = counts_of_objects(rt.alloc(), &tree)?;
    if counts != [3, 1, 0] {
        panic!(rt; "counts of three numbers: {counts:?}");
    }
    Ok(())
}
