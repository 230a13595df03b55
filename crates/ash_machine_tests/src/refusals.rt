//! Memory that is refused once: each allocation of this test may fail, and it passes whichever it is. A run that had no
//! memory to begin leaves what it found, and is run again; one that had none while it ran is of no use, and all is
//! begun anew.

use crate::checks::check_text;
use ash_context::outcome::RunFault;
use ash_host::HostObject;
use ash_machine_fixtures::boxes::{Pool, boxes_of, services_of};
use ash_machine_fixtures::machine::{Machine, Ran};
use ash_machine_fixtures::noted::new_log;
use ash_machine_fixtures::registered::registry;
use ash_machine_fixtures::texts::machine_text;
use ash_objects::Objects;
use ash_sources::sources::Sources;
use ash_typed::Module;
use std::alloc::Global;
use std::test::Fail;

const SOURCE: &str =
    "class B { Counter@ c; int k = 3; B(int j) { k += j; } int m(int a) { return a + k; } }
array<B@> l; Counter g(7); int n = 2;
int f() { for (int i = 0; i < 5; i++) l.insertLast(B(i)); Counter c(4); @l[1].c = c; @l[3].c = Counter(5);
n = l[4].m(c.add(tally(g.value))); l.resize(2); return n / (n - 18); }";

const LEFT: &str =
    "exception DivideByZero f 4 | Drew 8; Drew 9; Called service 0 1; Called 8 1; Dropped 9;  \
| gone | globals object 1 object 2 18 handle handle int | objects; 1 count 1 array class 0 object 3 object 4 \
handle handle; 2 count 1 host 1 07000000; 3 count 1 class 0 null 3 handle int; 4 count 1 class 0 object 8 4 \
handle int; 8 count 1 host 1 0b000000 | services 07000000";

const POOL: Pool = Pool {
    counters: 3,
    buffers: 0,
    odds: 0,
};

/// Runs the initializers; again if there was no memory to begin.
fn load_again<B: HostObject>(machine: Machine<B>) -> Ran<B> {
    let (machine, outcome) = machine.load(1000);
    match outcome {
        Err(RunFault::NotBegun) => machine.load(1000),
        _ => (machine, outcome),
    }
}

/// Runs the first function; again if there was no memory to begin.
fn call_again<B: HostObject>(machine: Machine<B>) -> Ran<B> {
    let (machine, outcome) = machine.run(0, &[], 1000);
    match outcome {
        Err(RunFault::NotBegun) => machine.run(0, &[], 1000),
        _ => (machine, outcome),
    }
}

/// What a module leaves when its function has run, or nothing if memory was refused.
fn left_with<B: HostObject>(
    alloc: Global,
    tree: &Module,
    pool: Vec<B>,
    services: Vec<B>,
) -> Option<String> {
    let machine = Machine::new(alloc, tree, Objects::new(alloc, pool, services)).ok()?;
    let (machine, outcome) = load_again(machine);
    if let Err(RunFault::NoMemory) = outcome {
        return None;
    }
    let (machine, outcome) = call_again(machine);
    if let Err(RunFault::NoMemory) = outcome {
        return None;
    }
    machine_text(alloc, tree, outcome, machine.parts(), &[]).ok()
}

/// The same of a module that is read and compiled first.
fn left(alloc: Global) -> Option<String> {
    let registry = registry(alloc).ok()?;
    let sources = Sources {
        registry: &registry,
    };
    let tree = sources.read_tree(alloc, SOURCE.as_bytes()).ok()?;
    let log = new_log(alloc).ok()?;
    let pool = boxes_of(alloc, &log, POOL).ok()?;
    let services = services_of(alloc, &log).ok()?;
    left_with(alloc, &tree, pool, services)
}

#[test]
fn memory_is_refused_once(rt: HostRuntime) -> Result<(), Fail> {
    let found = match left(rt.alloc()) {
        Some(text) => Some(text),
        None => left(rt.alloc()),
    };
    match found {
        Some(text) => check_text(&rt, &text, LEFT, ("a module", "what is left")),
        None => check_text(&rt, "refused again", LEFT, ("a module", "what is left")),
    }
    Ok(())
}
