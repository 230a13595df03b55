//! How a worked row is run by the machine: its first load that is answered, and the calls after it that are, up to the
//! next load or a discard. If there is neither, what is left is compared too.
ghost use Rattle.std.specs.Prelude.{◌≡◌, IfOk, length};

use crate::checks::{check_beginning, check_text};
use ash_context::outcome::{Outcome, RunFault};
use ash_host::{HostObject, NoMemory};
use ash_machine_fixtures::boxes::{Pool, boxes_of, services_of};
use ash_machine_fixtures::machine::Machine;
use ash_machine_fixtures::noted::{Log, new_log};
use ash_machine_fixtures::registered::registry;
use ash_machine_fixtures::scripts::{arguments_of, called_function};
use ash_machine_fixtures::texts::{events_text, left_text, reply_text};
use ash_objects::{Objects, SavedObjects};
use ash_script_rows::rows::{Exchange, Row};
use ash_sources::sources::Sources;
use ash_typed::Module;
use std::alloc::{AllocError, Global};
use std::process::Abort;
use std::test::Fail;

/// What a request asks for.
#[derive(Clone, Copy)]
enum Verb<'a> {
    /// A load of a source.
    Load(&'a str),
    /// A call of a function with its arguments.
    Call(&'a str),
    Discard,
    /// What changes nothing.
    Other,
}

/// The verb of a request and what follows it. What is refused changes nothing.
fn verb_of<'a>(exchange: &Exchange<'a>) -> Verb<'a> {
    let (line, reply, _) = *exchange;
    if reply.starts_with("refused") {
        return Verb::Other;
    }
    if let Some(source) = line.strip_prefix("load m ") {
        return Verb::Load(source);
    }
    if let Some(call) = line.strip_prefix("call m ") {
        return Verb::Call(call);
    }
    match line.starts_with("load ") || line.starts_with("discard ") {
        true => Verb::Discard,
        false => Verb::Other,
    }
}

/// The first load that is answered, with its place and its source.
fn first_load<'a>(row: &Row<'a>) -> Option<(usize, Exchange<'a>, &'a str)> {
    for (place, exchange) in row.exchanges.iter().enumerate() {
        if let Verb::Load(source) = verb_of(exchange) {
            return Some((place, *exchange, source));
        }
    }
    None
}

/// Compares what an answer is and has done with what a row wants of it.
fn check_answer<B: HostObject>(
    rt: &impl Abort,
    alloc: Global,
    tree: &Module,
    machine: &Machine<B>,
    answer: (Result<Outcome, RunFault>, u64),
    wanted: (&str, Exchange<'_>),
) -> Result<(), Fail> {
    let (outcome, seq) = answer;
    let (what, (_, reply, events)) = wanted;
    let found = reply_text(alloc, tree, outcome, seq, &machine.parts().events)?;
    check_text(rt, &found, reply, (what, "the reply"));
    let found = events_text(alloc, &machine.parts().events)?;
    check_text(rt, &found, events, (what, reply));
    Ok(())
}

/// The same of a load that did not finish, of which the row says what its globals give up too.
fn check_unfinished<B: HostObject>(
    rt: &impl Abort,
    alloc: Global,
    tree: &Module,
    machine: &Machine<B>,
    outcome: Result<Outcome, RunFault>,
    wanted: (&str, Exchange<'_>),
) -> Result<(), Fail> {
    let (what, (_, reply, events)) = wanted;
    let found = reply_text(alloc, tree, outcome, 1, &machine.parts().events)?;
    check_beginning(rt, &found, reply, (what, "the reply"));
    let found = events_text(alloc, &machine.parts().events)?;
    check_beginning(rt, &found, events, (what, reply));
    Ok(())
}

/// Runs a call.
fn called<B: HostObject>(
    alloc: Global,
    tree: &Module,
    machine: Machine<B>,
    call: &str,
    budget: u64,
) -> Result<(Machine<B>, Result<Outcome, RunFault>), Fail> {
    let (place, function) = called_function(tree, call).ok_or(NoMemory)?;
    let args = arguments_of(alloc, function, call)?;
    Ok(machine.run(place, &args, budget))
}

/// Runs the calls of a row after its load, which has this place.
fn check_calls<B: HostObject>(
    rt: &impl Abort,
    alloc: Global,
    tree: &Module,
    machine: Machine<B>,
    row: &Row<'_>,
    load: usize,
) -> Result<(), Fail> {
    let mut machine = machine;
    let mut seq: u64 = 1;
    for exchange in row.exchanges.iter().skip(load).skip(1) {
        match verb_of(exchange) {
            Verb::Call(call) => {
                seq = seq.saturating_add(1);
                let (after, outcome) = called(alloc, tree, machine, call, row.host.budget)?;
                machine = after;
                check_answer(
                    rt,
                    alloc,
                    tree,
                    &machine,
                    (outcome, seq),
                    (row.what, *exchange),
                )?;
            }
            Verb::Load(_) | Verb::Discard => return Ok(()),
            Verb::Other => {}
        }
    }
    let found = left_text(alloc, machine.parts())?;
    if !row.left.contains(found.as_str()) {
        check_text(rt, &found, row.left, (row.what, "what is left"));
    }
    Ok(())
}

/// The states of so many tallies before anything is done with them.
fn zeros(alloc: Global, many: usize) -> Result<Vec<Vec<u8>>, AllocError>
    ensures many { IfOk result (λ states. length states.items ≡ many) }
{
    let mut states = Vec::new(alloc);
    for _ in 0..many {
        states.push(Vec::from_slice(alloc, &[0, 0, 0, 0])?)?;
    }
    Ok(states)
}

/// A table without objects, whose last number is the one of a row.
fn table_of<B: HostObject>(
    alloc: Global,
    last: u64,
    pool: Vec<B>,
    services: Vec<B>,
) -> Result<Objects<B>, Fail> {
    let stored = SavedObjects {
        objects: Vec::new(alloc),
        last,
    };
    let states = zeros(alloc, services.len())?;
    Ok(Objects::restored(alloc, stored, &states, pool, services)?)
}

/// Runs a row with these boxes.
fn check_row_with<B: HostObject>(
    rt: &impl Abort,
    alloc: Global,
    tree: &Module,
    row: &Row<'_>,
    boxes: (Vec<B>, Vec<B>),
    load: (usize, Exchange<'_>),
) -> Result<(), Fail> {
    let (place, load) = load;
    let table = table_of(alloc, row.host.last, boxes.0, boxes.1)?;
    let machine = Machine::new(alloc, tree, table)?;
    let (machine, outcome) = machine.load(row.host.budget);
    match outcome {
        Ok(Outcome::Finished(_)) => {
            check_answer(rt, alloc, tree, &machine, (outcome, 1), (row.what, load))?;
            check_calls(rt, alloc, tree, machine, row, place)
        }
        _ => check_unfinished(rt, alloc, tree, &machine, outcome, (row.what, load)),
    }
}

/// Runs a row, and compares what is answered to its load and its calls. A row without a load that is answered says
/// nothing of the machine.
pub fn check_row(rt: &impl Abort, alloc: Global, row: &Row<'_>) -> Result<(), Fail> {
    let Some((place, load, source)) = first_load(row) else {
        return Ok(());
    };
    let registry = registry(alloc)?;
    let sources = Sources {
        registry: &registry,
    };
    let tree = sources.read_tree(alloc, source.as_bytes())?;
    let log = new_log(alloc)?;
    let pool = Pool {
        counters: row.host.counters,
        buffers: 0,
        odds: 1,
    };
    let boxes = (boxes_of(alloc, &log, pool)?, services_of(alloc, &log)?);
    check_row_with(rt, alloc, &tree, row, boxes, (place, load))
}

/// Runs rows, each from the beginning.
pub fn check_rows(rt: &impl Abort, alloc: Global, rows: &[Row<'_>]) -> Result<(), Fail> {
    for row in rows {
        check_row(rt, alloc, row)?;
    }
    Ok(())
}
