//! What goes with a module: what its globals held, at a release point.

ghost use Rattle.std.specs.Prelude.{◌≡◌, ◌<◌, ◌≤◌, ◌+◌, ◌^◌, ℕ, length, slice_get, Some, Ok, IfErr, IfOk, OnErr, OnOk};
ghost use Rattle.ash_host.specs.Objects.{handles, IsInOrder};
ghost use Rattle.ash_objects.specs.Table.{holds_of};
ghost use Rattle.ash_run_steps.specs.RunStates.{HoldsLess, times};
ghost use Rattle.ash_plain_steps.specs.declared.state.LoadedModule.{LoadedModule as LoadedData};
ghost use Rattle.ash_plain_steps.specs.declared.task.Task.TheVariants as tasks;
ghost use Rattle.ash_engine.specs.TableRuns.{Released, IsRemoved};
ghost use Rattle.ash_engine.specs.TableSteps.{IsStepOf};
ghost use Rattle.ash_engine.specs.TableTasks.{IsAsked};

use crate::changes::ModuleChange;
use crate::live::Live;
use crate::resting::answered_at_rest;
use crate::runs::without_memory;
use crate::steps::LiveStep;
use ash_host::{Event, HostObject, NoMemory, Word};
use ash_objects::Objects;
use ash_requests::Outcome;
use ash_run_steps::counting::{hold_words, unhold_words};

/// Gives up what the globals of a module hold, and takes away what nothing leads to any more. If memory is refused,
/// nothing is taken away.
pub(crate) fn release<B: HostObject>(
    table: &mut Objects<B>,
    globals: &[Word],
    events: &mut Vec<Event>,
) -> Result<(), NoMemory>
    requires held { (number : ℕ) → times number (handles globals.now) ≤ holds_of number table.old }
    ensures released { OnOk result (Released globals.now table.old table.new events.old.items events.new.items) }
    ensures let_go { OnErr result (HoldsLess (handles globals.now) table.old table.new) }
{
    unhold_words(table, globals);
    table.sweep(events)
}

/// Does the same. If memory is refused, the table is as it was.
fn release_or_keep<B: HostObject>(
    table: &mut Objects<B>,
    globals: &[Word],
    events: &mut Vec<Event>,
) -> Result<(), NoMemory>
    requires held { (number : ℕ) → times number (handles globals.now) ≤ holds_of number table.old }
    requires few { (number : ℕ) → holds_of number table.old + length globals.now < 2 ^ 127 }
    ensures released { OnOk result (Released globals.now table.old table.new events.old.items events.new.items) }
    ensures unchanged { OnErr result (table.new ≡ table.old) }
{
    table.facts();
    match release(table, globals, events) {
        Ok(()) => Ok(()),
        Err(refused) => {
            hold_words(table, globals);
            Err(refused)
        }
    }
}

/// The live state without the module at a place, the events of that, and the name of the module; or the live state as
/// it was, if memory is refused.
fn remove_module<B: HostObject>(
    place: usize,
    live: Live<B>,
) -> Result<(Live<B>, Vec<Event>, String), Live<B>>
    requires within { place < length live.loaded.modules.items }
    requires compiled { place < length live.compiled.items }
    requires held { (m : LoadedData) (number : ℕ) → slice_get live.loaded.modules.items place ≡ Some m
        → times number (handles m.globals.items) ≤ holds_of number live.table }
    requires few { (m : LoadedData) (number : ℕ) → slice_get live.loaded.modules.items place ≡ Some m
        → holds_of number live.table + length m.globals.items < 2 ^ 127 }
    ensures removed { (m : LoadedData) → slice_get live.loaded.modules.items place ≡ Some m
        → IfOk result (λ left. IsRemoved live place m left.0 left.1.items) }
    ensures in_order { IfOk result (λ left. IsInOrder left.0.table.objects) }
    ensures named { (m : LoadedData) → slice_get live.loaded.modules.items place ≡ Some m
        → IfOk result (λ left. left.2 ≡ m.name) }
    ensures kept { IfErr result (λ kept. kept ≡ live) }
{
    let mut live = live;
    let mut events = Vec::new(live.loaded.alloc);
    let globals = &live.loaded.modules[place].globals;
    match release_or_keep(&mut live.table, globals, &mut events) {
        Ok(()) => {
            live.table.facts();
            let removed = live.loaded.modules.remove(place);
            live.compiled.remove(place);
            Ok((live, events, removed.name))
        }
        Err(_) => Err(live),
    }
}

/// Removes the module at a place. If memory is refused, the request is refused, and nothing changes.
pub(crate) fn discard<B: HostObject>(place: usize, live: Live<B>) -> LiveStep<B>
    requires asked { IsAsked B.HostObject live (tasks.Remove place) }
    ensures stepped { (budget : ℕ) (asked : IsAsked B.HostObject live (tasks.Remove place))
        → IsStepOf B.HostObject asked.registered budget asked.request live (Ok result) }
{
    match remove_module(place, live) {
        Ok((live, events, name)) => {
            let outcome = Outcome::Finished(None);
            answered_at_rest(live, outcome, events, ModuleChange::Discarded(name))
        }
        Err(live) => without_memory(live),
    }
}
