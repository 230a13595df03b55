//! Answers of requests that ran no code. They take no memory.

ghost use Rattle.std.specs.Prelude.{◌≡◌, ◌<◌, ℕ, false, List, Contains, IfSome};
ghost use Rattle.std.specs.List.{filter_map};
ghost use Rattle.ash_host.specs.declared.event.Event.{Event as EventData};
ghost use Rattle.ash_host.specs.Objects.{object_at};
ghost use Rattle.ash_change_laws.specs.UncalledServices.{IsCalled};
ghost use Rattle.ash_objects.specs.Marking.{without_marks};
ghost use Rattle.ash_requests.specs.OutcomeViews.{end_seen};
ghost use Rattle.ash_requests.specs.Tasks.{max_seq};
ghost use Rattle.ash_engine.specs.NamedChanges.{AreTaken};
ghost use Rattle.ash_engine.specs.TableRuns.{IsAnswered};

use crate::changes::{Changes, ModuleChange, sort_numbers};
use crate::live::Live;
use crate::steps::LiveStep;
use ash_host::{Event, HostObject};
use ash_objects::Objects;
use ash_requests::{Answer, Outcome, Reply};
use std::alloc::Global;

/// What a request changed that marked no object and called no service.
fn changes_at_rest<B: HostObject>(
    alloc: Global,
    table: &mut Objects<B>,
    modules: ModuleChange,
) -> Changes
    requires unmarked { (number : ℕ) → IfSome (object_at number table.old.objects)
        (λ object. object.touched ≡ false) }
    ensures taken { (happened : List EventData) → ((place : ℕ) → IsCalled place happened → ⊥)
        → AreTaken happened modules table.old result }
    ensures settled { table.new ≡ without_marks table.old }
{
    table.facts();
    let mut gone = table.take_gone();
    sort_numbers(&mut gone);
    Changes {
        services: Vec::new(alloc),
        modules,
        living: Vec::new(alloc),
        gone,
    }
}

/// The step that answers a request that ran no code: it marked no object and called no service.
pub(crate) fn answered_at_rest<B: HostObject>(
    live: Live<B>,
    outcome: Outcome,
    events: Vec<Event>,
    modules: ModuleChange,
) -> LiveStep<B>
    requires numbered { live.loaded.seq < max_seq }
    requires unmarked { (number : ℕ) → IfSome (object_at number live.table.objects)
        (λ object. object.touched ≡ false) }
    requires uncalled { (place : ℕ) → IsCalled place events.items → ⊥ }
    ensures answered { IsAnswered live (end_seen outcome) events.items modules result }
{
    let mut live = live;
    live.changes = changes_at_rest(live.loaded.alloc, &mut live.table, modules);
    live.loaded.seq += 1;
    let seq = live.loaded.seq;
    LiveStep {
        reply: Reply::Answer(Answer {
            outcome,
            seq,
            events,
        }),
        live,
    }
}
