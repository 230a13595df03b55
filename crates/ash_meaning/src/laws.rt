//! The laws of the meaning. A function without a body does nothing: its contract is the law.
ghost use Rattle.std.specs.Prelude.{◌≤◌, ℕ};
ghost use Rattle.ash_host.specs.Objects.{IsInOrder, AreNumbered};
ghost use Rattle.ash_meaning.specs.Activity.{World, Activity};
ghost use Rattle.ash_meaning.specs.Classes.{Program};
ghost use Rattle.ash_meaning.specs.Traces.{Trace};
ghost use Rattle.ash_meaning.specs.MeaningLaws.{DepthIsNoPart, ReleasesTheUnreachable};
ghost use Rattle.ash_meaning.specs.MeaningLaws.{PhrasesAreTraces, TicksFall};
ghost use Rattle.ash_meaning.specs.Answers.{Answerers, HostsFit};
ghost use Rattle.ash_meaning.specs.MeaningLaws.{NumbersLiveOnce, GoAtReleases, RunsStay};
ghost use Rattle.ash_meaning.specs.MeaningLaws.{MoreTicksGoOn, BudgetSuffices};
ghost use Rattle.ash_meaning.specs.MeaningLaws.{TakesInOrder};

use ash_host::HostObject;

/// The depth is no part of the meaning: from any depth at least the ticks left, the same.
pub fn depth_is_no_part()
    ensures same { (program : Program) (ticks depth other : ℕ) → ticks ≤ depth → ticks ≤ other
        → DepthIsNoPart program ticks depth other }
{}

/// A release point takes exactly what can't be reached, the host objects among it by ascending number, and changes
/// nothing else.
pub fn release_takes_the_unreachable()
    ensures exact { (activity : Activity) → IsInOrder activity.world.objects
        → ReleasesTheUnreachable activity }
{}

/// Each phrase does one transition after another, and a tick is refused only where none is left.
pub fn phrases_are_traces()
    ensures traces { (program : Program) (depth : ℕ) → PhrasesAreTraces program depth }
{}

/// No phrase gains ticks, and a call or a construction that comes to its end has taken one at least.
pub fn ticks_fall()
    ensures fall { (program : Program) (depth : ℕ) → TicksFall program depth }
{}

/// Along a trace each number is drawn at most once, and dropped at most once and only after it was drawn.
pub fn numbers_live_once()
    ensures once { (first last : Activity) → Trace first last
        → AreNumbered first.world.last first.world.objects
        → NumbersLiveOnce first.world last.world }
{}

/// An object that is there before some transitions and not after them went at a release point between them.
pub fn objects_go_at_releases()
    ensures at_releases { (first last : Activity) → Trace first last
        → AreNumbered first.world.last first.world.objects
        → GoAtReleases first last }
{}

/// However a run ends, what it did in globals, objects and services stays.
pub fn effects_stay()
    ensures stay { (program : Program) (budget : ℕ) (world : World)
        → AreNumbered world.last world.objects
        → RunsStay program budget world }
{}

/// A phrase that has more ticks does the same, and goes on where no tick was left. So a run that is not
/// aborted comes to the same within any larger budget, and what an aborted one leaves is on the way.
pub fn more_ticks_go_on()
    ensures phrases { (program : Program) (depth : ℕ) → MoreTicksGoOn program depth }
    ensures runs { (program : Program) (budget more : ℕ) (world : World)
        → AreNumbered world.last world.objects
        → BudgetSuffices program budget more world }
{}

/// The answers of hosts are taken in order, each at most once.
pub fn answers_are_taken_in_order()
    ensures in_order { (first last : Activity) → Trace first last
        → TakesInOrder first.world last.world }
{}

/// The states of host objects, of services and of free boxes stay no longer than they may be, where hosts answer what
/// they may.
pub fn host_states_fit<B: HostObject>()
    ensures fit { (answerers : Answerers B) (first last : Activity) → Trace first last
        → AreNumbered first.world.last first.world.objects
        → HostsFit B.HostObject answerers first.world
        → HostsFit B.HostObject answerers last.world }
{}
