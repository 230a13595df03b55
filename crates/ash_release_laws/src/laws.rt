//! The laws of release points. A function without a body does nothing: its contract is the law.
ghost use Rattle.std.specs.Prelude.{◌≡◌, ℕ};
ghost use Rattle.ash_host.specs.Objects.{AreNumbered};
ghost use Rattle.ash_meaning.specs.Activity.{World, Activity};
ghost use Rattle.ash_meaning.specs.Classes.{Program};
ghost use Rattle.ash_meaning.specs.Releases.{release};
ghost use Rattle.ash_meaning.specs.Runs.{Done};
ghost use Rattle.ash_meaning.specs.Traces.{Trace};
ghost use Rattle.ash_release_laws.specs.Settling.{IsNumbered, IsSettled, ReleasePointsSettle, HoldsUntilTheEnd};
ghost use Rattle.ash_release_laws.specs.Leaving.{LeaveAlong, ObjectsLeaveOnTime, RunsLeaveOnTime};

/// If every object that lives can be reached, each phrase leaves it so, at each of its ends: an expression, a statement
/// or a block that goes on, a call of any kind, an initializer.
pub fn release_points_settle()
    ensures settle { (program : Program) (depth : ℕ) → ReleasePointsSettle program depth }
{}

/// Within a full expression nothing is taken from the frame, and what the frame or a caller has as a handle lives on. A
/// statement takes nothing from the callers.
pub fn what_is_held_stays()
    ensures held { (program : Program) (depth : ℕ) → HoldsUntilTheEnd program depth }
{}

/// If every object that lives can be reached, a release point changes nothing. So one more after an operand, an
/// expression or a statement that goes on would let nothing go earlier. Within a construction one would: between the
/// making of an object and the entry of its frame nothing leads to it.
pub fn a_settled_release_changes_nothing()
    ensures same { (activity : Activity) → IsNumbered activity → IsSettled activity
        → release activity ≡ Done tt activity }
{}

/// Along each trace an object that lives at its beginning lives at its end exactly if it can be reached at each release
/// point, and if not, it leaves at the first at which it can't.
pub fn objects_live_while_reached()
    ensures reached { (first last : Activity) (trace : Trace first last) → IsNumbered first → LeaveAlong trace }
{}

/// If every object that lives can be reached, each that is gone after a full expression, a statement or a call left at
/// the first release point at which it couldn't be reached; if it is a host object, its leaving is among the last
/// events there. None is left that can't be reached, unless a statement is left by a jump, which is on its way to a
/// release point. So it is of the objects that came meanwhile too, and if an exception or a refused tick ends the
/// phrase.
pub fn objects_leave_on_time()
    ensures leave { (program : Program) (depth : ℕ) → ObjectsLeaveOnTime program depth }
{}

/// Over a whole run each object that lives at any time lives at the end exactly if it can be reached at each release
/// point after, the last of which is at the end of the run, without frames. Then none is left to which neither a global
/// leads nor what is held outside.
pub fn runs_leave_on_time()
    ensures leave { (program : Program) (budget : ℕ) (world : World) → AreNumbered world.last world.objects
        → RunsLeaveOnTime program budget world }
{}
