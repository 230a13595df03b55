//! The laws. A function without a body does nothing: its contract is the law.
ghost use Rattle.std.specs.Prelude.{ℕ};
ghost use Rattle.ash_meaning.specs.Activity.{World};
ghost use Rattle.ash_meaning.specs.Classes.{Program};
ghost use Rattle.ash_requests.specs.States.{Embedding};
ghost use Rattle.ash_change_laws.specs.ChangedStates.{StepsAreNamed};
ghost use Rattle.ash_change_laws.specs.UncalledServices.{RunsKeepUncalled, StepsKeepUncalled};
ghost use Rattle.ash_change_laws.specs.MarkedObjects.{MarksNameChanges, MarksNameObjects, SettledIsClear};

use ash_host::HostObject;

/// A call from outside, and a load, leave each service that they don't call in the state that it had.
pub fn uncalled_services_stay()
    ensures stay { (program : Program) (budget : ℕ) (world : World)
        → RunsKeepUncalled program budget world }
{}

/// A request leaves each service that is not called among the events of its reply in the state that it had.
pub fn steps_keep_uncalled_services<F>()
    ensures keep { (embedding : Embedding F) (budget : ℕ) → StepsKeepUncalled embedding budget }
{}

/// An object that a table neither marks nor keeps as gone is what it was when the marks were cleared, except for who
/// holds it.
pub fn marks_name_changes<B: HostObject>()
    ensures named { MarksNameChanges B.HostObject }
{}

/// And so it is as states have the objects, if modules that came or went gave no object that lives another module.
pub fn marks_name_objects<B: HostObject>()
    ensures named { MarksNameObjects B.HostObject }
{}

/// Once its marks are cleared, a table has none, and each of its objects is what it was.
pub fn settled_is_clear<B: HostObject>()
    ensures clear { SettledIsClear B.HostObject }
{}

/// The services that a request called, what it made of the modules, and the objects that a table marks or keeps as gone
/// are all that the request changed.
pub fn steps_are_named<F, B: HostObject>()
    ensures named { (embedding : Embedding F) (budget : ℕ) → StepsAreNamed B.HostObject embedding budget }
{}
