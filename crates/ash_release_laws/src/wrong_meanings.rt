//! Meanings that the laws refuse: three by which an object leaves too late, and one by which it leaves too early.
ghost use Rattle.ash_host.specs.declared.word.Word.{Word};
ghost use Rattle.ash_meaning.specs.CallMeaning.{Calls};
ghost use Rattle.ash_release_laws.specs.Settling.{IsNumbered, IsSettled, Settles, Keeps, KeepsItsFrame};
ghost use Rattle.ash_release_laws.specs.Held.{LeavesNothingHeld, HoldsOnlyItsValue};
ghost use Rattle.ash_release_laws.specs.WrongMeanings.{HoldsOn, held_clearing, call_with_all};
ghost use Rattle.ash_release_laws.specs.WrongMeanings.{before_clearing, between_arguments};
ghost use Rattle.ash_release_laws.specs.WrongMeanings.{late_clearing, early_argument, LeavesTooLate, LeavesTooEarly};

/// A meaning by which a full expression ends without a release point does not settle.
pub fn collecting_does_not_settle()
    ensures before { IsNumbered before_clearing × IsSettled before_clearing }
    ensures late { (calls : Calls) → LeavesTooLate (late_clearing calls) before_clearing }
    ensures refused { (calls : Calls) → ¬ Settles Word (late_clearing calls) }
{}

/// Nor may a meaning hold what is to be dropped until the call ends, so that everything can be reached: neither a
/// statement that goes on with what its expression holds, nor a call whose caller holds what its frame had.
pub fn holding_on_is_refused()
    ensures statement { (calls : Calls) → HoldsOn (held_clearing calls) before_clearing }
    ensures refused_statement { (calls : Calls) → ¬ LeavesNothingHeld (Unit {0}) (held_clearing calls) }
    ensures call { HoldsOn call_with_all before_clearing }
    ensures refused_call { ¬ HoldsOnlyItsValue call_with_all }
{}

/// A meaning that lets go of what is held before the full expression ends takes from the frame what it has.
pub fn letting_go_early_takes_what_is_held()
    ensures before { IsNumbered between_arguments × IsSettled between_arguments }
    ensures early { (calls : Calls) → LeavesTooEarly (early_argument calls) between_arguments }
    ensures refused { (calls : Calls) → ¬ Keeps KeepsItsFrame Word (early_argument calls) }
{}
