//! The laws of how long frames hold what they hold. A function without a body does nothing: its contract is the law.
ghost use Rattle.std.specs.Prelude.{ℕ};
ghost use Rattle.ash_typed.specs.StatementTree.{Stmt};
ghost use Rattle.ash_meaning.specs.Classes.{Program};
ghost use Rattle.ash_meaning.specs.Functions.{calls_within};
ghost use Rattle.ash_meaning.specs.StatementMeaning.{statement};
ghost use Rattle.ash_release_laws.specs.Held.{FramesBeginWithNothingHeld, NothingStaysHeld, SettlesBetweenStatements};
ghost use Rattle.ash_release_laws.specs.Held.{CallsHoldOnlyTheirValue, WhatIsTakenAwayIsHeld, JumpsReleaseOnce};

/// A frame begins with nothing held. Nothing is held after a full expression, nor after a statement that found nothing
/// held, except the value that a `return` gives. A block leaves as many locals as it found. So if, before a statement,
/// every object that lives can be reached without what the frame holds, it is so before the next.
pub fn nothing_stays_held()
    ensures begin { (program : Program) → FramesBeginWithNothingHeld program }
    ensures held { (program : Program) (depth : ℕ) → NothingStaysHeld program depth }
    ensures between { (program : Program) (depth : ℕ) (s : Stmt)
        → SettlesBetweenStatements (statement (calls_within program depth) depth s) }
{}

/// After a call or a construction its caller holds what it held and the value, and nothing else of what the frame had.
/// So it is after a call of a host, and of a method that is none of an array.
pub fn calls_hold_only_their_value()
    ensures calls { (program : Program) (depth : ℕ) → CallsHoldOnlyTheirValue program depth }
{}

/// A word that is overwritten is held, and so are the elements that an array loses: no object goes meanwhile.
pub fn what_is_taken_away_is_held()
    ensures held { WhatIsTakenAwayIsHeld }
{}

/// The blocks that a jump leaves are no release points: it comes to one, where it leads.
pub fn jumps_release_once()
    ensures once { JumpsReleaseOnce }
{}
