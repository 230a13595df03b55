//! The law of ranks that are tested. A function without a body does nothing: its contract is the law.
ghost use Rattle.ash_run_steps.specs.Ranks.{ObjectsPass, WorldsPass, ActivitiesPass};

/// The test of the ranks that classes give to their objects says yes of every well-formed world, and so of every
/// well-formed activity.
pub fn well_formed_worlds_pass()
    ensures objects { ObjectsPass }
    ensures worlds { WorldsPass }
    ensures activities { ActivitiesPass }
{}
