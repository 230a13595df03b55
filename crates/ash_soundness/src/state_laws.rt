//! The laws of well-formed states. A function without a body does nothing: its contract is the law. `F` is the type of
//! the faults of sources.
ghost use Rattle.std.specs.Prelude.{ℕ, List};
ghost use Rattle.std.specs.List.{AllByRecursion};
ghost use Rattle.ash_typed.specs.Signatures.{HostSignatures};
ghost use Rattle.ash_soundness.specs.WellFormed.{IsState};
ghost use Rattle.ash_requests.specs.States.{Embedding, empty};
ghost use Rattle.ash_soundness.specs.WellFormedStates.{IsWellFormedState, StepsKeep};
ghost use Rattle.ash_soundness.specs.WellFormedStates.{RunsKeepWellFormed, WellFormedHaveSteps, HaveRuns};

/// A request leaves a well-formed state where it finds one, however it ends, and where it is refused for a cause that
/// is not in the state; so do all requests of a run; and the state before any request is well-formed.
pub fn states_stay_well_formed<F>()
    ensures first { (embedding : Embedding F) (host : HostSignatures) (services : List (List ℕ))
        → AllByRecursion IsState services
        → IsWellFormedState embedding host (empty services) }
    ensures steps { (embedding : Embedding F) (host : HostSignatures) → StepsKeep embedding host }
    ensures runs { (embedding : Embedding F) (host : HostSignatures)
        → RunsKeepWellFormed embedding host }
{}

/// Where the host offers nothing to scripts, each request of a well-formed state has a step, and requests one after
/// another have a run.
pub fn requests_have_steps<F>()
    ensures steps { (embedding : Embedding F) (host : HostSignatures)
        → WellFormedHaveSteps embedding host }
    ensures runs { (embedding : Embedding F) (host : HostSignatures) → HaveRuns embedding host }
{}
