//! The laws. A function without a body does nothing: its contract is the law. `F` is the type of the faults of sources.
ghost use Rattle.std.specs.Prelude.{ℕ};
ghost use Rattle.ash_meaning.specs.Activity.{World};
ghost use Rattle.ash_meaning.specs.Classes.{Program};
ghost use Rattle.ash_requests.specs.States.{Embedding};
ghost use Rattle.ash_requests.specs.Steps.{Steps, Runs};
ghost use Rattle.ash_answer_laws.specs.TakenAnswers.{PhrasesLeaveTheRest, RunsLeaveTheRest};
ghost use Rattle.ash_answer_laws.specs.ChainedRequests.{IsStepOf, StepsLeaveTheRest};
ghost use Rattle.ash_answer_laws.specs.ChainedRequests.{IsRunOf, HistoriesLeaveTheRest};
ghost use Rattle.ash_answer_laws.specs.ChainedRequests.{ChainsAreRuns, RunsAreChains};

/// A phrase that has a step takes the first of the answers, and comes to the same whatever is behind those.
pub fn phrases_leave_the_rest()
    ensures rest { (program : Program) (depth : ℕ) → PhrasesLeaveTheRest program depth }
{}

/// A call from outside, and a load, that come to an outcome take the first of the answers, and come to the same
/// whatever is behind those.
pub fn runs_leave_the_rest()
    ensures rest { (program : Program) (budget : ℕ) (world : World)
        → RunsLeaveTheRest program budget world }
{}

/// A request that has a step takes the first of the answers, and has the same whatever is behind those; so do the
/// refusals whose cause is not in the state.
pub fn steps_leave_the_rest<F>()
    ensures performed { (embedding : Embedding F) (budget : ℕ) → StepsLeaveTheRest (IsStepOf embedding budget) }
    ensures every { (embedding : Embedding F) (budget : ℕ) → StepsLeaveTheRest (Steps embedding budget) }
{}

/// Requests that have a run take the first of the answers, and have the same whatever is behind those.
pub fn requests_leave_the_rest<F>()
    ensures run { (embedding : Embedding F) (budget : ℕ) → HistoriesLeaveTheRest (IsRunOf embedding budget) }
    ensures every { (embedding : Embedding F) (budget : ℕ) → HistoriesLeaveTheRest (Runs embedding budget) }
{}

/// Requests that each take all answers of a list of their own are one run over the lists joined in order; what is
/// behind them is left.
pub fn chains_are_runs<F>()
    ensures run { (embedding : Embedding F) (budget : ℕ)
        → ChainsAreRuns (IsStepOf embedding budget) (IsRunOf embedding budget) }
    ensures every { (embedding : Embedding F) (budget : ℕ)
        → ChainsAreRuns (Steps embedding budget) (Runs embedding budget) }
{}

/// Each run of requests is such a chain: the answers that it took are a list for each request, in order.
pub fn runs_are_chains<F>()
    ensures run { (embedding : Embedding F) (budget : ℕ)
        → RunsAreChains (IsStepOf embedding budget) (IsRunOf embedding budget) }
    ensures every { (embedding : Embedding F) (budget : ℕ)
        → RunsAreChains (Steps embedding budget) (Runs embedding budget) }
{}
