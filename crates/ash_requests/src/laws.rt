//! The laws of steps. A function without a body does nothing: its contract is the law. `F` is the type of the faults of
//! sources.
ghost use Rattle.std.specs.Prelude.{◌≡◌, ◌+◌, ℕ, List, Some};
ghost use Rattle.ash_host.specs.Objects.{AreNumbered};
ghost use Rattle.ash_meaning.specs.Answers.{Answerers};
ghost use Rattle.ash_requests.specs.States.{State, Hosts, Embedding};
ghost use Rattle.ash_requests.specs.Requests.{Request, Refusal, Refused};
ghost use Rattle.ash_requests.specs.StepLaws.{CountsAnswers, AreOneUnlessPutOff, RunNumbersLiveOnce};
ghost use Rattle.ash_requests.specs.StepLaws.{ReplyIsNotAborted, RunTakesInOrder};
ghost use Rattle.ash_requests.specs.Tasks.{first_refusal};
ghost use Rattle.ash_requests.specs.Steps.{Step, History, step, replied, run, Steps, Runs};
ghost use Rattle.ash_requests.specs.Premises.{HostsAnswer};

use ash_host::HostObject;

/// A request that is refused changes nothing, and its reply is the first cause, or one that is not in the state.
pub fn refusal_changes_nothing<F>()
    ensures first { (embedding : Embedding F) (budget : ℕ) (request : Request)
        (state : State) (hosts : Hosts) (refusal : Refusal F)
        → first_refusal embedding request state ≡ Some refusal
        → step embedding budget request state hosts ≡ Some (replied (Refused refusal) state hosts) }
    ensures every { (embedding : Embedding F) (budget : ℕ) (request : Request)
        (state : State) (hosts : Hosts) (one : Step F) (refusal : Refusal F)
        → Steps embedding budget request state hosts one
        → one.reply ≡ Refused refusal
        → one ≡ replied (Refused refusal) state hosts }
{}

/// An answer raises the sequence number by one, and every other reply leaves the state as it was.
pub fn answers_are_counted<F>()
    ensures counted { (embedding : Embedding F) (budget : ℕ) (request : Request)
        (state : State) (hosts : Hosts) (one : Step F)
        → Steps embedding budget request state hosts one
        → CountsAnswers state one.reply one.state }
{}

/// A step is determined by what is registered, the budget, the request, the state, the pool and what hosts answer, but
/// for refusals whose cause is not in the state.
pub fn steps_are_determined<F>()
    ensures steps { (embedding : Embedding F) (budget : ℕ) (request : Request)
        (state : State) (hosts : Hosts) (one other : Step F)
        → Steps embedding budget request state hosts one
        → Steps embedding budget request state hosts other
        → AreOneUnlessPutOff request state hosts one other }
    ensures runs { (embedding : Embedding F) (budget : ℕ) (requests : List Request)
        (state : State) (hosts : Hosts) (history : History F)
        → run embedding budget requests state hosts ≡ Some history
        → Runs embedding budget requests state hosts history }
{}

/// Over requests each number is drawn at most once, and dropped at most once and only after it was drawn.
pub fn numbers_live_once<F>()
    ensures once { (embedding : Embedding F) (budget : ℕ) (requests : List Request)
        (state : State) (hosts : Hosts) (history : History F)
        → Runs embedding budget requests state hosts history
        → AreNumbered state.last state.objects
        → RunNumbersLiveOnce state history }
{}

/// The states of host objects, of services and of free boxes stay no longer than they may be, where hosts answer what
/// they may.
pub fn host_states_fit<F, B: HostObject>()
    ensures fit { (embedding : Embedding F) (budget : ℕ) (requests : List Request)
        (state : State) (hosts : Hosts) (history : History F) (answerers : Answerers B)
        → Runs embedding budget requests state hosts history
        → AreNumbered state.last state.objects
        → HostsAnswer B.HostObject answerers state hosts
        → HostsAnswer B.HostObject answerers history.state history.hosts }
{}

/// A step whose run is not aborted is the same within any larger budget.
pub fn budget_suffices<F>()
    ensures same { (embedding : Embedding F) (budget more : ℕ) (request : Request)
        (state : State) (hosts : Hosts) (one : Step F)
        → AreNumbered state.last state.objects
        → step embedding budget request state hosts ≡ Some one
        → ReplyIsNotAborted one.reply
        → step embedding (budget + more) request state hosts ≡ Some one }
{}

/// The answers of hosts are taken in order, each at most once.
pub fn answers_are_taken_in_order<F>()
    ensures in_order { (embedding : Embedding F) (budget : ℕ) (requests : List Request)
        (state : State) (hosts : Hosts) (history : History F)
        → Runs embedding budget requests state hosts history
        → AreNumbered state.last state.objects
        → RunTakesInOrder hosts history }
{}
