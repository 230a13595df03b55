//! What a request does to the state of a host: states, requests, and their steps.
//!
//! A state has the modules that are loaded, each with its globals, the objects, the states of the services, the last
//! number that was given to an object, and how many requests have been answered. A request is refused for its first
//! cause, which changes nothing, or does what it asks for, and raises that number where it is answered; or it is
//! refused for a cause that is not in the state, as where memory runs out. The crate uses the meaning of typed trees,
//! and leaves open how a source is read: its definitions take what the embedding program has registered, with the
//! function that gives the typed tree of a source, or its first fault. They are in `specs/`, in reading order:
//! `States`, `Requests`, `Tasks` (the refusals of each request, in order), `TaskResults`, `Steps` (what is done, and
//! runs over requests), `Premises` (what statements may take as given), `SourceViews` (what is read of sources),
//! `OutcomeViews`, `RequestViews` and `RefusalCodes` (what the types of the code represent), `StepLaws`, and
//! `StepExamples` with those beside it.
//!
//! The types of the code are the words in which programs ask and are answered, whatever takes the steps. In reading
//! order: `argument` (what a call is handed), `request`, `outcome` (how a run ends), `shown` (objects as replies show
//! them), `refusal`, `reply`, `step_error`; `sources` (the trait of programs that read sources), `laws` (of steps),
//! `examples` and `host_runs` (runs that are computed).
#![tactic(auto)]

mod argument;
mod examples;
mod host_runs;
pub mod laws;
mod outcome;
mod refusal;
mod reply;
mod request;
mod shown;
pub mod sources;
mod step_error;

pub use argument::Arg;
pub use ash_meaning::Exception;
pub use examples::{
    worked_integer_runs, worked_interface_and_array_runs, worked_limit_runs, worked_number_runs,
    worked_object_runs, worked_runs,
};
pub use host_runs::worked_host_runs;
pub use outcome::Outcome;
pub use refusal::Refusal;
pub use reply::{Answer, Reply};
pub use request::Request;
pub use shown::{ObjectContents, Shown};
pub use step_error::StepError;
