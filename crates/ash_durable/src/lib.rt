//! The host that scripts run in, with its registry, boxes of host objects, and its state in a journal on two disks. It
//! builds on `ash_registry`; on `ash_engine`, which takes the steps of requests and gives stored states to boxes; on
//! `ash_states`, which writes the image of a state; on `ash_replay`, which reads the state to which an image and
//! records lead; and on `ash_journal`, which keeps images and records through every crash. It promises that each reply
//! is that of the written steps for answers of the very host objects, or a refusal with nothing changed; that where no
//! new generation is due a request for whose refusal there is a cause changes nothing, whatever the disks and the
//! memory do; that at every moment of a request a crash leaves the state before it or the one after it, and once it is
//! answered the latter; that several requests in one call are stored as one record, so that a crash leaves all of them
//! or none; that where an answer can't be stored, or memory is refused while the state changes, the host must be
//! reopened, and has one of the two states then; that a snapshot, a refusal and an opening leave the state as it is at
//! every moment; that a store is opened with the registry's text that it was made with and no other; and that a
//! generation of version 1 is moved to version 2 when it is opened.
//!
//! In reading order: `fault` (why there is no store), `saving` (what a request changed as a record more, or a state as
//! a new generation), `header` (how a file begins), `store` (making a store and finding its state), `batch` (several
//! requests in one call, and their replies), `batching` (how these run, before they are stored), `host`, `lives` (the
//! theorem). The words of the clauses are in `specs/StoreFaults`, `specs/StoredStates` (what files hold, said of
//! states), `specs/Saving`, `specs/HandedBoxes` (the boxes that are handed over), `specs/Store` (making a store),
//! `specs/OpenedStore`, `specs/Hosting` (a host and its requests), `specs/HostReplies` (what the code replies),
//! `specs/HostRequests` (the parts of a request), `specs/Batches` and `specs/BatchViews` (a batch, and what the code's
//! is), `specs/BatchRuns` (the parts of a batch), `specs/RequestRuns` (a list of requests as a run of the written
//! steps) and `specs/Lives` (everything that can happen to a store).
#![tactic(auto)]

pub mod batch;
mod batching;
pub mod fault;
mod header;
pub mod host;
pub mod lives;
mod saving;
mod store;

pub use ash_journal::{CreateFault, OpenFault};
pub use ash_sources::checking::check_source;
pub use fault::{OpenRefused, StoreFault};
pub use host::{FULL_RECORD_BYTES, Host};
