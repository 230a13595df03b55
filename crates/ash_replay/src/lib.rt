//! Reading the state of a store from an image and the records after it. It builds on `ash_image`, which reads images
//! and deltas and says where a delta leads; on `ash_states`, which restores the state of a host; and on `ash_journal`,
//! whose records these are. A record has an image, or a delta that leads on from the state before it, or several deltas
//! that lead on one after the other. It promises, unless memory is refused, that the state is read to which the records
//! lead from the image, or the first fault is reported, with the offset of the gate before the record that has it; and
//! that contents are of one state. Each delta is applied to the state in place. The rules of a state are tested on the
//! image and on the last state, and not on those between.
//!
//! In reading order: `state` (the state of a host), `replay` (the state, whatever is registered), `records` (where
//! records lead), `fault`, `laws`. The words of the clauses are in `specs/Replay` (where records lead),
//! `specs/ReplayFaults` (what is wrong if they lead to no state), `specs/ReplayedStates` (states of hosts) and
//! `specs/ReplaySteps` (the steps of the code).
#![tactic(auto)]

pub mod fault;
pub mod laws;
mod records;
pub mod replay;
pub mod state;

pub use fault::ReplayFault;
