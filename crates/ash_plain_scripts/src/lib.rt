//! The plain evaluator: the slow, obvious program for the whole meaning of scripts.
//!
//! It walks typed trees, and each of its functions is proved to run as the phrase does whose definition its contract
//! names: for each activity it comes to the value and the activity that the definitions give, or ends as they say.
//! Where memory runs out it answers `NoMemory`, and of the activity nothing is said then. A call from outside and a
//! load have the outcome that the definitions have, for whatever hosts answer (`ends`).
//!
//! In reading order: `evaluator` (what runs), `calls`, `expressions`, `full` (full expressions), `switches`,
//! `statements`, `functions` (what frames do), `ends` (calls from outside, and loads).
#![tactic(auto)]

mod calls;
pub mod ends;
mod evaluator;
mod expressions;
mod full;
mod functions;
mod statements;
mod switches;
