//! What a run changed is named by what it leaves: services whose states it changed are among those in its `Called`
//! events, and objects that it made, changed or took away are those that the table marks or keeps as gone. So a record
//! of what a request changed needs these alone, and everything else is as it was.
//!
//! The definitions are in `specs/`: `UncalledServices` (services that were not called), `MarkedObjects` (objects that have
//! no mark) and `ChangedStates` (what a request changed, by names). The crate has laws and no code.
#![tactic(auto)]

pub mod laws;
