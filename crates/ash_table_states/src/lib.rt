//! States of hosts whose objects are in a table, where a module has a slot in place of its name. A table is made from the
//! objects of a state, and the image of a state is written from a table.
//!
//! The definitions are in `specs/`: `TableStates` (the state that a table shows), `SavedObjects` (the objects of a state,
//! with indexes in place of names), `WrittenObjects` (the objects of a table as an image has them). In reading order:
//! `saving` (objects for a table), `parts` (objects for an image), `writing` (the image of a state).
#![tactic(auto)]

pub mod parts;
pub mod saving;
pub mod writing;
