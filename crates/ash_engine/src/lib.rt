//! The engine: a live state that takes the steps of requests. A live state is what outlives a request, as `ash_states`
//! has it, beside the boxes of host objects, which no file holds. It promises that each reply is that of the written
//! step for some answers of host objects, each within the relation of the very box that gave it, and that a state that
//! was stored lives with the first free boxes of its kinds, in the states that are stored.
//!
//! The definitions are in `specs/`: `LiveStates` (boxes, and whose they are), `Drawing` (boxes taken from a pool),
//! `SavedDrawing` (the same as tables take them), `LiveSteps` (what a request does), `RestoredBoxes` (what is restored,
//! and what is refused), `RestoredTables` (the table of a state), `TableStates` (the live state that the code has),
//! `TableSteps`, `TableTasks` and `TableRuns` (what the code does for it), `RankedSources`. In reading order: `engine`;
//! `live`; `boxes`, `compiling` and `starting` (the boxes that are handed over, and the states with which engines start);
//! `steps`; `runs`, `loading` and `discarding` (what changes the state), `resting` (answers that take no memory),
//! `names` (of functions), `showing` (objects); `writing`; `laws`.
#![tactic(auto)]

mod boxes;
pub mod changes;
mod compiling;
mod discarding;
pub mod engine;
pub mod laws;
mod live;
mod loading;
mod names;
mod recording;
mod resting;
mod runs;
mod showing;
mod starting;
mod steps;
mod writing;
