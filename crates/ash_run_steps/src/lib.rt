//! The steps of a run over the table of objects, each of which is proved to be the meaning's.
//!
//! A run's state is the table, the frames, the globals and the events; each object is held in the table as often as it
//! is among the roots. A step changes the state, and its contract says what is left of the run that it is a step of:
//! `Becomes` in `specs/Becoming.antt`. It says too which boxes answered in between, and that what changed is marked
//! (`specs/Following.antt`). Guards stand for what typing promises: if one fails nothing is said of the run,
//! and no sound module's code comes to it.
//!
//! In reading order: `stack` (the frames), `state`, `stop` (why a run doesn't go on), `counting` (holds in the table),
//! `holding` (what frames hold, ticks), `locals`, `declaring`, `globals`, `parts` (fields and elements),
//! `constructing`, `classes`, `arrays`, `releasing` (release points), `jumping`, `calling`, `entering`, `leaving`,
//! `beginning`, `ending`, `answering` (who answers a call, and what is made of an answer), `host_calls`, `properties`,
//! `drawing` (boxes of the pool, and host objects), `plain` (steps that change no count), `deferred` (runs over the parts of
//! a state, with deferred counts), `laws` (the test of ranks).
#![tactic(auto)]

mod answering;
pub mod arrays;
pub mod beginning;
pub mod calling;
pub mod classes;
pub mod constructing;
pub mod counting;
pub mod declaring;
pub mod deferred;
pub mod drawing;
pub mod ending;
pub mod entering;
pub mod globals;
pub mod holding;
pub mod host_calls;
pub mod jumping;
pub mod laws;
pub mod leaving;
pub mod locals;
pub mod parts;
pub mod plain;
pub mod properties;
pub mod releasing;
pub mod stack;
pub mod state;
pub mod stop;
