//! The machine that runs compiled code over the table of objects.
//!
//! A run's control is a function of its frames and of one index: each frame says where its caller goes on. An
//! instruction reads and writes slots of the frame that runs. A slot past the last reads as null, and a write past it
//! does nothing, as the meaning of code says. `looping::run` goes on from instruction to instruction until the run
//! ends, and does what `denote` of the code says: `HasRun` in `specs/Turns.antt` is its invariant. Each instruction
//! leaves fewer to be done (`specs/Bounds.antt`), so that the ticks bound how many are done.
//!
//! `Context` is the machine that an engine has: `Context::run` runs a function of compiled code, or the initializers,
//! over the table, and says the outcome that the meaning of the module says.
//!
//! A run ends with `Stop::Unsound` only if the guards of its code leave nothing of it. Code that was compiled from a
//! sound module never ends so.
//!
//! In reading order: `turning` (what is left after an instruction), `storing` (slots), `operators`, `operands` (operators
//! on slots), `calculating`, `members` (globals and fields), `elements`, `arrays`, `hosts` (host objects and services),
//! `stepping` (statements), `jumping`, `calling`, `returning`, `classes` (of objects), `casting` (casts, and calls by an
//! interface), `constructing`, `running` (each instruction), `plain` and `lending` (instructions that change no handle
//! that is counted, in a loop of their own), `frame_turns` (calls and returns there), `looping`, `outcome`, `ending`,
//! `context`.
#![tactic(auto)]

mod arrays;
mod calculating;
mod calling;
mod casting;
mod classes;
mod constructing;
pub mod context;
mod elements;
mod ending;
mod frame_turns;
mod hosts;
mod jumping;
mod lending;
mod looping;
mod members;
mod operands;
mod operators;
pub mod outcome;
mod plain;
mod returning;
mod running;
mod stepping;
mod storing;
mod turning;
