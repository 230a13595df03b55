//! Compiled code of typed modules.
//!
//! `specs/Stretches.antt` says when a stretch of code does what a phrase does, and `specs/Emission.antt` what emitted
//! code does, wherever it stands.
//!
//! What is written stays valid: `specs/ValidCode.antt` says what keeps it so.
//!
//! In reading order: `layout`, `named_slots`, `builder`, `operators`, `expressions`, `places`, `calls`, `effects`,
//! `blocks`, `bodies`, `continues`, `looping`, `switching`, `initializers`, `frames`, `classes`, `module`.
#![tactic(auto)]

mod blocks;
pub mod bodies;
pub mod builder;
mod calls;
mod classes;
mod continues;
mod effects;
pub mod expressions;
mod frames;
mod initializers;
pub mod layout;
mod looping;
pub mod module;
mod named_slots;
pub mod operators;
pub mod places;
mod switching;
