//! Sound stays sound: what a phrase of a sound module, and a request, leaves is well-formed if it begins in what is
//! well-formed.
//!
//! A world is well-formed if each word that is stored is a value of the type of its place, each handle is to a living
//! object of its type, no number is above the last that was given, and the limits hold. A state is well-formed if its
//! world is, and if every object can be reached from the globals of a module. The definitions are in `specs/`, in
//! reading order: `WellFormed` (store typing, value typing, frame typing), `WellFormedLaws`, `WellFormedStates`. The
//! crate uses the meaning of phrases, the steps of requests, and what sound typed trees are. It knows no parser and no
//! rule of typing.
//!
//! In reading order: `laws` (of phrases and runs), `state_laws` (of requests), `examples` (that the premises can be
//! met).
#![tactic(auto)]

mod examples;
pub mod laws;
pub mod state_laws;

pub use examples::worked_premises;
