//! What an embedding program offers to scripts: types with their factories, methods and properties, services and
//! their functions. Declarations are texts in script syntax. It uses `ash_lex`, `ash_tree` and `ash_parse`, which
//! cut and parse them, and `ash_registrations`, which has what was accepted and looks it up. It promises that a
//! registration is accepted exactly where nothing refuses it and memory is there, that a refusal changes nothing, and
//! that each look-up is that of the list of accepted registrations.
//!
//! In reading order: `texts` (what the texts mean), `fault` (why a registration is refused), `registry` (what is
//! registered, and its look-ups), `registration` and `functions` (the calls that register), `acceptance`, `signatures`.
#![tactic(auto)]

mod acceptance;
mod fault;
mod functions;
mod registration;
mod registry;
mod signatures;
mod texts;

pub use ash_registrations::{HostFunction, Registration};
pub use fault::RegistryFault;
pub use registry::Registry;
pub use texts::one_meaning;
