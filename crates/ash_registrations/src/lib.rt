//! What an embedding program has registered: types with their factories, methods and properties, services and their
//! functions. It uses `ash_tree`, whose primitives they take and give. It promises that each look-up is that of the
//! list of registrations, that the text is a line for each of them, and that a registration is added after the others
//! or nothing changes. Which registrations are accepted is for the crate above that reads declarations.
//!
//! In reading order: `registration` (one of them), `registrations` (all of them), `queries` and `searches` (look-ups),
//! `text`, `adding`.
#![tactic(auto)]

mod adding;
mod queries;
mod registration;
mod registrations;
mod searches;
mod text;

pub use adding::AddFault;
pub use registration::{HostFunction, Registration};
pub use registrations::Registrations;
