//! What a store holds, as text and as JSON, and what is found when it is looked over, as sentences. It uses
//! `ash_inspect`, which reads the files, and takes the names that are shown from the sources of modules. It promises
//! nothing of the texts but that there is one, unless memory is refused.
//!
//! In reading order: `names` (what a source declares), `handles` (how many an object has), `view` (a state with these),
//! `wording` (numbers and values), `files_text`, `state_text` and `state_json` (a store), `verdict` (what is found).
#![tactic(auto)]

mod files_text;
mod handles;
mod names;
mod state_json;
mod state_text;
mod verdict;
mod view;
mod wording;

pub use state_json::show_json;
pub use state_text::show_text;
pub use verdict::{Condition, Verdict, verify_text};
