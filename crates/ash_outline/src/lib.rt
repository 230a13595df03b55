//! What a script declares, as its tokens look, for people who read about it: so there is an outline of a source that
//! has no tree, too. It uses `ash_lex`. What it gives are guesses, good for hints alone, and no contract speaks of them.
//!
//! In reading order: `outline`, the names that are declared; `source`, a source to look around in; `types`, the types
//! of expressions; `routines`, the functions of a script.
#![tactic(auto)]

pub mod outline;
pub mod routines;
pub mod source;
pub mod types;
