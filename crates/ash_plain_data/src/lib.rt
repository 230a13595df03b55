//! What the plain evaluator of scripts works on beside activities: objects, calls of hosts, words, and the names of a
//! module.
//!
//! Each function is proved to give what the definition gives that its contract names, and each type to represent what
//! the definitions of the whole meaning speak of, by the functions of `specs/` whose names end in `_seen`. What ends a
//! run before its value is `RunError`: `RunsAs` in `specs/CallRuns.antt` says of a run of code that it runs as a
//! phrase.
//!
//! In reading order: `run_error` (why a run ends), `object`, `host_call`, `operators`, `same` (whether two calls of
//! hosts are one), `classes` (what the names of a module mean, and what a call enters).
#![tactic(auto)]

pub mod classes;
pub mod host_call;
pub mod object;
pub mod operators;
pub mod run_error;
pub mod same;
