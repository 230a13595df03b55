//! Sources of modules: what each is read as. Its specs say which tokens, which script and which typed tree a source
//! has, or which fault comes first. It builds on `ash_lex`, `ash_parse` and `ash_check`, which read and type; on
//! `ash_registry`, whose names no module may declare; and on `ash_requests`, which says what reading sources is to steps.
//! It promises that a source has the typed tree that the rules give it, or the first fault of the layer that finds one.
//!
//! In reading order: `fault` (why a source has no typed tree), `lexing` (its tokens), `parsing` (its script), `typing`
//! (the typed tree of a script), `checking` (whether a source is accepted), `sources` (how the sources of modules are
//! read).
#![tactic(auto)]

pub mod checking;
pub mod fault;
mod lexing;
mod parsing;
pub mod sources;
pub mod typing;
