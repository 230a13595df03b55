//! Trees from tokens.
//!
//! `parse_module` reads the tokens of a script as one tree, and `parse_declaration` those of what a host registers;
//! each returns a fault where there is no tree. The crate uses `ash_lex`, whose tokens it reads, and `ash_tree`, whose
//! trees it makes and whose grammar it follows: what is returned is derived, and whatever the tokens derive is what is
//! returned, so that they have one tree at most; and a fault is the first by the grammar, of which they have one where
//! they have no tree. The tokens are read once, from left to right, and at most ten of them ahead.
//!
//! In reading order: `faults`; `parse`, the two calls; then one function for each phrase, with its production above it:
//! `items`, `classes`, `interfaces`, `functions` and `declarations`; `statements` with its `loops`, `for_heads`,
//! `labels` and `variables`; `expressions` with its `conditionals` and `primaries`, and `data_types`; then
//! `stmt_tokens` and `operators`, what a token begins; `cursor` and `error`, the next token and why reading stops.
#![tactic(auto)]

mod classes;
mod cursor;
mod data_types;
mod declarations;
mod error;
mod expressions;
mod faults;
mod for_heads;
mod functions;
mod interfaces;
mod items;
mod labels;
mod operators;
mod parse;
mod statements;
mod stmt_tokens;
mod variables;

pub use faults::{ParseFault, UnsupportedPart};
pub use parse::{
    has_one_declaration, has_one_declaration_fault, has_one_fault, has_one_module,
    parse_declaration, parse_module,
};
