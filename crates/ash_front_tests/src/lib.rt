//! Tests of all that reads scripts: tokens, trees, registrations, the check, and sources as a whole. They are in a
//! crate of their own, so that the crates with the code are proved once.
//!
//! In reading order: `compare`, with the comparisons; `tokens`, `signs` and `words`, of `ash_lex`; `declarations`,
//! `trees` with `expression_trees`, `statement_trees` and `item_trees`, and `largest`, of `ash_parse`;
//! `registrations`, `refusals` and `registry_limits`, of `ash_registry`; `sentences`, of the faults of all three;
//! `typing`, of `ash_check` and what it is built on; `sources`, of `ash_sources`.
#![tactic(auto)]

#[cfg(test)]
mod compare;
#[cfg(test)]
mod declarations;
#[cfg(test)]
mod expression_trees;
#[cfg(test)]
mod item_trees;
#[cfg(test)]
mod largest;
#[cfg(test)]
mod refusals;
#[cfg(test)]
mod registrations;
#[cfg(test)]
mod registry_limits;
#[cfg(test)]
mod sentences;
#[cfg(test)]
mod signs;
#[cfg(test)]
mod sources;
#[cfg(test)]
mod statement_trees;
#[cfg(test)]
mod tokens;
#[cfg(test)]
mod trees;
#[cfg(test)]
mod typing;
#[cfg(test)]
mod words;
