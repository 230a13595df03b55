//! A module that the machine runs, and the plain evaluator beside it, with boxes of host objects that note what they
//! are asked. What they leave is compared as texts.
//!
//! In reading order: `registered` (what is registered), `lines` (requests as lines), `noted` (boxes that note their
//! calls, what they answer, and that they go), `numbering` (the numbers that boxes got), `boxes` (those of a test),
//! `words` and `texts` (what is left, as a text), `machine` (a module that the machine runs), `plain` (the same by the
//! plain evaluator), `pairs` (one beside the other), `scripts` (scripts whose calls both run).
#![tactic(auto)]

pub mod boxes;
pub mod lines;
pub mod machine;
pub mod noted;
pub mod numbering;
pub mod pairs;
pub mod plain;
pub mod registered;
pub mod scripts;
pub mod texts;
pub mod words;
