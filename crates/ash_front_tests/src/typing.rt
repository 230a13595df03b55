//! Tests of the check of scripts that rows of sources for `ashd check` can't make; those rows are in
//! `tests/rows/check`. Here are a registered type that scripts can't construct, limits, expressions by themselves,
//! which `ash_check_expressions` checks, cycles of classes, which `ash_class_cycles` finds, and the slots of locals.
//!
//! `sources` has what is registered and the helpers; each other module is a table or two on one subject.

mod cycles;
mod declared;
mod expressions;
mod foreign;
mod limits;
mod sentences;
mod sources;
mod variables;
