//! Tests of how a source is checked, read and refused, of `ash_sources`, with memory that is ample.
//!
//! In reading order: `checks`, with the helpers; `reading`, `names`, `checking` and `registered`.

mod checking;
pub(crate) mod checks;
mod names;
mod reading;
mod registered;
