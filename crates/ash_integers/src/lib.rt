//! The integers of scripts (AngelScript manual, "Primitives", "Math operators", "Bitwise operators").
//!
//! Four types, eleven operators and the conversions among the types, each defined once over whole numbers in
//! `specs/Integers.antt` and computed here on machine words. It uses `ash_host`, whose words hold the
//! integers. It promises that every operator and conversion gives the word that the definition gives, and that
//! a quotient or a remainder is refused exactly where the definition refuses it.
//!
//! In reading order: `int_type` (the four types, and how words hold their numbers), `conversion`, `arithmetic`,
//! `shift`, `comparison`.
#![tactic(auto)]

mod arithmetic;
mod comparison;
mod conversion;
mod int_type;
mod shift;

pub use arithmetic::{Arithmetic, DivisionFault, calculate};
pub use comparison::{Comparison, compare};
pub use conversion::{complement, convert, negate, word_from};
pub use int_type::{IntType, number};
pub use shift::{Shift, shift_by};
