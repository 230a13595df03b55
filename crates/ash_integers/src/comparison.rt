//! The comparisons.

ghost use Rattle.std.specs.Prelude.{◌≡◌};
ghost use Rattle.ash_integers.specs.Integers.{compared, number_of};

use crate::int_type::number;
use ash_host::Word;

/// A comparison of two integers.
#[derive(Clone, Copy, Debug, PartialEq, Eq)]
pub enum Comparison {
    /// `<`
    Less,
    /// `<=`
    LessOrEqual,
    /// `>`
    Greater,
    /// `>=`
    GreaterOrEqual,
    /// `==`
    Equal,
    /// `!=`
    NotEqual,
}

/// Whether a comparison holds between the numbers of two words.
pub fn compare(comparison: Comparison, left: Word, right: Word) -> bool
    ensures compared { result ≡ compared comparison (number_of left) (number_of right) }
{
    let (left, right) = (number(left), number(right));
    match comparison {
        Comparison::Less => left < right,
        Comparison::LessOrEqual => left <= right,
        Comparison::Greater => left > right,
        Comparison::GreaterOrEqual => left >= right,
        Comparison::Equal => left == right,
        Comparison::NotEqual => left != right,
    }
}
