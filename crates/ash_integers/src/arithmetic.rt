//! The operators on two operands of one type.

ghost use Rattle.std.specs.Prelude.{◌≡◌, pos, int_div, int_rem};
ghost use Rattle.ash_integers.specs.Integers.{calculated, in_word, result_of, divided, number_at};

use crate::int_type::IntType;
use ash_host::Word;
use thiserror::Error;

/// An operator on two integers of one type that gives an integer of this type.
#[derive(Clone, Copy, Debug, PartialEq, Eq)]
pub enum Arithmetic {
    /// `+`, which wraps
    Add,
    /// `-`, which wraps
    Subtract,
    /// `*`, which wraps
    Multiply,
    /// `/`, toward zero
    Divide,
    /// `%`, with the sign of the dividend
    Remainder,
    /// `&`
    BitAnd,
    /// `|`
    BitOr,
    /// `^`
    BitXor,
}

/// Why a quotient or a remainder is refused.
#[derive(Clone, Copy, Debug, PartialEq, Eq, Error)]
pub enum DivisionFault {
    /// The divisor is zero.
    #[error("division by zero")]
    ByZero,
    /// The least number of a signed type is divided by -1.
    #[error("division of the least number of a type by -1")]
    Overflow,
}

/// What an operator gives on two words of this type; a word of another type reads as 0.
pub fn calculate(
    operator: Arithmetic,
    of: IntType,
    left: Word,
    right: Word,
) -> Result<Word, DivisionFault>
    ensures calculated { result ≡ calculated operator of left right }
{
    match of {
        IntType::Int => calculate_int(operator, int(left), int(right)),
        IntType::Uint => calculate_uint(operator, uint(left), uint(right)),
        IntType::Int64 => calculate_int64(operator, int64(left), int64(right)),
        IntType::Uint64 => calculate_uint64(operator, uint64(left), uint64(right)),
    }
}

pub(crate) fn int(word: Word) -> i32
    ensures value { result ≡ number_at IntType.Int word }
{
    if let Word::Int(number) = word {
        number
    } else {
        0
    }
}

pub(crate) fn uint(word: Word) -> u32
    ensures value { pos result ≡ number_at IntType.Uint word }
{
    if let Word::Uint(number) = word {
        number
    } else {
        0
    }
}

pub(crate) fn int64(word: Word) -> i64
    ensures value { result ≡ number_at IntType.Int64 word }
{
    if let Word::Int64(number) = word {
        number
    } else {
        0
    }
}

pub(crate) fn uint64(word: Word) -> u64
    ensures value { pos result ≡ number_at IntType.Uint64 word }
{
    if let Word::Uint64(number) = word {
        number
    } else {
        0
    }
}

#[tactic(auto, using(std::proofs::lemmas::Int::wraps))]
fn calculate_int(operator: Arithmetic, left: i32, right: i32) -> Result<Word, DivisionFault>
    ensures value { result ≡ in_word IntType.Int (result_of operator IntType.Int left right) }
{
    match operator {
        Arithmetic::Add => Ok(Word::Int(left.wrapping_add(right))),
        Arithmetic::Subtract => Ok(Word::Int(left.wrapping_sub(right))),
        Arithmetic::Multiply => Ok(Word::Int(left.wrapping_mul(right))),
        Arithmetic::Divide => Ok(Word::Int(int_quotient(left, right)?)),
        Arithmetic::Remainder => Ok(Word::Int(int_remainder(left, right)?)),
        Arithmetic::BitAnd => Ok(Word::Int(left & right)),
        Arithmetic::BitOr => Ok(Word::Int(left | right)),
        Arithmetic::BitXor => Ok(Word::Int(left ^ right)),
    }
}

fn int_quotient(left: i32, right: i32) -> Result<i32, DivisionFault>
    ensures value { result ≡ divided IntType.Int left right (int_div left right) }
{
    if right == 0 {
        Err(DivisionFault::ByZero)
    } else if right == -1 && left == i32::MIN {
        Err(DivisionFault::Overflow)
    } else {
        Ok(left / right)
    }
}

fn int_remainder(left: i32, right: i32) -> Result<i32, DivisionFault>
    ensures value { result ≡ divided IntType.Int left right (int_rem left right) }
{
    if right == 0 {
        Err(DivisionFault::ByZero)
    } else if right == -1 && left == i32::MIN {
        Err(DivisionFault::Overflow)
    } else {
        Ok(left % right)
    }
}

fn calculate_uint(operator: Arithmetic, left: u32, right: u32) -> Result<Word, DivisionFault>
    ensures value { result ≡ in_word IntType.Uint
        (result_of operator IntType.Uint (pos left) (pos right)) }
{
    match operator {
        Arithmetic::Add => Ok(Word::Uint(left.wrapping_add(right))),
        Arithmetic::Subtract => Ok(Word::Uint(left.wrapping_sub(right))),
        Arithmetic::Multiply => Ok(Word::Uint(left.wrapping_mul(right))),
        Arithmetic::Divide if right != 0 => Ok(Word::Uint(left / right)),
        Arithmetic::Remainder if right != 0 => Ok(Word::Uint(left % right)),
        Arithmetic::Divide | Arithmetic::Remainder => Err(DivisionFault::ByZero),
        Arithmetic::BitAnd => Ok(Word::Uint(left & right)),
        Arithmetic::BitOr => Ok(Word::Uint(left | right)),
        Arithmetic::BitXor => Ok(Word::Uint(left ^ right)),
    }
}

#[tactic(auto, using(std::proofs::lemmas::Int::wraps))]
fn calculate_int64(operator: Arithmetic, left: i64, right: i64) -> Result<Word, DivisionFault>
    ensures value { result ≡ in_word IntType.Int64 (result_of operator IntType.Int64 left right) }
{
    match operator {
        Arithmetic::Add => Ok(Word::Int64(left.wrapping_add(right))),
        Arithmetic::Subtract => Ok(Word::Int64(left.wrapping_sub(right))),
        Arithmetic::Multiply => Ok(Word::Int64(left.wrapping_mul(right))),
        Arithmetic::Divide => Ok(Word::Int64(int64_quotient(left, right)?)),
        Arithmetic::Remainder => Ok(Word::Int64(int64_remainder(left, right)?)),
        Arithmetic::BitAnd => Ok(Word::Int64(left & right)),
        Arithmetic::BitOr => Ok(Word::Int64(left | right)),
        Arithmetic::BitXor => Ok(Word::Int64(left ^ right)),
    }
}

fn int64_quotient(left: i64, right: i64) -> Result<i64, DivisionFault>
    ensures value { result ≡ divided IntType.Int64 left right (int_div left right) }
{
    if right == 0 {
        Err(DivisionFault::ByZero)
    } else if right == -1 && left == i64::MIN {
        Err(DivisionFault::Overflow)
    } else {
        Ok(left / right)
    }
}

fn int64_remainder(left: i64, right: i64) -> Result<i64, DivisionFault>
    ensures value { result ≡ divided IntType.Int64 left right (int_rem left right) }
{
    if right == 0 {
        Err(DivisionFault::ByZero)
    } else if right == -1 && left == i64::MIN {
        Err(DivisionFault::Overflow)
    } else {
        Ok(left % right)
    }
}

fn calculate_uint64(operator: Arithmetic, left: u64, right: u64) -> Result<Word, DivisionFault>
    ensures value { result ≡ in_word IntType.Uint64
        (result_of operator IntType.Uint64 (pos left) (pos right)) }
{
    match operator {
        Arithmetic::Add => Ok(Word::Uint64(left.wrapping_add(right))),
        Arithmetic::Subtract => Ok(Word::Uint64(left.wrapping_sub(right))),
        Arithmetic::Multiply => Ok(Word::Uint64(left.wrapping_mul(right))),
        Arithmetic::Divide if right != 0 => Ok(Word::Uint64(left / right)),
        Arithmetic::Remainder if right != 0 => Ok(Word::Uint64(left % right)),
        Arithmetic::Divide | Arithmetic::Remainder => Err(DivisionFault::ByZero),
        Arithmetic::BitAnd => Ok(Word::Uint64(left & right)),
        Arithmetic::BitOr => Ok(Word::Uint64(left | right)),
        Arithmetic::BitXor => Ok(Word::Uint64(left ^ right)),
    }
}
