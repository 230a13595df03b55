//! The shifts.

ghost use Rattle.std.specs.Prelude.{◌≡◌, ◌%◌, pos};
ghost use Rattle.std.specs.Int.{int_rem_euclid};
ghost use Rattle.ash_integers.specs.Integers.{shifted, shifted_by, number_of, word_at, count_of};

use crate::arithmetic::{int, int64, uint, uint64};
use crate::int_type::{IntType, number};
use ash_host::Word;

/// A shift of an integer by a count of any integer type. The count is taken modulo the width of the left operand.
#[derive(Clone, Copy, Debug, PartialEq, Eq)]
pub enum Shift {
    /// `<<`
    Left,
    /// `>>`, which shifts zeros in
    Right,
    /// `>>>`, which copies the top bit, whatever the sign of the type
    RightArithmetic,
}

/// What a shift gives on a word of this type; a word of another type reads as 0.
pub fn shift_by(operator: Shift, of: IntType, left: Word, count: Word) -> Word
    ensures shifted { result ≡ shifted operator of left count }
{
    match of {
        IntType::Int => shift_int(operator, int(left), count_32(count)),
        IntType::Uint => shift_uint(operator, uint(left), count_32(count)),
        IntType::Int64 => shift_int64(operator, int64(left), count_64(count)),
        IntType::Uint64 => shift_uint64(operator, uint64(left), count_64(count)),
    }
}

fn count_32(count: Word) -> u32
    ensures value { pos result ≡ int_rem_euclid (number_of count) (pos 32) }
{
    number(count).rem_euclid(32) as u32
}

fn count_64(count: Word) -> u32
    ensures value { pos result ≡ int_rem_euclid (number_of count) (pos 64) }
{
    number(count).rem_euclid(64) as u32
}

fn shift_int(operator: Shift, left: i32, count: u32) -> Word
    ensures value { result
        ≡ word_at IntType.Int (shifted_by operator IntType.Int left (count % 32)) }
{
    let bits = left.cast_unsigned();
    Word::Int(match operator {
        Shift::Left => bits.wrapping_shl(count).cast_signed(),
        Shift::Right => bits.wrapping_shr(count).cast_signed(),
        Shift::RightArithmetic => left.wrapping_shr(count),
    })
}

fn shift_uint(operator: Shift, left: u32, count: u32) -> Word
    ensures value { result ≡ word_at IntType.Uint
        (shifted_by operator IntType.Uint (pos left) (count % 32)) }
{
    Word::Uint(match operator {
        Shift::Left => left.wrapping_shl(count),
        Shift::Right => left.wrapping_shr(count),
        Shift::RightArithmetic => left.cast_signed().wrapping_shr(count).cast_unsigned(),
    })
}

fn shift_int64(operator: Shift, left: i64, count: u32) -> Word
    ensures value { result ≡ word_at IntType.Int64
        (shifted_by operator IntType.Int64 left (count % 64)) }
{
    let bits = left.cast_unsigned();
    Word::Int64(match operator {
        Shift::Left => bits.wrapping_shl(count).cast_signed(),
        Shift::Right => bits.wrapping_shr(count).cast_signed(),
        Shift::RightArithmetic => left.wrapping_shr(count),
    })
}

fn shift_uint64(operator: Shift, left: u64, count: u32) -> Word
    ensures value { result ≡ word_at IntType.Uint64
        (shifted_by operator IntType.Uint64 (pos left) (count % 64)) }
{
    Word::Uint64(match operator {
        Shift::Left => left.wrapping_shl(count),
        Shift::Right => left.wrapping_shr(count),
        Shift::RightArithmetic => left.cast_signed().wrapping_shr(count).cast_unsigned(),
    })
}
