//! Conversions, and the operators of one operand.

ghost use Rattle.std.specs.Prelude.{◌≡◌, ◌^◌, ◌-ℤ◌, pos, unsigned_abs};
ghost use Rattle.std.specs.Int.{int_rem_euclid};
ghost use Rattle.ash_integers.specs.Integers.{number_of, word_of, complement_of};

use crate::int_type::{IntType, number};
use ash_host::Word;

/// The word of this type that a whole number leaves: its low 32 or 64 bits, read as the type reads them.
pub fn word_from(of: IntType, number: i128) -> Word
    ensures low_bits { result ≡ word_of of number }
{
    match of {
        IntType::Int => Word::Int(low_32_bits(number).cast_signed()),
        IntType::Uint => Word::Uint(low_32_bits(number)),
        IntType::Int64 => Word::Int64(low_64_bits(number).cast_signed()),
        IntType::Uint64 => Word::Uint64(low_64_bits(number)),
    }
}

fn low_32_bits(number: i128) -> u32
    ensures value { result ≡ unsigned_abs (int_rem_euclid number (pos (2 ^ 32))) }
{
    number.rem_euclid(1 << 32) as u32
}

fn low_64_bits(number: i128) -> u64
    ensures value { result ≡ unsigned_abs (int_rem_euclid number (pos (2 ^ 64))) }
{
    number.rem_euclid(1 << 64) as u64
}

/// An integer converted to this type, as `uint(x)` and assignment do: the low bits stay.
pub fn convert(to: IntType, word: Word) -> Word
    ensures converted { result ≡ word_of to (number_of word) }
{
    word_from(to, number(word))
}

/// `-x` at this type, which wraps.
pub fn negate(of: IntType, word: Word) -> Word
    ensures negated { result ≡ word_of of (pos 0 -ℤ number_of word) }
{
    word_from(of, 0 - number(word))
}

/// `~x` at this type: each bit is the other one.
pub fn complement(of: IntType, word: Word) -> Word
    ensures complemented { result ≡ word_of of (complement_of (number_of word)) }
{
    word_from(of, -1 - number(word))
}
