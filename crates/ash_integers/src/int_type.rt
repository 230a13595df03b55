//! The four integer types, and the whole number that a word holds.

ghost use Rattle.std.specs.Prelude.{◌≡◌, ◌≤ℤ◌, ◌<ℤ◌, ◌^◌, ◌-◌, pos, negsuc};
ghost use Rattle.ash_integers.specs.Integers.{number_of};

use ash_host::Word;

/// An integer type of scripts. `int32` and `uint32` are other names of `int` and `uint`.
#[derive(Clone, Copy, Debug, PartialEq, Eq)]
pub enum IntType {
    /// `int`: 32 bits, signed
    Int,
    /// `uint`: 32 bits, unsigned
    Uint,
    /// `int64`: 64 bits, signed
    Int64,
    /// `uint64`: 64 bits, unsigned
    Uint64,
}

/// The whole number that a word of an integer type holds; 0 of any other word.
pub fn number(word: Word) -> i128
    ensures value { result ≡ number_of word }
    ensures least { negsuc (2 ^ 63 - 1) ≤ℤ result }
    ensures greatest { result <ℤ pos (2 ^ 64) }
{
    match word {
        Word::Int(number) => number as i128,
        Word::Uint(number) => number as i128,
        Word::Int64(number) => number as i128,
        Word::Uint64(number) => number as i128,
        _ => 0,
    }
}
