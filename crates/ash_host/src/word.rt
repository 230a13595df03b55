//! One value of the script language.

ghost use Rattle.std.specs.Prelude.{◌≡◌};
ghost use Rattle.ash_host.specs.Words.{int_of, int_sum, int_difference, int_product};

/// A value of a script: a truth value, an integer of one of the four types (AngelScript manual,
/// "Primitives"), null, or the number of an object that a handle refers to.
#[derive(Clone, Copy, Debug)]
pub enum Word {
    Bool(bool),
    Int(i32),
    Uint(u32),
    Int64(i64),
    Uint64(u64),
    Null,
    Object(u64),
}

impl Word {
    /// What an `int` holds before anything is written to it.
    pub const ZERO: Word = Word::Int(0);

    /// The number of an `int`. Typed code asks it of nothing else; any other word reads as 0.
    pub fn int(self) -> i32
        ensures number { result ≡ int_of self }
    {
        match self {
            Word::Int(number) => number,
            _ => 0,
        }
    }

    /// The sum of two words of type `int`, which wraps at 32 bits.
    #[tactic(auto, using(std::proofs::lemmas::Int::wraps))]
    pub fn int_sum(self, right: Word) -> Word
        ensures sum { result ≡ int_sum self right }
    {
        Word::Int(self.int().wrapping_add(right.int()))
    }

    /// The difference of two words of type `int`, which wraps at 32 bits.
    #[tactic(auto, using(std::proofs::lemmas::Int::wraps))]
    pub fn int_difference(self, right: Word) -> Word
        ensures difference { result ≡ int_difference self right }
    {
        Word::Int(self.int().wrapping_sub(right.int()))
    }

    /// The product of two words of type `int`, which wraps at 32 bits.
    pub fn int_product(self, right: Word) -> Word
        ensures product { result ≡ int_product self right }
    {
        Word::Int(self.int().wrapping_mul(right.int()))
    }
}
