//! Why a text has no tokens.

ghost use Rattle.ash_lex.specs.LexCodes.{code_of};
ghost use Rattle.ash_lex.specs.declared.faults.LexFault.TheVariants.{NoMemory};
ghost use Rattle.std.specs.Prelude.{◌≡◌};

use std::alloc::{AllocError, AllocFailed};
use thiserror::Error;

/// Why a text has no tokens. `at` is a byte offset, from 0.
#[derive(Clone, Copy, Debug, PartialEq, Eq, Error)]
pub enum LexFault {
    /// A character that begins no token, no comment and no blank.
    #[error("no token begins with the character at byte {at}")]
    BadCharacter { at: usize },
    /// A `/*` without its `*/`, reported at the `/*`.
    #[error("the comment that begins at byte {at} is not closed")]
    UnclosedComment { at: usize },
    /// A number of 2^64 or more, reported at its first digit.
    #[error("the number at byte {at} is 2^64 or more")]
    NumberTooLarge { at: usize },
    /// A text of more than 65,536 bytes, whatever is in it.
    #[error("the text is longer than 65,536 bytes")]
    SourceTooLong,
    /// Memory ran out.
    #[error("memory was refused")]
    NoMemory,
}

impl LexFault {
    /// The code by which it is reported: its number and its name, without the offset.
    pub fn code(self) -> &'static str
        ensures coded { result.now ≡ code_of self }
    {
        match self {
            LexFault::BadCharacter { .. } => "101 BadCharacter",
            LexFault::UnclosedComment { .. } => "102 UnclosedComment",
            LexFault::NumberTooLarge { .. } => "103 NumberTooLarge",
            LexFault::SourceTooLong => "107 SourceTooLong",
            LexFault::NoMemory => "509 NoMemory",
        }
    }
}

impl From<AllocError> for LexFault {
    ghost from_gives = { λ _ fault. fault ≡ NoMemory };

    fn from(_error: AllocError) -> LexFault {
        LexFault::NoMemory
    }
}

impl<T: Drop> From<AllocFailed<T>> for LexFault {
    ghost from_gives = { λ _ fault. fault ≡ NoMemory };

    fn from(_error: AllocFailed<T>) -> LexFault {
        LexFault::NoMemory
    }
}
