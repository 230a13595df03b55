//! Why tokens have no tree.

ghost use Rattle.std.specs.Prelude.{◌≡◌};
ghost use Rattle.ash_parse.specs.ParseFaults.{code_of, part_text};

use ash_lex::UnsupportedWord;
use std::fmt;
use thiserror::Error;

/// A part of AngelScript that this profile does not have.
#[derive(Clone, Copy, Debug, PartialEq, Eq)]
pub enum UnsupportedPart {
    /// The part that this word names.
    Word(UnsupportedWord),
    /// The power sign `**`.
    Power,
    /// The scope sign `::`.
    Scope,
}

impl UnsupportedPart {
    /// The word or sign by which it is reported.
    pub fn as_str(self) -> &'static str
        ensures text { result.now ≡ part_text self }
    {
        match self {
            UnsupportedPart::Word(word) => word.as_str(),
            UnsupportedPart::Power => "**",
            UnsupportedPart::Scope => "::",
        }
    }
}

impl fmt::Display for UnsupportedPart {
    ghost use Rattle.std.specs.Prelude.{Some};

    ghost output = { λ part. Some (part_text part) };

    fn fmt<W: fmt::Write>(&self, f: &mut fmt::Formatter<W>) -> fmt::Result {
        f.write_str(self.as_str())
    }
}

/// Why tokens have no tree. `at` is a byte offset, from 0: that of a token's first byte, or of the end of the last
/// token (0 without tokens) where the tokens end too early.
#[derive(Clone, Copy, Debug, PartialEq, Eq, Error)]
pub enum ParseFault {
    /// The first token that the tokens before it do not go on with, or the end.
    #[error("unexpected token or end at byte {at}")]
    Unexpected { at: usize },
    /// The same, where this token is a word or sign that the profile does not have.
    #[error("`{word}` at byte {at} is not supported")]
    Unsupported { word: UnsupportedPart, at: usize },
    /// The first token that is deeper than 64.
    #[error("the token at byte {at} is nested more than 64 levels deep")]
    TooDeep { at: usize },
    /// Memory ran out.
    #[error("memory was refused")]
    NoMemory,
}

impl ParseFault {
    /// The code by which it is reported: its number and its name, without the word and the offset.
    pub fn code(self) -> &'static str
        ensures coded { result.now ≡ code_of self }
    {
        match self {
            ParseFault::Unexpected { .. } => "104 Unexpected",
            ParseFault::Unsupported { .. } => "105 Unsupported",
            ParseFault::TooDeep { .. } => "106 TooDeep",
            ParseFault::NoMemory => "509 NoMemory",
        }
    }
}
