//! Why reading stops.

ghost use Rattle.std.specs.Prelude.{◌≡◌, length};
ghost use Rattle.ash_tree.specs.GrammarTokens.{tokens_of};
ghost use Rattle.ash_parse.specs.declared.error.Stop.TheVariants as stops;

use ash_lex::Token;
use std::alloc::{AllocError, AllocFailed};
use thiserror::Error;

/// Why reading stops, without the tokens that are left.
#[derive(Clone, Copy, Debug, Error)]
pub(crate) enum Stop {
    /// No phrase goes on with the next token, or with the end where there is none.
    #[error("no phrase goes on with the next token, or with the end")]
    Unexpected,
    /// The next token is too deep.
    #[error("the next token is nested too deep")]
    TooDeep,
    /// Memory ran out.
    #[error("memory was refused")]
    NoMemory,
}

/// Why reading stops, with how many tokens there are from the fault on. Where memory ran out that number says nothing.
#[derive(Clone, Copy, Debug, Error)]
#[error("{stop}")]
pub(crate) struct ParseError {
    pub stop: Stop,
    pub left: usize,
}

impl ParseError {
    /// No phrase goes on with the first of these tokens, or with the end where there is none.
    #[tactic(auto, using(crate::proofs::Stops::as_many))]
    pub fn unexpected(rest: &[Token]) -> ParseError
        ensures stop { result.stop ≡ stops.Unexpected }
        ensures left { result.left ≡ length (tokens_of rest.now) }
    {
        ParseError {
            stop: Stop::Unexpected,
            left: rest.len(),
        }
    }

    /// The first of these tokens is too deep.
    #[tactic(auto, using(crate::proofs::Stops::as_many))]
    pub fn too_deep(rest: &[Token]) -> ParseError
        ensures stop { result.stop ≡ stops.TooDeep }
        ensures left { result.left ≡ length (tokens_of rest.now) }
    {
        ParseError {
            stop: Stop::TooDeep,
            left: rest.len(),
        }
    }
}

/// What was read, and the tokens after it.
pub(crate) type ParseResult<'a, T> = Result<(T, &'a [Token]), ParseError>;

impl From<AllocError> for ParseError {
    ghost from_gives = { λ _ error. error.stop ≡ stops.NoMemory };

    fn from(_error: AllocError) -> ParseError {
        ParseError {
            stop: Stop::NoMemory,
            left: 0,
        }
    }
}

impl<T: Drop> From<AllocFailed<T>> for ParseError {
    ghost from_gives = { λ _ error. error.stop ≡ stops.NoMemory };

    fn from(_error: AllocFailed<T>) -> ParseError {
        ParseError {
            stop: Stop::NoMemory,
            left: 0,
        }
    }
}
