//! Reads the labels of a `switch`.
//!
//! Each function reads the phrase that is written above it.

ghost use Rattle.ash_tree.specs.GrammarTokens.{tokens_of};
ghost use Rattle.ash_parse.specs.Readers.{ParsesAs};
ghost use Rattle.ash_parse.specs.StatementReader as reader;

use crate::cursor::{expect, next_is_sign, place};
use crate::error::{ParseError, ParseResult};
use crate::stmt_tokens::{StmtToken, stmt_token};
use ash_lex::{Sign, Token, TokenKind};
use ash_tree::{Label, Position};

/// A number with its place.
#[tactic(auto, unfolding(crate::specs::StatementReader::number_at))]
fn number(tokens: &[Token]) -> ParseResult<'_, (u64, Position)>
    ensures parsed { ParsesAs (λ x. (x.0, x.1)) result (reader.number_at (tokens_of tokens.now)) }
{
    let Some((next, rest)) = tokens.split_first() else {
        return Err(ParseError::unexpected(tokens));
    };
    match &next.kind {
        TokenKind::Number(value) => Ok(((*value, place(next)), rest)),
        _ => Err(ParseError::unexpected(tokens)),
    }
}

/// `["-"] NUMBER ":"`, at its first token
#[tactic(auto, unfolding(crate::specs::StatementReader::case_value_at))]
fn case_value(tokens: &[Token]) -> ParseResult<'_, (Label, Position)>
    ensures parsed { ParsesAs (λ x. (x.0, x.1)) result
        (reader.case_value_at (tokens_of tokens.now)) }
{
    if next_is_sign(Sign::Minus, tokens) {
        let (place, rest) = expect(Sign::Minus, tokens)?;
        let ((value, _), rest) = number(rest)?;
        let (_, rest) = expect(Sign::Colon, rest)?;
        return Ok(((Label::CaseMinus(value), place), rest));
    }
    let ((value, place), rest) = number(tokens)?;
    let (_, rest) = expect(Sign::Colon, rest)?;
    Ok(((Label::Case(value), place), rest))
}

/// `("case" ["-"] NUMBER | "default") ":"`, at the constant or at the word `default`
#[tactic(auto, unfolding(crate::specs::StatementReader::label_at))]
pub fn label(tokens: &[Token]) -> ParseResult<'_, (Label, Position)>
    ensures parsed { ParsesAs (λ x. (x.0, x.1)) result (reader.label_at (tokens_of tokens.now)) }
{
    let Some((next, rest)) = tokens.split_first() else {
        return Err(ParseError::unexpected(tokens));
    };
    match stmt_token(&next.kind) {
        StmtToken::Case => case_value(rest),
        StmtToken::Default => {
            let place = place(next);
            let (_, rest) = expect(Sign::Colon, rest)?;
            Ok(((Label::Default, place), rest))
        }
        _ => Err(ParseError::unexpected(tokens)),
    }
}
