//! The next token.

ghost use Rattle.std.specs.Prelude.{◌≡◌, ◌↔◌, IsTrue, string_bytes};
ghost use Rattle.ash_lex.specs.Tokens.{meaning_of};
ghost use Rattle.ash_tree.specs.GrammarTokens.{tokens_of, place_of_token};
ghost use Rattle.ash_parse.specs.SignTokens as signs;
ghost use Rattle.ash_parse.specs.Readers as reading;
ghost use Rattle.ash_parse.specs.ItemReader as item_reader;

use crate::error::{ParseError, ParseResult};
use ash_lex::{Sign, Token, TokenKind};
use ash_tree::Position;
use std::alloc::Global;

/// Where a token begins: its offset in bytes, and its line.
pub fn place(token: &Token) -> Position
    ensures value { result ≡ place_of_token token.now }
{
    Position {
        at: token.from,
        line: token.line,
    }
}

fn equal(a: Sign, b: Sign) -> bool
    ensures exact { IsTrue result ↔ (a ≡ b) }
{
    a == b
}

fn same(a: Sign, b: Sign) -> bool
    ensures value { result ≡ signs.same_sign a b }
{
    equal(a, b)
}

/// Whether a token is this sign.
#[tactic(auto, unfolding(crate::specs::SignTokens::is_sign))]
pub fn is_sign(sign: Sign, token: &Token) -> bool
    ensures value { result ≡ signs.is_sign sign (meaning_of token.now.kind) }
{
    match &token.kind {
        TokenKind::Sign(found) => same(sign, *found),
        _ => false,
    }
}

/// Whether the next token is this sign.
#[tactic(auto, unfolding(crate::specs::Readers::next_is_sign))]
pub fn next_is_sign(sign: Sign, tokens: &[Token]) -> bool
    ensures value { result ≡ reading.next_is_sign sign (tokens_of tokens.now) }
{
    let Some((next, _)) = tokens.split_first() else {
        return false;
    };
    is_sign(sign, next)
}

/// This sign, and what is after it.
#[tactic(auto, unfolding(crate::specs::Readers::expect_at))]
pub fn expect(sign: Sign, tokens: &[Token]) -> ParseResult<'_, Position>
    ensures parsed { reading.ParsesAs (λ x. x) result
        (reading.expect_at sign (tokens_of tokens.now)) }
{
    let Some((next, rest)) = tokens.split_first() else {
        return Err(ParseError::unexpected(tokens));
    };
    if is_sign(sign, next) {
        Ok((place(next), rest))
    } else {
        Err(ParseError::unexpected(tokens))
    }
}

/// A name with its place, and what is after it.
#[tactic(auto, unfolding(crate::specs::Readers::name_at))]
pub fn name(alloc: Global, tokens: &[Token]) -> ParseResult<'_, (String, Position)>
    ensures parsed { reading.ParsesAs (λ x. (string_bytes x.0, x.1)) result
        (reading.name_at (tokens_of tokens.now)) }
{
    let Some((next, rest)) = tokens.split_first() else {
        return Err(ParseError::unexpected(tokens));
    };
    match &next.kind {
        TokenKind::Name(text) => {
            let text = String::from_str(alloc, text.as_str())?;
            Ok(((text, place(next)), rest))
        }
        _ => Err(ParseError::unexpected(tokens)),
    }
}

/// All but the first token.
#[tactic(auto, unfolding(crate::specs::ItemReader::without_first))]
pub fn without_first(tokens: &[Token]) -> &[Token]
    ensures value { tokens_of result.now ≡ item_reader.without_first (tokens_of tokens.now) }
{
    match tokens.split_first() {
        Some((_, rest)) => rest,
        None => tokens,
    }
}
