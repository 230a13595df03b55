//! Reads a primary: an operand without what goes before and after it.

ghost use Rattle.std.specs.Prelude.{◌≤◌};
ghost use Rattle.ash_tree.specs.GrammarTokens.{tokens_of};
ghost use Rattle.ash_tree.specs.TreeViews.{expr_of};
ghost use Rattle.ash_parse.specs.Readers.{ParsesAs};
ghost use Rattle.ash_parse.specs.ExpressionReader as reader;

use super::{MAX_DEPTH, arguments, bracketed};
use crate::cursor::{next_is_sign, place};
use crate::data_types::{element, target};
use crate::error::{ParseError, ParseResult};
use crate::operators::primitive;
use ash_lex::{ReservedWord, Sign, Token, TokenKind};
use ash_tree::{Expr, ExprKind, Position, nodes};
use std::alloc::Global;

/// `NUMBER | "true" | "false" | "null" | "this" | NAME [args] | "(" assign ")" | prim "(" assign ")"`, or
/// `"array" "<" elem ">" args | "cast" "<" NAME ">" "(" assign ")"`
#[cycle(expressions)]
#[tactic(auto, unfolding(crate::specs::ExpressionReader::primary_with))]
pub(super) fn primary(alloc: Global, room: u32, tokens: &[Token]) -> ParseResult<'_, Expr>
    requires within { room ≤ MAX_DEPTH }
    ensures parsed { ParsesAs expr_of result
        (reader.primary_with (reader.below_at room) (tokens_of tokens.now)) }
{
    let Some((next, rest)) = tokens.split_first() else {
        return Err(ParseError::unexpected(tokens));
    };
    let place = place(next);
    if let Some(to) = primitive(&next.kind) {
        let (value, rest) = bracketed(alloc, room, rest)?;
        return Ok((nodes::convert(alloc, place, to, value)?, rest));
    }
    let kind = match &next.kind {
        TokenKind::Name(text) => return name_or_call(alloc, room, place, text.as_str(), rest),
        TokenKind::Sign(Sign::OpenParenthesis) => {
            let (inner, rest) = bracketed(alloc, room, tokens)?;
            return Ok((nodes::brackets(alloc, place, inner)?, rest));
        }
        TokenKind::Reserved(ReservedWord::Array) => return new_array(alloc, room, place, rest),
        TokenKind::Reserved(ReservedWord::Cast) => return cast(alloc, room, place, rest),
        TokenKind::Number(value) => ExprKind::Number(*value),
        TokenKind::Reserved(ReservedWord::True) => ExprKind::Bool(true),
        TokenKind::Reserved(ReservedWord::False) => ExprKind::Bool(false),
        TokenKind::Reserved(ReservedWord::Null) => ExprKind::Null,
        TokenKind::Reserved(ReservedWord::This) => ExprKind::This,
        _ => return Err(ParseError::unexpected(tokens)),
    };
    Ok((nodes::expression(alloc, place, kind)?, rest))
}

/// `"<" elem ">" args`, after the word `array`
#[cycle(expressions)]
#[tactic(auto, unfolding(crate::specs::ExpressionReader::new_array_with))]
fn new_array(alloc: Global, room: u32, place: Position, tokens: &[Token]) -> ParseResult<'_, Expr>
    requires within { room ≤ MAX_DEPTH }
    ensures parsed { ParsesAs expr_of result
        (reader.new_array_with (reader.below_at room) place (tokens_of tokens.now)) }
{
    let (of, rest) = element(alloc, tokens)?;
    let (arguments, rest) = arguments(alloc, room, rest)?;
    Ok((nodes::new_array(alloc, place, of, arguments)?, rest))
}

/// `"<" NAME ">" "(" assign ")"`, after the word `cast`
#[cycle(expressions)]
#[tactic(auto, unfolding(crate::specs::ExpressionReader::cast_with))]
fn cast(alloc: Global, room: u32, place: Position, tokens: &[Token]) -> ParseResult<'_, Expr>
    requires within { room ≤ MAX_DEPTH }
    ensures parsed { ParsesAs expr_of result
        (reader.cast_with (reader.below_at room) place (tokens_of tokens.now)) }
{
    let (to, rest) = target(alloc, tokens)?;
    let (value, rest) = bracketed(alloc, room, rest)?;
    Ok((nodes::cast(alloc, place, to, value)?, rest))
}

/// `NAME [args]`, after the name
#[cycle(expressions)]
#[tactic(auto, unfolding(crate::specs::ExpressionReader::name_or_call_with))]
fn name_or_call<'a>(
    alloc: Global,
    room: u32,
    place: Position,
    text: &str,
    tokens: &'a [Token],
) -> ParseResult<'a, Expr>
    requires within { room ≤ MAX_DEPTH }
    ensures parsed { ParsesAs expr_of result
        (reader.name_or_call_with (reader.below_at room) place text.now (tokens_of tokens.now)) }
{
    let name = String::from_str(alloc, text)?;
    if !next_is_sign(Sign::OpenParenthesis, tokens) {
        let kind = ExprKind::Name(name);
        return Ok((nodes::expression(alloc, place, kind)?, tokens));
    }
    let (arguments, rest) = arguments(alloc, room, tokens)?;
    Ok((nodes::call(alloc, place, name, arguments)?, rest))
}
