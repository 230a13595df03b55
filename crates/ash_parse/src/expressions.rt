//! Reads an expression.
//!
//! Each function reads the phrase that is written above it. `room` is how many phrases that count for the depth may
//! still begin, one in the other.

ghost use Rattle.std.specs.Prelude.{◌<◌, ◌≤◌, map, true, false};
ghost use Rattle.ash_tree.specs.GrammarTokens.{tokens_of};
ghost use Rattle.ash_tree.specs.TreeViews.{expr_of, suffix_of, operation_of};
ghost use Rattle.ash_parse.specs.Readers.{ParsesAs, Fails, put};
ghost use Rattle.ash_parse.specs.ExpressionReader as reader;

use crate::cursor::{expect, is_sign, name, next_is_sign, place};
use crate::error::{ParseError, ParseResult};
use crate::operators::{
    MAX_LEVEL, assign_operator, begins_expression, begins_link, begins_suffix, next_level,
    operator, unary_operator,
};
use ash_lex::{Sign, Token, TokenKind};
use ash_tree::{Expr, Link, Suffix, nodes};
use conditionals::branches;
use primaries::primary;
use std::alloc::Global;

mod conditionals;
mod primaries;

/// How deep a token is at most.
pub const MAX_DEPTH: u32 = 64;

/// Why a phrase can't begin where no deeper one may.
#[tactic(auto, unfolding(crate::specs::ExpressionReader::limit_at))]
fn limit(tokens: &[Token]) -> ParseError
    ensures fails { Fails result (reader.limit_at (tokens_of tokens.now)) }
{
    let Some((next, _)) = tokens.split_first() else {
        return ParseError::unexpected(tokens);
    };
    if begins_expression(&next.kind) {
        ParseError::too_deep(tokens)
    } else {
        ParseError::unexpected(tokens)
    }
}

/// An `assign` that is one deeper.
#[cycle(expressions)]
pub fn nested_assign(alloc: Global, room: u32, tokens: &[Token]) -> ParseResult<'_, Expr>
    requires within { room ≤ MAX_DEPTH }
    ensures parsed { ParsesAs expr_of result (reader.below_at room true (tokens_of tokens.now)) }
{
    if room == 0 {
        return Err(limit(tokens));
    }
    assign(alloc, room - 1, tokens)
}

/// A `unary` that is one deeper.
#[cycle(expressions)]
fn nested_unary(alloc: Global, room: u32, tokens: &[Token]) -> ParseResult<'_, Expr>
    requires within { room ≤ MAX_DEPTH }
    ensures parsed { ParsesAs expr_of result (reader.below_at room false (tokens_of tokens.now)) }
{
    if room == 0 {
        return Err(limit(tokens));
    }
    unary(alloc, room - 1, tokens)
}

/// `cond [ aop assign ]`, where `cond` is `binary [ "?" assign ":" assign ]`
#[cycle(expressions)]
#[tactic(auto, unfolding(crate::specs::ExpressionReader::assign_with, crate::specs::ExpressionReader::assign_from))]
pub fn assign(alloc: Global, room: u32, tokens: &[Token]) -> ParseResult<'_, Expr>
    requires within { room ≤ MAX_DEPTH }
    ensures parsed { ParsesAs expr_of result
        (reader.assign_with (reader.below_at room) (tokens_of tokens.now)) }
{
    let (target, rest) = binary(alloc, MAX_LEVEL, room, tokens)?;
    let Some((next, after)) = rest.split_first() else {
        return Ok((target, rest));
    };
    if is_sign(Sign::Question, next) {
        return branches(alloc, room, target, after);
    }
    let Some(operator) = assign_operator(&next.kind) else {
        return Ok((target, rest));
    };
    let (value, rest) = nested_assign(alloc, room, after)?;
    Ok((nodes::assign(alloc, target, operator, value)?, rest))
}

/// What operators up to this level join, from the tightest level on; without a level a `unary`.
#[cycle(expressions)]
fn binary(alloc: Global, level: u32, room: u32, tokens: &[Token]) -> ParseResult<'_, Expr>
    requires loosest { level ≤ MAX_LEVEL }
    requires room { room ≤ MAX_DEPTH }
    ensures parsed { ParsesAs expr_of result
        (reader.binary_with (reader.below_at room) level (tokens_of tokens.now)) }
{
    let (mut joined, mut rest) = unary(alloc, room, tokens)?;
    let mut reached = 0;
    let mut next = next_level(rest);
    'climb: while reached < next && next <= level {
        let (links, after) = links(alloc, next - 1, room, rest)?;
        joined = nodes::binary(alloc, joined, links)?;
        rest = after;
        reached = next;
        next = next_level(rest);
    }
    Ok((joined, rest))
}

/// The operators that join operands of this level, each with its right operand. Mostly there is one.
#[cycle(expressions)]
fn links(alloc: Global, level: u32, room: u32, tokens: &[Token]) -> ParseResult<'_, Vec<Link>>
    requires loosest { level < MAX_LEVEL }
    requires room { room ≤ MAX_DEPTH }
    ensures parsed { ParsesAs (λ xs. map operation_of xs.items) result
        (reader.links_by level (reader.binary_with (reader.below_at room) level)
        (tokens_of tokens.now)) }
{
    let mut links = Vec::with_capacity(alloc, 1)?;
    let mut rest = tokens;
    'more: while begins_link(level, rest) {
        let (next, after) = link(alloc, level, room, rest)?;
        links.push(next)?;
        rest = after;
    }
    Ok((links, rest))
}

#[cycle(expressions)]
#[tactic(auto, unfolding(crate::specs::ExpressionReader::link_by))]
fn link(alloc: Global, level: u32, room: u32, tokens: &[Token]) -> ParseResult<'_, Link>
    requires loosest { level < MAX_LEVEL }
    requires room { room ≤ MAX_DEPTH }
    ensures parsed { ParsesAs operation_of result
        (reader.link_by level (reader.binary_with (reader.below_at room) level)
        (tokens_of tokens.now)) }
{
    let Some((operator, rest)) = operator(level, tokens) else {
        return Err(ParseError::unexpected(tokens));
    };
    let (operand, rest) = binary(alloc, level, room, rest)?;
    Ok((Link { operator, operand }, rest))
}

/// `( + - ! ~ ++ -- @ ) unary | postfix`
#[cycle(expressions)]
#[tactic(auto, unfolding(crate::specs::ExpressionReader::unary_with))]
fn unary(alloc: Global, room: u32, tokens: &[Token]) -> ParseResult<'_, Expr>
    requires within { room ≤ MAX_DEPTH }
    ensures parsed { ParsesAs expr_of result
        (reader.unary_with (reader.below_at room) (tokens_of tokens.now)) }
{
    let Some((next, rest)) = tokens.split_first() else {
        return Err(ParseError::unexpected(tokens));
    };
    let Some(operator) = unary_operator(&next.kind) else {
        return postfix(alloc, room, tokens);
    };
    let place = place(next);
    let (operand, rest) = nested_unary(alloc, room, rest)?;
    Ok((nodes::unary(alloc, place, operator, operand)?, rest))
}

/// `primary { suffix }`
#[cycle(expressions)]
#[tactic(auto, unfolding(crate::specs::ExpressionReader::postfix_with))]
fn postfix(alloc: Global, room: u32, tokens: &[Token]) -> ParseResult<'_, Expr>
    requires within { room ≤ MAX_DEPTH }
    ensures parsed { ParsesAs expr_of result
        (reader.postfix_with (reader.below_at room) (tokens_of tokens.now)) }
{
    let (operand, rest) = primary(alloc, room, tokens)?;
    if !begins_suffix(rest) {
        return Ok((operand, rest));
    }
    let (suffixes, rest) = suffixes(alloc, room, rest)?;
    Ok((nodes::postfix(alloc, operand, suffixes)?, rest))
}

/// `suffix { suffix }`. Mostly there is one.
#[cycle(expressions)]
fn suffixes(alloc: Global, room: u32, tokens: &[Token]) -> ParseResult<'_, Vec<Suffix>>
    requires within { room ≤ MAX_DEPTH }
    ensures parsed { ParsesAs (λ xs. map suffix_of xs.items) result
        (reader.suffixes_with (reader.below_at room) (tokens_of tokens.now)) }
{
    let mut suffixes = Vec::with_capacity(alloc, 1)?;
    let mut rest = tokens;
    'more: while begins_suffix(rest) {
        let (next, after) = suffix(alloc, room, rest)?;
        suffixes.push(next)?;
        rest = after;
    }
    Ok((suffixes, rest))
}

/// `"." NAME [args] | "[" assign "]" | "++" | "--"`
#[cycle(expressions)]
#[tactic(auto, unfolding(crate::specs::ExpressionReader::suffix_with))]
fn suffix(alloc: Global, room: u32, tokens: &[Token]) -> ParseResult<'_, Suffix>
    requires within { room ≤ MAX_DEPTH }
    ensures parsed { ParsesAs suffix_of result
        (reader.suffix_with (reader.below_at room) (tokens_of tokens.now)) }
{
    let Some((next, rest)) = tokens.split_first() else {
        return Err(ParseError::unexpected(tokens));
    };
    match &next.kind {
        TokenKind::Sign(Sign::Dot) => member(alloc, room, rest),
        TokenKind::Sign(Sign::OpenBracket) => index(alloc, room, rest),
        TokenKind::Sign(Sign::Increment) => Ok((Suffix::Increment, rest)),
        TokenKind::Sign(Sign::Decrement) => Ok((Suffix::Decrement, rest)),
        _ => Err(ParseError::unexpected(tokens)),
    }
}

/// `NAME [args]`, after the `.`
#[cycle(expressions)]
#[tactic(auto, unfolding(crate::specs::ExpressionReader::member_with))]
fn member(alloc: Global, room: u32, tokens: &[Token]) -> ParseResult<'_, Suffix>
    requires within { room ≤ MAX_DEPTH }
    ensures parsed { ParsesAs suffix_of result
        (reader.member_with (reader.below_at room) (tokens_of tokens.now)) }
{
    let ((name, place), rest) = name(alloc, tokens)?;
    if !next_is_sign(Sign::OpenParenthesis, rest) {
        return Ok((Suffix::Field { place, name }, rest));
    }
    let (arguments, rest) = arguments(alloc, room, rest)?;
    Ok((nodes::method(place, name, arguments), rest))
}

/// `assign "]"`, after the `[`
#[cycle(expressions)]
#[tactic(auto, unfolding(crate::specs::ExpressionReader::index_with))]
fn index(alloc: Global, room: u32, tokens: &[Token]) -> ParseResult<'_, Suffix>
    requires within { room ≤ MAX_DEPTH }
    ensures parsed { ParsesAs suffix_of result
        (reader.index_with (reader.below_at room) (tokens_of tokens.now)) }
{
    let (value, rest) = nested_assign(alloc, room, tokens)?;
    let (_, rest) = expect(Sign::CloseBracket, rest)?;
    Ok((nodes::index(value), rest))
}

/// `"(" assign ")"`
#[cycle(expressions)]
#[tactic(auto, unfolding(crate::specs::ExpressionReader::bracketed_with))]
pub fn bracketed(alloc: Global, room: u32, tokens: &[Token]) -> ParseResult<'_, Expr>
    requires within { room ≤ MAX_DEPTH }
    ensures parsed { ParsesAs expr_of result
        (reader.bracketed_with (reader.below_at room) (tokens_of tokens.now)) }
{
    let (_, rest) = expect(Sign::OpenParenthesis, tokens)?;
    let (inner, rest) = nested_assign(alloc, room, rest)?;
    let (_, rest) = expect(Sign::CloseParenthesis, rest)?;
    Ok((inner, rest))
}

/// `"(" [ assign { "," assign } ] ")"`
#[cycle(expressions)]
#[tactic(auto, unfolding(crate::specs::ExpressionReader::arguments_with))]
pub fn arguments(alloc: Global, room: u32, tokens: &[Token]) -> ParseResult<'_, Vec<Expr>>
    requires within { room ≤ MAX_DEPTH }
    ensures parsed { ParsesAs (λ xs. map expr_of xs.items) result
        (reader.arguments_with (reader.below_at room) (tokens_of tokens.now)) }
{
    let (_, rest) = expect(Sign::OpenParenthesis, tokens)?;
    let (arguments, rest) = expressions(alloc, room, rest)?;
    let (_, rest) = expect(Sign::CloseParenthesis, rest)?;
    Ok((arguments, rest))
}

/// `[ assign { "," assign } ]`, before a `)`
#[cycle(expressions)]
#[tactic(auto, unfolding(crate::specs::ExpressionReader::exprs_with))]
pub fn expressions(alloc: Global, room: u32, tokens: &[Token]) -> ParseResult<'_, Vec<Expr>>
    requires within { room ≤ MAX_DEPTH }
    ensures parsed { ParsesAs (λ xs. map expr_of xs.items) result
        (reader.exprs_with (reader.below_at room) (tokens_of tokens.now)) }
{
    if next_is_sign(Sign::CloseParenthesis, tokens) {
        return Ok((Vec::new(alloc), tokens));
    }
    let (first, rest) = nested_assign(alloc, room, tokens)?;
    more_expressions(alloc, room, first, rest)
}

/// `{ "," assign }`, after the first
#[cycle(expressions)]
fn more_expressions<'a>(
    alloc: Global,
    room: u32,
    first: Expr,
    tokens: &'a [Token],
) -> ParseResult<'a, Vec<Expr>>
    requires within { room ≤ MAX_DEPTH }
    ensures parsed { ParsesAs (λ xs. map expr_of xs.items) result
        (put (expr_of first)
        (reader.more_exprs_with (reader.below_at room) (tokens_of tokens.now))) }
{
    let mut all = Vec::with_capacity(alloc, 1)?;
    all.push(first)?;
    let mut rest = tokens;
    'more: while next_is_sign(Sign::Comma, rest) {
        let (next, after) = next_expression(alloc, room, rest)?;
        all.push(next)?;
        rest = after;
    }
    Ok((all, rest))
}

/// `"," assign`
#[cycle(expressions)]
#[tactic(auto, unfolding(crate::specs::ExpressionReader::next_expr_with))]
fn next_expression(alloc: Global, room: u32, tokens: &[Token]) -> ParseResult<'_, Expr>
    requires within { room ≤ MAX_DEPTH }
    ensures parsed { ParsesAs expr_of result
        (reader.next_expr_with (reader.below_at room) (tokens_of tokens.now)) }
{
    let (_, rest) = expect(Sign::Comma, tokens)?;
    nested_assign(alloc, room, rest)
}
