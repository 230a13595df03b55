//! Reads declarations of variables.
//!
//! Each function reads the phrase that is written above it. `room` is how many phrases that count for the depth may
//! still begin, one in the other.

ghost use Rattle.std.specs.Prelude.{◌≤◌, map};
ghost use Rattle.ash_tree.specs.GrammarTokens.{tokens_of};
ghost use Rattle.ash_tree.specs.TreeViews.{decl_of, initializer_of, vars_of};
ghost use Rattle.ash_parse.specs.Readers.{ParsesAs, put};
ghost use Rattle.ash_parse.specs.ExpressionReader as exprs;
ghost use Rattle.ash_parse.specs.StatementReader as reader;
ghost use Rattle.ash_parse.specs.ItemReader as item_reader;

use crate::cursor::{expect, name, next_is_sign};
use crate::data_types::type_name;
use crate::error::ParseResult;
use crate::expressions::{MAX_DEPTH, arguments, assign};
use ash_lex::{Sign, Token};
use ash_tree::{Decl, Initializer, Vars};
use std::alloc::Global;

/// `[ "=" assign | args ]`
#[tactic(auto, unfolding(crate::specs::StatementReader::initializer_with))]
fn initializer(alloc: Global, room: u32, tokens: &[Token]) -> ParseResult<'_, Initializer>
    requires within { room ≤ MAX_DEPTH }
    ensures parsed { ParsesAs initializer_of result
        (reader.initializer_with (exprs.below_at room) (tokens_of tokens.now)) }
{
    if next_is_sign(Sign::Assign, tokens) {
        let (_, rest) = expect(Sign::Assign, tokens)?;
        let (value, rest) = assign(alloc, room, rest)?;
        return Ok((Initializer::Value(value), rest));
    }
    if next_is_sign(Sign::OpenParenthesis, tokens) {
        let (arguments, rest) = arguments(alloc, room, tokens)?;
        return Ok((Initializer::Arguments(arguments), rest));
    }
    Ok((Initializer::Default, tokens))
}

/// `NAME [ "=" assign | args ]`
#[tactic(auto, unfolding(crate::specs::StatementReader::decl_with))]
fn decl(alloc: Global, room: u32, tokens: &[Token]) -> ParseResult<'_, Decl>
    requires within { room ≤ MAX_DEPTH }
    ensures parsed { ParsesAs decl_of result
        (reader.decl_with (exprs.below_at room) (tokens_of tokens.now)) }
{
    let ((name, place), rest) = name(alloc, tokens)?;
    let (initializer, rest) = initializer(alloc, room, rest)?;
    let decl = Decl {
        place,
        name,
        initializer,
    };
    Ok((decl, rest))
}

/// `"," decl`
#[tactic(auto, unfolding(crate::specs::StatementReader::next_decl_with))]
fn next_decl(alloc: Global, room: u32, tokens: &[Token]) -> ParseResult<'_, Decl>
    requires within { room ≤ MAX_DEPTH }
    ensures parsed { ParsesAs decl_of result
        (reader.next_decl_with (exprs.below_at room) (tokens_of tokens.now)) }
{
    let (_, rest) = expect(Sign::Comma, tokens)?;
    decl(alloc, room, rest)
}

/// `{ "," decl }`, after the first. Mostly there is none.
fn more_decls<'a>(
    alloc: Global,
    room: u32,
    first: Decl,
    tokens: &'a [Token],
) -> ParseResult<'a, Vec<Decl>>
    requires within { room ≤ MAX_DEPTH }
    ensures parsed { ParsesAs (λ xs. map decl_of xs.items) result
        (put (decl_of first)
        (reader.more_decls_with (exprs.below_at room) (tokens_of tokens.now))) }
{
    let mut all = Vec::with_capacity(alloc, 1)?;
    all.push(first)?;
    let mut rest = tokens;
    'more: while next_is_sign(Sign::Comma, rest) {
        let (next, after) = next_decl(alloc, room, rest)?;
        all.push(next)?;
        rest = after;
    }
    Ok((all, rest))
}

/// `decl { "," decl }`
#[tactic(auto, unfolding(crate::specs::StatementReader::decls_with))]
fn decls(alloc: Global, room: u32, tokens: &[Token]) -> ParseResult<'_, Vec<Decl>>
    requires within { room ≤ MAX_DEPTH }
    ensures parsed { ParsesAs (λ xs. map decl_of xs.items) result
        (reader.decls_with (exprs.below_at room) (tokens_of tokens.now)) }
{
    let (first, rest) = decl(alloc, room, tokens)?;
    more_decls(alloc, room, first, rest)
}

/// `type decl { "," decl }`
#[tactic(auto, unfolding(crate::specs::StatementReader::vars_with))]
fn vars(alloc: Global, room: u32, tokens: &[Token]) -> ParseResult<'_, Vars>
    requires within { room ≤ MAX_DEPTH }
    ensures parsed { ParsesAs vars_of result
        (reader.vars_with (exprs.below_at room) (tokens_of tokens.now)) }
{
    let (of, rest) = type_name(alloc, tokens)?;
    let (decls, rest) = decls(alloc, room, rest)?;
    Ok((Vars { of, decls }, rest))
}

/// `vars ";"`
#[tactic(auto, unfolding(crate::specs::StatementReader::vars_statement_with))]
pub fn vars_statement(alloc: Global, room: u32, tokens: &[Token]) -> ParseResult<'_, Vars>
    requires within { room ≤ MAX_DEPTH }
    ensures parsed { ParsesAs vars_of result
        (reader.vars_statement_with (exprs.below_at room) (tokens_of tokens.now)) }
{
    let (vars, rest) = vars(alloc, room, tokens)?;
    let (_, rest) = expect(Sign::Semicolon, rest)?;
    Ok((vars, rest))
}

/// `vars ";"`, outside functions
#[tactic(auto, unfolding(crate::specs::ItemReader::globals_at))]
pub fn globals(alloc: Global, tokens: &[Token]) -> ParseResult<'_, Vars>
    ensures parsed { ParsesAs vars_of result (item_reader.globals_at (tokens_of tokens.now)) }
{
    vars_statement(alloc, MAX_DEPTH, tokens)
}
