//! Reads the first two parts of the head of a `for`.
//!
//! Each function reads the phrase that is written above it. `room` is how many phrases that count for the depth may
//! still begin, one in the other.

ghost use Rattle.std.specs.Prelude.{◌≤◌, option_map};
ghost use Rattle.ash_tree.specs.GrammarTokens.{tokens_of};
ghost use Rattle.ash_tree.specs.TreeViews.{expr_of, stmt_of};
ghost use Rattle.ash_parse.specs.Readers.{ParsesAs};
ghost use Rattle.ash_parse.specs.ExpressionReader as exprs;
ghost use Rattle.ash_parse.specs.StatementReader as reader;

use crate::cursor::{expect, next_is_sign};
use crate::data_types::is_vars;
use crate::error::ParseResult;
use crate::expressions::{MAX_DEPTH, nested_assign};
use crate::variables::vars_statement;
use ash_lex::{Sign, Token};
use ash_tree::{Expr, Stmt, StmtKind, nodes};
use std::alloc::Global;

/// `[ vars | assign ] ";"`, in the head of a `for`
#[tactic(auto, unfolding(crate::specs::StatementReader::first_with))]
pub fn first(alloc: Global, room: u32, tokens: &[Token]) -> ParseResult<'_, Stmt>
    requires within { room ≤ MAX_DEPTH }
    ensures parsed { ParsesAs stmt_of result
        (reader.first_with (exprs.below_at room) (tokens_of tokens.now)) }
{
    if next_is_sign(Sign::Semicolon, tokens) {
        let (place, rest) = expect(Sign::Semicolon, tokens)?;
        return Ok((nodes::statement(alloc, place, StmtKind::Empty)?, rest));
    }
    if is_vars(tokens) {
        let (vars, rest) = vars_statement(alloc, room, tokens)?;
        return Ok((nodes::declare(alloc, vars)?, rest));
    }
    let (value, rest) = nested_assign(alloc, room, tokens)?;
    let (_, rest) = expect(Sign::Semicolon, rest)?;
    Ok((nodes::evaluate(alloc, value)?, rest))
}

/// `[assign] ";"`, in the head of a `for`
#[tactic(auto, unfolding(crate::specs::StatementReader::test_with))]
pub fn test(alloc: Global, room: u32, tokens: &[Token]) -> ParseResult<'_, Option<Expr>>
    requires within { room ≤ MAX_DEPTH }
    ensures parsed { ParsesAs (option_map expr_of) result
        (reader.test_with (exprs.below_at room) (tokens_of tokens.now)) }
{
    if next_is_sign(Sign::Semicolon, tokens) {
        let (_, rest) = expect(Sign::Semicolon, tokens)?;
        return Ok((None, rest));
    }
    let (value, rest) = nested_assign(alloc, room, tokens)?;
    let (_, rest) = expect(Sign::Semicolon, rest)?;
    Ok((Some(value), rest))
}
