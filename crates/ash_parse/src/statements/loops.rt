//! Reads loops.

ghost use Rattle.std.specs.Prelude.{◌≤◌};
ghost use Rattle.ash_tree.specs.GrammarTokens.{tokens_of};
ghost use Rattle.ash_tree.specs.TreeViews.{stmt_of};
ghost use Rattle.ash_parse.specs.Readers.{ParsesAs};
ghost use Rattle.ash_parse.specs.ExpressionReader as exprs;
ghost use Rattle.ash_parse.specs.StatementReader as reader;

use super::nested;
use crate::cursor::expect;
use crate::error::ParseResult;
use crate::expressions::{MAX_DEPTH, bracketed, expressions};
use crate::for_heads::{first, test};
use crate::stmt_tokens::expect_while;
use ash_lex::{Sign, Token};
use ash_tree::{Position, Stmt, StmtKind, nodes};
use std::alloc::Global;

/// `"(" assign ")" stmt`, after the `while`
#[cycle(statements)]
#[tactic(auto, unfolding(crate::specs::StatementReader::while_with))]
pub(super) fn while_statement<'a>(
    alloc: Global,
    room: u32,
    place: Position,
    tokens: &'a [Token],
) -> ParseResult<'a, Stmt>
    requires within { room ≤ MAX_DEPTH }
    ensures parsed { ParsesAs stmt_of result
        (reader.while_with (exprs.below_at room) (reader.nested_at room) place
        (tokens_of tokens.now)) }
{
    let (condition, rest) = bracketed(alloc, room, tokens)?;
    let (body, rest) = nested(alloc, room, rest)?;
    let kind = StmtKind::While { condition, body };
    Ok((nodes::statement(alloc, place, kind)?, rest))
}

/// `stmt "while" "(" assign ")" ";"`, after the `do`
#[cycle(statements)]
#[tactic(auto, unfolding(crate::specs::StatementReader::do_with, crate::specs::StatementReader::do_end_with))]
pub(super) fn do_statement<'a>(
    alloc: Global,
    room: u32,
    place: Position,
    tokens: &'a [Token],
) -> ParseResult<'a, Stmt>
    requires within { room ≤ MAX_DEPTH }
    ensures parsed { ParsesAs stmt_of result
        (reader.do_with (exprs.below_at room) (reader.nested_at room) place
        (tokens_of tokens.now)) }
{
    let (body, rest) = nested(alloc, room, tokens)?;
    do_end(alloc, room, place, body, rest)
}

/// `"while" "(" assign ")" ";"`, after the body of a `do`
#[tactic(auto, unfolding(crate::specs::StatementReader::do_end_with))]
fn do_end<'a>(
    alloc: Global,
    room: u32,
    place: Position,
    body: Stmt,
    tokens: &'a [Token],
) -> ParseResult<'a, Stmt>
    requires within { room ≤ MAX_DEPTH }
    ensures parsed { ParsesAs stmt_of result
        (reader.do_end_with (exprs.below_at room) place (stmt_of body)
        (tokens_of tokens.now)) }
{
    let (_, rest) = expect_while(tokens)?;
    let (condition, rest) = bracketed(alloc, room, rest)?;
    let (_, rest) = expect(Sign::Semicolon, rest)?;
    let kind = StmtKind::DoWhile { body, condition };
    Ok((nodes::statement(alloc, place, kind)?, rest))
}

/// `"(" [ vars | assign ] ";" [assign] ";" [ assign {"," assign} ] ")" stmt`, after the `for`
#[cycle(statements)]
#[tactic(auto, unfolding(crate::specs::StatementReader::for_with))]
pub(super) fn for_statement<'a>(
    alloc: Global,
    room: u32,
    place: Position,
    tokens: &'a [Token],
) -> ParseResult<'a, Stmt>
    requires within { room ≤ MAX_DEPTH }
    ensures parsed { ParsesAs stmt_of result
        (reader.for_with (exprs.below_at room) (reader.nested_at room) place
        (tokens_of tokens.now)) }
{
    let (_, rest) = expect(Sign::OpenParenthesis, tokens)?;
    let (first, rest) = first(alloc, room, rest)?;
    let (condition, rest) = test(alloc, room, rest)?;
    let (steps, rest) = expressions(alloc, room, rest)?;
    let (_, rest) = expect(Sign::CloseParenthesis, rest)?;
    let (body, rest) = nested(alloc, room, rest)?;
    let head = nodes::ForHead {
        first,
        condition,
        steps,
    };
    Ok((nodes::for_loop(alloc, place, head, body)?, rest))
}
