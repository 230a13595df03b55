//! Reads the branches of a conditional.

ghost use Rattle.std.specs.Prelude.{◌≤◌};
ghost use Rattle.ash_tree.specs.GrammarTokens.{tokens_of};
ghost use Rattle.ash_tree.specs.TreeViews.{expr_of};
ghost use Rattle.ash_parse.specs.Readers.{ParsesAs};
ghost use Rattle.ash_parse.specs.ExpressionReader as reader;

use super::{MAX_DEPTH, nested_assign};
use crate::cursor::expect;
use crate::error::ParseResult;
use ash_lex::{Sign, Token};
use ash_tree::{Expr, Position, nodes};
use std::alloc::Global;

/// A condition with the first of its branches, and where they are.
struct FirstBranch {
    place: Position,
    condition: Expr,
    then: Expr,
}

/// `assign ":" assign`, after the `?`
#[cycle(expressions)]
#[tactic(auto, unfolding(crate::specs::ExpressionReader::branches_with, crate::specs::ExpressionReader::other_branch_with), using(ash_tree::proofs::Rows::place_is))]
pub(super) fn branches<'a>(
    alloc: Global,
    room: u32,
    condition: Expr,
    tokens: &'a [Token],
) -> ParseResult<'a, Expr>
    requires within { room ≤ MAX_DEPTH }
    ensures parsed { ParsesAs expr_of result
        (reader.branches_with (reader.below_at room) (expr_of condition) (tokens_of tokens.now)) }
{
    let place = condition.place;
    let (then, rest) = nested_assign(alloc, room, tokens)?;
    let first = FirstBranch {
        place,
        condition,
        then,
    };
    other_branch(alloc, room, first, rest)
}

/// `":" assign`, after the first branch
#[cycle(expressions)]
#[tactic(auto, unfolding(crate::specs::ExpressionReader::other_branch_with))]
fn other_branch<'a>(
    alloc: Global,
    room: u32,
    first: FirstBranch,
    tokens: &'a [Token],
) -> ParseResult<'a, Expr>
    requires within { room ≤ MAX_DEPTH }
    ensures parsed { ParsesAs expr_of result
        (reader.other_branch_with (reader.below_at room) first.place (expr_of first.condition)
        (expr_of first.then) (tokens_of tokens.now)) }
{
    let FirstBranch {
        place,
        condition,
        then,
    } = first;
    let (_, rest) = expect(Sign::Colon, tokens)?;
    let (otherwise, rest) = nested_assign(alloc, room, rest)?;
    let read = nodes::conditional(alloc, place, condition, then, otherwise)?;
    Ok((read, rest))
}
