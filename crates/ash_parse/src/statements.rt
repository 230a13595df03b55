//! Reads statements.
//!
//! Each function reads the phrase that is written above it. `room` is how many phrases that count for the depth may
//! still begin, one in the other.

ghost use Rattle.std.specs.Prelude.{◌≡◌, ◌≤◌, map, option_map, IfOk};
ghost use Rattle.ash_tree.specs.GrammarTokens.{tokens_of};
ghost use Rattle.ash_tree.specs.Tree.{If, IfElse};
ghost use Rattle.ash_tree.specs.TreeViews.{expr_of, stmt_of, case_of};
ghost use Rattle.ash_parse.specs.Readers.{ParsesAs};
ghost use Rattle.ash_parse.specs.ExpressionReader as exprs;
ghost use Rattle.ash_parse.specs.StatementReader as reader;

use crate::cursor::{expect, next_is_sign, place};
use crate::data_types::is_vars;
use crate::error::{ParseError, ParseResult};
use crate::expressions::{MAX_DEPTH, assign, bracketed};
use crate::labels::label;
use crate::stmt_tokens::{StmtToken, case_goes_on, goes_on, limit, stmt_token};
use crate::variables::vars_statement;
use ash_lex::{Sign, Token};
use ash_tree::{Case, Expr, Position, Stmt, StmtKind, nodes};
use loops::{do_statement, for_statement, while_statement};
use std::alloc::{AllocError, Global};

mod loops;

/// `[assign] ";"`, after `return`
#[tactic(auto, unfolding(crate::specs::StatementReader::return_value_with))]
fn return_value(alloc: Global, room: u32, tokens: &[Token]) -> ParseResult<'_, Option<Expr>>
    requires within { room ≤ MAX_DEPTH }
    ensures parsed { ParsesAs (option_map expr_of) result
        (reader.return_value_with (exprs.below_at room) (tokens_of tokens.now)) }
{
    if next_is_sign(Sign::Semicolon, tokens) {
        let (_, rest) = expect(Sign::Semicolon, tokens)?;
        return Ok((None, rest));
    }
    let (value, rest) = assign(alloc, room, tokens)?;
    let (_, rest) = expect(Sign::Semicolon, rest)?;
    Ok((Some(value), rest))
}

/// `assign ";"`
#[tactic(auto, unfolding(crate::specs::StatementReader::evaluate_with))]
fn evaluate(alloc: Global, room: u32, tokens: &[Token]) -> ParseResult<'_, Stmt>
    requires within { room ≤ MAX_DEPTH }
    ensures parsed { ParsesAs stmt_of result
        (reader.evaluate_with (exprs.below_at room) (tokens_of tokens.now)) }
{
    let (value, rest) = assign(alloc, room, tokens)?;
    let (_, rest) = expect(Sign::Semicolon, rest)?;
    Ok((nodes::evaluate(alloc, value)?, rest))
}

/// A statement that is one deeper.
#[cycle(statements)]
fn nested(alloc: Global, room: u32, tokens: &[Token]) -> ParseResult<'_, Stmt>
    requires within { room ≤ MAX_DEPTH }
    ensures parsed { ParsesAs stmt_of result (reader.nested_at room (tokens_of tokens.now)) }
{
    if room == 0 {
        return Err(limit(tokens));
    }
    statement(alloc, room - 1, tokens)
}

#[cycle(statements)]
#[tactic(auto, unfolding(crate::specs::StatementReader::stmt_with))]
fn statement(alloc: Global, room: u32, tokens: &[Token]) -> ParseResult<'_, Stmt>
    requires within { room ≤ MAX_DEPTH }
    ensures parsed { ParsesAs stmt_of result
        (reader.stmt_with (exprs.below_at room) (reader.nested_at room) (tokens_of tokens.now)) }
{
    let Some((next, rest)) = tokens.split_first() else {
        return Err(ParseError::unexpected(tokens));
    };
    let place = place(next);
    match stmt_token(&next.kind) {
        StmtToken::Block => {
            let (body, rest) = block(alloc, room, tokens)?;
            Ok((nodes::block(alloc, place, body)?, rest))
        }
        StmtToken::Empty => Ok((nodes::statement(alloc, place, StmtKind::Empty)?, rest)),
        StmtToken::If => if_statement(alloc, room, place, rest),
        StmtToken::While => while_statement(alloc, room, place, rest),
        StmtToken::Do => do_statement(alloc, room, place, rest),
        StmtToken::For => for_statement(alloc, room, place, rest),
        StmtToken::Switch => switch_statement(alloc, room, place, rest),
        StmtToken::Break => {
            let (_, rest) = expect(Sign::Semicolon, rest)?;
            Ok((nodes::statement(alloc, place, StmtKind::Break)?, rest))
        }
        StmtToken::Continue => {
            let (_, rest) = expect(Sign::Semicolon, rest)?;
            Ok((nodes::statement(alloc, place, StmtKind::Continue)?, rest))
        }
        StmtToken::Return => {
            let (value, rest) = return_value(alloc, room, rest)?;
            let kind = StmtKind::Return(value);
            Ok((nodes::statement(alloc, place, kind)?, rest))
        }
        StmtToken::Other => evaluate(alloc, room, tokens),
        StmtToken::End | StmtToken::Else | StmtToken::Case | StmtToken::Default => {
            Err(ParseError::unexpected(tokens))
        }
    }
}

/// The condition of an `if` with its branch, and where the `if` is.
#[derive(Drop)]
struct IfHead {
    place: Position,
    condition: Expr,
    then: Stmt,
}

/// `"(" assign ")" stmt [ "else" stmt ]`, after the `if`
#[cycle(statements)]
#[tactic(auto, unfolding(crate::specs::StatementReader::if_with))]
fn if_statement<'a>(
    alloc: Global,
    room: u32,
    place: Position,
    tokens: &'a [Token],
) -> ParseResult<'a, Stmt>
    requires within { room ≤ MAX_DEPTH }
    ensures parsed { ParsesAs stmt_of result
        (reader.if_with (exprs.below_at room) (reader.nested_at room) place
        (tokens_of tokens.now)) }
{
    let (condition, rest) = bracketed(alloc, room, tokens)?;
    let (then, rest) = nested(alloc, room, rest)?;
    let head = IfHead {
        place,
        condition,
        then,
    };
    else_branch(alloc, room, head, rest)
}

/// An `if` that ends with its branch.
fn if_only(alloc: Global, head: IfHead) -> Result<Stmt, AllocError>
    ensures value { IfOk result (λ s. stmt_of s
        ≡ If head.place (expr_of head.condition) (stmt_of head.then)) }
{
    let IfHead {
        place,
        condition,
        then,
    } = head;
    nodes::statement(alloc, place, StmtKind::If { condition, then })
}

/// An `if` with both its branches.
fn if_else(alloc: Global, head: IfHead, otherwise: Stmt) -> Result<Stmt, AllocError>
    ensures value { IfOk result (λ s. stmt_of s
        ≡ IfElse head.place (expr_of head.condition) (stmt_of head.then) (stmt_of otherwise)) }
{
    let IfHead {
        place,
        condition,
        then,
    } = head;
    let kind = StmtKind::IfElse {
        condition,
        then,
        otherwise,
    };
    nodes::statement(alloc, place, kind)
}

/// `[ "else" stmt ]`
#[cycle(statements)]
#[tactic(auto, unfolding(crate::specs::StatementReader::else_with))]
fn else_branch<'a>(
    alloc: Global,
    room: u32,
    head: IfHead,
    tokens: &'a [Token],
) -> ParseResult<'a, Stmt>
    requires within { room ≤ MAX_DEPTH }
    ensures parsed { ParsesAs stmt_of result
        (reader.else_with (reader.nested_at room) head.place (expr_of head.condition)
        (stmt_of head.then) (tokens_of tokens.now)) }
{
    let Some((next, rest)) = tokens.split_first() else {
        return Ok((if_only(alloc, head)?, tokens));
    };
    if !matches!(stmt_token(&next.kind), StmtToken::Else) {
        return Ok((if_only(alloc, head)?, tokens));
    }
    let (otherwise, rest) = nested(alloc, room, rest)?;
    Ok((if_else(alloc, head, otherwise)?, rest))
}

/// `"(" assign ")" "{" { label { stmt } } "}"`, after the `switch`
#[cycle(statements)]
#[tactic(auto, unfolding(crate::specs::StatementReader::switch_with, crate::specs::StatementReader::switch_end_with))]
fn switch_statement<'a>(
    alloc: Global,
    room: u32,
    place: Position,
    tokens: &'a [Token],
) -> ParseResult<'a, Stmt>
    requires within { room ≤ MAX_DEPTH }
    ensures parsed { ParsesAs stmt_of result
        (reader.switch_with (exprs.below_at room) (reader.nested_at room) place
        (tokens_of tokens.now)) }
{
    let (value, rest) = bracketed(alloc, room, tokens)?;
    let (_, rest) = expect(Sign::OpenBrace, rest)?;
    let (cases, rest) = cases(alloc, room, rest)?;
    switch_end(alloc, place, value, cases, rest)
}

/// `"}"`, after the cases of a `switch`
#[tactic(auto, unfolding(crate::specs::StatementReader::switch_end_with))]
fn switch_end(
    alloc: Global,
    place: Position,
    value: Expr,
    cases: Vec<Case>,
    tokens: &[Token],
) -> ParseResult<'_, Stmt>
    ensures parsed { ParsesAs stmt_of result
        (reader.switch_end_with place (expr_of value) (map case_of cases.items)
        (tokens_of tokens.now)) }
{
    let (_, rest) = expect(Sign::CloseBrace, tokens)?;
    Ok((nodes::switch(alloc, place, value, cases)?, rest))
}

#[cycle(statements)]
fn cases(alloc: Global, room: u32, tokens: &[Token]) -> ParseResult<'_, Vec<Case>>
    requires within { room ≤ MAX_DEPTH }
    ensures parsed { ParsesAs (λ xs. map case_of xs.items) result
        (reader.cases_with (reader.nested_at room) (tokens_of tokens.now)) }
{
    let mut all = Vec::new(alloc);
    let mut rest = tokens;
    'more: while goes_on(rest) {
        let (next, after) = case(alloc, room, rest)?;
        all.push(next)?;
        rest = after;
    }
    Ok((all, rest))
}

/// `label { stmt }`
#[cycle(statements)]
#[tactic(auto, unfolding(crate::specs::StatementReader::case_with))]
fn case(alloc: Global, room: u32, tokens: &[Token]) -> ParseResult<'_, Case>
    requires within { room ≤ MAX_DEPTH }
    ensures parsed { ParsesAs case_of result
        (reader.case_with (reader.nested_at room) (tokens_of tokens.now)) }
{
    let ((label, place), rest) = label(tokens)?;
    let (body, rest) = statements(alloc, room, rest)?;
    Ok((nodes::case(place, label, body), rest))
}

/// `{ stmt }`, after a label
#[cycle(statements)]
fn statements(alloc: Global, room: u32, tokens: &[Token]) -> ParseResult<'_, Vec<Stmt>>
    requires within { room ≤ MAX_DEPTH }
    ensures parsed { ParsesAs (λ xs. map stmt_of xs.items) result
        (reader.stmts_with (reader.nested_at room) (tokens_of tokens.now)) }
{
    let mut all = Vec::new(alloc);
    let mut rest = tokens;
    'more: while case_goes_on(rest) {
        let (next, after) = nested(alloc, room, rest)?;
        all.push(next)?;
        rest = after;
    }
    Ok((all, rest))
}

/// `"{" { vars ";" | stmt } "}"`
#[cycle(statements)]
#[tactic(auto, unfolding(crate::specs::StatementReader::block_with))]
pub fn block(alloc: Global, room: u32, tokens: &[Token]) -> ParseResult<'_, Vec<Stmt>>
    requires within { room ≤ MAX_DEPTH }
    ensures parsed { ParsesAs (λ xs. map stmt_of xs.items) result
        (reader.block_with (exprs.below_at room) (reader.nested_at room) (tokens_of tokens.now)) }
{
    let (_, rest) = expect(Sign::OpenBrace, tokens)?;
    let (body, rest) = locals(alloc, room, rest)?;
    let (_, rest) = expect(Sign::CloseBrace, rest)?;
    Ok((body, rest))
}

/// `{ vars ";" | stmt }`
#[cycle(statements)]
fn locals(alloc: Global, room: u32, tokens: &[Token]) -> ParseResult<'_, Vec<Stmt>>
    requires within { room ≤ MAX_DEPTH }
    ensures parsed { ParsesAs (λ xs. map stmt_of xs.items) result
        (reader.locals_with (exprs.below_at room) (reader.nested_at room) (tokens_of tokens.now)) }
{
    let mut all = Vec::new(alloc);
    let mut rest = tokens;
    'more: while goes_on(rest) {
        let (next, after) = local(alloc, room, rest)?;
        all.push(next)?;
        rest = after;
    }
    Ok((all, rest))
}

/// `vars ";" | stmt`
#[cycle(statements)]
#[tactic(auto, unfolding(crate::specs::StatementReader::local_with))]
fn local(alloc: Global, room: u32, tokens: &[Token]) -> ParseResult<'_, Stmt>
    requires within { room ≤ MAX_DEPTH }
    ensures parsed { ParsesAs stmt_of result
        (reader.local_with (exprs.below_at room) (reader.nested_at room) (tokens_of tokens.now)) }
{
    if is_vars(tokens) {
        let (vars, rest) = vars_statement(alloc, room, tokens)?;
        return Ok((nodes::declare(alloc, vars)?, rest));
    }
    nested(alloc, room, tokens)
}
