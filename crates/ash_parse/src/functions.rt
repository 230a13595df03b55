//! Reads functions, and finds where one begins.
//!
//! Each function reads the phrase that is written above it.

ghost use Rattle.std.specs.Prelude.{◌≡◌, map, option_map};
ghost use Rattle.ash_lex.specs.Tokens.{meaning_of};
ghost use Rattle.ash_tree.specs.GrammarTokens.{tokens_of};
ghost use Rattle.ash_tree.specs.TreeViews.{type_of, stmt_of, parameter_of, function_of};
ghost use Rattle.ash_parse.specs.Readers.{ParsesAs, put};
ghost use Rattle.ash_parse.specs.ItemReader as reader;

use crate::cursor::{expect, is_sign, name, next_is_sign, without_first};
use crate::data_types::{after_element, is_array, is_vars, next_is_name, type_name};
use crate::error::{ParseError, ParseResult};
use crate::expressions::MAX_DEPTH;
use crate::statements::block;
use ash_lex::{ReservedWord, Sign, Token, TokenKind};
use ash_tree::{Function, Parameter, Stmt, Type};
use std::alloc::Global;

#[tactic(auto, unfolding(crate::specs::ItemReader::is_void))]
fn is_void(kind: &TokenKind) -> bool
    ensures value { result ≡ reader.is_void (meaning_of kind.now) }
{
    matches!(kind, TokenKind::Reserved(ReservedWord::Void))
}

/// `"void" | type`
#[tactic(auto, unfolding(crate::specs::ItemReader::result_type_at))]
pub fn result_type(alloc: Global, tokens: &[Token]) -> ParseResult<'_, Option<Type>>
    ensures parsed { ParsesAs (option_map type_of) result
        (reader.result_type_at (tokens_of tokens.now)) }
{
    let Some((next, rest)) = tokens.split_first() else {
        return Err(ParseError::unexpected(tokens));
    };
    if is_void(&next.kind) {
        return Ok((None, rest));
    }
    let (of, rest) = type_name(alloc, tokens)?;
    Ok((Some(of), rest))
}

/// `type NAME`
#[tactic(auto, unfolding(crate::specs::ItemReader::parameter_at))]
fn parameter(alloc: Global, tokens: &[Token]) -> ParseResult<'_, Parameter>
    ensures parsed { ParsesAs parameter_of result (reader.parameter_at (tokens_of tokens.now)) }
{
    let (of, rest) = type_name(alloc, tokens)?;
    let ((name, place), rest) = name(alloc, rest)?;
    Ok((Parameter { of, place, name }, rest))
}

/// `"," type NAME`
#[tactic(auto, unfolding(crate::specs::ItemReader::next_parameter_at))]
fn next_parameter(alloc: Global, tokens: &[Token]) -> ParseResult<'_, Parameter>
    ensures parsed { ParsesAs parameter_of result
        (reader.next_parameter_at (tokens_of tokens.now)) }
{
    let (_, rest) = expect(Sign::Comma, tokens)?;
    parameter(alloc, rest)
}

/// `{ "," type NAME }`, after the first
fn more_parameters<'a>(
    alloc: Global,
    first: Parameter,
    tokens: &'a [Token],
) -> ParseResult<'a, Vec<Parameter>>
    ensures parsed { ParsesAs (λ xs. map parameter_of xs.items) result
        (put (parameter_of first) (reader.more_parameters_at (tokens_of tokens.now))) }
{
    let mut all = Vec::new(alloc);
    all.push(first)?;
    let mut rest = tokens;
    'more: while next_is_sign(Sign::Comma, rest) {
        let (next, after) = next_parameter(alloc, rest)?;
        all.push(next)?;
        rest = after;
    }
    Ok((all, rest))
}

/// `[ type NAME { "," type NAME } ]`, before a `)`
#[tactic(auto, unfolding(crate::specs::ItemReader::parameter_list_at))]
fn parameter_list(alloc: Global, tokens: &[Token]) -> ParseResult<'_, Vec<Parameter>>
    ensures parsed { ParsesAs (λ xs. map parameter_of xs.items) result
        (reader.parameter_list_at (tokens_of tokens.now)) }
{
    if next_is_sign(Sign::CloseParenthesis, tokens) {
        return Ok((Vec::new(alloc), tokens));
    }
    let (first, rest) = parameter(alloc, tokens)?;
    more_parameters(alloc, first, rest)
}

/// `"(" [ type NAME { "," type NAME } ] ")"`
#[tactic(auto, unfolding(crate::specs::ItemReader::parameters_at))]
pub fn parameters(alloc: Global, tokens: &[Token]) -> ParseResult<'_, Vec<Parameter>>
    ensures parsed { ParsesAs (λ xs. map parameter_of xs.items) result
        (reader.parameters_at (tokens_of tokens.now)) }
{
    let (_, rest) = expect(Sign::OpenParenthesis, tokens)?;
    let (parameters, rest) = parameter_list(alloc, rest)?;
    let (_, rest) = expect(Sign::CloseParenthesis, rest)?;
    Ok((parameters, rest))
}

/// The body of a function.
#[tactic(auto, unfolding(crate::specs::ItemReader::body_at))]
pub fn body(alloc: Global, tokens: &[Token]) -> ParseResult<'_, Vec<Stmt>>
    ensures parsed { ParsesAs (λ xs. map stmt_of xs.items) result
        (reader.body_at (tokens_of tokens.now)) }
{
    block(alloc, MAX_DEPTH, tokens)
}

/// `rtype NAME params block`
#[tactic(auto, unfolding(crate::specs::ItemReader::function_at))]
pub fn function(alloc: Global, tokens: &[Token]) -> ParseResult<'_, Function>
    ensures parsed { ParsesAs function_of result (reader.function_at (tokens_of tokens.now)) }
{
    let (of, rest) = result_type(alloc, tokens)?;
    let ((name, place), rest) = name(alloc, rest)?;
    let (parameters, rest) = parameters(alloc, rest)?;
    let (body, rest) = body(alloc, rest)?;
    let function = Function {
        place,
        result: of,
        name,
        parameters,
        body,
    };
    Ok((function, rest))
}

/// Whether a function without parameters goes on after its `(`.
#[tactic(auto, unfolding(crate::specs::ItemReader::opens_body))]
fn opens_body(tokens: &[Token]) -> bool
    ensures value { result ≡ reader.opens_body (tokens_of tokens.now) }
{
    let Some((next, rest)) = tokens.split_first() else {
        return false;
    };
    is_sign(Sign::CloseParenthesis, next) && next_is_sign(Sign::OpenBrace, rest)
}

/// Whether `NAME "("` is next, and parameters after it and no arguments.
#[tactic(auto, unfolding(crate::specs::ItemReader::names_function))]
fn names_function(tokens: &[Token]) -> bool
    ensures value { result ≡ reader.names_function (tokens_of tokens.now) }
{
    if !next_is_name(tokens) {
        return false;
    }
    let opened = without_first(tokens);
    if !next_is_sign(Sign::OpenParenthesis, opened) {
        return false;
    }
    let inner = without_first(opened);
    is_vars(inner) || opens_body(inner)
}

/// Whether `NAME "("` is next, or after an `@`, and parameters after it and no arguments.
#[tactic(auto, unfolding(crate::specs::ItemReader::handle_names_function))]
fn handle_names_function(tokens: &[Token]) -> bool
    ensures value { result ≡ reader.handle_names_function (tokens_of tokens.now) }
{
    if next_is_sign(Sign::Handle, tokens) {
        return names_function(without_first(tokens));
    }
    names_function(tokens)
}

/// Whether the tokens begin a function, and no declaration of variables. The first fourteen of them decide.
#[tactic(auto, unfolding(crate::specs::ItemReader::is_function))]
pub fn is_function(tokens: &[Token]) -> bool
    ensures value { result ≡ reader.is_function (tokens_of tokens.now) }
{
    let Some((next, rest)) = tokens.split_first() else {
        return false;
    };
    if is_void(&next.kind) {
        return true;
    }
    if !is_array(&next.kind) {
        return handle_names_function(rest);
    }
    let Some(rest) = after_element(rest) else {
        return false;
    };
    handle_names_function(rest)
}
