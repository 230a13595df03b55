//! Reads declarations that a host registers.
//!
//! Each function reads the phrase that is written above it.

ghost use Rattle.std.specs.Prelude.{map, string_bytes, option_map};
ghost use Rattle.ash_tree.specs.GrammarTokens.{tokens_of};
ghost use Rattle.ash_tree.specs.TreeViews.{type_of, declaration_of};
ghost use Rattle.ash_parse.specs.Readers.{ParsesAs, put};
ghost use Rattle.ash_parse.specs.ItemReader as reader;

use crate::cursor::{expect, name, next_is_sign, without_first};
use crate::data_types::{next_is_name, type_name};
use crate::error::{ParseError, ParseResult};
use crate::functions::result_type;
use ash_lex::{Sign, Token};
use ash_tree::{Declaration, Position, Property, Signature, Type};
use std::alloc::Global;

/// `type [NAME]`
#[tactic(auto, unfolding(crate::specs::ItemReader::unnamed_at))]
fn unnamed(alloc: Global, tokens: &[Token]) -> ParseResult<'_, Type>
    ensures parsed { ParsesAs type_of result (reader.unnamed_at (tokens_of tokens.now)) }
{
    let (of, rest) = type_name(alloc, tokens)?;
    if next_is_name(rest) {
        return Ok((of, without_first(rest)));
    }
    Ok((of, rest))
}

/// `"," type [NAME]`
#[tactic(auto, unfolding(crate::specs::ItemReader::next_unnamed_at))]
fn next_unnamed(alloc: Global, tokens: &[Token]) -> ParseResult<'_, Type>
    ensures parsed { ParsesAs type_of result (reader.next_unnamed_at (tokens_of tokens.now)) }
{
    let (_, rest) = expect(Sign::Comma, tokens)?;
    unnamed(alloc, rest)
}

/// `{ "," type [NAME] }`, after the first
fn more_unnamed<'a>(alloc: Global, first: Type, tokens: &'a [Token]) -> ParseResult<'a, Vec<Type>>
    ensures parsed { ParsesAs (λ xs. map type_of xs.items) result
        (put (type_of first) (reader.more_unnamed_at (tokens_of tokens.now))) }
{
    let mut all = Vec::new(alloc);
    all.push(first)?;
    let mut rest = tokens;
    'more: while next_is_sign(Sign::Comma, rest) {
        let (next, after) = next_unnamed(alloc, rest)?;
        all.push(next)?;
        rest = after;
    }
    Ok((all, rest))
}

/// `[ type [NAME] { "," type [NAME] } ]`, before a `)`
#[tactic(auto, unfolding(crate::specs::ItemReader::unnamed_list_at))]
fn unnamed_list(alloc: Global, tokens: &[Token]) -> ParseResult<'_, Vec<Type>>
    ensures parsed { ParsesAs (λ xs. map type_of xs.items) result
        (reader.unnamed_list_at (tokens_of tokens.now)) }
{
    if next_is_sign(Sign::CloseParenthesis, tokens) {
        return Ok((Vec::new(alloc), tokens));
    }
    let (first, rest) = unnamed(alloc, tokens)?;
    more_unnamed(alloc, first, rest)
}

/// `"(" [ type [NAME] { "," type [NAME] } ] ")"`
#[tactic(auto, unfolding(crate::specs::ItemReader::unnamed_parameters_at))]
fn unnamed_parameters(alloc: Global, tokens: &[Token]) -> ParseResult<'_, Vec<Type>>
    ensures parsed { ParsesAs (λ xs. map type_of xs.items) result
        (reader.unnamed_parameters_at (tokens_of tokens.now)) }
{
    let (_, rest) = expect(Sign::OpenParenthesis, tokens)?;
    let (parameters, rest) = unnamed_list(alloc, rest)?;
    let (_, rest) = expect(Sign::CloseParenthesis, rest)?;
    Ok((parameters, rest))
}

/// What is after the name of a declaration.
#[tactic(auto, unfolding(crate::specs::ItemReader::declaration_after))]
fn declaration_after<'a>(
    alloc: Global,
    of: Option<Type>,
    place: Position,
    name: String,
    tokens: &'a [Token],
) -> ParseResult<'a, Declaration>
    ensures parsed { ParsesAs declaration_of result
        (reader.declaration_after (option_map type_of of) place (string_bytes name)
        (tokens_of tokens.now)) }
{
    if next_is_sign(Sign::OpenParenthesis, tokens) {
        let (parameters, rest) = unnamed_parameters(alloc, tokens)?;
        let signature = Signature {
            place,
            result: of,
            name,
            parameters,
        };
        return Ok((Declaration::Function(signature), rest));
    }
    let Some(of) = of else {
        return Err(ParseError::unexpected(tokens));
    };
    let property = Property { place, of, name };
    Ok((Declaration::Property(property), tokens))
}

/// `rtype NAME "(" [ type [NAME] { "," type [NAME] } ] ")" | type NAME`
#[tactic(auto, unfolding(crate::specs::ItemReader::declaration_at))]
pub fn declaration(alloc: Global, tokens: &[Token]) -> ParseResult<'_, Declaration>
    ensures parsed { ParsesAs declaration_of result (reader.declaration_at (tokens_of tokens.now)) }
{
    let (of, rest) = result_type(alloc, tokens)?;
    let ((name, place), rest) = name(alloc, rest)?;
    declaration_after(alloc, of, place, name, rest)
}
