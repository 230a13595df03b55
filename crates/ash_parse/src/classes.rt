//! Reads classes.
//!
//! Each function reads the phrase that is written above it.

ghost use Rattle.std.specs.Prelude.{◌≡◌, map};
ghost use Rattle.ash_tree.specs.GrammarTokens.{tokens_of};
ghost use Rattle.ash_tree.specs.TreeViews.{constructor_of, member_of, type_name_of, class_of};
ghost use Rattle.ash_parse.specs.Readers.{ParsesAs, put};
ghost use Rattle.ash_parse.specs.ItemReader as reader;

use crate::cursor::{expect, name, next_is_sign, without_first};
use crate::data_types::next_is_name;
use crate::error::ParseResult;
use crate::functions::{body, function, is_function, parameters};
use crate::stmt_tokens::goes_on;
use crate::variables::globals;
use ash_lex::{Sign, Token};
use ash_tree::{Class, Constructor, Member, TypeName};
use std::alloc::Global;

#[tactic(auto, unfolding(crate::specs::ItemReader::is_constructor))]
fn is_constructor(tokens: &[Token]) -> bool
    ensures value { result ≡ reader.is_constructor (tokens_of tokens.now) }
{
    next_is_name(tokens) && next_is_sign(Sign::OpenParenthesis, without_first(tokens))
}

/// `NAME params block`
#[tactic(auto, unfolding(crate::specs::ItemReader::constructor_at))]
fn constructor(alloc: Global, tokens: &[Token]) -> ParseResult<'_, Constructor>
    ensures parsed { ParsesAs constructor_of result (reader.constructor_at (tokens_of tokens.now)) }
{
    let ((name, place), rest) = name(alloc, tokens)?;
    let (parameters, rest) = parameters(alloc, rest)?;
    let (body, rest) = body(alloc, rest)?;
    let constructor = Constructor {
        place,
        name,
        parameters,
        body,
    };
    Ok((constructor, rest))
}

/// `function | vars ";" | NAME params block`
#[tactic(auto, unfolding(crate::specs::ItemReader::member_at))]
fn member(alloc: Global, tokens: &[Token]) -> ParseResult<'_, Member>
    ensures parsed { ParsesAs member_of result (reader.member_at (tokens_of tokens.now)) }
{
    if is_constructor(tokens) {
        let (constructor, rest) = constructor(alloc, tokens)?;
        return Ok((Member::Constructor(constructor), rest));
    }
    if is_function(tokens) {
        let (function, rest) = function(alloc, tokens)?;
        return Ok((Member::Function(function), rest));
    }
    let (vars, rest) = globals(alloc, tokens)?;
    Ok((Member::Vars(vars), rest))
}

/// `{ member }`
fn members(alloc: Global, tokens: &[Token]) -> ParseResult<'_, Vec<Member>>
    ensures parsed { ParsesAs (λ xs. map member_of xs.items) result
        (reader.members_at (tokens_of tokens.now)) }
{
    let mut all = Vec::new(alloc);
    let mut rest = tokens;
    'more: while goes_on(rest) {
        let (next, after) = member(alloc, rest)?;
        all.push(next)?;
        rest = after;
    }
    Ok((all, rest))
}

/// `"," NAME`
#[tactic(auto, unfolding(crate::specs::ItemReader::next_interface_at))]
fn next_interface(alloc: Global, tokens: &[Token]) -> ParseResult<'_, TypeName>
    ensures parsed { ParsesAs type_name_of result
        (reader.next_interface_at (tokens_of tokens.now)) }
{
    let (_, rest) = expect(Sign::Comma, tokens)?;
    let ((name, place), rest) = name(alloc, rest)?;
    Ok((TypeName { place, name }, rest))
}

/// `{ "," NAME }`, after the first
fn more_interfaces<'a>(
    alloc: Global,
    first: TypeName,
    tokens: &'a [Token],
) -> ParseResult<'a, Vec<TypeName>>
    ensures parsed { ParsesAs (λ xs. map type_name_of xs.items) result
        (put (type_name_of first) (reader.more_interfaces_at (tokens_of tokens.now))) }
{
    let mut all = Vec::new(alloc);
    all.push(first)?;
    let mut rest = tokens;
    'more: while next_is_sign(Sign::Comma, rest) {
        let (next, after) = next_interface(alloc, rest)?;
        all.push(next)?;
        rest = after;
    }
    Ok((all, rest))
}

/// `NAME { "," NAME }`
#[tactic(auto, unfolding(crate::specs::ItemReader::listed_interfaces_at))]
fn listed_interfaces(alloc: Global, tokens: &[Token]) -> ParseResult<'_, Vec<TypeName>>
    ensures parsed { ParsesAs (λ xs. map type_name_of xs.items) result
        (reader.listed_interfaces_at (tokens_of tokens.now)) }
{
    let ((name, place), rest) = name(alloc, tokens)?;
    more_interfaces(alloc, TypeName { place, name }, rest)
}

/// `[ ":" NAME { "," NAME } ]`
#[tactic(auto, unfolding(crate::specs::ItemReader::interfaces_at))]
fn interfaces(alloc: Global, tokens: &[Token]) -> ParseResult<'_, Vec<TypeName>>
    ensures parsed { ParsesAs (λ xs. map type_name_of xs.items) result
        (reader.interfaces_at (tokens_of tokens.now)) }
{
    if !next_is_sign(Sign::Colon, tokens) {
        return Ok((Vec::new(alloc), tokens));
    }
    let (_, rest) = expect(Sign::Colon, tokens)?;
    listed_interfaces(alloc, rest)
}

/// `NAME [ ":" NAME { "," NAME } ] "{" { member } "}"`, after the word `class`
#[tactic(auto, unfolding(crate::specs::ItemReader::class_at))]
pub fn class(alloc: Global, tokens: &[Token]) -> ParseResult<'_, Class>
    ensures parsed { ParsesAs class_of result (reader.class_at (tokens_of tokens.now)) }
{
    let ((name, place), rest) = name(alloc, tokens)?;
    let (interfaces, rest) = interfaces(alloc, rest)?;
    let (_, rest) = expect(Sign::OpenBrace, rest)?;
    let (members, rest) = members(alloc, rest)?;
    let (_, rest) = expect(Sign::CloseBrace, rest)?;
    let class = Class {
        place,
        name,
        interfaces,
        members,
    };
    Ok((class, rest))
}
