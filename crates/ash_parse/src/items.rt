//! Reads the items of a module.
//!
//! Each function reads the phrase that is written above it.

ghost use Rattle.std.specs.Prelude.{◌≡◌, [], map, IfOk};
ghost use Rattle.ash_lex.specs.Tokens.{meaning_of};
ghost use Rattle.ash_tree.specs.GrammarTokens.{tokens_of};
ghost use Rattle.ash_tree.specs.TreeViews.{item_of};
ghost use Rattle.ash_parse.specs.Readers.{ParsesAs};
ghost use Rattle.ash_parse.specs.ItemReader as reader;

use crate::classes::class;
use crate::cursor::{next_is_sign, without_first};
use crate::error::{ParseError, ParseResult};
use crate::functions::{function, is_function};
use crate::interfaces::interface;
use crate::variables::globals;
use ash_lex::{ReservedWord, Sign, Token, TokenKind};
use ash_tree::Item;
use std::alloc::Global;

#[tactic(auto, unfolding(crate::specs::ItemReader::is_class))]
fn is_class(kind: &TokenKind) -> bool
    ensures value { result ≡ reader.is_class (meaning_of kind.now) }
{
    matches!(kind, TokenKind::Reserved(ReservedWord::Class))
}

#[tactic(auto, unfolding(crate::specs::ItemReader::is_interface))]
fn is_interface(kind: &TokenKind) -> bool
    ensures value { result ≡ reader.is_interface (meaning_of kind.now) }
{
    matches!(kind, TokenKind::Reserved(ReservedWord::Interface))
}

/// `class | interface | function | vars ";"`
#[tactic(auto, unfolding(crate::specs::ItemReader::item_at))]
fn item(alloc: Global, tokens: &[Token]) -> ParseResult<'_, Item>
    ensures parsed { ParsesAs item_of result (reader.item_at (tokens_of tokens.now)) }
{
    let Some((next, rest)) = tokens.split_first() else {
        return Err(ParseError::unexpected(tokens));
    };
    if is_class(&next.kind) {
        let (class, rest) = class(alloc, rest)?;
        return Ok((Item::Class(class), rest));
    }
    if is_interface(&next.kind) {
        let (interface, rest) = interface(alloc, rest)?;
        return Ok((Item::Interface(interface), rest));
    }
    if is_function(tokens) {
        let (function, rest) = function(alloc, tokens)?;
        return Ok((Item::Function(function), rest));
    }
    let (vars, rest) = globals(alloc, tokens)?;
    Ok((Item::Vars(vars), rest))
}

/// The tokens after each `;` that they begin with.
fn strip(tokens: &[Token]) -> &[Token]
    ensures value { tokens_of result.now ≡ reader.strip (tokens_of tokens.now) }
{
    let mut rest = tokens;
    'more: while next_is_sign(Sign::Semicolon, rest) {
        rest = without_first(rest);
    }
    rest
}

/// An item, and each `;` after it.
#[tactic(auto, unfolding(crate::specs::ItemReader::entry_at))]
fn entry(alloc: Global, tokens: &[Token]) -> ParseResult<'_, Item>
    ensures parsed { ParsesAs item_of result (reader.entry_at (tokens_of tokens.now)) }
{
    let (item, rest) = item(alloc, tokens)?;
    Ok((item, strip(rest)))
}

/// Whether any token is left.
#[tactic(auto, unfolding(crate::specs::ItemReader::is_left))]
pub fn is_left(tokens: &[Token]) -> bool
    ensures value { result ≡ reader.is_left (tokens_of tokens.now) }
{
    tokens.split_first().is_some()
}

fn entries(alloc: Global, tokens: &[Token]) -> ParseResult<'_, Vec<Item>>
    ensures read { ParsesAs (λ xs. map item_of xs.items) result
        (reader.entries_at (tokens_of tokens.now)) }
    ensures all { IfOk result (λ x. tokens_of x.1.now ≡ []) }
{
    let mut all = Vec::new(alloc);
    let mut rest = tokens;
    'more: while is_left(rest) {
        let (next, after) = entry(alloc, rest)?;
        all.push(next)?;
        rest = after;
    }
    Ok((all, rest))
}

/// `{ ";" | class | interface | function | vars ";" }`
#[tactic(auto, unfolding(crate::specs::ItemReader::module_at))]
pub fn items(alloc: Global, tokens: &[Token]) -> ParseResult<'_, Vec<Item>>
    ensures read { ParsesAs (λ xs. map item_of xs.items) result
        (reader.module_at (tokens_of tokens.now)) }
    ensures all { IfOk result (λ x. tokens_of x.1.now ≡ []) }
{
    entries(alloc, strip(tokens))
}
