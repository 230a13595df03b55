//! Reads types.
//!
//! Each function reads the phrase that is written above it.

ghost use Rattle.std.specs.Prelude.{◌≡◌, option_map};
ghost use Rattle.ash_lex.specs.Tokens.{meaning_of};
ghost use Rattle.ash_tree.specs.Tree.{Object, Handle, Array, ArrayHandle};
ghost use Rattle.ash_tree.specs.GrammarTokens.{tokens_of};
ghost use Rattle.ash_tree.specs.TreeViews.{element_of, type_of, type_name_of};
ghost use Rattle.ash_parse.specs.Readers.{ParsesAs};
ghost use Rattle.ash_parse.specs.TypeReader as types;
ghost use Rattle.ash_parse.specs.StatementReader as reader;

use crate::cursor::{expect, is_sign, name, next_is_sign, place};
use crate::error::{ParseError, ParseResult};
use crate::operators::primitive;
use ash_lex::{ReservedWord, Sign, Token, TokenKind};
use ash_tree::{Element, ElementKind, Position, Type, TypeKind, TypeName};
use std::alloc::Global;

/// Whether a token is the word `array`.
#[tactic(auto, unfolding(crate::specs::TypeReader::is_array))]
pub fn is_array(kind: &TokenKind) -> bool
    ensures value { result ≡ types.is_array (meaning_of kind.now) }
{
    matches!(kind, TokenKind::Reserved(ReservedWord::Array))
}

/// `prim | NAME "@"`
#[tactic(auto, unfolding(crate::specs::TypeReader::elem_at))]
fn elem(alloc: Global, tokens: &[Token]) -> ParseResult<'_, Element>
    ensures parsed { ParsesAs element_of result (types.elem_at (tokens_of tokens.now)) }
{
    let Some((next, rest)) = tokens.split_first() else {
        return Err(ParseError::unexpected(tokens));
    };
    let place = place(next);
    if let Some(primitive) = primitive(&next.kind) {
        let kind = ElementKind::Primitive(primitive);
        return Ok((Element { place, kind }, rest));
    }
    let TokenKind::Name(text) = &next.kind else {
        return Err(ParseError::unexpected(tokens));
    };
    let text = String::from_str(alloc, text.as_str())?;
    let (_, rest) = expect(Sign::Handle, rest)?;
    let kind = ElementKind::Handle(text);
    Ok((Element { place, kind }, rest))
}

/// `"<" elem ">"`
#[tactic(auto, unfolding(crate::specs::TypeReader::element_at))]
pub fn element(alloc: Global, tokens: &[Token]) -> ParseResult<'_, Element>
    ensures parsed { ParsesAs element_of result (types.element_at (tokens_of tokens.now)) }
{
    let (_, rest) = expect(Sign::Less, tokens)?;
    let (element, rest) = elem(alloc, rest)?;
    let (_, rest) = expect(Sign::Greater, rest)?;
    Ok((element, rest))
}

/// `"<" NAME ">"`
#[tactic(auto, unfolding(crate::specs::TypeReader::target_at))]
pub fn target(alloc: Global, tokens: &[Token]) -> ParseResult<'_, TypeName>
    ensures parsed { ParsesAs type_name_of result (types.target_at (tokens_of tokens.now)) }
{
    let (_, rest) = expect(Sign::Less, tokens)?;
    let ((name, place), rest) = name(alloc, rest)?;
    let (_, rest) = expect(Sign::Greater, rest)?;
    Ok((TypeName { place, name }, rest))
}

/// What is after this sign, where it is next.
#[tactic(auto, unfolding(crate::specs::TypeReader::after_sign))]
fn after_sign(sign: Sign, tokens: &[Token]) -> Option<&[Token]>
    ensures value { option_map (λ x. tokens_of x.now) result
        ≡ types.after_sign sign (tokens_of tokens.now) }
{
    let (next, rest) = tokens.split_first()?;
    if is_sign(sign, next) {
        Some(rest)
    } else {
        None
    }
}

/// What is after an `elem`, where one is next.
#[tactic(auto, unfolding(crate::specs::TypeReader::after_elem))]
fn after_elem(tokens: &[Token]) -> Option<&[Token]>
    ensures value { option_map (λ x. tokens_of x.now) result
        ≡ types.after_elem (tokens_of tokens.now) }
{
    let (next, rest) = tokens.split_first()?;
    if primitive(&next.kind).is_some() {
        return Some(rest);
    }
    match &next.kind {
        TokenKind::Name(_) => after_sign(Sign::Handle, rest),
        _ => None,
    }
}

/// What is after `"<" elem ">"`, where it is next.
#[tactic(auto, unfolding(crate::specs::TypeReader::after_element))]
pub fn after_element(tokens: &[Token]) -> Option<&[Token]>
    ensures value { option_map (λ x. tokens_of x.now) result
        ≡ types.after_element (tokens_of tokens.now) }
{
    let rest = after_sign(Sign::Less, tokens)?;
    let rest = after_elem(rest)?;
    after_sign(Sign::Greater, rest)
}

#[tactic(auto, unfolding(crate::specs::StatementReader::is_name))]
fn is_name(kind: &TokenKind) -> bool
    ensures value { result ≡ reader.is_name (meaning_of kind.now) }
{
    matches!(kind, TokenKind::Name(_))
}

/// Whether the next token is a name.
#[tactic(auto, unfolding(crate::specs::StatementReader::next_is_name))]
pub fn next_is_name(tokens: &[Token]) -> bool
    ensures value { result ≡ reader.next_is_name (tokens_of tokens.now) }
{
    let Some((next, _)) = tokens.split_first() else {
        return false;
    };
    is_name(&next.kind)
}

/// Whether these tokens, after the name of an object type, go on with a declaration and no expression.
fn names_vars(tokens: &[Token]) -> bool
    ensures value { result ≡ reader.names_vars (tokens_of tokens.now) }
{
    next_is_name(tokens) || next_is_sign(Sign::Handle, tokens)
}

/// Whether the tokens begin a declaration of variables, or a parameter. The first two decide, or what is after the word
/// `array` with its `"<" elem ">"`.
#[tactic(auto, unfolding(crate::specs::StatementReader::is_vars))]
pub fn is_vars(tokens: &[Token]) -> bool
    ensures value { result ≡ reader.is_vars (tokens_of tokens.now) }
{
    let Some((next, rest)) = tokens.split_first() else {
        return false;
    };
    if primitive(&next.kind).is_some() {
        return next_is_name(rest);
    }
    if is_name(&next.kind) {
        return names_vars(rest);
    }
    if !is_array(&next.kind) {
        return false;
    }
    match after_element(rest) {
        Some(after) => names_vars(after),
        None => false,
    }
}

/// `["@"]` after an array's type
fn array_type<'a>(place: Position, element: Element, tokens: &'a [Token]) -> ParseResult<'a, Type>
    ensures parsed { ParsesAs type_of result
        (reader.handle_by (Array place (element_of element))
        (ArrayHandle place (element_of element)) (tokens_of tokens.now)) }
{
    if !next_is_sign(Sign::Handle, tokens) {
        let kind = TypeKind::Array(element);
        return Ok((Type { place, kind }, tokens));
    }
    let (_, rest) = expect(Sign::Handle, tokens)?;
    let kind = TypeKind::ArrayHandle(element);
    Ok((Type { place, kind }, rest))
}

/// `prim | NAME ["@"] | "array" "<" elem ">" ["@"]`
#[tactic(auto, unfolding(crate::specs::StatementReader::type_at))]
pub fn type_name(alloc: Global, tokens: &[Token]) -> ParseResult<'_, Type>
    ensures parsed { ParsesAs type_of result (reader.type_at (tokens_of tokens.now)) }
{
    let Some((next, rest)) = tokens.split_first() else {
        return Err(ParseError::unexpected(tokens));
    };
    let place = place(next);
    if let Some(primitive) = primitive(&next.kind) {
        let kind = TypeKind::Primitive(primitive);
        return Ok((Type { place, kind }, rest));
    }
    match &next.kind {
        TokenKind::Name(text) => object_type(alloc, place, text.as_str(), rest),
        TokenKind::Reserved(ReservedWord::Array) => {
            let (element, rest) = element(alloc, rest)?;
            array_type(place, element, rest)
        }
        _ => Err(ParseError::unexpected(tokens)),
    }
}

/// `["@"]` after the name of an object type
fn object_type<'a>(
    alloc: Global,
    place: Position,
    text: &str,
    tokens: &'a [Token],
) -> ParseResult<'a, Type>
    ensures parsed { ParsesAs type_of result
        (reader.handle_by (Object place text.now) (Handle place text.now) (tokens_of tokens.now)) }
{
    let text = String::from_str(alloc, text)?;
    if !next_is_sign(Sign::Handle, tokens) {
        let kind = TypeKind::Object(text);
        return Ok((Type { place, kind }, tokens));
    }
    let (_, rest) = expect(Sign::Handle, tokens)?;
    let kind = TypeKind::Handle(text);
    Ok((Type { place, kind }, rest))
}
