//! Reads interfaces.
//!
//! Each function reads the phrase that is written above it.

ghost use Rattle.std.specs.Prelude.{map};
ghost use Rattle.ash_tree.specs.GrammarTokens.{tokens_of};
ghost use Rattle.ash_tree.specs.TreeViews.{interface_method_of, interface_of};
ghost use Rattle.ash_parse.specs.Readers.{ParsesAs};
ghost use Rattle.ash_parse.specs.ItemReader as reader;

use crate::cursor::{expect, name};
use crate::error::ParseResult;
use crate::functions::{parameters, result_type};
use crate::stmt_tokens::goes_on;
use ash_lex::{Sign, Token};
use ash_tree::{Interface, InterfaceMethod};
use std::alloc::Global;

/// `rtype NAME params ";"`
#[tactic(auto, unfolding(crate::specs::ItemReader::interface_method_at))]
fn interface_method(alloc: Global, tokens: &[Token]) -> ParseResult<'_, InterfaceMethod>
    ensures parsed { ParsesAs interface_method_of result
        (reader.interface_method_at (tokens_of tokens.now)) }
{
    let (of, rest) = result_type(alloc, tokens)?;
    let ((name, place), rest) = name(alloc, rest)?;
    let (parameters, rest) = parameters(alloc, rest)?;
    let (_, rest) = expect(Sign::Semicolon, rest)?;
    let method = InterfaceMethod {
        place,
        result: of,
        name,
        parameters,
    };
    Ok((method, rest))
}

/// `{ rtype NAME params ";" }`
fn interface_methods(alloc: Global, tokens: &[Token]) -> ParseResult<'_, Vec<InterfaceMethod>>
    ensures parsed { ParsesAs (λ xs. map interface_method_of xs.items) result
        (reader.interface_methods_at (tokens_of tokens.now)) }
{
    let mut all = Vec::new(alloc);
    let mut rest = tokens;
    'more: while goes_on(rest) {
        let (next, after) = interface_method(alloc, rest)?;
        all.push(next)?;
        rest = after;
    }
    Ok((all, rest))
}

/// `NAME "{" { rtype NAME params ";" } "}"`, after the word `interface`
#[tactic(auto, unfolding(crate::specs::ItemReader::interface_at))]
pub fn interface(alloc: Global, tokens: &[Token]) -> ParseResult<'_, Interface>
    ensures parsed { ParsesAs interface_of result (reader.interface_at (tokens_of tokens.now)) }
{
    let ((name, place), rest) = name(alloc, tokens)?;
    let (_, rest) = expect(Sign::OpenBrace, rest)?;
    let (methods, rest) = interface_methods(alloc, rest)?;
    let (_, rest) = expect(Sign::CloseBrace, rest)?;
    let interface = Interface {
        place,
        name,
        methods,
    };
    Ok((interface, rest))
}
