//! The calls of the crate.

ghost use Rattle.std.specs.Prelude.{◌≡◌, ◌-◌, List, [], length, drop, IfOk, IfErr, MatchResult};
ghost use Rattle.ash_lex.specs.Tokens.{meaning_of};
ghost use Rattle.ash_tree.specs.GrammarTokens.{tokens_of};
ghost use Rattle.ash_tree.specs.Tree.{Item, Declaration as DeclarationTree};
ghost use Rattle.ash_tree.specs.TreeViews.{module_of, declaration_of};
ghost use Rattle.ash_tree.specs.Grammar.{Derives, Declares};
ghost use Rattle.ash_parse.specs.Readers.{Unexpected, ParsesAs};
ghost use Rattle.ash_parse.specs.declared.faults.ParseFault.TheVariants.{NoMemory};
ghost use Rattle.ash_parse.specs.FirstFault.{FirstParseFault, FirstDeclarationFault, ReportsFirst};
ghost use Rattle.ash_parse.specs.Unique.{HasOneModule, HasOneFault, HasTreeOrFault, HasNotBoth};
ghost use Rattle.ash_parse.specs.Unique.{HasOneDeclaration, HasOneDeclarationFault};
ghost use Rattle.ash_parse.specs.Unique.{HasDeclarationOrFault, HasNotBothDeclared};
ghost use Rattle.ash_parse.specs.ParseFaults.{IsHaltFault, part_of, end_of, start, IsReported};
ghost use Rattle.ash_parse.specs.ParseFaults.{whole_declaration_at};

use crate::declarations::declaration;
use crate::error::{ParseError, ParseResult, Stop};
use crate::faults::{ParseFault, UnsupportedPart};
use crate::items::{is_left, items};
use ash_lex::{Sign, Token, TokenKind};
use ash_tree::{Declaration, Module};
use std::alloc::Global;

/// The part that a token belongs to which the profile does not have.
#[tactic(auto, unfolding(crate::specs::ParseFaults::part_of))]
fn part_of(kind: &TokenKind) -> Option<UnsupportedPart>
    ensures value { result ≡ part_of (meaning_of kind.now) }
{
    match kind {
        TokenKind::Unsupported(word) => Some(UnsupportedPart::Word(*word)),
        TokenKind::Sign(Sign::Power) => Some(UnsupportedPart::Power),
        TokenKind::Sign(Sign::Scope) => Some(UnsupportedPart::Scope),
        _ => None,
    }
}

/// Where the first of the tokens from the fault on begins, or where all of the tokens end.
fn offset(tokens: &[Token], rest: &[Token]) -> usize
    ensures value { result ≡ start (end_of tokens.now) (tokens_of rest.now) }
{
    match rest.first() {
        Some(next) => next.from,
        None => end(tokens),
    }
}

/// Where the last of the tokens ends.
fn end(tokens: &[Token]) -> usize
    ensures value { result ≡ end_of tokens.now }
{
    match tokens.last() {
        Some(last) => last.to,
        None => 0,
    }
}

/// The last tokens, as many as this, or all where there are fewer.
fn last(count: usize, tokens: &[Token]) -> &[Token]
    ensures value { result.now ≡ drop (length tokens.now - count) tokens.now }
{
    let (_, last) = tokens.split_at(tokens.len().saturating_sub(count));
    last
}

/// What is reported of why reading stopped.
fn fault(tokens: &[Token], error: ParseError) -> ParseFault
    ensures reported { IsReported tokens.now result error }
{
    let rest = last(error.left, tokens);
    match error.stop {
        Stop::Unexpected => unexpected(tokens, rest),
        Stop::TooDeep => ParseFault::TooDeep {
            at: offset(tokens, rest),
        },
        Stop::NoMemory => ParseFault::NoMemory,
    }
}

/// What is reported of the first of these tokens, which no phrase goes on with.
fn unexpected(tokens: &[Token], rest: &[Token]) -> ParseFault
    ensures halt_fault { IsHaltFault tokens.now result (Unexpected (tokens_of rest.now)) }
{
    let Some(next) = rest.first() else {
        return ParseFault::Unexpected { at: end(tokens) };
    };
    match part_of(&next.kind) {
        Some(word) => ParseFault::Unsupported {
            word,
            at: next.from,
        },
        None => ParseFault::Unexpected { at: next.from },
    }
}

/// The tree of a script.
///
/// # Errors
///
/// Tokens that have no tree within depth 64 are refused with a fault: [`ParseFault::Unexpected`] or
/// [`ParseFault::Unsupported`] at the first token that fits nowhere, [`ParseFault::TooDeep`] at the first that is too
/// deep, whichever comes first. Where memory runs out the answer is [`ParseFault::NoMemory`].
#[tactic(auto, using(crate::proofs::ItemSound::module_sound, crate::proofs::Reported::module_is_fault, crate::proofs::ItemComplete::items_are_one, crate::proofs::ItemComplete::module_memory, crate::proofs::FirstFaults::module_reported_first))]
pub fn parse_module(alloc: Global, tokens: &[Token]) -> Result<Module, ParseFault>
    // What is answered is a tree that the tokens derive, all of them, within depth 64.
    ensures derived { IfOk result (λ tree. Derives 0 (tokens_of tokens.now) (module_of tree)) }
    // Whatever the tokens derive within depth 64 is what is answered, unless memory runs out.
    ensures only { (derived : List Item) → Derives 0 (tokens_of tokens.now) derived
        → MatchResult result (λ tree. module_of tree ≡ derived) (λ fault. fault ≡ NoMemory) }
    // A fault is the first by the grammar: the tokens before it begin a module,
    // and nothing that goes on with it is one.
    ensures first { IfErr result (λ fault. ReportsFirst FirstParseFault tokens.now fault) }
{
    match items(alloc, tokens) {
        Ok((items, _)) => Ok(Module { items }),
        Err(error) => Err(fault(tokens, error)),
    }
}

/// The tree of a function or a property that a host registers.
///
/// # Errors
///
/// As for [`parse_module`].
#[tactic(auto, using(crate::proofs::ItemShorter::declaration_sound, crate::proofs::Reported::declaration_is_fault, crate::proofs::ItemComplete::declarations_are_one, crate::proofs::ItemComplete::declaration_memory, crate::proofs::FirstFaults::declaration_reported_first), unfolding(crate::specs::ParseFaults::whole_declaration_at))]
pub fn parse_declaration(alloc: Global, tokens: &[Token]) -> Result<Declaration, ParseFault>
    // What is answered is a tree that the tokens derive, all of them.
    ensures derived { IfOk result (λ tree. Declares (tokens_of tokens.now) (declaration_of tree)) }
    // Whatever the tokens derive is what is answered, unless memory runs out.
    ensures only { (derived : DeclarationTree) → Declares (tokens_of tokens.now) derived
        → MatchResult result (λ tree. declaration_of tree ≡ derived) (λ fault. fault ≡ NoMemory) }
    // A fault is the first by the grammar: the tokens before it begin a declaration, and nothing that goes on with it
    // is one.
    ensures first { IfErr result (λ fault. ReportsFirst FirstDeclarationFault tokens.now fault) }
{
    match whole_declaration(alloc, tokens) {
        Ok((declaration, _)) => Ok(declaration),
        Err(error) => Err(fault(tokens, error)),
    }
}

/// A declaration with nothing after it.
#[tactic(auto, using(crate::proofs::ItemShorter::left_is_none), unfolding(crate::specs::ParseFaults::whole_declaration_at))]
fn whole_declaration(alloc: Global, tokens: &[Token]) -> ParseResult<'_, Declaration>
    ensures read { ParsesAs declaration_of result (whole_declaration_at (tokens_of tokens.now)) }
    ensures all { IfOk result (λ x. tokens_of x.1.now ≡ []) }
{
    let (declaration, rest) = declaration(alloc, tokens)?;
    if is_left(rest) {
        return Err(ParseError::unexpected(rest));
    }
    Ok((declaration, rest))
}

/// That the tokens of a script have one tree at most: the grammar is unambiguous. It does nothing when it runs.
#[tactic(auto, using(crate::proofs::ItemComplete::one_module))]
pub fn has_one_module(tokens: &[Token])
    ensures one_tree { HasOneModule (tokens_of tokens.now) }
{
    let _tokens = tokens;
}

/// That the tokens of a registered declaration have one tree at most. It does nothing when it runs.
#[tactic(auto, using(crate::proofs::ItemComplete::one_declaration))]
pub fn has_one_declaration(tokens: &[Token])
    ensures one_tree { HasOneDeclaration (tokens_of tokens.now) }
{
    let _tokens = tokens;
}

/// That the tokens of a script have a tree or, if they have none, one first fault, by the grammar. It does nothing
/// when it runs.
#[tactic(auto, using(crate::proofs::OneFault::one_fault, crate::proofs::OneFault::not_both_had))]
pub fn has_one_fault(tokens: &[Token])
    ensures one { HasOneFault (tokens_of tokens.now) }
    ensures either { HasTreeOrFault (tokens_of tokens.now) }
    ensures not_both { HasNotBoth (tokens_of tokens.now) }
{
    let _tokens = tokens;
}

/// That the tokens of a registered declaration have a tree or, if they have none, one first fault. It does nothing
/// when it runs.
#[tactic(auto, using(crate::proofs::OneFault::one_declaration_fault, crate::proofs::OneFault::not_both_declared))]
pub fn has_one_declaration_fault(tokens: &[Token])
    ensures one { HasOneDeclarationFault (tokens_of tokens.now) }
    ensures either { HasDeclarationOrFault (tokens_of tokens.now) }
    ensures not_both { HasNotBothDeclared (tokens_of tokens.now) }
{
    let _tokens = tokens;
}
