//! What the texts of a registration mean.
ghost use Rattle.std.specs.Prelude.{◌≡◌, ◌↔◌, ℕ, true, List, Option, Some, IfOk, IfErr, option_map};
ghost use Rattle.ash_lex.specs.Tokens.{meaning_of, lexeme_of, lexemes};
ghost use Rattle.ash_parse.specs.declared.faults.ParseFault.{ParseFault};
ghost use Rattle.ash_tree.specs.Tree.{Declaration as DeclarationTree};
ghost use Rattle.ash_tree.specs.TreeViews.{declaration_of};
ghost use Rattle.ash_registry.specs.declared.fault.RegistryFault.TheVariants.{NoMemory};
ghost use Rattle.ash_registry.specs.Texts.{IsLexed, HasNameClass, IsDeclarationOf};
ghost use Rattle.ash_registry.specs.Texts as spec;
ghost use Rattle.ash_registry.specs.NameClasses.{class_of_meaning, name_class_of};
ghost use Rattle.ash_registry.specs.NameClasses.{class_of_token, class_of_tokens};

use crate::RegistryFault;
use ash_lex::{LexFault, Token, TokenKind, lex};
use ash_parse::{ParseFault, parse_declaration};
use ash_tree::Declaration;
use std::alloc::Global;

/// What a text is as a name.
#[derive(Clone, Copy, Debug, PartialEq, Eq)]
pub(crate) enum NameClass {
    /// A name: a letter or `_`, then letters, digits and `_`.
    Name,
    /// A word that is reserved or unsupported.
    Reserved,
    /// No name.
    Other,
}

// The tokens of a text, unless it is too long or has a lexical fault.
fn read_tokens(alloc: Global, text: &str) -> Result<Option<Vec<Token>>, RegistryFault>
    ensures cut { IfOk result (λ tokens.
        IsLexed text.now (option_map (λ ts. lexemes ts.items) tokens)) }
    ensures only_memory { IfErr result (λ fault. fault ≡ NoMemory) }
{
    match lex(alloc, text) {
        Ok(tokens) => Ok(Some(tokens)),
        Err(LexFault::NoMemory) => Err(RegistryFault::NoMemory),
        Err(_) => Ok(None),
    }
}

/// What a text is as a name.
#[tactic(auto, using(crate::proofs::Meanings::name_read, crate::proofs::Meanings::uncut_is_no_name))]
pub(crate) fn read_name(alloc: Global, text: &str) -> Result<NameClass, RegistryFault>
    ensures classified { IfOk result (λ s. HasNameClass text.now (name_class_of s)) }
    ensures only_memory { IfErr result (λ fault. fault ≡ NoMemory) }
{
    match read_tokens(alloc, text)? {
        Some(tokens) => Ok(name_class_of_tokens(&tokens, text.len())),
        None => Ok(NameClass::Other),
    }
}

// What a text of this length is as a name, by its tokens.
fn name_class_of_tokens(tokens: &[Token], len: usize) -> NameClass
    ensures value { name_class_of result ≡ class_of_tokens len (lexemes tokens.now) }
{
    match tokens {
        [only] => name_class_of_token(only, len),
        _ => NameClass::Other,
    }
}

// What a text of this length is as a name, by its only token.
fn name_class_of_token(only: &Token, len: usize) -> NameClass
    ensures value { name_class_of result ≡ class_of_token len (lexeme_of only.now) }
{
    if only.from == 0 && only.to == len {
        name_class_of_word(&only.kind)
    } else {
        NameClass::Other
    }
}

// What a text that is one token is as a name.
fn name_class_of_word(kind: &TokenKind) -> NameClass
    ensures value { name_class_of result ≡ class_of_meaning (meaning_of kind.now) }
{
    match kind {
        TokenKind::Name(_) => NameClass::Name,
        TokenKind::Reserved(_) | TokenKind::Unsupported(_) => NameClass::Reserved,
        _ => NameClass::Other,
    }
}

/// What a text declares, if it is a declaration.
pub(crate) fn read_declaration(
    alloc: Global,
    text: &str,
) -> Result<Option<Declaration>, RegistryFault>
    ensures declared { IfOk result (λ d. IsDeclarationOf text.now (option_map declaration_of d)) }
    ensures only_memory { IfErr result (λ fault. fault ≡ NoMemory) }
{
    match read_tokens(alloc, text)? {
        Some(tokens) => parse_whole(alloc, &tokens, text),
        None => Ok(None),
    }
}

// What a text declares, by its tokens.
fn parse_whole(
    alloc: Global,
    tokens: &[Token],
    text: &str,
) -> Result<Option<Declaration>, RegistryFault>
    requires lexed { IsLexed text.now (Some (lexemes tokens.now)) }
    ensures declared { IfOk result (λ d. IsDeclarationOf text.now (option_map declaration_of d)) }
    ensures only_memory { IfErr result (λ fault. fault ≡ NoMemory) }
{
    let _text = text;
    match parse_declaration(alloc, tokens) {
        Ok(declared) => Ok(Some(declared)),
        Err(fault) if ran_out(fault) => Err(RegistryFault::NoMemory),
        Err(_) => Ok(None),
    }
}

// Whether memory ran out.
fn ran_out(fault: ParseFault) -> bool
    ensures exact { (result ≡ true) ↔ (fault ≡ ParseFault.NoMemory) }
{
    matches!(fault, ParseFault::NoMemory)
}

/// That each text is a name, a word of the language, or no name, and declares one thing or nothing. It does nothing
/// when it runs.
pub fn one_meaning()
    ensures some_class { (text : List ℕ) → (s : spec.NameClass) × HasNameClass text s }
    ensures one_class { (text : List ℕ) (s t : spec.NameClass) → HasNameClass text s
        → HasNameClass text t → s ≡ t }
    ensures some_declaration { (text : List ℕ)
        → (d : Option DeclarationTree) × IsDeclarationOf text d }
    ensures one_declaration { (text : List ℕ) (d e : Option DeclarationTree)
        → IsDeclarationOf text d → IsDeclarationOf text e → d ≡ e }
{}
