//! The lexer: one pass over the text, a piece at a time.

ghost use Rattle.std.specs.Prelude.{◌≡◌, ℕ, ◌<◌, ◌≤◌, ◌^◌, ◌↔◌, ◌⊎◌, List, []};
ghost use Rattle.std.specs.Prelude.{length, take, drop, count_by};
ghost use Rattle.std.specs.Prelude.{IfOk, IfErr, MatchResult, IsErrAnd};
ghost use Rattle.ash_lex.specs.declared.faults.LexFault.{LexFault};
ghost use Rattle.ash_lex.specs.declared.faults.LexFault.TheVariants.{NoMemory, NumberTooLarge};
ghost use Rattle.ash_lex.specs.Pieces.{IsName};
ghost use Rattle.ash_lex.specs.Bytes as spec;
ghost use Rattle.ash_lex.specs.Tokens.{Means, meaning_of, number, Lexeme};
ghost use Rattle.ash_lex.specs.Tokens.{lexemes, Reads, HasTokens, Rises};
ghost use Rattle.ash_lex.specs.Tokens.{FirstLexFault, IsRefusal};
ghost use Rattle.ash_lex.specs.ScannedPieces.{IsScanned, IsPieceFault, IsTextFault};

use crate::bytes::line_feeds;
use crate::faults::LexFault;
use crate::numbers::value_in;
use crate::pieces::{Piece, begins_with_blank, longest_piece};
use crate::tokens::{Token, TokenKind};
use crate::words::{reserved_word, unsupported_word};
use std::alloc::Global;
use std::str;

/// A text has at most so many bytes.
pub const MAX_SOURCE_BYTES: usize = 65_536;

/// U+FEFF in UTF-8.
const BYTE_ORDER_MARK: [u8; 3] = [0xef, 0xbb, 0xbf];

/// How many bytes a token takes with the blanks around it, at the least in nearly all texts: with room for so many
/// tokens the list is not moved.
const BYTES_A_TOKEN: usize = 2;

/// A piece that the lexer has passed, with its length in bytes.
#[derive(Debug, Drop)]
pub enum ScannedPiece {
    Gap(usize),
    Token(TokenKind, usize),
}

/// What a word is: reserved, unsupported, or else a name.
fn word_kind(alloc: Global, word: &[u8]) -> Result<TokenKind, LexFault>
    requires name { IsName word.now }
    ensures meaning { IfOk result (λ kind. Means word.now (meaning_of kind)) }
    ensures only_memory { IfErr result (λ fault. fault ≡ NoMemory) }
{
    if let Some(reserved) = reserved_word(word) {
        return Ok(TokenKind::Reserved(reserved));
    }
    if let Some(unsupported) = unsupported_word(word) {
        return Ok(TokenKind::Unsupported(unsupported));
    }
    let name = str::from_utf8(word).unwrap();
    Ok(TokenKind::Name(String::from_str(alloc, name)?))
}

/// The number that the digits are in a base. `at` is the offset of its token.
fn number(base: u64, digits: &[u8], at: usize) -> Result<TokenKind, LexFault>
    requires within { 0 < base }
    ensures value { IfOk result (λ kind.
        (meaning_of kind ≡ number (spec.value_in base digits.now))
        × (spec.value_in base digits.now < 2 ^ 64)) }
    ensures too_large { IfErr result (λ fault.
        (fault ≡ NumberTooLarge at) × (2 ^ 64 ≤ spec.value_in base digits.now)) }
{
    match value_in(base, digits) {
        Some(value) => Ok(TokenKind::Number(value)),
        None => Err(LexFault::NumberTooLarge { at }),
    }
}

/// Passes the longest piece that begins what is left of the text. `at` is the offset of what is left.
fn next_piece(alloc: Global, left: &[u8], at: usize) -> Result<ScannedPiece, LexFault>
    requires within { 0 < length left.now }
    ensures passes { IfOk result (λ piece. IsScanned left.now piece) }
    ensures stops { IfErr result (λ fault. IsPieceFault at left.now fault) }
{
    // Half of the pieces of most texts are blanks.
    if begins_with_blank(left) {
        return Ok(ScannedPiece::Gap(1));
    }
    let Some(piece) = longest_piece(left) else {
        return Err(LexFault::BadCharacter { at });
    };
    match piece {
        Piece::Gap(len) => Ok(ScannedPiece::Gap(len)),
        Piece::UnclosedComment => Err(LexFault::UnclosedComment { at }),
        Piece::Name(len) => Ok(ScannedPiece::Token(word_kind(alloc, &left[..len])?, len)),
        Piece::Decimal(len) => Ok(ScannedPiece::Token(number(10, &left[..len], at)?, len)),
        Piece::Hexadecimal(len) => {
            let token = &left[..len];
            Ok(ScannedPiece::Token(number(16, &token[2..], at)?, len))
        }
        Piece::Sign(sign) => Ok(ScannedPiece::Token(TokenKind::Sign(sign), sign.as_str().len())),
    }
}

/// How many bytes a byte order mark takes at the beginning of the text.
fn mark_len(text: &[u8]) -> usize
    ensures within { result ≤ length text.now }
    ensures no_feed { count_by spec.is_line_feed (take result text.now) ≡ 0 }
    ensures passed { Reads (take result text.now) [] (drop result text.now) }
{
    if text.starts_with(&BYTE_ORDER_MARK) {
        BYTE_ORDER_MARK.len()
    } else {
        0
    }
}

/// The tokens of a text that is not too long.
fn tokens_of(alloc: Global, text: &[u8]) -> Result<Vec<Token>, LexFault>
    requires within { length text.now ≤ MAX_SOURCE_BYTES }
    ensures tokens { IfOk result (λ tokens. HasTokens text.now (lexemes tokens.items)) }
    ensures stopped { IfErr result (λ fault. IsTextFault text.now fault) }
{
    let mut tokens = Vec::with_capacity(alloc, text.len() / BYTES_A_TOKEN)?;
    let mut at = mark_len(text);
    let mut line = 1;
    while at < text.len() {
        let left = &text[at..];
        match next_piece(alloc, left, at)? {
            ScannedPiece::Gap(len) => {
                line += line_feeds(&left[..len]);
                at += len;
            }
            ScannedPiece::Token(kind, len) => {
                tokens.push(Token {
                    kind,
                    line,
                    from: at,
                    to: at + len,
                })?;
                at += len;
            }
        }
    }
    Ok(tokens)
}

/// The tokens of a text, from the first to the last.
///
/// # Errors
///
/// A text of more than 65,536 bytes is [`LexFault::SourceTooLong`], whatever is in it. Any other text
/// that has no tokens is refused with its first lexical fault, and the fault's offset. Where memory
/// runs out the answer is [`LexFault::NoMemory`].
pub fn lex(alloc: Global, text: &str) -> Result<Vec<Token>, LexFault>
    ensures too_long { (result ≡ Err LexFault.SourceTooLong)
        ↔ (MAX_SOURCE_BYTES < length text.now) }
    // What is answered is the text's tokens.
    ensures found { IfOk result (λ tokens. HasTokens text.now (lexemes tokens.items)) }
    ensures rising { IfOk result (λ tokens. Rises 0 (length text.now) (lexemes tokens.items)) }
    // The text's tokens are answered.
    ensures only { (tokens : List Lexeme) → HasTokens text.now tokens
        → length text.now ≤ MAX_SOURCE_BYTES
        → MatchResult result (λ answer. lexemes answer.items ≡ tokens) (λ fault. fault ≡ NoMemory) }
    // A fault that is answered is the text's first, and the first is answered.
    ensures fault { IfErr result (λ fault. IsRefusal text.now fault) }
    ensures refused { (fault : LexFault) → FirstLexFault text.now fault
        → length text.now ≤ MAX_SOURCE_BYTES
        → IsErrAnd result (λ answer. (answer ≡ fault) ⊎ (answer ≡ NoMemory)) }
{
    if text.len() > MAX_SOURCE_BYTES {
        return Err(LexFault::SourceTooLong);
    }
    tokens_of(alloc, text.as_bytes())
}

/// That a text has one list of tokens or one first fault, and not both. It does nothing when it runs.
pub fn one_reading()
    ensures total { (text : List ℕ) → ((tokens : List Lexeme) × HasTokens text tokens)
        ⊎ ((fault : LexFault) × FirstLexFault text fault) }
    ensures tokens { (text : List ℕ) (a b : List Lexeme) → HasTokens text a → HasTokens text b
        → a ≡ b }
    ensures faults { (text : List ℕ) (f g : LexFault) → FirstLexFault text f → FirstLexFault text g
        → f ≡ g }
    ensures apart { (text : List ℕ) (tokens : List Lexeme) (f : LexFault) → HasTokens text tokens
        → ¬ FirstLexFault text f }
{}
