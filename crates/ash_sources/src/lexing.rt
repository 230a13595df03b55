//! The tokens of a source.

ghost use Rattle.std.specs.Prelude.{◌≡◌, ◌↔◌, ℕ, List, Result, Ok, IfOk, IfErr};
ghost use Rattle.ash_lex.specs.Tokens.{Lexeme, lexemes};
ghost use Rattle.ash_lex.specs.declared.faults.LexFault.{LexFault as Fault};
ghost use Rattle.ash_sources.specs.Lexing.{Lexes, LexesNothing};
ghost use Rattle.ash_sources.specs.Scanning.{lexed};

use ash_lex::{LexFault, MAX_SOURCE_BYTES, Token, lex};
use std::alloc::Global;
use std::str;

/// The tokens of a source, or why it has none: it is longer than 65,536 bytes, or it is no UTF-8, or it has a lexical
/// fault. The first of these that holds is reported, or that memory was refused.
pub(crate) fn tokens_of(alloc: Global, source: &[u8]) -> Result<Vec<Token>, LexFault>
    ensures spelled { IfOk result (λ tokens. Lexes source.now (Ok (lexemes tokens.items))) }
    ensures refused { IfErr result (LexesNothing source.now) }
{
    if source.len() > MAX_SOURCE_BYTES {
        return Err(LexFault::SourceTooLong);
    }
    let text = match str::from_utf8(source) {
        Ok(text) => text,
        Err(fault) => {
            return Err(LexFault::BadCharacter {
                at: fault.valid_up_to(),
            });
        }
    };
    lex(alloc, text)
}

/// A source has one list of tokens or one fault for which it has none, and not both; `lexed` is that one, as a
/// function.
pub fn lexing_has_one_result()
    ensures total { (source : List ℕ) → (r : Result (List Lexeme) Fault) × Lexes source r }
    ensures one { (source : List ℕ) (a b : Result (List Lexeme) Fault) → Lexes source a
        → Lexes source b → a ≡ b }
    ensures exact { (source : List ℕ) (r : Result (List Lexeme) Fault)
        → (lexed source ≡ r) ↔ Lexes source r }
{}
