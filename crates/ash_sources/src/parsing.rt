//! The script that a source spells.

ghost use Rattle.std.specs.Prelude.{IfOk, IfErr};
ghost use Rattle.ash_lex.specs.Tokens.{lexemes};
ghost use Rattle.ash_tree.specs.TreeViews.{module_of as items_of};
ghost use Rattle.ash_tree.specs.Grammar.{Derives};
ghost use Rattle.ash_sources.specs.CheckedSource.{tokens_in};
ghost use Rattle.ash_sources.specs.Lexing.{IsText};
ghost use Rattle.ash_sources.specs.Scripts.{HasNoItems, SpellsScript, HasNoScript};
ghost use Rattle.ash_sources.specs.SourceFaults.{RefusesWhere};

use crate::fault::SourceError;
use crate::lexing::tokens_of;
use ash_lex::Token;
use ash_parse::parse_module;
use ash_tree::Module;
use std::alloc::Global;

/// The script with these tokens, or their first fault.
fn script_with_tokens(alloc: Global, tokens: &[Token]) -> Result<Module, SourceError>
    ensures derived { IfOk result (λ script. Derives 0 (tokens_in (lexemes tokens.now))
        (items_of script)) }
    ensures refused { IfErr result (RefusesWhere (HasNoItems (lexemes tokens.now)) (Unit {0})) }
{
    Ok(parse_module(alloc, tokens)?)
}

/// The script that a source spells.
///
/// # Errors
///
/// A source is refused for the first of these that holds: it has more than 65,536 bytes, it is no UTF-8, it has a
/// lexical fault, its tokens are no script or are nested too deep. Or memory was refused.
pub(crate) fn script_of(alloc: Global, source: &[u8]) -> Result<Module, SourceError>
    ensures spelled { IfOk result (λ script. SpellsScript source.now (items_of script)) }
    ensures refused { IfErr result (RefusesWhere (HasNoScript source.now) (IsText source.now)) }
{
    let tokens = tokens_of(alloc, source)?;
    script_with_tokens(alloc, &tokens)
}
