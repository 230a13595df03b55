//! What the faults of sources report of them.

ghost use Rattle.std.specs.Prelude.{◌≡◌};
ghost use Rattle.ash_check.specs.ScriptFaults.{script_fault_of};
ghost use Rattle.ash_sources.specs.SourceFaults.{fault_of};
ghost use Rattle.ash_lines.specs.FaultDetails.{details_of, lexical_details, syntactic_details};
ghost use Rattle.ash_lines.specs.FaultDetails.{script_details, source_details};

use crate::details::Details;
use ash_check::ScriptFault;
use ash_lex::LexFault;
use ash_parse::ParseFault;
use ash_sources::fault::SourceFault;

/// What a lexical fault reports of its source.
fn lexical_details(fault: LexFault) -> Details<'static>
    ensures details { details_of result ≡ lexical_details fault }
{
    match fault {
        LexFault::BadCharacter { at }
        | LexFault::UnclosedComment { at }
        | LexFault::NumberTooLarge { at } => Details::At(at),
        LexFault::SourceTooLong | LexFault::NoMemory => Details::Nothing,
    }
}

/// What a fault of the grammar reports of its source.
fn syntactic_details(fault: ParseFault) -> Details<'static>
    ensures details { details_of result ≡ syntactic_details fault }
{
    match fault {
        ParseFault::Unexpected { at } | ParseFault::TooDeep { at } => Details::At(at),
        ParseFault::Unsupported { word, at } => Details::WordAt(word, at),
        ParseFault::NoMemory => Details::Nothing,
    }
}

/// What a fault of checking reports of its source.
fn script_details(fault: &ScriptFault) -> Details<'_>
    ensures details { details_of result ≡ script_details (script_fault_of fault.now) }
{
    match fault {
        ScriptFault::Broken(fault) => Details::At(fault.at),
        ScriptFault::Cyclic(names) => Details::Names(names.0.as_slice()),
    }
}

/// What a fault of a source reports of it.
pub(crate) fn source_details(fault: &SourceFault) -> Details<'_>
    ensures details { details_of result ≡ source_details (fault_of fault.now) }
{
    match fault {
        SourceFault::Lexical(fault) => lexical_details(*fault),
        SourceFault::Syntactic(fault) => syntactic_details(*fault),
        SourceFault::Checked(fault) => script_details(fault),
    }
}
