//! Writing a refusal.

ghost use Rattle.std.specs.Prelude.{map, string_bytes};
ghost use Rattle.ash_requests.specs.RequestViews.{refusal_seen};
ghost use Rattle.ash_sources.specs.SourceFaults.{fault_of};
ghost use Rattle.ash_lines.specs.Sink.{Writes};
ghost use Rattle.ash_lines.specs.FaultDetails.{details_of};
ghost use Rattle.ash_lines.specs.RefusalTexts.{names_text, details_text, label_text, refused_text};
ghost use Rattle.ash_lines.specs.RefusalTexts.{fault_text, refusal_text};

use crate::details::Details;
use crate::faults::source_details;
use crate::pieces::write_all;
use crate::sink::{Sink, WriteFault};
use ash_requests::Refusal;
use ash_sources::fault::SourceFault;
use itoa::Buffer;

/// Writes the refusal of a request. That of a source is the refusal of the source.
pub(crate) fn write_refusal<K: Sink>(
    output: &mut K,
    refusal: &Refusal<SourceFault>,
) -> Result<(), WriteFault>
    ensures text { Writes K.outlet output.old (refusal_text (refusal_seen fault_of refusal.now))
        result output.new }
{
    match refusal.code() {
        Ok(code) => write_label(output, code),
        Err(fault) => write_fault(output, fault),
    }
}

/// Writes the refusal of a source.
pub(crate) fn write_fault<K: Sink>(output: &mut K, fault: &SourceFault) -> Result<(), WriteFault>
    ensures text { Writes K.outlet output.old (fault_text (fault_of fault.now)) result output.new }
{
    write_refused(output, fault.code(), source_details(fault))
}

/// Writes a refusal by its number and its name, and what it reports of a source.
fn write_refused<K: Sink>(
    output: &mut K,
    code: &str,
    details: Details<'_>,
) -> Result<(), WriteFault>
    ensures text { Writes K.outlet output.old
        (refused_text code.now (details_of details.entry)) result output.new }
{
    write_label(output, code)?;
    write_details(output, details)
}

/// Writes that a request is refused, with the number and the name of the refusal.
fn write_label<K: Sink>(output: &mut K, code: &str) -> Result<(), WriteFault>
    ensures text { Writes K.outlet output.old (label_text code.now) result output.new }
{
    write_all(output, &[b"refused ".as_slice(), code.as_bytes()])
}

/// Writes what a refusal reports of a source, with a blank before each part.
fn write_details<K: Sink>(output: &mut K, details: Details<'_>) -> Result<(), WriteFault>
    ensures text { Writes K.outlet output.old (details_text (details_of details.entry))
        result output.new }
{
    let mut digits = Buffer::new();
    match details {
        Details::Nothing => write_all(output, &[]),
        Details::At(at) => write_all(output, &[b" ".as_slice(), digits.format(at).as_bytes()]),
        Details::WordAt(word, at) => {
            let word = word.as_str();
            let place = digits.format(at);
            write_all(
                output,
                &[b" ".as_slice(), word.as_bytes(), b" ", place.as_bytes()],
            )
        }
        Details::Names(names) => write_names(output, names),
    }
}

/// Writes names, with a blank before each.
fn write_names<K: Sink>(output: &mut K, names: &[String]) -> Result<(), WriteFault>
    ensures text { Writes K.outlet output.old (names_text (map string_bytes names.now))
        result output.new }
{
    for name in names {
        write_all(output, &[b" ".as_slice(), name.as_bytes()])?;
    }
    Ok(())
}
