//! Checking a script: its bytes are read and judged, and the verdict is written.

ghost use Rattle.ash_registry.specs.RegistryViews.{registered};
ghost use Rattle.ash_serve.specs.CheckRun.{EndsCheck, ChecksFile, ChecksScript};
ghost use Rattle.ash_serve.specs.CheckRun.{Judges, WritesVerdict, check_state, streams_with, verdict_of};

use super::ending::{Ending, ProgramEnd};
use super::fault::ProgramFault;
use crate::run::MAX_BUFFERED_BYTES;
use ash_lines::bytes::{MAX_PREFIX_BYTES, read_bytes};
use ash_lines::reader::Reader;
use ash_lines::reply::{write_fault_line, write_line};
use ash_lines::sink::Sink;
use ash_lines::source::Source;
use ash_lines::writer::Writer;
use ash_registry::Registry;
use ash_sources::checking::check_source;
use ash_sources::fault::{SourceError, SourceFault};
use std::alloc::Global;
use std::io::{Read, Write};

/// How many bytes are read of a script, at the most: by so many it is seen to be too long.
const MAX_SCRIPT_BYTES: u32 = MAX_PREFIX_BYTES as u32;

/// Checks the script that a reader gives, with this registry, and writes a line, as `check_file`; and returns how the
/// program ends by that: with the status 0 where the line is `ok`, else 1.
pub fn run_check<R: Read + Drop, W: Write>(
    alloc: Global,
    registry: &Registry,
    reader: R,
    writer: &mut W,
) -> ProgramEnd
    ensures ends { EndsCheck (registered registry.now)
        (check_state (R.remaining reader) (W.contents writer.old)) result
        (W.contents writer.new) }
{
    ProgramEnd::by(check_file(alloc, registry, reader, writer))
}

/// Checks the script that a reader gives, with this registry, and writes a line: `ok`, or its refusal as the reply to a
/// `load` has it. The first 65,537 bytes are judged.
///
/// `Run(Read(Failed))` where the reader fails among them, `Run(Write)` where the writer fails, `NoMemory` where there
/// is none for the buffers or for the check. Nothing is written but the line; of that a prefix where the writer fails.
pub fn check_file<R: Read + Drop, W: Write>(
    alloc: Global,
    registry: &Registry,
    reader: R,
    writer: &mut W,
) -> Result<Ending, ProgramFault>
    ensures checks { ChecksFile (registered registry.now)
        (check_state (R.remaining reader) (W.contents writer.old)) result
        (W.contents writer.new) }
{
    let mut input = Reader::new(alloc, reader)?;
    let buffer = Vec::with_capacity(alloc, MAX_BUFFERED_BYTES)?;
    let mut output = Writer::new(writer, buffer);
    let result = check_script(alloc, registry, &mut input, &mut output);
    let lent = output.into_writer();
    // No effect at run time: the proof reads from it what the writer holds.
    let _ = &*lent;
    result
}

/// Checks the script that a source gives, and writes the verdict as a line. `Run(Read(Failed))` is returned only where
/// the source has failed, and `Run(Write)` only where the sink has.
pub fn check_script<S: Source, K: Sink>(
    alloc: Global,
    registry: &Registry,
    input: &mut S,
    output: &mut K,
) -> Result<Ending, ProgramFault>
    ensures checks { ChecksScript (streams_with S.feed K.outlet) (registered registry.now)
        (check_state input.old output.old) result (check_state input.new output.new) }
{
    let mut script = Vec::with_capacity(alloc, MAX_PREFIX_BYTES)?;
    read_bytes(input, MAX_SCRIPT_BYTES, &mut script)?;
    let verdict = judge(alloc, registry, script.as_slice())?;
    write_verdict(output, &verdict)
}

/// Why this source is refused, if it is.
fn judge(
    alloc: Global,
    registry: &Registry,
    source: &[u8],
) -> Result<Option<SourceFault>, ProgramFault>
    ensures verdict { Judges (registered registry.now) source.now result }
{
    match check_source(alloc, registry, source) {
        Ok(()) => Ok(None),
        Err(SourceError::NoMemory) => Err(ProgramFault::NoMemory),
        Err(SourceError::Fault(fault)) => Ok(Some(fault)),
    }
}

/// Writes the verdict on a script as a line, and returns how the program ends by it.
fn write_verdict<K: Sink>(
    output: &mut K,
    verdict: &Option<SourceFault>,
) -> Result<Ending, ProgramFault>
    ensures line { WritesVerdict K.outlet output.old (verdict_of verdict.now) result output.new }
{
    let (written, ending) = match verdict {
        None => (write_line(output, b"ok"), Ending::Well),
        Some(fault) => (write_fault_line(output, fault), Ending::Refused),
    };
    written?;
    Ok(ending)
}
