//! Writing pieces of text.

ghost use Rattle.std.specs.List.{flat_map};
ghost use Rattle.ash_lines.specs.Sink.{Writes};

use crate::sink::{Sink, WriteFault};

/// Writes pieces one after another.
pub(crate) fn write_all<K: Sink>(output: &mut K, pieces: &[&[u8]]) -> Result<(), WriteFault>
    ensures text { Writes K.outlet output.old (flat_map (λ piece. piece.now) pieces.now)
        result output.new }
{
    for piece in pieces {
        output.write(piece)?;
    }
    Ok(())
}
