//! Deltas: bytes that were written by hand, what they are read as, and the parts of which they are written.
ghost use Rattle.ash_image.specs.Delta.{FitsDelta};
ghost use Rattle.ash_image.specs.DeltaViews.{delta_in};
ghost use Rattle.ash_image.specs.declared.version.Version.TheVariants.{Two};

use crate::stored::compare::{check_bytes, check_text};
use ash_image::delta::{read_delta, write_delta};
use ash_image::delta_examples::worked_deltas;
use ash_image::delta_parts::{ChangeParts, DeltaParts};
use ash_image::parts::ModuleParts;
use ash_image::version::Version;
use std::alloc::{AllocError, Global};
use std::process::Abort;
use std::test::Fail;

/// The first request added a module without a source: its number, the last number of an object, no services, the name,
/// the source and the globals of the module, and no objects that are gone or put.
const LOADED: &[u8] = &[
    0x01, 0x00, 0x00, 0x00, 0x00, 0x00, 0x00, 0x00, 0x00, 0x00, 0x00, 0x00, 0x00, 0x00, 0x00, 0x00,
    0x00, 0x00, 0x01, 0x01, 0x6d, 0x00, 0x00, 0x00, 0x00, 0x00, 0x00, 0x00, 0x00, 0x00, 0x00, 0x00,
    0x00, 0x00, 0x00,
];

/// The second removed it.
const DISCARDED: &[u8] = &[
    0x02, 0x00, 0x00, 0x00, 0x00, 0x00, 0x00, 0x00, 0x00, 0x00, 0x00, 0x00, 0x00, 0x00, 0x00, 0x00,
    0x00, 0x00, 0x02, 0x01, 0x6d, 0x00, 0x00, 0x00, 0x00, 0x00, 0x00, 0x00, 0x00,
];

/// The second wrote its first global, beside one object.
const CHANGED: &[u8] = &[
    0x02, 0x00, 0x00, 0x00, 0x00, 0x00, 0x00, 0x00, 0x01, 0x00, 0x00, 0x00, 0x00, 0x00, 0x00, 0x00,
    0x00, 0x00, 0x03, 0x01, 0x6d, 0x01, 0x00, 0x00, 0x00, 0x01, 0x01, 0x00, 0x00, 0x00, 0x00, 0x00,
    0x00, 0x00, 0x00, 0x00, 0x00, 0x00,
];

fn loaded() -> DeltaParts<'static>
    ensures fits { FitsDelta Two (delta_in result) }
{
    worked_deltas();
    DeltaParts {
        seq: 1,
        last: 0,
        services: &[],
        change: ChangeParts::Added(ModuleParts {
            name: "m",
            source: &[],
            globals: &[],
        }),
        gone: &[],
        put: &[],
    }
}

fn discarded() -> DeltaParts<'static>
    ensures fits { FitsDelta Two (delta_in result) }
{
    worked_deltas();
    DeltaParts {
        seq: 2,
        last: 0,
        services: &[],
        change: ChangeParts::Removed("m"),
        gone: &[],
        put: &[],
    }
}

/// What bytes are read as in the present version, written out.
fn shown(alloc: Global, bytes: &[u8]) -> Result<String, AllocError> {
    match read_delta(alloc, Version::Two, bytes)? {
        Some(delta) => format!(in alloc; "{delta:?}"),
        None => String::from_str(alloc, "none"),
    }
}

/// Compares what bytes are read as, and that none of their beginnings, nor they with a byte more, are a delta.
fn check_read(
    rt: &impl Abort,
    alloc: Global,
    bytes: &[u8],
    wanted: &str,
    what: &str,
) -> Result<(), Fail> {
    check_text(rt, shown(alloc, bytes)?.as_str(), wanted, what);
    for length in 0..bytes.len() {
        check_text(rt, shown(alloc, &bytes[..length])?.as_str(), "none", what);
    }
    let mut longer = Vec::from_slice(alloc, bytes)?;
    longer.push(0)?;
    check_text(rt, shown(alloc, &longer)?.as_str(), "none", what);
    Ok(())
}

#[test]
fn deltas_are_read(rt: HostRuntime) -> Result<(), Fail> {
    let wanted =
        "StoredDelta { seq: 1, last: 0, services: [], change: Added(StoredModule { name: \"m\", source: [], \
        globals: [] }), gone: [], put: [] }";
    check_read(&rt, rt.alloc(), LOADED, wanted, "a module is added")?;
    let wanted =
        "StoredDelta { seq: 2, last: 0, services: [], change: Removed(\"m\"), gone: [], put: [] }";
    check_read(&rt, rt.alloc(), DISCARDED, wanted, "a module is removed")?;
    let wanted =
        "StoredDelta { seq: 2, last: 1, services: [], change: Globals(StoredGlobals { name: \"m\", globals: \
        [IndexedWord { index: 0, word: Int(1) }] }), gone: [], put: [] }";
    check_read(&rt, rt.alloc(), CHANGED, wanted, "a global is written")
}

#[test]
fn deltas_are_written(rt: HostRuntime) -> Result<(), Fail> {
    let bytes = write_delta(rt.alloc(), loaded())?;
    check_bytes(&rt, &bytes, LOADED, "a module is added");
    let bytes = write_delta(rt.alloc(), discarded())?;
    check_bytes(&rt, &bytes, DISCARDED, "a module is removed");
    Ok(())
}
