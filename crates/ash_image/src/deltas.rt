//! What several requests changed, as bytes: deltas, of which each leads on from where the one before it leads.
//!
//!     count          u8     how many, 1 to 16
//!     deltas                each as in delta.rt, in version 2
//!
//! The body of a record:
//!
//!     tag            u8     3, it leads on by several deltas
//!     deltas                all of the bytes after the tag
//!
//! A delta has no length of its own: it ends where its last object ends.

ghost use Rattle.std.specs.Prelude.{◌≡◌, ◌∷◌, ◌<◌, ◌^◌, ℕ, List, Some, length, option_map};
ghost use Rattle.std.specs.Prelude.{IfOk, IfSome};
ghost use Rattle.ash_image.specs.Fields.{ReturnsField, times_at, whole};
ghost use Rattle.ash_image.specs.Delta.{Delta};
ghost use Rattle.ash_image.specs.DeltaReading.{delta_at};
ghost use Rattle.ash_image.specs.Deltas.{deltas_tag, deltas, FitDeltas, IsDeltas, HaveFewGone};
ghost use Rattle.ash_image.specs.Deltas.{deltas_at, deltas_of};
ghost use Rattle.ash_image.specs.declared.version.Version.TheVariants.{Two};

use crate::delta::delta_of;
use crate::fields::{ReadError, u8_at};
use crate::limits::MAX_DELTAS;
use crate::stored_delta::StoredDelta;
use crate::version::Version;
use std::alloc::{AllocError, Global};

/// The tag of a record's body that has several deltas.
pub const DELTAS_TAG: u8 = 3;

/// So many deltas, one after the other.
fn counted_deltas(
    alloc: Global,
    count: u8,
    bytes: &[u8],
) -> Result<(Vec<StoredDelta>, &[u8]), ReadError>
    ensures field { ReturnsField (λ x. (deltas_of x.0.items, x.1.now)) result
        (times_at (delta_at Two) count bytes.now) }
{
    let mut deltas = Vec::new(alloc);
    let mut rest = bytes;
    for _ in 0..count {
        let (delta, after) = delta_of(alloc, Version::Two, rest)?;
        deltas.push(delta)?;
        rest = after;
    }
    Ok((deltas, rest))
}

/// A count that deltas may have, and so many of them.
#[tactic(auto, unfolding(crate::specs::Deltas::deltas_at))]
fn deltas_of(alloc: Global, bytes: &[u8]) -> Result<(Vec<StoredDelta>, &[u8]), ReadError>
    ensures field { ReturnsField (λ x. (deltas_of x.0.items, x.1.now)) result
        (deltas_at bytes.now) }
{
    let (count, rest) = u8_at(bytes)?;
    if count == 0 || count > MAX_DELTAS {
        return Err(ReadError::Damaged);
    }
    counted_deltas(alloc, count, rest)
}

/// The deltas of which all of the bytes are the spelling.
fn whole_deltas(alloc: Global, bytes: &[u8]) -> Result<Vec<StoredDelta>, ReadError>
    ensures read { ReturnsField (λ ds. deltas_of ds.items) result (whole deltas_at bytes.now) }
{
    let (deltas, rest) = deltas_of(alloc, bytes)?;
    if rest.is_empty() {
        Ok(deltas)
    } else {
        Err(ReadError::Damaged)
    }
}

/// The deltas of which all of the bytes are the spelling. `None` if they are the spelling of none. Whether they lead
/// anywhere is not asked.
pub fn read_deltas(alloc: Global, bytes: &[u8]) -> Result<Option<Vec<StoredDelta>>, AllocError>
    // The bytes are the spelling of what is read.
    ensures found { IfOk result (λ found. IfSome found (λ ds.
        IsDeltas bytes.now (deltas_of ds.items))) }
    // What the bytes are the spelling of is read, unless memory is refused.
    ensures only { (ds : List Delta) → IsDeltas bytes.now ds
        → IfOk result (λ found. option_map (λ read. deltas_of read.items) found ≡ Some ds) }
{
    match whole_deltas(alloc, bytes) {
        Ok(deltas) => Ok(Some(deltas)),
        Err(ReadError::Damaged) => Ok(None),
        Err(ReadError::NoMemory) => Err(AllocError),
    }
}

/// Bytes are the spelling of these deltas and of no others. With their tag they fit into a record, if each has no more
/// objects gone than live at most. This function does nothing when it runs.
pub fn deltas_of_one_record()
    ensures one { (bytes : List ℕ) (c d : List Delta) → IsDeltas bytes c → IsDeltas bytes d
        → c ≡ d }
    ensures short { (ds : List Delta) → FitDeltas ds → HaveFewGone ds
        → length (deltas_tag ∷ deltas ds) < 2 ^ 32 }
{}
