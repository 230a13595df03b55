//! The last state to which records lead.

ghost use Rattle.std.specs.Prelude.{◌≡◌, ◌≤◌, length, IfOk, IfSome, IsSome};
ghost use Rattle.ash_journal.specs.Reading.{AreAt, bodies_of};
ghost use Rattle.ash_image.specs.declared.version.Version.{Version};
ghost use Rattle.ash_image.specs.Snapshots.{Snapshot};
ghost use Rattle.ash_replay.specs.ReplayFaults.{after_image};
ghost use Rattle.ash_image.specs.SnapshotViews.{snapshot_of};
ghost use Rattle.ash_replay.specs.Replay.{IsStateIn};
ghost use Rattle.ash_inspect.specs.Known.{IsKnown, IsKnownOf};

use ash_image::stored::StoredImage;
use ash_journal::Record;
use ash_replay::ReplayFault;
use ash_replay::replay::replay;
use std::alloc::{AllocError, Global};

/// A state to which the first records after an image lead.
#[derive(Drop)]
pub struct KnownState {
    /// How many records these are.
    pub records: usize,
    pub stored: StoredImage,
}

/// The state to which an image and records lead. `None` if they lead to none.
fn state_after(
    alloc: Global,
    image: &[u8],
    records: &[Record],
) -> Result<Option<StoredImage>, AllocError>
    ensures leads { IfOk result (λ found. IfSome found (λ stored.
        IsStateIn stored.version (image.now, bodies_of records.now) (snapshot_of stored.state))) }
    ensures only { (version : Version) (s : Snapshot) → AreAt (after_image image.now) records.now
        → IsStateIn version (image.now, bodies_of records.now) s → IfOk result (λ found. IsSome found) }
{
    match replay(alloc, image, records) {
        Ok(stored) => Ok(Some(stored)),
        Err(ReplayFault::NoMemory) => Err(AllocError),
        Err(ReplayFault::Damaged(_)) => Ok(None),
        Err(ReplayFault::OtherInterface) => Ok(None),
    }
}

/// The state to which the first of some records lead.
fn state_after_first(
    alloc: Global,
    image: &[u8],
    records: &[Record],
    count: usize,
) -> Result<Option<KnownState>, AllocError>
    requires within { count ≤ length records.now }
    ensures known { IfOk result (λ found. IfSome found (λ known.
        IsKnown known image.now (bodies_of records.now) × (known.records ≡ count))) }
{
    let (first, _) = records.split_at(count);
    match state_after(alloc, image, first)? {
        Some(stored) => Ok(Some(KnownState {
            records: count,
            stored,
        })),
        None => Ok(None),
    }
}

/// Goes on from a known state: one from which the next record leads to none, by halving.
fn halve(
    alloc: Global,
    image: &[u8],
    records: &[Record],
    first: KnownState,
) -> Result<KnownState, AllocError>
    requires known { IsKnown first image.now (bodies_of records.now) }
    ensures known { IfOk result (λ known. IsKnown known image.now (bodies_of records.now)) }
{
    let mut known = first;
    let mut bad = records.len();
    while known.records < bad && bad - known.records > 1 {
        let middle = known.records + (bad - known.records) / 2;
        match state_after_first(alloc, image, records, middle)? {
            Some(next) => known = next,
            None => bad = middle,
        }
    }
    Ok(known)
}

/// A state of which the next record leads to none. `None` if the image has no state.
fn known_before_damage(
    alloc: Global,
    image: &[u8],
    records: &[Record],
) -> Result<Option<KnownState>, AllocError>
    ensures known { IfOk result (λ found. IfSome found (λ known.
        IsKnown known image.now (bodies_of records.now))) }
{
    match state_after_first(alloc, image, records, 0)? {
        Some(first) => Ok(Some(halve(alloc, image, records, first)?)),
        None => Ok(None),
    }
}

/// The state to which all records lead. If they lead to none, a state of which the next record leads to none; and
/// `None` if the image has no state.
#[tactic(auto, using(crate::proofs::KnownLaws::wholly_known))]
pub fn last_known(
    alloc: Global,
    image: &[u8],
    records: &[Record],
) -> Result<Option<KnownState>, AllocError>
    ensures known { IfOk result (λ found. IfSome found (λ known.
        IsKnown known image.now (bodies_of records.now))) }
    // If there is a state to which all records lead, it is this.
    ensures all { (version : Version) (s : Snapshot) → AreAt (after_image image.now) records.now
        → IsStateIn version (image.now, bodies_of records.now) s
        → IfOk result (IsKnownOf (length records.now)) }
{
    let found = state_after(alloc, image, records)?;
    match found {
        Some(stored) => Ok(Some(KnownState {
            records: records.len(),
            stored,
        })),
        None => known_before_damage(alloc, image, records),
    }
}
