//! The state to which an image and the records after it lead.

ghost use Rattle.std.specs.Prelude.{◌≡◌, IfOk, IfErr};
ghost use Rattle.ash_journal.specs.Reading.{AreAt, bodies_of};
ghost use Rattle.ash_image.specs.SnapshotViews.{snapshot_of};
ghost use Rattle.ash_replay.specs.Replay.{IsStateIn};
ghost use Rattle.ash_replay.specs.ReplayFaults.{after_image, IsMisshapen};
ghost use Rattle.ash_replay.specs.ReplaySteps.{newest_gate, ReadsImage, ReportsDamage};

use crate::fault::ReplayFault;
use crate::records::last_state;
use ash_image::image::read_image;
use ash_image::naming::{named_state, stored_state};
use ash_image::stored::StoredImage;
use ash_journal::Record;
use std::alloc::Global;

/// The state of a generation's image.
fn stored_image(alloc: Global, image: &[u8]) -> Result<StoredImage, ReplayFault>
    ensures reads_image { ReadsImage image.now result }
{
    match read_image(alloc, image)? {
        Some(stored) => Ok(stored),
        None => Err(ReplayFault::Damaged(0)),
    }
}

/// The offset of the gate before the last record, or 0 if there is none.
pub(crate) fn last_gate(records: &[Record]) -> u64
    ensures value { result ≡ newest_gate 0 records.now }
{
    match records.last() {
        Some(last) => last.gate,
        None => 0,
    }
}

/// The state to which an image and the records after it lead, and the version of the image. Each record is applied to
/// the state in place, and the rules of a state are tested on the last.
///
/// Faults, the first that holds, each at the offset of the gate before the record, or 0 for the image: the image is
/// none; a record leads nowhere, the first that does so; the last state breaks the rules of a state. Whether what is
/// between the image and the last state keeps the rules is not asked. `NoMemory` may come at any time, and
/// `OtherInterface` does not come.
pub fn replay(alloc: Global, image: &[u8], records: &[Record]) -> Result<StoredImage, ReplayFault>
    ensures state { IfOk result (λ stored. IsStateIn stored.version
        (image.now, bodies_of records.now) (snapshot_of stored.state)) }
    ensures fault { AreAt (after_image image.now) records.now
        → IfErr result (ReportsDamage (IsMisshapen (image.now, bodies_of records.now))) }
{
    let stored = stored_image(alloc, image)?;
    let version = stored.version;
    let first = named_state(alloc, stored.state)?;
    let last = last_state(alloc, version, first, records)?;
    match stored_state(alloc, version, last)? {
        Some(state) => Ok(StoredImage { version, state }),
        None => Err(ReplayFault::Damaged(last_gate(records))),
    }
}
