//! The first record after an opening.
ghost use Rattle.std.specs.Prelude.{◌<◌, ◌^◌, ◌∷◌, ◌++◌, [], ℕ, List, length, IsErrOf, OnOk};
ghost use Rattle.ash_journal.specs.Journal.{record_bytes, record_bytes_limit};
ghost use Rattle.ash_journal.specs.Layout.{length_limit};
ghost use Rattle.ash_journal.specs.Journal.{HoldsBeforeRepair, Holds, HasFailed, IsReady};

use crate::error::AppendError;
use crate::journal::Journal;
use ash_disk::Disk;

/// Settles a journal that was opened, and adds a record to what it found. It is ready afterwards, unless a device
/// failed.
pub fn append_first<D: Disk>(journal: &mut Journal<D>, body: &[u8]) -> Result<(), AppendError>
    requires short { length body.now < length_limit }
    requires room { record_bytes journal.old < record_bytes_limit }
    requires sound { HasFailed journal.old → ⊥ }
    ensures acknowledged { OnOk result ((image : List ℕ) (bodies : List (List ℕ))
        → HoldsBeforeRepair D.Disk journal.old image bodies
        → Holds D.Disk journal.new image (bodies ++ body.now ∷ [])) }
    ensures ready { (IsErrOf result AppendError.DeviceFailed → ⊥) → IsReady journal.new }
    ensures failed { IsErrOf result AppendError.DeviceFailed → HasFailed journal.new }
{
    journal.settle()?;
    journal.append(body)
}
