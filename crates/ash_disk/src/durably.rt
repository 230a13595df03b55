//! A write and its sync, by which the store changes a file.
ghost use Rattle.std.specs.Prelude.{◌≡◌, ◌≤◌, length, IsTrue, OnOk};
ghost use Rattle.ash_disk.specs.Device.{IsDurable, HoldsThroughout};
ghost use Rattle.ash_disk.specs.Failures.{CountsFailure};
ghost use Rattle.ash_disk.specs.DiskImage.{after_write, Torn, TornFrom};

use crate::{DeviceFailed, Disk};

/// Writes at an offset in bytes, and syncs. After it, a crash leaves what a read gives. Where it fails, the write may
/// be there in part, on the device or not.
pub fn write_durably<D: Disk>(disk: &mut D, at: u64, bytes: &[u8]) -> Result<(), DeviceFailed>
    requires within { IsTrue (D.honest disk.old) → at ≤ length (D.seen disk.old) }
    ensures written { OnOk result (IsTrue (D.honest disk.old)
        → D.seen disk.new ≡ after_write (D.seen disk.old) at bytes.now) }
    ensures durable { OnOk result (IsTrue (D.honest disk.old)
        → IsDurable D.Disk disk.new) }
    ensures in_part { IsTrue (D.honest disk.old)
        → Torn at (length bytes.now) (D.seen disk.old) (D.seen disk.new) }
    ensures moments { IsTrue (D.honest disk.old)
        → HoldsThroughout D.Disk disk.old disk.new
        (TornFrom at (length bytes.now) (D.leaves disk.old (D.clock disk.old))) }
    ensures honesty { D.honest disk.new ≡ D.honest disk.old }
    ensures cause { CountsFailure result (D.failures disk.old) (D.failures disk.new) }
{
    disk.write_at(at, bytes)?;
    disk.sync()
}
