//! The disk model.
ghost use Rattle.std.specs.Prelude.{◌≡◌, ◌+◌, ◌≤◌, Bool, ℕ, List, length, IsTrue, IfOk, OnOk};
ghost use Rattle.ash_disk.specs.Failures.{CountsFailure};
ghost use Rattle.ash_disk.specs.DiskImage.{bytes_at, after_write, Torn, TornFrom, LeavesOnly};
ghost use Rattle.ash_disk.specs.Moments.{HoldsDuring};

use crate::DeviceFailed;

/// A file of bytes on a device. A caller reads within the length of an honest disk and begins a write at most at its
/// end, and must show both. What is promised of bytes and images holds of honest disks alone, and no disk becomes honest
/// or ceases to be.
///
/// Between two syncs each range that was written and the part past the old end may hold any bytes after a crash,
/// and the bytes outside stay. A write that fails may be done in part, and a sync that fails counts as none.
pub trait Disk {
    /// Whether the disk does what this trait says of bytes and images. No code can test it.
    ghost honest: { Self → Bool };

    /// The bytes that a read gives.
    ghost seen: { Self → List ℕ };

    /// The time. It never falls, and calls move it on.
    ghost clock: { Self → ℕ };

    /// The images that a crash at a time up to now may leave.
    ghost leaves: { Self → ℕ → List ℕ → Type 0 };

    /// How often the device has failed.
    ghost failures: { Self → ℕ };

    /// The length of the file in bytes.
    fn len(&mut self) -> Result<u64, DeviceFailed>
        ensures answer { IfOk result (λ n. IsTrue (honest self.old)
            → n ≡ length (seen self.old)) }
        ensures unchanged { IsTrue (honest self.old) → seen self.new ≡ seen self.old }
        ensures moments { IsTrue (honest self.old)
            → HoldsDuring (clock self.old) (clock self.new) (leaves self.old) (leaves self.new)
            (leaves self.old (clock self.old)) }
        ensures honesty { honest self.new ≡ honest self.old }
        ensures cause { CountsFailure result (failures self.old) (failures self.new) };

    /// Fills `into` from an offset in bytes. An honest disk is asked only for bytes that it has.
    fn read(&mut self, at: u64, into: &mut [u8]) -> Result<(), DeviceFailed>
        requires within { IsTrue (honest self.old)
            → at + length into.old ≤ length (seen self.old) }
        ensures answer { OnOk result (IsTrue (honest self.old)
            → into.new ≡ bytes_at (seen self.old) at (length into.old)) }
        ensures unchanged { IsTrue (honest self.old) → seen self.new ≡ seen self.old }
        ensures moments { IsTrue (honest self.old)
            → HoldsDuring (clock self.old) (clock self.new) (leaves self.old) (leaves self.new)
            (leaves self.old (clock self.old)) }
        ensures honesty { honest self.new ≡ honest self.old }
        ensures cause { CountsFailure result (failures self.old) (failures self.new) };

    /// Writes at an offset in bytes, over what is there and past the end. A write to an honest disk begins at most at
    /// its end.
    fn write_at(&mut self, at: u64, bytes: &[u8]) -> Result<(), DeviceFailed>
        requires within { IsTrue (honest self.old) → at ≤ length (seen self.old) }
        ensures written { OnOk result (IsTrue (honest self.old)
            → seen self.new ≡ after_write (seen self.old) at bytes.now) }
        ensures in_part { IsTrue (honest self.old)
            → Torn at (length bytes.now) (seen self.old) (seen self.new) }
        ensures moments { IsTrue (honest self.old)
            → HoldsDuring (clock self.old) (clock self.new) (leaves self.old) (leaves self.new)
            (TornFrom at (length bytes.now) (leaves self.old (clock self.old))) }
        ensures honesty { honest self.new ≡ honest self.old }
        ensures cause { CountsFailure result (failures self.old) (failures self.new) };

    /// Brings to the device what was written. After it, a crash leaves what a read gives.
    fn sync(&mut self) -> Result<(), DeviceFailed>
        ensures durable { OnOk result (IsTrue (honest self.old)
            → LeavesOnly (seen self.new) (leaves self.new (clock self.new))) }
        ensures unchanged { IsTrue (honest self.old) → seen self.new ≡ seen self.old }
        ensures moments { IsTrue (honest self.old)
            → HoldsDuring (clock self.old) (clock self.new) (leaves self.old) (leaves self.new)
            (leaves self.old (clock self.old)) }
        ensures honesty { honest self.new ≡ honest self.old }
        ensures cause { CountsFailure result (failures self.old) (failures self.new) };

    /// A crash that loses nothing is one of those that may come.
    ghost seen_may_stay: { (disk : Self) → IsTrue (honest disk)
        → leaves disk (clock disk) (seen disk) };
}
