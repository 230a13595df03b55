//! How two files become a journal's.
ghost use Rattle.std.specs.Prelude.{◌≡◌, ◌+◌, ◌<◌, ◌≤◌, ◌∷◌, ◌++◌, []};
ghost use Rattle.std.specs.Prelude.{length, drop, IsTrue, IfErr, OnOk, IsErr, IsErrOf};
ghost use Rattle.ash_disk.specs.Failures.{CountsFailure};
ghost use Rattle.ash_disk.specs.Device.{IsOnlyRead, HoldsThroughout};
ghost use Rattle.ash_journal.specs.JournalFailures.{CountsFailuresOf};
ghost use Rattle.ash_journal.specs.Layout.{mark, block, length_limit, IsClosed};
ghost use Rattle.ash_journal.specs.Opening.{CreateFaultIs};
ghost use Rattle.ash_journal.specs.Reading.{ShutIs};
ghost use Rattle.ash_journal.specs.Writes.{IsOn, IsUnused, AreUnused, WhileStarted, WhileCreated};

use crate::bytes::generation_bytes;
use crate::error::CreateFault;
use crate::gate::commit;
use crate::one_file::FirstGate;
use crate::two_files::{both_closed, read_headers};
use ash_disk::{DeviceFailed, Disk, write_durably};
use std::alloc::Global;

// Writes 0 over the first gate where it isn't 0, and syncs.
fn clear<D: Disk>(disk: &mut D, gate: FirstGate) -> Result<(), DeviceFailed>
    ensures cleared { OnOk result (IsTrue (D.honest disk.old) → ShutIs gate.shut (D.seen disk.old)
        → IsOn D.Disk disk.new (0 ∷ drop 1 (D.seen disk.old))) }
    ensures moments { IsTrue (D.honest disk.old) → ShutIs gate.shut (D.seen disk.old)
        → AreUnused (D.leaves disk.old (D.clock disk.old))
        → HoldsThroughout D.Disk disk.old disk.new IsUnused }
    ensures honesty { D.honest disk.new ≡ D.honest disk.old }
    ensures cause { CountsFailure result (D.failures disk.old) (D.failures disk.new) }
{
    if gate.shut {
        return disk.sync();
    }
    write_durably(disk, 0, &[0])
}

// Shuts the first gates, syncs both files, and commits bytes to the first of them.
fn start<D: Disk>(
    first: &mut D,
    first_gate: FirstGate,
    second: &mut D,
    second_gate: FirstGate,
    bytes: &[u8],
) -> Result<(), DeviceFailed>
    requires first_shut { IsTrue (D.honest first.old) → ShutIs first_gate.shut (D.seen first.old) }
    requires second_shut { IsTrue (D.honest second.old)
        → ShutIs second_gate.shut (D.seen second.old) }
    ensures created { OnOk result (IsTrue (D.honest first.old)
        → ShutIs first_gate.shut (D.seen first.old)
        → IsOn D.Disk first.new
        (1 ∷ (bytes.now ++ drop (length bytes.now) (drop 1 (D.seen first.old))))) }
    ensures second_cleared { OnOk result (IsTrue (D.honest second.old)
        → ShutIs second_gate.shut (D.seen second.old)
        → IsOn D.Disk second.new (0 ∷ drop 1 (D.seen second.old))) }
    ensures first_moments { IsTrue (D.honest first.old) → ShutIs first_gate.shut (D.seen first.old)
        → AreUnused (D.leaves first.old (D.clock first.old))
        → HoldsThroughout D.Disk first.old first.new
        (WhileStarted bytes.now (D.seen first.old)) }
    ensures second_moments { IsTrue (D.honest second.old)
        → ShutIs second_gate.shut (D.seen second.old)
        → AreUnused (D.leaves second.old (D.clock second.old))
        → HoldsThroughout D.Disk second.old second.new
        IsUnused }
    ensures first_there { OnOk result (IsTrue (D.honest first.old)
        → 1 + length bytes.now ≤ length (D.seen first.new)) }
    ensures second_there { OnOk result (IsTrue (D.honest second.old)
        → 0 < length (D.seen second.new)) }
    ensures honesty_first { D.honest first.new ≡ D.honest first.old }
    ensures honesty_second { D.honest second.new ≡ D.honest second.old }
    ensures cause { CountsFailuresOf D.Disk (IsErr result)
        first.old second.old first.new second.new }
{
    clear(first, first_gate)?;
    clear(second, second_gate)?;
    commit(first, 0, bytes)
}

/// Shuts the first gate of two files that are closed, syncs both, and commits a first generation to the first of them.
pub(crate) fn create_both<D: Disk>(
    alloc: Global,
    first: &mut D,
    second: &mut D,
    image: &[u8],
) -> Result<(), CreateFault>
    requires within { length image.now < length_limit }
    ensures created { OnOk result (IsTrue (D.honest first.old) → IsTrue (D.honest second.old)
        → IsOn D.Disk first.new (1 ∷ ((mark 1 ++ (block image.now ++ 0 ∷ []))
        ++ drop (length (mark 1 ++ (block image.now ++ 0 ∷ []))) (drop 1 (D.seen first.old))))) }
    ensures second_cleared { OnOk result (IsTrue (D.honest first.old) → IsTrue (D.honest second.old)
        → IsOn D.Disk second.new (0 ∷ drop 1 (D.seen second.old))) }
    ensures closed { OnOk result (IsTrue (D.honest first.old) → IsTrue (D.honest second.old)
        → IsClosed (D.seen first.old) × IsClosed (D.seen second.old)) }
    ensures fault { IfErr result (λ fault. IsTrue (D.honest first.old)
        → IsTrue (D.honest second.old)
        → CreateFaultIs fault (D.seen first.old) (D.seen second.old)
        (IsOnlyRead D.Disk first.old first.new × IsOnlyRead D.Disk second.old second.new)) }
    ensures first_moments { IsTrue (D.honest first.old) → IsTrue (D.honest second.old)
        → AreUnused (D.leaves first.old (D.clock first.old))
        → HoldsThroughout D.Disk first.old first.new
        (WhileCreated image.now) }
    ensures second_moments { IsTrue (D.honest first.old) → IsTrue (D.honest second.old)
        → AreUnused (D.leaves second.old (D.clock second.old))
        → HoldsThroughout D.Disk second.old second.new
        IsUnused }
    ensures first_there { OnOk result (IsTrue (D.honest first.old)
        → 22 + length image.now ≤ length (D.seen first.new)) }
    ensures second_there { OnOk result (IsTrue (D.honest second.old)
        → 0 < length (D.seen second.new)) }
    ensures honesty_first { D.honest first.new ≡ D.honest first.old }
    ensures honesty_second { D.honest second.new ≡ D.honest second.old }
    ensures cause { CountsFailuresOf D.Disk (IsErrOf result CreateFault.DeviceFailed)
        first.old second.old first.new second.new }
{
    let headers = read_headers(first, second)?;
    let Some((one, two)) = both_closed(&headers) else {
        return Err(CreateFault::AlreadyThere);
    };
    let bytes = generation_bytes(alloc, 1, image)?;
    start(first, one, second, two, &bytes)?;
    Ok(())
}
