//! How a file is changed: a gate is shut, or bytes are committed after one that is shut. A repair and the replacing of
//! what a file holds are made of these. Nothing else in the crate writes, but for `clear` in `creation`, which writes 0
//! over the first gate of a file that is not open.
ghost use Rattle.std.specs.Prelude.{◌≡◌, ◌+◌, ◌<◌, ◌≤◌, ◌^◌, ◌∷◌, ◌++◌, []};
ghost use Rattle.std.specs.Prelude.{true, false, IsTrue, ℕ, List, length, drop, OnOk};
ghost use Rattle.ash_disk.specs.Failures.{CountsFailure};
ghost use Rattle.ash_disk.specs.Device.{IsDurable, HoldsThroughout};
ghost use Rattle.ash_journal.specs.Layout.{IsShut};
ghost use Rattle.ash_journal.specs.OtherState.{is_older};
ghost use Rattle.ash_journal.specs.Writes.{IsSplit, IsOn, WritesByte, WhileShut};
ghost use Rattle.ash_journal.specs.Writes.{WhileCommitted, WhileRepaired};
ghost use Rattle.ash_journal.specs.Writes.{WhileReplaced, repaired};

use crate::other_state::OtherState;
use ash_disk::{DeviceFailed, Disk, write_durably};

/// Writes 0 over a gate, and syncs.
pub(crate) fn shut_gate<D: Disk>(disk: &mut D, gate: u64) -> Result<(), DeviceFailed>
    requires within { IsTrue (D.honest disk.old) → gate ≤ length (D.seen disk.old) }
    ensures shut { OnOk result ((prefix suffix : List ℕ)
        → IsSplit D.Disk disk.old gate prefix suffix
        → IsOn D.Disk disk.new (prefix ++ 0 ∷ drop 1 suffix)) }
    ensures moments { (prefix suffix : List ℕ)
        → IsSplit D.Disk disk.old gate prefix suffix
        → HoldsThroughout D.Disk disk.old disk.new
        (WhileShut prefix suffix) }
    ensures only_gate { (prefix suffix : List ℕ)
        → IsSplit D.Disk disk.old gate prefix suffix
        → WritesByte D.Disk gate disk.old disk.new }
    ensures no_shorter { IsTrue (D.honest disk.old)
        → length (D.seen disk.old) ≤ length (D.seen disk.new) }
    ensures there { OnOk result (IsTrue (D.honest disk.old) → gate < length (D.seen disk.new)) }
    ensures honesty { D.honest disk.new ≡ D.honest disk.old }
    ensures cause { CountsFailure result (D.failures disk.old) (D.failures disk.new) }
{
    write_durably(disk, gate, &[0])
}

/// Writes bytes after a gate that is 0 on the device, and syncs; then writes 1 over the gate, and syncs. Only then do
/// the bytes count, and a crash on the way leaves them whole or not at all.
pub(crate) fn commit<D: Disk>(disk: &mut D, gate: u64, bytes: &[u8]) -> Result<(), DeviceFailed>
    requires within { gate + 1 < 2 ^ 64 }
    requires inside { IsTrue (D.honest disk.old) → gate < length (D.seen disk.old) }
    ensures committed { OnOk result ((prefix suffix : List ℕ)
        → IsSplit D.Disk disk.old gate prefix (0 ∷ suffix)
        → IsOn D.Disk disk.new
        (prefix ++ 1 ∷ (bytes.now ++ drop (length bytes.now) suffix))) }
    ensures moments { (prefix suffix : List ℕ)
        → IsSplit D.Disk disk.old gate prefix (0 ∷ suffix)
        → HoldsThroughout D.Disk disk.old disk.new
        (WhileCommitted prefix bytes.now suffix) }
    ensures no_shorter { IsTrue (D.honest disk.old)
        → length (D.seen disk.old) ≤ length (D.seen disk.new) }
    ensures there { OnOk result (IsTrue (D.honest disk.old)
        → gate + 1 + length bytes.now ≤ length (D.seen disk.new)) }
    ensures honesty { D.honest disk.new ≡ D.honest disk.old }
    ensures cause { CountsFailure result (D.failures disk.old) (D.failures disk.new) }
{
    write_durably(disk, gate + 1, bytes)?;
    write_durably(disk, gate, &[1])
}

/// A gate at an offset, and whether it is still to be written over.
#[derive(Clone, Copy)]
pub(crate) struct Gate {
    pub(crate) at: u64,
    pub(crate) stray: bool,
}

/// Writes 0 over a gate where it is stray, and syncs.
#[tactic(auto, using(crate::proofs::GateLaws::unwritten))]
pub(crate) fn repair<D: Disk>(disk: &mut D, gate: Gate) -> Result<(), DeviceFailed>
    requires within { IsTrue (D.honest disk.old) → gate.at ≤ length (D.seen disk.old) }
    ensures repaired { OnOk result ((prefix suffix : List ℕ)
        → IsSplit D.Disk disk.old gate.at prefix suffix
        → IsOn D.Disk disk.new (prefix ++ repaired gate.stray suffix)) }
    ensures moments { (prefix suffix : List ℕ)
        → IsSplit D.Disk disk.old gate.at prefix suffix
        → HoldsThroughout D.Disk disk.old disk.new
        (WhileRepaired gate.stray prefix suffix) }
    ensures only_gate { (prefix suffix : List ℕ)
        → IsSplit D.Disk disk.old gate.at prefix suffix
        → WritesByte D.Disk gate.at disk.old disk.new }
    ensures only_stray { gate.stray ≡ false → disk.new ≡ disk.old }
    ensures no_shorter { IsTrue (D.honest disk.old)
        → length (D.seen disk.old) ≤ length (D.seen disk.new) }
    ensures there { OnOk result (gate.stray ≡ true → IsTrue (D.honest disk.old)
        → gate.at < length (D.seen disk.new)) }
    ensures honesty { D.honest disk.new ≡ D.honest disk.old }
    ensures cause { CountsFailure result (D.failures disk.old) (D.failures disk.new) }
{
    if gate.stray {
        return shut_gate(disk, gate.at);
    }
    Ok(())
}

/// Writes bytes in place of what a file in this state holds: shuts its first gate, where it is an older generation, and
/// commits them after it.
pub(crate) fn replace<D: Disk>(
    disk: &mut D,
    state: OtherState,
    bytes: &[u8],
) -> Result<(), DeviceFailed>
    requires inside { is_older state ≡ false → IsTrue (D.honest disk.old)
        → 0 < length (D.seen disk.old) }
    ensures replaced { OnOk result (IsTrue (D.honest disk.old)
        → IsDurable D.Disk disk.old
        → (is_older state ≡ false → IsShut (D.seen disk.old))
        → IsOn D.Disk disk.new
        (1 ∷ (bytes.now ++ drop (length bytes.now) (drop 1 (D.seen disk.old))))) }
    ensures moments { IsTrue (D.honest disk.old)
        → IsDurable D.Disk disk.old
        → (is_older state ≡ false → IsShut (D.seen disk.old))
        → HoldsThroughout D.Disk disk.old disk.new
        (WhileReplaced (is_older state) bytes.now (D.seen disk.old)) }
    ensures no_shorter { IsTrue (D.honest disk.old)
        → length (D.seen disk.old) ≤ length (D.seen disk.new) }
    ensures there { OnOk result (IsTrue (D.honest disk.old)
        → 1 + length bytes.now ≤ length (D.seen disk.new)) }
    ensures honesty { D.honest disk.new ≡ D.honest disk.old }
    ensures cause { CountsFailure result (D.failures disk.old) (D.failures disk.new) }
{
    let first = Gate {
        at: 0,
        stray: state.is_older(),
    };
    repair(disk, first)?;
    commit(disk, 0, bytes)
}
