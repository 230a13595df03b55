//! How the next generation is installed.
ghost use Rattle.std.specs.Prelude.{◌≡◌, ◌<◌, ◌+◌, ◌-◌, ◌^◌, ◌↔◌, [], ℕ, List, length};
ghost use Rattle.std.specs.Prelude.{IfOk, OnOk, OnErr, IsErr, IsErrOf};
ghost use Rattle.ash_journal.specs.Journal.{first_disk, second_disk, generation, record_bytes};
ghost use Rattle.ash_journal.specs.Journal.{IsReady, HasFailed, Holds, CountsFailuresIn};
ghost use Rattle.ash_journal.specs.Journal.{LeavesCurrent};
ghost use Rattle.ash_journal.specs.Installing.{IsNext};
ghost use Rattle.ash_journal.specs.Layout.{length_limit};
ghost use Rattle.ash_journal.specs.Current.{IsContents, HoldsOneOf};
ghost use Rattle.ash_journal.specs.SettledSince.{HoldsSince};

use crate::bytes::generation_bytes;
use crate::error::InstallError;
use crate::gate::replace;
use crate::journal::{Journal, NextGeneration};
use crate::other_state::OtherState;
use ash_disk::{DeviceFailed, Disk};
use std::mem;

impl<D: Disk> Journal<D> {
    /// The generation after this one, with an image and no records, which is to be installed.
    ///
    /// Refusals, the first that holds: `GenerationSpent` where the number is 2^64 - 1; `NoMemory`.
    pub fn next_generation(&self, image: &[u8]) -> Result<NextGeneration, InstallError>
        requires short { length image.now < length_limit }
        ensures next { IfOk result (IsNext self.now image.now) }
        ensures spent { IsErrOf result InstallError.GenerationSpent
            ↔ (generation self.now ≡ 2 ^ 64 - 1) }
        ensures no_device { IsErrOf result InstallError.DeviceFailed → ⊥ }
    {
        if self.generation == u64::MAX {
            return Err(InstallError::GenerationSpent);
        }
        let number = self.generation + 1;
        let bytes = generation_bytes(self.alloc, number, image)?;
        Ok(NextGeneration { number, bytes })
    }

    /// Writes the next generation to the other file, on a journal that is ready. The file that was current isn't
    /// touched, and stays as the older generation. It takes no memory.
    ///
    /// After `DeviceFailed` the old generation is current or the new one, and the journal is ready no more: it is to be
    /// opened again. It is one write and a sync, twice, and once more where the other file's first gate is to be shut;
    /// nothing is read.
    pub fn install_next(&mut self, next: NextGeneration) -> Result<(), DeviceFailed>
        requires ready { IsReady self.old }
        requires next { (image : List ℕ) × IsNext self.old image next }
        ensures installed { OnOk result ((image was : List ℕ) (bodies : List (List ℕ))
            → IsNext self.old image next → Holds D.Disk self.old was bodies
            → Holds D.Disk self.new image []) }
        ensures run { (image was : List ℕ) (bodies : List (List ℕ))
            → IsNext self.old image next → Holds D.Disk self.old was bodies
            → HoldsSince D.Disk (D.clock (first_disk self.old)) (D.clock (second_disk self.old))
            (first_disk self.new) (second_disk self.new)
            (HoldsOneOf (IsContents (image, [])) (IsContents (was, bodies))) }
        ensures ready { OnOk result (IsReady self.new) }
        ensures failed { IsErr result → HasFailed self.new }
        ensures higher { OnOk result (generation self.new ≡ generation self.old + 1) }
        ensures emptied { OnOk result (record_bytes self.new ≡ 0) }
        ensures no_higher { OnErr result ((generation self.new ≡ generation self.old)
            × (record_bytes self.new ≡ record_bytes self.old)) }
        ensures untouched { LeavesCurrent self.old self.new }
        ensures cause { CountsFailuresIn D.Disk (IsErr result) self.old self.new }
        ensures honesty_first { D.honest (first_disk self.new) ≡ D.honest (first_disk self.old) }
        ensures honesty_second { D.honest (second_disk self.new) ≡ D.honest (second_disk self.old) }
    {
        match replace(&mut self.other, self.other_state, &next.bytes) {
            Ok(()) => {}
            Err(_) => {
                self.failed = true;
                return Err(DeviceFailed);
            }
        }
        mem::swap(&mut self.current, &mut self.other);
        self.swapped = !self.swapped;
        self.generation = next.number;
        self.end = next.bytes.len() as u64;
        self.record_bytes = 0;
        self.stray = false;
        self.other_state = OtherState::Older;
        Ok(())
    }

    /// Writes a new generation with an image and no records to the other file, on a journal that is ready. The file
    /// that was current isn't touched, and stays as the older generation.
    ///
    /// Refusals, the first that holds: `GenerationSpent` where the number is 2^64 - 1; `NoMemory`; both change nothing
    /// and come before any call of a device. After `DeviceFailed` the old generation is current or the new one, and the
    /// journal is ready no more: it is to be opened again.
    pub fn install(&mut self, image: &[u8]) -> Result<(), InstallError>
        requires short { length image.now < length_limit }
        requires ready { IsReady self.old }
        ensures installed { OnOk result ((was : List ℕ) (bodies : List (List ℕ))
            → Holds D.Disk self.old was bodies
            → Holds D.Disk self.new image.now []) }
        ensures run { (was : List ℕ) (bodies : List (List ℕ)) → Holds D.Disk self.old was bodies
            → HoldsSince D.Disk (D.clock (first_disk self.old)) (D.clock (second_disk self.old))
            (first_disk self.new) (second_disk self.new)
            (HoldsOneOf (IsContents (image.now, [])) (IsContents (was, bodies))) }
        ensures ready { (IsErrOf result InstallError.DeviceFailed → ⊥) → IsReady self.new }
        ensures failed { IsErrOf result InstallError.DeviceFailed → HasFailed self.new }
        ensures higher { OnOk result (generation self.new ≡ generation self.old + 1) }
        ensures emptied { OnOk result (record_bytes self.new ≡ 0) }
        ensures no_higher { OnErr result ((generation self.new ≡ generation self.old)
            × (record_bytes self.new ≡ record_bytes self.old)) }
        ensures untouched { LeavesCurrent self.old self.new }
        ensures spent { IsErrOf result InstallError.GenerationSpent
            ↔ (generation self.old ≡ 2 ^ 64 - 1) }
        ensures unchanged { IsErrOf result InstallError.GenerationSpent → self.new ≡ self.old }
        ensures memory { IsErrOf result InstallError.NoMemory → self.new ≡ self.old }
        ensures cause { CountsFailuresIn D.Disk (IsErrOf result InstallError.DeviceFailed)
            self.old self.new }
        ensures honesty_first { D.honest (first_disk self.new) ≡ D.honest (first_disk self.old) }
        ensures honesty_second { D.honest (second_disk self.new) ≡ D.honest (second_disk self.old) }
    {
        let next = self.next_generation(image)?;
        match self.install_next(next) {
            Ok(()) => Ok(()),
            Err(_) => Err(InstallError::DeviceFailed),
        }
    }
}
