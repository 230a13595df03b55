//! A disk that fails from a chosen call on, so that a test can meet a failure at each call in turn.
ghost use Rattle.std.specs.Prelude.{◌≡◌, ◌+◌, ◌-◌, ◌≤◌, ◌↔◌};
ghost use Rattle.std.specs.Prelude.{length, IsTrue, IsErr, IfOk, OnOk};
ghost use Rattle.ash_disk.specs.Failures.{CountsFailure};
ghost use Rattle.ash_disk.specs.DiskImage.{bytes_at, after_write, Torn, TornFrom, LeavesOnly};
ghost use Rattle.ash_disk.specs.Moments.{HoldsDuring};

use crate::failure::count_failure;
use crate::{DeviceFailed, Disk};

/// Passes a number of calls on to a disk, and then fails each without passing it on. It is as honest as that disk.
#[derive(Drop)]
pub struct FuseDisk<D: Disk> {
    disk: D,
    calls_left: u64,
    /// The calls that were not passed on.
    stopped: u64,
}

impl<D: Disk> FuseDisk<D> {
    ghost use Rattle.ash_disk.specs.Fuse.{inner, calls_left, all_failures};

    /// A disk that passes the first `k` calls on to `disk`.
    pub fn new(disk: D, k: u64) -> FuseDisk<D>
        ensures around { inner result ≡ disk }
        ensures calls { calls_left result ≡ k }
        ensures failures { all_failures D.failures result ≡ D.failures disk }
    {
        FuseDisk {
            disk,
            calls_left: k,
            stopped: 0,
        }
    }

    /// The disk that calls were passed on to.
    pub fn into_inner(self) -> D
        ensures disk { result ≡ inner self }
    {
        self.disk
    }
}

// Takes one call from those that are left.
fn count_call(calls_left: &mut u64, stopped: &mut u64) -> Result<(), DeviceFailed>
    ensures none_left { IsErr result ↔ (calls_left.old ≡ 0) }
    ensures one_less { calls_left.new ≡ calls_left.old - 1 }
    ensures cause { CountsFailure result stopped.old stopped.new }
{
    if *calls_left == 0 {
        return count_failure(Err(DeviceFailed), stopped);
    }
    *calls_left -= 1;
    Ok(())
}

impl<D: Disk> Disk for FuseDisk<D> {
    ghost use Rattle.ash_disk.specs.Fuse.{inner, all_failures, CountsCall};

    ghost honest = { λ f. D.honest f.disk };

    ghost seen = { λ f. D.seen f.disk };

    ghost clock = { λ f. D.clock f.disk };

    ghost leaves = { λ f. D.leaves f.disk };

    ghost failures = { λ f. all_failures D.failures f };

    ghost seen_may_stay = { λ f. D.seen_may_stay f.disk };

    fn len(&mut self) -> Result<u64, DeviceFailed>
        ensures answer { IfOk result (λ n. IsTrue (D.honest (inner self.old))
            → n ≡ length (D.seen (inner self.old))) }
        ensures unchanged { IsTrue (D.honest (inner self.old))
            → D.seen (inner self.new) ≡ D.seen (inner self.old) }
        ensures moments { IsTrue (D.honest (inner self.old))
            → HoldsDuring (D.clock (inner self.old)) (D.clock (inner self.new))
            (D.leaves (inner self.old)) (D.leaves (inner self.new))
            (D.leaves (inner self.old) (D.clock (inner self.old))) }
        ensures honesty { D.honest (inner self.new) ≡ D.honest (inner self.old) }
        ensures cause { CountsFailure result
            (all_failures D.failures self.old) (all_failures D.failures self.new) }
        ensures calls { CountsCall D.failures result self.old self.new }
    {
        count_call(&mut self.calls_left, &mut self.stopped)?;
        self.disk.len()
    }

    fn read(&mut self, at: u64, into: &mut [u8]) -> Result<(), DeviceFailed>
        requires within { IsTrue (D.honest (inner self.old))
            → at + length into.old ≤ length (D.seen (inner self.old)) }
        ensures answer { OnOk result (IsTrue (D.honest (inner self.old))
            → into.new ≡ bytes_at (D.seen (inner self.old)) at (length into.old)) }
        ensures unchanged { IsTrue (D.honest (inner self.old))
            → D.seen (inner self.new) ≡ D.seen (inner self.old) }
        ensures moments { IsTrue (D.honest (inner self.old))
            → HoldsDuring (D.clock (inner self.old)) (D.clock (inner self.new))
            (D.leaves (inner self.old)) (D.leaves (inner self.new))
            (D.leaves (inner self.old) (D.clock (inner self.old))) }
        ensures honesty { D.honest (inner self.new) ≡ D.honest (inner self.old) }
        ensures cause { CountsFailure result
            (all_failures D.failures self.old) (all_failures D.failures self.new) }
        ensures calls { CountsCall D.failures result self.old self.new }
    {
        count_call(&mut self.calls_left, &mut self.stopped)?;
        self.disk.read(at, into)
    }

    fn write_at(&mut self, at: u64, bytes: &[u8]) -> Result<(), DeviceFailed>
        requires within { IsTrue (D.honest (inner self.old))
            → at ≤ length (D.seen (inner self.old)) }
        ensures written { OnOk result (IsTrue (D.honest (inner self.old))
            → D.seen (inner self.new) ≡ after_write (D.seen (inner self.old)) at bytes.now) }
        ensures in_part { IsTrue (D.honest (inner self.old))
            → Torn at (length bytes.now) (D.seen (inner self.old)) (D.seen (inner self.new)) }
        ensures moments { IsTrue (D.honest (inner self.old))
            → HoldsDuring (D.clock (inner self.old)) (D.clock (inner self.new))
            (D.leaves (inner self.old)) (D.leaves (inner self.new))
            (TornFrom at (length bytes.now)
            (D.leaves (inner self.old) (D.clock (inner self.old)))) }
        ensures honesty { D.honest (inner self.new) ≡ D.honest (inner self.old) }
        ensures cause { CountsFailure result
            (all_failures D.failures self.old) (all_failures D.failures self.new) }
        ensures calls { CountsCall D.failures result self.old self.new }
    {
        count_call(&mut self.calls_left, &mut self.stopped)?;
        self.disk.write_at(at, bytes)
    }

    fn sync(&mut self) -> Result<(), DeviceFailed>
        ensures durable { OnOk result (IsTrue (D.honest (inner self.old))
            → LeavesOnly (D.seen (inner self.new))
            (D.leaves (inner self.new) (D.clock (inner self.new)))) }
        ensures unchanged { IsTrue (D.honest (inner self.old))
            → D.seen (inner self.new) ≡ D.seen (inner self.old) }
        ensures moments { IsTrue (D.honest (inner self.old))
            → HoldsDuring (D.clock (inner self.old)) (D.clock (inner self.new))
            (D.leaves (inner self.old)) (D.leaves (inner self.new))
            (D.leaves (inner self.old) (D.clock (inner self.old))) }
        ensures honesty { D.honest (inner self.new) ≡ D.honest (inner self.old) }
        ensures cause { CountsFailure result
            (all_failures D.failures self.old) (all_failures D.failures self.new) }
        ensures calls { CountsCall D.failures result self.old self.new }
    {
        count_call(&mut self.calls_left, &mut self.stopped)?;
        self.disk.sync()
    }
}
