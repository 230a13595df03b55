//! How a file begins, and what its first byte says.

ghost use Rattle.std.specs.Prelude.{◌≡◌, ◌↔◌, ℕ, List, IsTrue, IfOk};
ghost use Rattle.ash_disk.specs.Device.{IsOnlyRead};
ghost use Rattle.ash_disk.specs.Failures.{CountsFailure};
ghost use Rattle.ash_journal.specs.Layout.{IsClosed};
ghost use Rattle.ash_durable.specs.Store.{IsHeader};

use ash_disk::{DeviceFailed, Disk};

/// The first byte of a file that counts.
const OPEN: u8 = 1;

/// How a file begins.
#[derive(Clone, Copy, Debug)]
pub struct Header {
    /// The file's length, in bytes.
    pub length: u64,
    /// The file's first byte, or 0 where it has none.
    pub gate: u8,
}

impl Header {
    /// The first byte says that the file counts, and something follows.
    pub fn is_open(self) -> bool
        ensures exact { (bytes : List ℕ) → IsHeader self bytes → IsTrue result
            ↔ (IsClosed bytes → ⊥) }
    {
        self.length >= 2 && self.gate == OPEN
    }
}

/// How the file on a disk begins.
pub fn read_header<D: Disk>(disk: &mut D) -> Result<Header, DeviceFailed>
    ensures header { IfOk result (λ header. IsTrue (D.honest disk.old)
        → IsHeader header (D.seen disk.old)) }
    ensures only_read { IsOnlyRead D.Disk disk.old disk.new }
    ensures cause { CountsFailure result (D.failures disk.old) (D.failures disk.new) }
{
    let length = disk.len()?;
    let mut gate = [0];
    if length > 0 {
        disk.read(0, &mut gate)?;
    }
    let [gate] = gate;
    Ok(Header { length, gate })
}
