//! Lengths that no journal writes, in files that a system may make without writing their bytes: opening reports damage
//! and reads nothing after such a length.
ghost use Rattle.std.specs.Prelude.{false, ⊤, []};

use crate::compare::check_number;
use ash_disk::{DeviceFailed, Disk};
use ash_journal::{Journal, OpenFault};
use std::alloc::Global;
use std::process::Abort;
use std::test::Fail;

/// A disk that has these bytes, and zeros after them up to a length. It counts the bytes that are read.
#[derive(Drop)]
struct SparseDisk {
    bytes: &'static [u8],
    length: u64,
    read: u64,
}

impl Disk for SparseDisk {
    ghost honest = { λ _. false };

    ghost seen = { λ _. [] };

    ghost clock = { λ _. 0 };

    ghost leaves = { λ _ _ _. ⊤ };

    ghost failures = { λ _. 0 };

    ghost seen_may_stay = { λ _ _. tt };

    fn len(&mut self) -> Result<u64, DeviceFailed> {
        Ok(self.length)
    }

    fn read(&mut self, at: u64, into: &mut [u8]) -> Result<(), DeviceFailed> {
        self.read = self.read.saturating_add(into.len() as u64);
        into.fill(0);
        let bytes = self.bytes.get(at as usize..).unwrap_or(&[]);
        for (byte, from) in into.iter_mut().zip(bytes) {
            *byte = *from;
        }
        Ok(())
    }

    fn write_at(&mut self, _at: u64, _bytes: &[u8]) -> Result<(), DeviceFailed> {
        Ok(())
    }

    fn sync(&mut self) -> Result<(), DeviceFailed> {
        Ok(())
    }
}

/// A file beside an empty one: what it is called, the bytes that it begins with, its length, why it is not opened, if
/// it is not, and how many bytes of it are read.
type LengthRow = (&'static str, &'static [u8], u64, Option<OpenFault>, u64);

static LENGTHS: [LengthRow; 8] = [
    (
        "an image of 2^28 bytes",
        b"\x01ASHOST01\x07\0\0\0\0\0\0\0\0\0\0\x10",
        268_435_456 + 100,
        Some(OpenFault::Damaged(0)),
        21,
    ),
    (
        "an image of 2^32 - 1 bytes",
        b"\x01ASHOST01\x07\0\0\0\0\0\0\0\xff\xff\xff\xff",
        4_294_967_295 + 100,
        Some(OpenFault::Damaged(0)),
        21,
    ),
    (
        "an image of 2^28 bytes that is cut short",
        b"\x01ASHOST01\x07\0\0\0\0\0\0\0\0\0\0\x10",
        100,
        Some(OpenFault::Damaged(0)),
        21,
    ),
    (
        "an image of 2^28 - 1 bytes without its gate",
        b"\x01ASHOST01\x07\0\0\0\0\0\0\0\xff\xff\xff\x0f",
        21 + 268_435_455,
        Some(OpenFault::Damaged(0)),
        21,
    ),
    (
        "a record of 2^28 bytes",
        b"\x01ASHOST01\x07\0\0\0\0\0\0\0\x01\0\0\0i\x01\0\0\0\x10",
        268_435_456 + 100,
        Some(OpenFault::Damaged(22)),
        21 + 2 + 4,
    ),
    (
        "a record of 2^32 - 1 bytes",
        b"\x01ASHOST01\x07\0\0\0\0\0\0\0\x01\0\0\0i\x01\xff\xff\xff\xff",
        4_294_967_295 + 100,
        Some(OpenFault::Damaged(22)),
        21 + 2 + 4,
    ),
    (
        "a record of 2^28 - 1 bytes without the next gate",
        b"\x01ASHOST01\x07\0\0\0\0\0\0\0\x01\0\0\0i\x01\xff\xff\xff\x0f",
        27 + 268_435_455,
        Some(OpenFault::Damaged(22)),
        21 + 2 + 4,
    ),
    // What follows a gate that is not open is never read.
    (
        "a record of 2^32 - 1 bytes after a gate that is shut",
        b"\x01ASHOST01\x07\0\0\0\0\0\0\0\x01\0\0\0i\0\xff\xff\xff\xff",
        4_294_967_295 + 100,
        None,
        21 + 2,
    ),
];

fn sparse(bytes: &'static [u8], length: u64) -> SparseDisk {
    SparseDisk {
        bytes,
        length,
        read: 0,
    }
}

// Why two disks are not opened, if they are not, and how many bytes of them were read.
fn open(alloc: Global, first: SparseDisk, second: SparseDisk) -> (Option<OpenFault>, u64) {
    let (fault, first, second) = match Journal::open(alloc, first, second) {
        Ok(found) => {
            let (first, second) = found.journal.close();
            (None, first, second)
        }
        Err(refused) => (Some(refused.fault), refused.first, refused.second),
    };
    (fault, first.read.saturating_add(second.read))
}

fn check_opened(rt: &impl Abort, disks: (SparseDisk, SparseDisk), alloc: Global, row: &LengthRow) {
    let (what, _, _, wanted, wanted_read) = *row;
    let (fault, read) = open(alloc, disks.0, disks.1);
    assert_eq!(rt; fault, wanted, "{what}");
    check_number(rt, read, wanted_read, what, "the bytes that are read");
}

#[test]
fn a_length_of_the_limit_is_damage(rt: HostRuntime) {
    for row in &LENGTHS {
        let (_, bytes, length, _, _) = *row;
        let first = (sparse(bytes, length), sparse(b"", 0));
        check_opened(&rt, first, rt.alloc(), row);
        let second = (sparse(b"", 0), sparse(bytes, length));
        check_opened(&rt, second, rt.alloc(), row);
    }
}
