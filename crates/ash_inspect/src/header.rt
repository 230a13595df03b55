//! What the first bytes of a file say of it.

ghost use Rattle.std.specs.Prelude.{◌≡◌, ◌<◌, ◌^◌, ℕ, length, MatchOption};
ghost use Rattle.ash_journal.specs.Layout.{mark, mark_size};
ghost use Rattle.ash_inspect.specs.Files.{HeaderIs, IsMarkedBehind};

use byteorder::{ByteOrder, LittleEndian};

/// What every generation has after its first gate.
const MAGIC: &[u8; 8] = b"ASHOST01";

/// The bytes of a file before the length of its image: a gate, the magic and the number of the generation.
const PREFIX_SIZE: usize = 17;

/// What the first bytes of a file say of it.
#[derive(Clone, Copy, Debug, PartialEq, Eq)]
pub enum Header {
    /// It is closed: its first byte is not 1, or nothing follows it.
    Closed,
    /// It is open, and has no magic and no generation.
    Unmarked,
    /// It is open, with this generation.
    Marked(u64),
}

/// The generation of a mark, if these bytes are one.
fn mark_of(bytes: &[u8]) -> Option<u64>
    requires whole { length bytes.now ≡ mark_size }
    ensures value { MatchOption result
        ((generation : ℕ) → generation < 2 ^ 64 → bytes.now ≡ mark generation → ⊥)
        (λ generation. (generation < 2 ^ 64) × (bytes.now ≡ mark generation)) }
{
    let (magic, number) = bytes.split_at(8);
    if magic != MAGIC.as_slice() {
        return None;
    }
    Some(LittleEndian::read_u64(number))
}

/// The generation whose mark follows the first byte of a file, whether or not that byte opens it.
#[tactic(auto, using(crate::proofs::FileLaws::marked, crate::proofs::FileLaws::mark_taken, crate::proofs::FileLaws::mark_long))]
pub fn marked_behind(file: &[u8]) -> Option<u64>
    ensures value { MatchOption result ((generation : ℕ) → generation < 2 ^ 64 → IsMarkedBehind generation file.now → ⊥)
        (λ generation. (generation < 2 ^ 64) × IsMarkedBehind generation file.now) }
{
    if file.len() < PREFIX_SIZE {
        return None;
    }
    mark_of(&file[1..PREFIX_SIZE])
}

/// What the first bytes of a file say of it.
#[tactic(auto, using(crate::proofs::FileLaws::mark_of_open, crate::proofs::FileLaws::unmarked, crate::proofs::FileLaws::closed_short, crate::proofs::FileLaws::closed_gate))]
pub fn header_of(file: &[u8]) -> Header
    ensures value { HeaderIs result file.now }
{
    if file.len() < 2 || file[0] != 1 {
        return Header::Closed;
    }
    match marked_behind(file) {
        Some(generation) => Header::Marked(generation),
        None => Header::Unmarked,
    }
}
