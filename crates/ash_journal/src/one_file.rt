//! What a file is read as. Nothing here writes.
ghost use Rattle.std.specs.Prelude.{◌≡◌, ◌+◌, ◌<◌, ◌≤◌, ◌^◌, ◌↔◌, ◌++◌, ◌∷◌};
ghost use Rattle.std.specs.Prelude.{[], ℕ, List, length, take, drop};
ghost use Rattle.std.specs.Prelude.{IsTrue, IfOk, IfSome, IsErr, IsErrOf, MatchOption, MatchResult};
ghost use Rattle.ash_disk.specs.Device.{IsOnlyRead};
ghost use Rattle.ash_disk.specs.DiskImage.{bytes_at};
ghost use Rattle.ash_journal.specs.Layout.{four_bytes, mark, mark_size, prefix_size};
ghost use Rattle.ash_journal.specs.Layout.{header_size, length_limit, committed_bytes};
ghost use Rattle.ash_journal.specs.Layout.{IsShut, FieldsFit, IsDamaged, HasMark};
ghost use Rattle.ash_journal.specs.Reading.{HeaderIs, IsFailure, IsFileFault};
ghost use Rattle.ash_journal.specs.Reading.{Counts, IsFileBlock, IsFileRead};

use crate::bytes::{HEADER_SIZE, LENGTH_LIMIT, MAGIC, MARK_SIZE, PREFIX_SIZE};
use crate::error::OpenFault;
use crate::record::Record;
use ash_disk::{DeviceFailed, Disk};
use byteorder::{ByteOrder, LittleEndian};
use std::alloc::Global;

/// The first gate of a file that is closed: whether it is 0.
#[derive(Clone, Copy)]
pub(crate) struct FirstGate {
    pub(crate) shut: bool,
}

/// What the first bytes of a file say of it.
#[derive(Clone, Copy)]
pub(crate) enum FileHeader {
    /// It is closed.
    Closed { gate: FirstGate },
    /// It is open, and has no magic and no generation.
    Unmarked,
    /// It is open, with this generation.
    Marked { generation: u64 },
}

fn is_shut(prefix: &[u8]) -> bool
    ensures exact { IsTrue result ↔ IsShut prefix.now }
{
    !prefix.is_empty() && prefix[0] == 0
}

// The generation after a magic, where these bytes are both.
fn mark_of(bytes: &[u8]) -> Option<u64>
    requires within { length bytes.now ≤ mark_size }
    ensures value { MatchOption result
        ((generation : ℕ) → generation < 2 ^ 64 → bytes.now ≡ mark generation → ⊥)
        (λ generation. (generation < 2 ^ 64) × (bytes.now ≡ mark generation)) }
{
    if bytes.len() < MARK_SIZE {
        return None;
    }
    let (magic, number) = bytes.split_at(8);
    if magic != MAGIC.as_slice() {
        return None;
    }
    Some(LittleEndian::read_u64(number))
}

/// The header of a file whose first `PREFIX_SIZE` bytes, or all of fewer, are these.
pub(crate) fn header_of(prefix: &[u8]) -> FileHeader
    requires within { length prefix.now ≤ prefix_size }
    ensures value { (file : List ℕ) → prefix.now ≡ take prefix_size file → HeaderIs result file }
{
    if prefix.len() < 2 || prefix[0] != 1 {
        let gate = FirstGate {
            shut: is_shut(prefix),
        };
        return FileHeader::Closed { gate };
    }
    match mark_of(&prefix[1..]) {
        Some(generation) => FileHeader::Marked { generation },
        None => FileHeader::Unmarked,
    }
}

/// The header of a file, and its length.
pub(crate) fn read_header<D: Disk>(disk: &mut D) -> Result<(FileHeader, u64), DeviceFailed>
    ensures answer { IfOk result (λ x. IsTrue (D.honest disk.old)
        → HeaderIs x.0 (D.seen disk.old) × (x.1 ≡ length (D.seen disk.old))) }
    ensures only_read { IsOnlyRead D.Disk disk.old disk.new }
    ensures cause { Counts (IsErr result) (D.failures disk.old) (D.failures disk.new) }
{
    let len = disk.len()?;
    let size = len.min(PREFIX_SIZE as u64) as usize;
    let mut prefix = [0; PREFIX_SIZE];
    disk.read(0, &mut prefix[..size])?;
    Ok((header_of(&prefix[..size]), len))
}

/// Bytes that follow a gate, and the gate after them.
#[derive(Drop)]
pub(crate) struct Block {
    body: Vec<u8>,
    gate: u8,
}

// The length in four bytes.
fn size_of(bytes: &[u8]) -> u32
    requires length { length bytes.now ≡ 4 }
    ensures value { four_bytes result ≡ bytes.now }
{
    LittleEndian::read_u32(bytes)
}

fn read_size<D: Disk>(disk: &mut D, at: u64) -> Result<u32, OpenFault>
    requires within { IsTrue (D.honest disk.old) → at + 4 ≤ length (D.seen disk.old) }
    ensures answer { IfOk result (λ size. IsTrue (D.honest disk.old)
        → four_bytes size ≡ bytes_at (D.seen disk.old) at 4) }
    ensures fits { IfOk result (λ size. size < 2 ^ 32) }
    ensures only_read { IsOnlyRead D.Disk disk.old disk.new }
    ensures faults { IsFailure result }
    ensures cause { Counts (IsErrOf result OpenFault.DeviceFailed)
        (D.failures disk.old) (D.failures disk.new) }
{
    let mut size = [0; 4];
    disk.read(at, &mut size)?;
    Ok(size_of(&size))
}

fn read_bytes<D: Disk>(
    alloc: Global,
    disk: &mut D,
    at: u64,
    size: usize,
) -> Result<Vec<u8>, OpenFault>
    requires within { IsTrue (D.honest disk.old) → at + size ≤ length (D.seen disk.old) }
    ensures size { IfOk result (λ bytes. length bytes.items ≡ size) }
    ensures answer { IfOk result (λ bytes. IsTrue (D.honest disk.old)
        → bytes.items ≡ bytes_at (D.seen disk.old) at size) }
    ensures only_read { IsOnlyRead D.Disk disk.old disk.new }
    ensures faults { IsFailure result }
    ensures cause { Counts (IsErrOf result OpenFault.DeviceFailed)
        (D.failures disk.old) (D.failures disk.new) }
{
    let mut bytes = vec![in alloc; 0; size]?;
    disk.read(at, &mut bytes)?;
    Ok(bytes)
}

/// The block from an offset on in a file of this length, or `None` if it is damaged: cut short, or with a length that
/// isn't below the limit. Nothing after such a length is read.
fn read_block<D: Disk>(
    alloc: Global,
    disk: &mut D,
    at: u64,
    len: u64,
) -> Result<Option<Block>, OpenFault>
    requires whole { IsTrue (D.honest disk.old) → len ≡ length (D.seen disk.old) }
    ensures answer { IfOk result (λ found. IsTrue (D.honest disk.old)
        → MatchOption found (IsDamaged (drop at (D.seen disk.old)))
        (λ block. IsFileBlock block.body.items block.gate (drop at (D.seen disk.old)))) }
    ensures within { IfOk result (λ found. IfSome found (λ block.
        at + length block.body.items + 4 < len)) }
    ensures short { IfOk result (λ found. IfSome found (λ block.
        length block.body.items < length_limit)) }
    ensures only_read { IsOnlyRead D.Disk disk.old disk.new }
    ensures faults { IsFailure result }
    ensures cause { Counts (IsErrOf result OpenFault.DeviceFailed)
        (D.failures disk.old) (D.failures disk.new) }
{
    let room = len.saturating_sub(at);
    if room < 4 {
        return Ok(None);
    }
    let size = read_size(disk, at)?;
    if size as usize >= LENGTH_LIMIT || room - 4 <= u64::from(size) {
        return Ok(None);
    }
    let mut body = read_bytes(alloc, disk, at + 4, size as usize + 1)?;
    let gate = body.pop().unwrap();
    Ok(Some(Block { body, gate }))
}

/// Records, and where they end.
#[derive(Drop)]
pub(crate) struct Tail {
    pub(crate) records: Vec<Record>,
    /// The offset of the gate after the last of them.
    pub(crate) end: u64,
    /// That gate.
    pub(crate) gate: u8,
}

/// The open records from a gate on, in a file of this length.
fn read_records<D: Disk>(
    alloc: Global,
    disk: &mut D,
    len: u64,
    at: u64,
    first: u8,
) -> Result<Tail, OpenFault>
    requires bounded { at < len }
    requires whole { IsTrue (D.honest disk.old) → len ≡ length (D.seen disk.old) }
    ensures answer { (generation : ℕ) (image rest : List ℕ) → IsTrue (D.honest disk.old)
        → FieldsFit generation image []
        → D.seen disk.old ≡ committed_bytes generation image [] ++ first ∷ rest
        → at ≡ length (committed_bytes generation image [])
        → MatchResult result
        (λ tail.
        IsFileRead generation image tail.records.items tail.end tail.gate (D.seen disk.old))
        (λ fault. IsFileFault fault (D.seen disk.old)) }
    ensures within { IfOk result (λ tail. at ≤ tail.end) }
    ensures inside { IfOk result (λ tail. tail.end < len) }
    ensures only_read { IsOnlyRead D.Disk disk.old disk.new }
    ensures cause { Counts (IsErrOf result OpenFault.DeviceFailed)
        (D.failures disk.old) (D.failures disk.new) }
{
    let mut records = Vec::new(alloc);
    let mut end = at;
    let mut gate = first;
    while gate == 1 {
        let Some(block) = read_block(alloc, disk, end + 1, len)? else {
            return Err(OpenFault::Damaged(end));
        };
        let added = 5 + block.body.len() as u64;
        gate = block.gate;
        let record = Record {
            gate: end,
            body: block.body,
        };
        records.push(record)?;
        end += added;
    }
    Ok(Tail { records, end, gate })
}

/// A whole generation.
#[derive(Drop)]
pub(crate) struct CurrentFile {
    pub(crate) image: Vec<u8>,
    pub(crate) tail: Tail,
}

/// The generation of an open file of this length.
pub(crate) fn read_current<D: Disk>(
    alloc: Global,
    disk: &mut D,
    len: u64,
) -> Result<CurrentFile, OpenFault>
    requires whole { IsTrue (D.honest disk.old) → len ≡ length (D.seen disk.old) }
    ensures answer { (generation : ℕ) → IsTrue (D.honest disk.old)
        → HasMark generation (D.seen disk.old)
        → MatchResult result
        (λ r. IsFileRead generation r.image.items r.tail.records.items r.tail.end r.tail.gate
        (D.seen disk.old))
        (λ fault. IsFileFault fault (D.seen disk.old)) }
    ensures within { IfOk result (λ r. header_size + length r.image.items ≤ r.tail.end) }
    ensures inside { IfOk result (λ r. r.tail.end < len) }
    ensures short { IfOk result (λ r. length r.image.items < length_limit) }
    ensures only_read { IsOnlyRead D.Disk disk.old disk.new }
    ensures cause { Counts (IsErrOf result OpenFault.DeviceFailed)
        (D.failures disk.old) (D.failures disk.new) }
{
    let Some(block) = read_block(alloc, disk, PREFIX_SIZE as u64, len)? else {
        return Err(OpenFault::Damaged(0));
    };
    let end = HEADER_SIZE + block.body.len() as u64;
    let tail = read_records(alloc, disk, len, end, block.gate)?;
    Ok(CurrentFile {
        image: block.body,
        tail,
    })
}
