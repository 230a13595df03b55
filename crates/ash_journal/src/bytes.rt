//! What is written after a gate, in one piece.
ghost use Rattle.std.specs.Prelude.{◌≡◌, ◌<◌, ◌^◌, ◌∷◌, ◌++◌, [], length, IfOk};
ghost use Rattle.ash_journal.specs.Layout.{mark, block, length_limit};

use byteorder::{ByteOrder, LittleEndian};
use std::alloc::{AllocError, Global};

/// An image and the body of a record have fewer bytes than this. A length in a file that is not below it is damage.
pub const LENGTH_LIMIT: usize = 1 << 28;

/// What every generation has after its first gate.
pub(crate) const MAGIC: &[u8; 8] = b"ASHOST01";

/// The bytes of a mark: the magic and the number of the generation.
pub(crate) const MARK_SIZE: usize = 16;

/// The bytes of a file before the length of its image: a gate and the mark.
pub(crate) const PREFIX_SIZE: usize = 17;

/// The bytes of a file before its image: a gate, the mark and the length of the image.
pub(crate) const HEADER_SIZE: u64 = 21;

/// A record's length and body, and a next gate that is shut.
#[tactic(auto, unfolding(crate::specs::Layout::block, crate::specs::Layout::four_bytes))]
pub(crate) fn record_bytes(alloc: Global, body: &[u8]) -> Result<Vec<u8>, AllocError>
    requires within { length body.now < length_limit }
    ensures value { IfOk result (λ v. v.items ≡ block body.now ++ 0 ∷ []) }
{
    let mut size = [0; 4];
    LittleEndian::write_u32(&mut size, body.len() as u32);
    let mut bytes = Vec::with_capacity(alloc, body.len() + 5)?;
    bytes.extend_from_slice(&size)?;
    bytes.extend_from_slice(body)?;
    bytes.push(0)?;
    Ok(bytes)
}

/// A generation's magic, number and image, and a next gate that is shut.
#[tactic(auto, unfolding(crate::specs::Layout::block, crate::specs::Layout::four_bytes, crate::specs::Layout::eight_bytes, crate::specs::Layout::mark, crate::specs::Layout::magic))]
pub(crate) fn generation_bytes(
    alloc: Global,
    generation: u64,
    image: &[u8],
) -> Result<Vec<u8>, AllocError>
    requires within { length image.now < length_limit }
    ensures value { IfOk result (λ v. v.items ≡ mark generation ++ (block image.now ++ 0 ∷ [])) }
{
    let mut number = [0; 8];
    LittleEndian::write_u64(&mut number, generation);
    let mut size = [0; 4];
    LittleEndian::write_u32(&mut size, image.len() as u32);
    let mut bytes = Vec::with_capacity(alloc, image.len() + HEADER_SIZE as usize)?;
    bytes.extend_from_slice(MAGIC)?;
    bytes.extend_from_slice(&number)?;
    bytes.extend_from_slice(&size)?;
    bytes.extend_from_slice(image)?;
    bytes.push(0)?;
    Ok(bytes)
}
