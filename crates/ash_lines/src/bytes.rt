//! Reading the bytes of a script's source.

ghost use Rattle.std.specs.Prelude.{◌≡◌, ◌<◌, ◌≤◌, ◌∷◌, [], ◌++◌, length, vec_capacity};
ghost use Rattle.ash_lines.specs.Reading.{ReadsBytes, max_prefix_bytes};

use crate::source::{ReadFault, Source};
use ash_lex::MAX_SOURCE_BYTES;

/// The most bytes that are stored of a source: one more than a source may have, so that a longer one is seen to be too
/// long.
pub const MAX_PREFIX_BYTES: usize = MAX_SOURCE_BYTES + 1;

/// Whether so many bytes came.
#[derive(Clone, Copy)]
pub enum BytesRead {
    All,
    /// The input ended before the last of them.
    Cut,
}

/// Reads so many bytes, and stores their prefix in place of what the buffer had.
pub fn read_bytes<S: Source>(
    input: &mut S,
    length: u32,
    prefix: &mut Vec<u8>,
) -> Result<BytesRead, ReadFault>
    requires room { max_prefix_bytes ≤ vec_capacity prefix.old }
    ensures read { ReadsBytes S.feed input.old result length prefix.new.items input.new }
    ensures room { max_prefix_bytes ≤ vec_capacity prefix.new }
{
    prefix.clear();
    for i in 0..length {
        match input.next()? {
            None => return Ok(BytesRead::Cut),
            Some(byte) => push_if_room(prefix, byte),
        }
    }
    Ok(BytesRead::All)
}

/// Stores a byte where there is room for it.
fn push_if_room(prefix: &mut Vec<u8>, byte: u8)
    requires room { max_prefix_bytes ≤ vec_capacity prefix.old }
    ensures pushed { length prefix.old.items < max_prefix_bytes
        → prefix.new.items ≡ prefix.old.items ++ byte ∷ [] }
    ensures full { max_prefix_bytes ≤ length prefix.old.items
        → prefix.new.items ≡ prefix.old.items }
    ensures room { max_prefix_bytes ≤ vec_capacity prefix.new }
{
    if prefix.len() < MAX_PREFIX_BYTES {
        prefix.push_reserved(byte);
    }
}
