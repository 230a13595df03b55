//! Numbers and texts, read from the first bytes of some, which takes no memory, and written at the end of a vector.

ghost use Rattle.std.specs.Prelude.{◌≡◌, ◌++◌, OnOk, IsOkUnless};
ghost use Rattle.ash_image.specs.Fields.{ReturnsField, number, prefix_at, number_at};
ghost use Rattle.ash_image.specs.declared.fields.ReadError.TheVariants.{NoMemory, Damaged};

use byteorder::{ByteOrder, LittleEndian};
use std::alloc::{AllocError, AllocFailed};
use std::error::Error;
use std::fmt;

/// Why nothing was read.
#[derive(Clone, Copy, Debug, PartialEq, Eq)]
pub enum ReadError {
    /// Memory was refused.
    NoMemory,
    /// The bytes spell nothing.
    Damaged,
}

impl fmt::Display for ReadError {
    fn fmt<W: fmt::Write>(&self, f: &mut fmt::Formatter<W>) -> fmt::Result {
        f.write_str(match self {
            ReadError::NoMemory => "memory was refused",
            ReadError::Damaged => "the bytes are no part of an image",
        })
    }
}

impl Error for ReadError {}

impl From<AllocError> for ReadError {
    ghost from_gives = { λ _ e. e ≡ NoMemory };

    fn from(_e: AllocError) -> ReadError {
        ReadError::NoMemory
    }
}

impl<T: Drop> From<AllocFailed<T>> for ReadError {
    ghost from_gives = { λ _ e. e ≡ NoMemory };

    fn from(_e: AllocFailed<T>) -> ReadError {
        ReadError::NoMemory
    }
}

/// So many bytes, and those after them.
pub fn prefix(bytes: &[u8], count: usize) -> Result<(&[u8], &[u8]), ReadError>
    ensures read { ReturnsField (λ x. (x.0.now, x.1.now)) result (prefix_at count bytes.now) }
    ensures no_memory { IsOkUnless result Damaged }
{
    if bytes.len() < count {
        return Err(ReadError::Damaged);
    }
    Ok(bytes.split_at(count))
}

/// The number in the first byte, and the bytes after it.
pub fn u8_at(bytes: &[u8]) -> Result<(u8, &[u8]), ReadError>
    ensures read { ReturnsField (λ x. (x.0, x.1.now)) result (number_at 1 bytes.now) }
    ensures no_memory { IsOkUnless result Damaged }
{
    let (prefix, rest) = prefix(bytes, 1)?;
    Ok((prefix[0], rest))
}

/// The number in the first two bytes, the lowest first, and the bytes after them.
pub fn u16_at(bytes: &[u8]) -> Result<(u16, &[u8]), ReadError>
    ensures read { ReturnsField (λ x. (x.0, x.1.now)) result (number_at 2 bytes.now) }
    ensures no_memory { IsOkUnless result Damaged }
{
    let (prefix, rest) = prefix(bytes, 2)?;
    Ok((LittleEndian::read_u16(prefix), rest))
}

/// The number in the first four bytes, the lowest first, and the bytes after them.
pub fn u32_at(bytes: &[u8]) -> Result<(u32, &[u8]), ReadError>
    ensures read { ReturnsField (λ x. (x.0, x.1.now)) result (number_at 4 bytes.now) }
    ensures no_memory { IsOkUnless result Damaged }
{
    let (prefix, rest) = prefix(bytes, 4)?;
    Ok((LittleEndian::read_u32(prefix), rest))
}

/// The number in the first eight bytes, the lowest first, and the bytes after them.
pub fn u64_at(bytes: &[u8]) -> Result<(u64, &[u8]), ReadError>
    ensures read { ReturnsField (λ x. (x.0, x.1.now)) result (number_at 8 bytes.now) }
    ensures no_memory { IsOkUnless result Damaged }
{
    let (prefix, rest) = prefix(bytes, 8)?;
    Ok((LittleEndian::read_u64(prefix), rest))
}

/// Appends a number in one byte.
pub fn write_u8(out: &mut Vec<u8>, value: u8) -> Result<(), AllocError>
    ensures written { OnOk result (out.new.items ≡ out.old.items ++ number 1 value) }
{
    out.push(value)?;
    Ok(())
}

/// Appends a number in two bytes, the lowest first.
pub fn write_u16(out: &mut Vec<u8>, value: u16) -> Result<(), AllocError>
    ensures written { OnOk result (out.new.items ≡ out.old.items ++ number 2 value) }
{
    let mut bytes = [0; 2];
    LittleEndian::write_u16(&mut bytes, value);
    out.extend_from_slice(&bytes)
}

/// Appends a number in four bytes, the lowest first.
pub fn write_u32(out: &mut Vec<u8>, value: u32) -> Result<(), AllocError>
    ensures written { OnOk result (out.new.items ≡ out.old.items ++ number 4 value) }
{
    let mut bytes = [0; 4];
    LittleEndian::write_u32(&mut bytes, value);
    out.extend_from_slice(&bytes)
}

/// Appends a number in eight bytes, the lowest first.
pub fn write_u64(out: &mut Vec<u8>, value: u64) -> Result<(), AllocError>
    ensures written { OnOk result (out.new.items ≡ out.old.items ++ number 8 value) }
{
    let mut bytes = [0; 8];
    LittleEndian::write_u64(&mut bytes, value);
    out.extend_from_slice(&bytes)
}
