//! What a kind does that has one `int`. Its state is the number in four bytes, the lowest first.
ghost use Rattle.std.specs.Prelude.{◌≡◌, ◌++◌, ◌↔◌, length, IsSome, IfSome, OnOk, OnErr};
ghost use Rattle.ash_host.specs.Ints.{int_bytes, low_bits_of};

use crate::NoMemory;

/// Appends a number's bytes.
pub(crate) fn save_int(number: i32, out: &mut Vec<u8>) -> Result<(), NoMemory>
    ensures saved { OnOk result (out.new.items ≡ out.old.items ++ int_bytes number) }
    ensures unchanged { OnErr result (out.new.items ≡ out.old.items) }
{
    out.extend_from_slice(&number.to_le_bytes())?;
    Ok(())
}

/// The number of which these are the bytes.
pub(crate) fn int_from_bytes(bytes: &[u8]) -> Option<i32>
    ensures four { IsSome result ↔ (length bytes.now ≡ 4) }
    ensures number { IfSome result (λ number. int_bytes number ≡ bytes.now) }
{
    match bytes {
        [a, b, c, d] => Some(i32::from_le_bytes([*a, *b, *c, *d])),
        _ => None,
    }
}

/// The low 16 bits of a number.
pub(crate) fn low_bits(number: i32) -> u16
    ensures value { result ≡ low_bits_of number }
{
    (number.cast_unsigned() % 65536) as u16
}
