//! Numbers and values as people read them.

use ash_host::Word;
use std::alloc::{AllocError, Global};
use std::fmt;

/// A number with a comma before each three digits.
pub(crate) fn grouped(alloc: Global, number: u64) -> Result<String, AllocError> {
    let digits = number.to_string(alloc)?;
    let mut text = String::new(alloc);
    let mut left = digits.len();
    for digit in digits.chars() {
        if left % 3 == 0 && !text.is_empty() {
            text.push(',')?;
        }
        text.push(digit)?;
        left = left.saturating_sub(1);
    }
    Ok(text)
}

/// How many there are of something, with an `s` unless it is one.
pub(crate) fn counted(alloc: Global, number: u64, what: &str) -> Result<String, AllocError> {
    let count = grouped(alloc, number)?;
    let ending = if number == 1 { "" } else { "s" };
    format!(in alloc; "{count} {what}{ending}")
}

/// A value as a script writes it; an object by its number.
#[derive(Clone, Copy, Debug)]
pub(crate) struct Value(pub(crate) Word);

impl fmt::Display for Value {
    fn fmt<W: fmt::Write>(&self, f: &mut fmt::Formatter<W>) -> fmt::Result {
        match self.0 {
            Word::Bool(value) => write!(f, "{value}"),
            Word::Int(value) => write!(f, "{value}"),
            Word::Uint(value) => write!(f, "{value}"),
            Word::Int64(value) => write!(f, "{value}"),
            Word::Uint64(value) => write!(f, "{value}"),
            Word::Null => f.write_str("null"),
            Word::Object(number) => write!(f, "object {number}"),
        }
    }
}

/// Bytes as hexadecimal digits, two for each.
pub(crate) fn hex_text(alloc: Global, bytes: &[u8]) -> Result<String, AllocError> {
    let mut text = String::new(alloc);
    for byte in bytes {
        let byte = *byte;
        write!(text, "{byte:02x}")?;
    }
    Ok(text)
}
