//! Tokens.

use crate::signs::Sign;
use crate::words::{ReservedWord, UnsupportedWord};

/// What a token is.
#[derive(Debug, PartialEq, Eq, Drop)]
pub enum TokenKind {
    /// A letter or `_`, then letters, digits and `_`, all of them ASCII.
    Name(String),
    /// A decimal or hexadecimal number.
    Number(u64),
    Sign(Sign),
    Reserved(ReservedWord),
    Unsupported(UnsupportedWord),
}

/// A token and where it is: the bytes `from..to` of the text, and the line of its first byte, from 1.
#[derive(Debug, PartialEq, Eq, Drop)]
pub struct Token {
    pub kind: TokenKind,
    pub line: usize,
    pub from: usize,
    pub to: usize,
}
