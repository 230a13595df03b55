//! The longest piece that a text begins with.

ghost use Rattle.std.specs.Prelude.{◌≡◌, ◌+◌, ◌<◌, ◌≤◌, ◌^◌, length};
ghost use Rattle.std.specs.Prelude.{IfSome, IsTrue, MatchOption};
ghost use Rattle.ash_lex.specs.declared.pieces.Piece.TheVariants.{Gap as GapPiece};
ghost use Rattle.ash_lex.specs.Scan as spec;
ghost use Rattle.ash_lex.specs.ScannedPieces.{BeginsWithPiece};
ghost use Rattle.ash_lex.specs.Tokens.{BeginsNothing};

use crate::bytes::{
    begins_with_hex_digit, digits_len, hex_digits_len, is_blank, is_digit, is_letter, line_len,
    word_len,
};
use crate::signs::{Sign, sign_at};

/// A piece that begins a text, with its length in bytes.
#[derive(Clone, Copy, Debug)]
pub enum Piece {
    /// A blank or a comment.
    Gap(usize),
    /// A comment without its end.
    UnclosedComment,
    /// A name, or a word that is none.
    Name(usize),
    Decimal(usize),
    /// `0x` and its digits.
    Hexadecimal(usize),
    Sign(Sign),
}

/// How many bytes there are up to the first `*/`, and with it.
fn comment_end(text: &[u8]) -> Option<usize>
    ensures value { result ≡ spec.comment_end text.now }
    ensures within { IfSome result (λ n. n ≤ length text.now) }
{
    let mut before = 0;
    let mut rest = text;
    loop {
        match rest {
            [b'*', b'/', ..] => return Some(before + 2),
            [_, after @ ..] => {
                before += 1;
                rest = after;
            }
            [] => return None,
        }
    }
}

/// The comment whose text after its `/*` begins so.
fn block_comment(text: &[u8]) -> Piece
    requires within { length text.now + 2 < 2 ^ 64 }
    ensures value { result ≡ spec.block_comment (spec.comment_end text.now) }
{
    match comment_end(text) {
        Some(len) => Piece::Gap(2 + len),
        None => Piece::UnclosedComment,
    }
}

/// The longest sign, if the text begins with one.
fn sign(text: &[u8]) -> Option<Piece>
    ensures value { result ≡ spec.sign_piece text.now }
{
    Some(Piece::Sign(sign_at(text)?))
}

/// The comment or the sign that the text begins with, at a `/`.
fn slash(text: &[u8]) -> Option<Piece>
    ensures value { result ≡ spec.slash_piece text.now }
{
    if text.starts_with(b"//") {
        Some(Piece::Gap(2 + line_len(&text[2..])))
    } else if text.starts_with(b"/*") {
        Some(block_comment(&text[2..]))
    } else {
        sign(text)
    }
}

/// The longest numeral, at a digit.
fn numeral(text: &[u8]) -> Piece
    ensures value { result ≡ spec.numeral_piece text.now }
{
    match text {
        [b'0', b'x', digits @ ..] if begins_with_hex_digit(digits) => {
            Piece::Hexadecimal(2 + hex_digits_len(digits))
        }
        _ => Piece::Decimal(digits_len(text)),
    }
}

/// The longest piece, by its first byte.
fn by_first_byte(text: &[u8]) -> Option<Piece>
    requires within { 0 < length text.now }
    ensures value { result ≡ spec.longest_piece text.now }
{
    let first = text[0];
    if is_blank(first) {
        Some(Piece::Gap(1))
    } else if is_letter(first) {
        Some(Piece::Name(word_len(text)))
    } else if is_digit(first) {
        Some(numeral(text))
    } else if first == b'/' {
        slash(text)
    } else {
        sign(text)
    }
}

/// Whether the text begins with a blank, which is then its longest piece.
pub fn begins_with_blank(text: &[u8]) -> bool
    requires some { 0 < length text.now }
    ensures blank { IsTrue result → BeginsWithPiece text.now (GapPiece 1) }
{
    is_blank(text[0])
}

/// The longest piece that the text begins with.
pub fn longest_piece(text: &[u8]) -> Option<Piece>
    requires some { 0 < length text.now }
    ensures longest { MatchOption result (BeginsNothing text.now) (BeginsWithPiece text.now) }
{
    by_first_byte(text)
}
