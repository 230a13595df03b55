//! Numbers and arguments as they are written.

ghost use Rattle.std.specs.Prelude.{◌≡◌, ◌<◌, ◌^◌, IfSome};
ghost use Rattle.std.specs.List.{list_all};
ghost use Rattle.std.specs.Str.{bytes_eq};
ghost use Rattle.ash_lines.specs.Lines.{is_digit, is_number, number_of, length_of};
ghost use Rattle.ash_lines.specs.Lines.{object_number_of, batch_length_of, signed_of, argument_of};

use ash_requests::Arg;

/// The most digits of a number below 2^64.
pub const MAX_DIGITS: usize = 20;

/// The most lines of a batch.
pub const MAX_BATCH: usize = 16;

/// The most digits of the number of lines of a batch.
const MAX_BATCH_DIGITS: usize = 2;

/// Whether two words are the same.
pub(crate) fn is_same(word: &[u8], text: &[u8]) -> bool
    ensures same { result ≡ bytes_eq word.now text.now }
{
    word == text
}

/// A number of bytes, below 2^32.
#[tactic(auto, unfolding(crate::specs::Lines::length_of))]
pub(crate) fn parse_length(word: &[u8]) -> Option<u32>
    ensures value { result ≡ length_of word.now }
{
    let number = parse_number(word)?;
    if number < 1 << 32 {
        Some(number as u32)
    } else {
        None
    }
}

/// The number of an object, below 2^64.
#[tactic(auto, unfolding(crate::specs::Lines::object_number_of))]
pub(crate) fn parse_object_number(word: &[u8]) -> Option<u64>
    ensures value { result ≡ object_number_of word.now }
{
    let number = parse_number(word)?;
    if number < 1 << 64 {
        Some(number as u64)
    } else {
        None
    }
}

/// How many lines a batch has: one or two digits, from 1 to 16.
#[tactic(auto, unfolding(crate::specs::Lines::batch_length_of))]
pub(crate) fn parse_batch_length(word: &[u8]) -> Option<usize>
    ensures value { result ≡ batch_length_of word.now }
{
    if word.len() > MAX_BATCH_DIGITS {
        return None;
    }
    let number = parse_number(word)?;
    if number >= 1 && number <= MAX_BATCH as u128 {
        Some(number as usize)
    } else {
        None
    }
}

/// `true`, `false`, or a number with a sign or without one.
#[tactic(auto, unfolding(crate::specs::Lines::argument_of))]
pub(crate) fn parse_argument(word: &[u8]) -> Option<Arg>
    ensures value { result ≡ argument_of word.now }
{
    if is_same(word, b"true") {
        Some(Arg::Truth(true))
    } else if is_same(word, b"false") {
        Some(Arg::Truth(false))
    } else {
        parse_signed(word)
    }
}

fn parse_signed(word: &[u8]) -> Option<Arg>
    ensures value { result ≡ signed_of word.now }
{
    match word {
        [] => None,
        [b'-', digits @ ..] => {
            let size = parse_number(digits)?;
            Some(Arg::Number(-(size as i128)))
        }
        _ => {
            let size = parse_number(word)?;
            Some(Arg::Number(size as i128))
        }
    }
}

/// The number that 1 to 20 digits spell.
fn parse_number(word: &[u8]) -> Option<u128>
    ensures value { result ≡ number_of word.now }
    ensures bound { IfSome result (λ number. number < 2 ^ 127) }
{
    if !is_number(word) {
        return None;
    }
    let mut number: u128 = 0;
    for i in 0..word.len() {
        number = 10 * number + u128::from(word[i] - b'0');
    }
    Some(number)
}

fn is_number(word: &[u8]) -> bool
    ensures digits { result ≡ is_number word.now }
{
    !word.is_empty() && word.len() <= MAX_DIGITS && is_all_digits(word)
}

fn is_all_digits(word: &[u8]) -> bool
    ensures digits { result ≡ list_all is_digit word.now }
{
    word.iter().all(|byte| is_digit(*byte))
}

fn is_digit(byte: u8) -> bool
    ensures digit { result ≡ is_digit byte }
{
    byte >= b'0' && byte <= b'9'
}
