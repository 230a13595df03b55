//! The classes of bytes that tokens are made of.

ghost use Rattle.std.specs.Prelude.{◌≡◌, ◌≤◌, length, not};
ghost use Rattle.std.specs.List.{prefix_len, count_by};
ghost use Rattle.ash_lex.specs.Bytes as spec;

/// A blank: space, tab, carriage return or line feed.
pub fn is_blank(byte: u8) -> bool
    ensures blank { result ≡ spec.is_blank byte }
{
    matches!(byte, b' ' | b'\t' | b'\r' | b'\n')
}

/// `0` to `9`.
pub fn is_digit(byte: u8) -> bool
    ensures digit { result ≡ spec.is_digit byte }
{
    byte.is_ascii_digit()
}

/// A hexadecimal digit, of either case.
pub fn is_hex_digit(byte: u8) -> bool
    ensures hex_digit { result ≡ spec.is_hex_digit byte }
{
    byte.is_ascii_hexdigit()
}

/// What a name begins with: an ASCII letter or `_`.
pub fn is_letter(byte: u8) -> bool
    ensures letter { result ≡ spec.is_letter byte }
{
    byte.is_ascii_alphabetic() || byte == b'_'
}

/// What a name goes on with: an ASCII letter, a digit or `_`.
pub fn is_word(byte: u8) -> bool
    ensures word_byte { result ≡ spec.is_word byte }
{
    byte.is_ascii_lowercase() || byte.is_ascii_alphanumeric() || byte == b'_'
}

/// Whether the bytes begin with a letter, a digit or `_`.
pub fn begins_with_word(bytes: &[u8]) -> bool
    ensures first_byte { result ≡ spec.begins_with_word bytes.now }
{
    match bytes {
        [first, ..] => is_word(*first),
        [] => false,
    }
}

/// Whether the bytes begin with a hexadecimal digit.
pub fn begins_with_hex_digit(bytes: &[u8]) -> bool
    ensures first_byte { result ≡ spec.begins_with_hex_digit bytes.now }
{
    match bytes {
        [first, ..] => is_hex_digit(*first),
        [] => false,
    }
}

/// How many letters, digits and `_` the bytes begin with.
pub fn word_len(bytes: &[u8]) -> usize
    ensures all_word_bytes { result ≡ prefix_len spec.is_word bytes.now }
{
    bytes.iter().take_while(|byte| is_word(**byte)).count()
}

/// How many digits the bytes begin with.
pub fn digits_len(bytes: &[u8]) -> usize
    ensures all_digits { result ≡ prefix_len spec.is_digit bytes.now }
{
    bytes.iter().take_while(|byte| is_digit(**byte)).count()
}

/// How many hexadecimal digits the bytes begin with.
pub fn hex_digits_len(bytes: &[u8]) -> usize
    ensures value { result ≡ prefix_len spec.is_hex_digit bytes.now }
    ensures within { result ≤ length bytes.now }
{
    bytes.iter().take_while(|byte| is_hex_digit(**byte)).count()
}

/// How many bytes there are before the first line feed.
pub fn line_len(bytes: &[u8]) -> usize
    ensures value { result ≡ prefix_len (λ b. not (spec.is_line_feed b)) bytes.now }
    ensures within { result ≤ length bytes.now }
{
    bytes.iter().take_while(|byte| **byte != b'\n').count()
}

/// How many line feeds there are.
pub fn line_feeds(bytes: &[u8]) -> usize
    ensures count { result ≡ count_by spec.is_line_feed bytes.now }
{
    bytes.iter().filter(|byte| **byte == b'\n').count()
}
