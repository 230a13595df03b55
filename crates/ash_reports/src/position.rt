//! Positions in a text, as people count them.

ghost use Rattle.std.specs.Prelude.{◌≡◌, ◌+◌, take, count_by};
ghost use Rattle.ash_reports.specs.Positions.{begins_character, characters_on_line, is_line_feed};

/// A line and a column, each counted from 1. A column is a character, whatever its width.
#[derive(Clone, Copy, Debug, PartialEq, Eq)]
pub struct Position {
    pub line: usize,
    pub column: usize,
}

/// The position of the character that begins after so many bytes.
pub fn position_of(text: &str, at: usize) -> Position
    ensures line { result.line ≡ 1 + count_by is_line_feed (take at text.now) }
    ensures column { result.column ≡ 1 + characters_on_line (take at text.now) }
{
    let before = prefix(text.as_bytes(), at);
    Position {
        line: 1 + count_line_feeds(before),
        column: 1 + count_characters_on_line(before),
    }
}

/// The first bytes of a text, so many of them at the most.
fn prefix(text: &[u8], len: usize) -> &[u8]
    ensures prefix { result.now ≡ take len text.now }
{
    text.get(..len).unwrap_or(text)
}

fn count_line_feeds(text: &[u8]) -> usize
    ensures count { result ≡ count_by is_line_feed text.now }
{
    text.iter().filter(|byte| **byte == b'\n').count()
}

/// How many characters the last line has.
fn count_characters_on_line(text: &[u8]) -> usize
    ensures count { result ≡ characters_on_line text.now }
{
    text.iter()
        .rev()
        .take_while(|byte| **byte != b'\n')
        .filter(|byte| is_first_of_character(**byte))
        .count()
}

/// Whether a byte of UTF-8 begins a character.
fn is_first_of_character(byte: u8) -> bool
    ensures first { result ≡ begins_character byte }
{
    byte < 0x80 || byte >= 0xc0
}
