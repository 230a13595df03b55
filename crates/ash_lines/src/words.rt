//! The words of a line.

ghost use Rattle.std.specs.Prelude.{◌≡◌, [], ◌∷◌, ◌==◌, position, MatchOption, Some, None};
ghost use Rattle.std.specs.List.{list_all};
ghost use Rattle.ash_lines.specs.Lines.{pieces, is_visible, is_word};
ghost use Rattle.ash_lines.specs.LineWords.{words_left, is_none_left};

use std::str;

/// The words of a line that are still to come.
#[derive(Clone, Copy)]
pub(crate) struct Words<'a> {
    /// What is left of the line, or nothing after its last word.
    rest: Option<&'a [u8]>,
}

impl<'a> Words<'a> {
    /// The pieces of a line between its spaces.
    pub(crate) fn of(line: &'a [u8]) -> Words<'a>
        ensures pieces { words_left result.rest ≡ pieces line.now }
    {
        Words { rest: Some(line) }
    }

    /// Whether no piece is left.
    pub(crate) fn is_empty(&self) -> bool
        ensures empty { result ≡ is_none_left (words_left self.now.rest) }
    {
        self.rest.is_none()
    }

    /// The next piece.
    pub(crate) fn next(&mut self) -> Option<&'a [u8]>
        ensures next { MatchOption result (words_left self.old.rest ≡ [])
            (λ word. words_left self.old.rest ≡ word.now ∷ words_left self.new.rest) }
    {
        let line = self.rest?;
        match first_space(line) {
            None => {
                self.rest = None;
                Some(line)
            }
            Some(space) => {
                self.rest = Some(&line[space + 1..]);
                Some(&line[..space])
            }
        }
    }
}

/// The place of the first space.
fn first_space(line: &[u8]) -> Option<usize>
    ensures first { result ≡ position (λ byte. byte == 32) line.now }
{
    line.iter().position(|byte| *byte == b' ')
}

/// Whether each piece of the line is a word.
pub(crate) fn is_all_words(line: &[u8]) -> bool
    ensures words { result ≡ list_all is_word (pieces line.now) }
{
    let mut words = Words::of(line);
    while let Some(word) = words.next() {
        if !is_word(word) {
            return false;
        }
    }
    true
}

/// Whether a piece is a word: visible characters of ASCII, one at the least.
fn is_word(piece: &[u8]) -> bool
    ensures word { result ≡ is_word piece.now }
{
    !piece.is_empty() && is_all_visible(piece)
}

fn is_all_visible(piece: &[u8]) -> bool
    ensures visible { result ≡ list_all is_visible piece.now }
{
    piece.iter().all(|byte| is_visible(*byte))
}

fn is_visible(byte: u8) -> bool
    ensures visible { result ≡ is_visible byte }
{
    byte >= 0x21 && byte <= 0x7e
}
