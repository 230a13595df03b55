//! Reading a line of the input.

ghost use Rattle.std.specs.Prelude.{◌≤◌, vec_capacity, Result};
ghost use Rattle.ash_lines.specs.Lines.{max_line_bytes};
ghost use Rattle.ash_lines.specs.Reading.{Skips, IsLong, ReadsLine};
ghost use Rattle.ash_lines.specs.declared.source.ReadFault.{ReadFault};
ghost use Rattle.ash_lines.specs.declared.line.LineRest.{LineRest};

use crate::source::{ReadFault, Source};

/// The most bytes of a line, its line feed not counted.
pub const MAX_LINE_BYTES: usize = 4096;

/// What comes before the next line feed.
#[derive(Clone, Copy)]
pub enum LineRest {
    Empty,
    Bytes,
    /// The input ends before it.
    Cut,
}

/// How reading a line ended.
#[derive(Clone, Copy)]
pub enum LineRead {
    Whole,
    TooLong,
    /// The input ended before its first byte.
    End,
    /// The input ended before its line feed.
    Cut,
}

/// Reads up to and past the next line feed.
pub fn skip_line<S: Source>(input: &mut S) -> Result<LineRest, ReadFault>
    ensures skips { Skips S.feed input.old result input.new }
{
    let mut any = false;
    'bytes: loop {
        match input.next()? {
            None => return Ok(LineRest::Cut),
            Some(b'\n') => {
                return Ok(if any {
                    LineRest::Bytes
                } else {
                    LineRest::Empty
                });
            }
            Some(_) => any = true,
        }
    }
}

/// Reads a line into the buffer, in place of what it had. A line of more than 4,096 bytes is skipped.
pub fn read_line<S: Source>(input: &mut S, line: &mut Vec<u8>) -> Result<LineRead, ReadFault>
    requires room { max_line_bytes ≤ vec_capacity line.old }
    ensures read { ReadsLine S.feed input.old result line.new.items input.new }
    ensures room { max_line_bytes ≤ vec_capacity line.new }
{
    line.clear();
    'bytes: loop {
        match input.next()? {
            None if line.is_empty() => return Ok(LineRead::End),
            None => return Ok(LineRead::Cut),
            Some(b'\n') => return Ok(LineRead::Whole),
            Some(byte) => {
                if line.len() == MAX_LINE_BYTES {
                    return skip_long_line(input);
                }
                line.push_reserved(byte);
            }
        }
    }
}

/// Skips the rest of a line that is too long.
fn skip_long_line<S: Source>(input: &mut S) -> Result<LineRead, ReadFault>
    ensures skips { (rest : Result LineRest ReadFault) × Skips S.feed input.old rest input.new
        × IsLong rest result }
{
    match skip_line(input)? {
        LineRest::Cut => Ok(LineRead::Cut),
        _ => Ok(LineRead::TooLong),
    }
}
