//! Words in an image.
//!
//! A word is a tag and a value:
//!
//!     0  bool        u8     0 or 1
//!     1  int         i32
//!     2  uint        u32
//!     3  int64       i64
//!     4  uint64      u64
//!     5  null
//!     6  object      u64    its number

ghost use Rattle.std.specs.Prelude.{◌≡◌, ◌++◌, OnOk, IsOkUnless};
ghost use Rattle.std.specs.List.{flat_map};
ghost use Rattle.ash_image.specs.Fields.{ReturnsField, times_at, number};
ghost use Rattle.ash_image.specs.ImageWords.{word, word_at};
ghost use Rattle.ash_image.specs.declared.fields.ReadError.TheVariants.{Damaged};

use crate::fields::{ReadError, u8_at, u32_at, u64_at, write_u8, write_u32, write_u64};
use ash_host::Word;
use std::alloc::{AllocError, Global};

#[tactic(auto, unfolding(crate::specs::ImageWords::word_at, crate::specs::ImageWords::value_at))]
pub fn word_of(bytes: &[u8]) -> Result<(Word, &[u8]), ReadError>
    ensures read { ReturnsField (λ x. (x.0, x.1.now)) result (word_at bytes.now) }
    // It takes no memory.
    ensures no_memory { IsOkUnless result Damaged }
{
    let (tag, rest) = u8_at(bytes)?;
    match tag {
        0 => {
            let (value, rest) = u8_at(rest)?;
            if value < 2 {
                Ok((Word::Bool(value == 1), rest))
            } else {
                Err(ReadError::Damaged)
            }
        }
        1 => {
            let (value, rest) = u32_at(rest)?;
            Ok((Word::Int(value.cast_signed()), rest))
        }
        2 => {
            let (value, rest) = u32_at(rest)?;
            Ok((Word::Uint(value), rest))
        }
        3 => {
            let (value, rest) = u64_at(rest)?;
            Ok((Word::Int64(value.cast_signed()), rest))
        }
        4 => {
            let (value, rest) = u64_at(rest)?;
            Ok((Word::Uint64(value), rest))
        }
        5 => Ok((Word::Null, rest)),
        6 => {
            let (value, rest) = u64_at(rest)?;
            Ok((Word::Object(value), rest))
        }
        _ => Err(ReadError::Damaged),
    }
}

/// So many words, one after the other.
pub fn words_of(alloc: Global, count: u16, bytes: &[u8]) -> Result<(Vec<Word>, &[u8]), ReadError>
    ensures read { ReturnsField (λ x. (x.0.items, x.1.now)) result
        (times_at word_at count bytes.now) }
{
    let mut words = Vec::new(alloc);
    let mut rest = bytes;
    for _ in 0..count {
        let (word, after) = word_of(rest)?;
        words.push(word)?;
        rest = after;
    }
    Ok((words, rest))
}

pub fn write_word(out: &mut Vec<u8>, value: Word) -> Result<(), AllocError>
    ensures meaning { OnOk result (out.new.items ≡ out.old.items ++ word value) }
{
    match value {
        Word::Bool(truth) => {
            write_u8(out, 0)?;
            write_u8(out, u8::from(truth))
        }
        Word::Int(number) => {
            write_u8(out, 1)?;
            write_u32(out, number.cast_unsigned())
        }
        Word::Uint(number) => {
            write_u8(out, 2)?;
            write_u32(out, number)
        }
        Word::Int64(number) => {
            write_u8(out, 3)?;
            write_u64(out, number.cast_unsigned())
        }
        Word::Uint64(number) => {
            write_u8(out, 4)?;
            write_u64(out, number)
        }
        Word::Null => write_u8(out, 5),
        Word::Object(number) => {
            write_u8(out, 6)?;
            write_u64(out, number)
        }
    }
}

/// Each of the words.
pub fn write_words(out: &mut Vec<u8>, words: &[Word]) -> Result<(), AllocError>
    ensures written { OnOk result (out.new.items ≡ out.old.items ++ flat_map word words.now) }
{
    for word in words {
        write_word(out, *word)?;
    }
    Ok(())
}
