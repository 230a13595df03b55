//! What became of the modules, in a delta: a tag, and then
//!
//!     0  nothing
//!     1  a module is added, in place of one of its name if that is there
//!         name       u8     its length, and the bytes
//!         source     u32    its length, and the bytes
//!         globals           all of them, as below
//!     2  a module is removed
//!         name       u8     its length, and the bytes
//!     3  globals of a module changed
//!         name       u8     its length, and the bytes
//!         globals    u16    how many, by ascending index, and each:
//!             index  u16    in source order
//!             word

ghost use Rattle.std.specs.Prelude.{◌≡◌, ◌++◌, ◌≤◌, length, string_bytes, OnOk, IfOk};
ghost use Rattle.std.specs.Prelude.{IsOkUnless};
ghost use Rattle.std.specs.List.{flat_map};
ghost use Rattle.ash_host.specs.Objects.{numbers};
ghost use Rattle.ash_image.specs.Fields.{ReturnsField, times_at, items};
ghost use Rattle.ash_image.specs.Image.{do_rise, FitsModule, max_globals};
ghost use Rattle.ash_image.specs.SnapshotViews.{module_of, module_in};
ghost use Rattle.ash_image.specs.Delta.{indexed_word, indexed_from, all_globals, added};
ghost use Rattle.ash_image.specs.Delta.{module_change, FitsChange};
ghost use Rattle.ash_image.specs.DeltaReading.{indexed_at, indexed_words_at, counts_from};
ghost use Rattle.ash_image.specs.DeltaReading.{words_alone, all_globals_at, some_globals_at};
ghost use Rattle.ash_image.specs.DeltaReading.{added_at, change_at};
ghost use Rattle.ash_image.specs.DeltaViews.{indexed_of, all_indexed, change_of, change_in};
ghost use Rattle.ash_image.specs.declared.fields.ReadError.TheVariants.{Damaged};

use crate::delta_parts::ChangeParts;
use crate::fields::{ReadError, u8_at, u16_at, write_u8, write_u16, write_u32};
use crate::limits::MAX_GLOBALS;
use crate::modules::{name_of, source_of, write_name};
use crate::parts::ModuleParts;
use crate::stored::StoredModule;
use crate::stored_delta::{IndexedWord, StoredChange, StoredGlobals};
use crate::words::{word_of, write_word};
use ash_host::Word;
use std::alloc::{AllocError, Global};

/// An index and a word.
#[tactic(auto, unfolding(crate::specs::DeltaReading::indexed_at))]
fn indexed_of(bytes: &[u8]) -> Result<(IndexedWord, &[u8]), ReadError>
    ensures read { ReturnsField (λ x. (indexed_of x.0, x.1.now)) result (indexed_at bytes.now) }
    // It takes no memory.
    ensures no_memory { IsOkUnless result Damaged }
{
    let (index, rest) = u16_at(bytes)?;
    let (word, rest) = word_of(rest)?;
    Ok((IndexedWord { index, word }, rest))
}

/// So many words with their indexes, one after the other.
fn counted_words(
    alloc: Global,
    count: u16,
    bytes: &[u8],
) -> Result<(Vec<IndexedWord>, &[u8]), ReadError>
    ensures field { ReturnsField (λ x. (all_indexed x.0.items, x.1.now)) result
        (times_at indexed_at count bytes.now) }
{
    let mut words = Vec::new(alloc);
    let mut rest = bytes;
    for _ in 0..count {
        let (word, after) = indexed_of(rest)?;
        words.push(word)?;
        rest = after;
    }
    Ok((words, rest))
}

#[tactic(auto, unfolding(crate::specs::DeltaReading::indexed_words_at))]
fn indexed_words_of(alloc: Global, bytes: &[u8]) -> Result<(Vec<IndexedWord>, &[u8]), ReadError>
    ensures field { ReturnsField (λ x. (all_indexed x.0.items, x.1.now)) result
        (indexed_words_at bytes.now) }
{
    let (count, rest) = u16_at(bytes)?;
    if count > MAX_GLOBALS {
        return Err(ReadError::Damaged);
    }
    counted_words(alloc, count, rest)
}

/// Whether indexes are those of all words, in order.
fn are_all(words: &[IndexedWord]) -> bool
    ensures value { result ≡ counts_from 0 (numbers (all_indexed words.now)) }
{
    for index in 0..words.len() {
        if words[index].index as usize != index {
            return false;
        }
    }
    true
}

/// Whether each index is below the next.
fn do_rise(words: &[IndexedWord]) -> bool
    ensures value { result ≡ do_rise (numbers (all_indexed words.now)) }
{
    let Some((mut last, rest)) = words.split_first() else {
        return true;
    };
    for word in rest {
        if last.index >= word.index {
            return false;
        }
        last = word;
    }
    true
}

/// The words without their indexes.
fn words_alone(alloc: Global, words: &[IndexedWord]) -> Result<Vec<Word>, AllocError>
    ensures value { IfOk result (λ alone. alone.items ≡ words_alone (all_indexed words.now)) }
{
    let mut alone = Vec::with_capacity(alloc, words.len())?;
    for indexed in words {
        alone.push(indexed.word)?;
    }
    Ok(alone)
}

/// What all globals hold.
#[tactic(auto, unfolding(crate::specs::DeltaReading::all_globals_at))]
fn all_globals_of(alloc: Global, bytes: &[u8]) -> Result<(Vec<Word>, &[u8]), ReadError>
    ensures field { ReturnsField (λ x. (x.0.items, x.1.now)) result (all_globals_at bytes.now) }
{
    let (words, rest) = indexed_words_of(alloc, bytes)?;
    if !are_all(&words) {
        return Err(ReadError::Damaged);
    }
    let globals = words_alone(alloc, &words)?;
    Ok((globals, rest))
}

/// What some globals hold, by ascending index.
#[tactic(auto, unfolding(crate::specs::DeltaReading::some_globals_at))]
fn some_globals_of(alloc: Global, bytes: &[u8]) -> Result<(Vec<IndexedWord>, &[u8]), ReadError>
    ensures field { ReturnsField (λ x. (all_indexed x.0.items, x.1.now)) result
        (some_globals_at bytes.now) }
{
    let (words, rest) = indexed_words_of(alloc, bytes)?;
    if !do_rise(&words) {
        return Err(ReadError::Damaged);
    }
    Ok((words, rest))
}

#[tactic(auto, unfolding(crate::specs::DeltaReading::added_at))]
fn added_of(alloc: Global, bytes: &[u8]) -> Result<(StoredModule, &[u8]), ReadError>
    ensures field { ReturnsField (λ x. (module_of x.0, x.1.now)) result (added_at bytes.now) }
{
    let (name, rest) = name_of(alloc, bytes)?;
    let (source, rest) = source_of(rest)?;
    let (globals, rest) = all_globals_of(alloc, rest)?;
    let source = Vec::from_slice(alloc, source)?;
    let module = StoredModule {
        name,
        source,
        globals,
    };
    Ok((module, rest))
}

/// What became of the modules.
#[tactic(auto, unfolding(crate::specs::DeltaReading::change_at, crate::specs::DeltaReading::change_case))]
pub fn change_of(alloc: Global, bytes: &[u8]) -> Result<(StoredChange, &[u8]), ReadError>
    ensures read { ReturnsField (λ x. (change_of x.0, x.1.now)) result (change_at bytes.now) }
{
    let (tag, rest) = u8_at(bytes)?;
    match tag {
        0 => Ok((StoredChange::Unchanged, rest)),
        1 => {
            let (module, rest) = added_of(alloc, rest)?;
            Ok((StoredChange::Added(module), rest))
        }
        2 => {
            let (name, rest) = name_of(alloc, rest)?;
            Ok((StoredChange::Removed(name), rest))
        }
        3 => {
            let (name, rest) = name_of(alloc, rest)?;
            let (globals, rest) = some_globals_of(alloc, rest)?;
            Ok((StoredChange::Globals(StoredGlobals { name, globals }), rest))
        }
        _ => Err(ReadError::Damaged),
    }
}

fn write_indexed(out: &mut Vec<u8>, index: u16, value: Word) -> Result<(), AllocError>
    ensures value { OnOk result (out.new.items ≡ out.old.items ++ indexed_word (index, value)) }
{
    write_u16(out, index)?;
    write_word(out, value)
}

/// Each of the words, with its index.
fn write_counted(out: &mut Vec<u8>, words: &[Word]) -> Result<(), AllocError>
    requires few { length words.now ≤ max_globals }
    ensures value { OnOk result (out.new.items
        ≡ out.old.items ++ flat_map indexed_word (indexed_from 0 words.now)) }
{
    for index in 0..words.len() {
        write_indexed(out, index as u16, words[index])?;
    }
    Ok(())
}

/// Each of the words, with the index that it has.
fn write_each(out: &mut Vec<u8>, words: &[IndexedWord]) -> Result<(), AllocError>
    ensures value { OnOk result (out.new.items
        ≡ out.old.items ++ flat_map indexed_word (all_indexed words.now)) }
{
    for indexed in words {
        write_indexed(out, indexed.index, indexed.word)?;
    }
    Ok(())
}

/// How many words there are, and each with its index.
fn write_all_globals(out: &mut Vec<u8>, words: &[Word]) -> Result<(), AllocError>
    requires few { length words.now ≤ max_globals }
    ensures value { OnOk result (out.new.items ≡ out.old.items ++ all_globals words.now) }
{
    write_u16(out, words.len() as u16)?;
    write_counted(out, words)
}

/// How many words there are, and each with the index that it has.
fn write_some_globals(out: &mut Vec<u8>, words: &[IndexedWord]) -> Result<(), AllocError>
    requires few { length words.now ≤ max_globals }
    ensures value { OnOk result (out.new.items
        ≡ out.old.items ++ items 2 indexed_word (all_indexed words.now)) }
{
    write_u16(out, words.len() as u16)?;
    write_each(out, words)
}

fn write_added(out: &mut Vec<u8>, parts: ModuleParts<'_>) -> Result<(), AllocError>
    requires fits_module { FitsModule (module_in parts) }
    ensures value { OnOk result (out.new.items ≡ out.old.items ++ added (module_in parts.entry)) }
{
    write_name(out, parts.name)?;
    write_u32(out, parts.source.len() as u32)?;
    out.extend_from_slice(parts.source)?;
    write_all_globals(out, parts.globals)
}

/// A tag, and what became of the modules.
pub fn write_change(out: &mut Vec<u8>, parts: ChangeParts<'_>) -> Result<(), AllocError>
    requires fits { FitsChange (change_in parts) }
    ensures written { OnOk result (out.new.items
        ≡ out.old.items ++ module_change (change_in parts.entry)) }
{
    match parts {
        ChangeParts::Unchanged => write_u8(out, 0),
        ChangeParts::Added(module) => {
            write_u8(out, 1)?;
            write_added(out, module)
        }
        ChangeParts::Removed(name) => {
            write_u8(out, 2)?;
            write_name(out, name)
        }
        ChangeParts::Globals(globals) => {
            write_u8(out, 3)?;
            write_name(out, globals.name)?;
            write_some_globals(out, globals.globals)
        }
    }
}
