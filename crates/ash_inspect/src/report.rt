//! What one file of a store holds.

ghost use Rattle.std.specs.Prelude.{◌≡◌, None, IfOk, IfSome};
ghost use Rattle.ash_journal.specs.Layout.{IsClosed};
ghost use Rattle.ash_inspect.specs.Reports.{IsFound, IsOpenFile, IsReport, IsReported, IsSound};

use crate::file_fault::FileFault;
use crate::generation::Generation;
use crate::header::{Header, header_of, marked_behind};
use crate::known::{KnownState, last_known};
use crate::reading::{Reading, read_open, reopened};
use std::alloc::{AllocError, Global};

/// What is wrong with a generation, the first that is.
#[derive(Clone, Copy, Debug, PartialEq, Eq)]
pub enum Damage {
    /// The image is that of no state.
    NoImage,
    /// The record after the gate at this offset is cut short.
    CutShort(u64),
    /// The records up to the one after the gate at this offset lead to no state.
    LeadsNowhere(u64),
}

/// What an open file holds.
#[derive(Drop)]
pub struct OpenFile {
    pub generation: u64,
    /// How many whole records it has.
    pub records: usize,
    /// The offset of the gate after the last of them.
    pub end: usize,
    /// The last state that is known of it.
    pub known: Option<KnownState>,
    pub damage: Option<Damage>,
}

/// What one file of a store holds.
#[derive(Drop)]
pub enum FileReport {
    /// It is closed.
    Closed {
        /// What it would hold if its first gate were open, if it has a mark and a whole image.
        behind: Option<OpenFile>,
    },
    /// It is open, and has no magic and no generation.
    Unmarked,
    /// It is open with this generation, and its image is cut short.
    NoImage(u64),
    /// It is open, and has a whole image.
    Open(OpenFile),
}

/// The offset of the gate after the last record, or after the image if there is no record.
fn end_of(generation: &Generation) -> usize {
    match generation.records.last() {
        Some(last) => (last.gate as usize)
            .saturating_add(5)
            .saturating_add(last.body.len()),
        None => generation.image.len().saturating_add(21),
    }
}

/// What is wrong with a generation of which this state is known.
fn damage_of(reading: &Reading, known: &Option<KnownState>) -> Option<Damage>
    ensures sound { result ≡ None → IsSound reading.now known.now }
    ensures found { IfSome result (λ d. IsFound d reading.now known.now) }
{
    let Some(state) = known else {
        return Some(Damage::NoImage);
    };
    let records = &reading.generation.records;
    if state.records < records.len() {
        return Some(Damage::LeadsNowhere(records[state.records].gate));
    }
    match reading.cut {
        Some(at) => Some(Damage::CutShort(at)),
        None => None,
    }
}

/// What is known of what was read of an open file.
fn open_file(alloc: Global, reading: Reading) -> Result<OpenFile, AllocError>
    ensures reported { IfOk result (λ o. IsReported o reading) }
{
    let known = last_known(
        alloc,
        &reading.generation.image,
        &reading.generation.records,
    )?;
    let damage = damage_of(&reading, &known);
    Ok(OpenFile {
        generation: reading.generation.number,
        records: reading.generation.records.len(),
        end: end_of(&reading.generation),
        known,
        damage,
    })
}

/// What an open file holds, if its image is whole.
#[tactic(auto, using(crate::proofs::ReportLaws::open_is))]
pub(crate) fn open_file_of(alloc: Global, file: &[u8]) -> Result<Option<OpenFile>, AllocError>
    ensures open { IfOk result (λ found. IfSome found (λ o. IsOpenFile o file.now)) }
{
    match read_open(alloc, file) {
        Ok(reading) => Ok(Some(open_file(alloc, reading)?)),
        Err(FileFault::NoMemory) => Err(AllocError),
        Err(FileFault::Closed | FileFault::Damaged(_)) => Ok(None),
    }
}

/// What a closed file would hold if its first gate were open.
fn closed_file(alloc: Global, file: &[u8]) -> Result<FileReport, AllocError>
    requires closed { IsClosed file.now }
    ensures report { IfOk result (λ r. IsReport r file.now) }
{
    if marked_behind(file).is_none() {
        return Ok(FileReport::Closed { behind: None });
    }
    let opened = reopened(alloc, file, 0)?;
    Ok(FileReport::Closed {
        behind: open_file_of(alloc, &opened)?,
    })
}

/// What a file holds.
#[tactic(auto, using(crate::proofs::ReportLaws::open_report))]
pub fn report_of(alloc: Global, file: &[u8]) -> Result<FileReport, AllocError>
    ensures report { IfOk result (λ r. IsReport r file.now) }
{
    match header_of(file) {
        Header::Closed => closed_file(alloc, file),
        Header::Unmarked => Ok(FileReport::Unmarked),
        Header::Marked(generation) => match open_file_of(alloc, file)? {
            Some(open) => Ok(FileReport::Open(open)),
            None => Ok(FileReport::NoImage(generation)),
        },
    }
}
