//! How many records a journal on real files takes, beside the same writes and syncs with no journal:
//! `ash_bench journal FOLDER`.

use crate::rates::Timing;
use anyhow::Result;
use ash_disk::{DeviceFailed, Disk, FileDisk, write_durably};
use ash_journal::{AppendError, CreateFault, Journal, RECORD_BYTES_LIMIT};
use std::alloc::Global;
use std::io;

const BODY: [u8; 64] = [7; 64];

/// How many bytes a record takes, with its gate.
const RECORD: usize = 1 + 4 + BODY.len();

/// How many records a round has.
const RECORDS: u64 = 10;

/// The file with this name in a folder.
fn file(rt: &HostRuntime, folder: &str, name: &str) -> Result<FileDisk> {
    let path = format!(in rt.alloc(); "{folder}/{name}")?;
    Ok(FileDisk::open_or_make(rt, path.as_str())?)
}

fn create<D: Disk + Drop>(alloc: Global, first: D, second: D) -> Result<Journal<D>, CreateFault> {
    match Journal::create(alloc, first, second, b"image") {
        Ok(journal) => Ok(journal),
        Err(refused) => Err(refused.fault),
    }
}

fn append_round<D: Disk>(journal: &mut Journal<D>) -> Result<(), AppendError> {
    for _ in 0..RECORDS {
        if journal.is_ready() && journal.record_bytes() < RECORD_BYTES_LIMIT {
            journal.append(&BODY)?;
        }
    }
    Ok(())
}

/// The device calls that a round's records cost, after those of so many rounds before.
fn bare_round(disk: &mut FileDisk, rounds: u64) -> Result<(), DeviceFailed> {
    let bytes = [7; RECORD];
    let start = rounds.wrapping_mul(RECORDS.wrapping_mul(RECORD as u64));
    for record in 0..RECORDS {
        let gate = start.wrapping_add(record.wrapping_mul(RECORD as u64));
        write_durably(disk, gate.wrapping_add(1), &bytes)?;
        write_durably(disk, gate, &[1])?;
    }
    Ok(())
}

/// Appends rounds to a journal, each in turn with the bare writes and syncs of one.
fn measure(
    rt: &HostRuntime,
    journal: &mut Journal<FileDisk>,
    bare: &mut FileDisk,
    rounds: u64,
) -> Result<()> {
    let (mut with_journal, mut without) = (Timing::zero(), Timing::zero());
    for round in 0..rounds {
        with_journal.measure(rt, 1, || Ok(append_round(journal)?))?;
        without.measure(rt, 1, || Ok(bare_round(bare, round)?))?;
    }
    let ours = with_journal.per_second(RECORDS);
    let theirs = without.per_second(RECORDS);
    println!(rt; "{ours} records per second, {theirs} bare")?;
    Ok(())
}

/// A journal on new files of the folder.
fn journal_in(rt: &HostRuntime, folder: &str) -> Result<Journal<FileDisk>> {
    let (first, second) = (file(rt, folder, "ash.a")?, file(rt, folder, "ash.b")?);
    Ok(create(rt.alloc(), first, second)?)
}

/// Appends a round to a journal, and prints how long its records are.
fn append_once(rt: &HostRuntime, journal: &mut Journal<FileDisk>) -> Result<()> {
    append_round(journal)?;
    println!(rt; "{RECORDS} records, {} bytes", journal.record_bytes())?;
    Ok(())
}

/// Writes records to a journal in the folder.
pub fn run(rt: &HostRuntime, folder: &str, rounds: Option<u64>) -> Result<()> {
    let mut journal = journal_in(rt, folder)?;
    match rounds {
        Some(rounds) => measure(rt, &mut journal, &mut file(rt, folder, "bare")?, rounds),
        None => append_once(rt, &mut journal),
    }
}
