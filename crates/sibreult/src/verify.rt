//! The command `verify`.

use crate::ending::Ending;
use ash_inspect::{inspect, read_store};
use ash_store_texts::{Condition, verify_text};
use std::fs::{File, Files};

/// Looks for damage in the store in a folder, and prints what is found. It only reads, and takes no lock.
pub fn verify<R: Files<File = File> + AllocGlobal + Print + Eprint>(
    rt: &R,
    folder: &str,
) -> anyhow::Result<Ending> {
    let alloc = rt.alloc();
    let files = match read_store(rt, alloc, folder) {
        Ok(files) => files,
        Err(fault) => {
            eprintln!(rt; "sibreult: {folder}: {fault}")?;
            return Ok(Ending::Impossible);
        }
    };
    let report = inspect(alloc, &files.first, &files.second)?;
    let verdict = verify_text(alloc, folder, &report, files.missing)?;
    let text = &verdict.text;
    print!(rt; "{text}")?;
    match verdict.condition {
        Condition::Sound => Ok(Ending::Done),
        Condition::Damaged => Ok(Ending::AtFault),
        Condition::Empty => Ok(Ending::Impossible),
    }
}
