//! The command `show`.

use crate::ending::Ending;
use ash_inspect::{StoreFiles, StoreReport, inspect, is_damaged, read_store};
use ash_store_texts::{show_json, show_text};
use std::alloc::Global;
use std::fs::{File, Files};

/// Prints what the store in a folder holds, as text or as JSON. It only reads, and takes no lock.
pub fn show<R: Files<File = File> + AllocGlobal + Print + Eprint>(
    rt: &R,
    folder: &str,
    json: bool,
) -> anyhow::Result<Ending> {
    let alloc = rt.alloc();
    let files = match read_store(rt, alloc, folder) {
        Ok(files) => files,
        Err(fault) => {
            eprintln!(rt; "sibreult: {folder}: {fault}")?;
            return Ok(Ending::Impossible);
        }
    };
    let report = inspect(alloc, &files.first, &files.second)?;
    let text = text_of(alloc, folder, &report, json)?;
    print!(rt; "{text}")?;
    end(rt, folder, &files, &report)
}

/// What is printed of a store.
fn text_of(
    alloc: Global,
    folder: &str,
    report: &StoreReport,
    json: bool,
) -> anyhow::Result<String> {
    if json {
        Ok(show_json(alloc, report)?)
    } else {
        Ok(show_text(alloc, folder, report)?)
    }
}

/// How the command ends. A damaged store is one at fault.
fn end<R: AllocGlobal + Eprint>(
    rt: &R,
    folder: &str,
    files: &StoreFiles,
    report: &StoreReport,
) -> anyhow::Result<Ending> {
    if files.missing.is_none() && !is_damaged(rt.alloc(), report)? {
        return Ok(Ending::Done);
    }
    eprintln!(rt;
        "sibreult: {folder}: the store is damaged; `sibreult verify {folder}` prints where"
    )?;
    Ok(Ending::AtFault)
}
