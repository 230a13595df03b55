//! What the files of a store hold, a line for each.

use crate::wording::counted;
use ash_image::version::Version;
use ash_inspect::{Current, FileReport, OpenFile, Side, StoreReport, answers_of};
use std::alloc::{AllocError, Global};

fn version_number(version: Version) -> u8 {
    match version {
        Version::One => 1,
        Version::Two => 2,
    }
}

/// How many of a file's records lead to the state that is known, if not all do.
fn push_records(
    alloc: Global,
    text: &mut String,
    open: &OpenFile,
    leading: usize,
) -> Result<(), AllocError> {
    let records = counted(alloc, open.records as u64, "record")?;
    if leading < open.records {
        write!(text, "{leading} of {records}")?;
    } else {
        text.push_str(&records)?;
    }
    Ok(())
}

/// The first line: which state is the last that is known, and where it is.
pub(crate) fn push_head(
    alloc: Global,
    text: &mut String,
    name: &str,
    report: &StoreReport,
) -> Result<(), AllocError> {
    let Some((side, open, known)) = report.last_known() else {
        writeln!(text, "{name}: no state can be read")?;
        return Ok(());
    };
    let generation = open.generation;
    write!(text, "{name}: generation {generation} in {side}, ")?;
    push_records(alloc, text, open, known.records)?;
    let bytes = counted(alloc, report.len(side) as u64, "byte")?;
    let answers = counted(alloc, known.stored.state.seq, "answer")?;
    let version = version_number(known.stored.version);
    writeln!(text, ", {bytes}; {answers}; store version {version}")?;
    Ok(())
}

/// What an open file is to the store.
fn role_of(current: Current, side: Side) -> &'static str {
    match current {
        Current::Is(of) if of == side => "current",
        Current::Is(_) => "older, and not read",
        Current::None | Current::Unclear => "open",
    }
}

/// What an open file holds.
fn push_open(
    alloc: Global,
    text: &mut String,
    open: &OpenFile,
    role: &str,
) -> Result<(), AllocError> {
    let generation = open.generation;
    let answers = counted(alloc, answers_of(open), "answer")?;
    let records = counted(alloc, open.records as u64, "record")?;
    let ending = if open.damage.is_some() {
        ", damaged"
    } else {
        ""
    };
    write!(
        text,
        "generation {generation}, {role}, {records}, {answers}{ending}"
    )?;
    Ok(())
}

/// What a closed file holds.
fn push_closed(
    alloc: Global,
    text: &mut String,
    behind: &Option<OpenFile>,
) -> Result<(), AllocError> {
    match behind {
        Some(open) => {
            let generation = open.generation;
            let answers = counted(alloc, answers_of(open), "answer")?;
            write!(
                text,
                "closed; behind its first byte is generation {generation}, {answers}"
            )?;
        }
        None => text.push_str("closed")?,
    }
    Ok(())
}

fn push_report(
    alloc: Global,
    text: &mut String,
    report: &FileReport,
    role: &str,
) -> Result<(), AllocError> {
    match report {
        FileReport::Closed { behind } => push_closed(alloc, text, behind),
        FileReport::Unmarked => text.push_str("open, and not a file of a store"),
        FileReport::NoImage(generation) => {
            write!(text, "generation {generation}, its image is cut short")?;
            Ok(())
        }
        FileReport::Open(open) => push_open(alloc, text, open, role),
    }
}

/// The line of one file.
fn push_file(
    alloc: Global,
    text: &mut String,
    report: &StoreReport,
    side: Side,
) -> Result<(), AllocError> {
    write!(text, "  {side}: ")?;
    push_report(
        alloc,
        text,
        report.file(side),
        role_of(report.current, side),
    )?;
    let bytes = counted(alloc, report.len(side) as u64, "byte")?;
    writeln!(text, ", {bytes}")?;
    Ok(())
}

/// A line for each file.
pub(crate) fn push_files(
    alloc: Global,
    text: &mut String,
    report: &StoreReport,
) -> Result<(), AllocError> {
    push_file(alloc, text, report, Side::First)?;
    push_file(alloc, text, report, Side::Second)
}
