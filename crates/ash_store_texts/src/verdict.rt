//! What is found when a store is looked over, as sentences.

use crate::files_text::push_files;
use crate::wording::{counted, grouped};
use ash_inspect::{
    FileReport, Finding, Hidden, Side, StoreReport, answers_of, any_is_damage, findings,
};
use std::alloc::{AllocError, Global};
use std::fmt;

/// Whether a store is damaged.
#[derive(Clone, Copy, Debug, PartialEq, Eq)]
pub enum Condition {
    Sound,
    Damaged,
    /// Nothing was ever stored, as far as one can see.
    Empty,
}

impl fmt::Display for Condition {
    fn fmt<W: fmt::Write>(&self, f: &mut fmt::Formatter<W>) -> fmt::Result {
        match self {
            Condition::Sound => f.write_str("sound"),
            Condition::Damaged => f.write_str("damaged"),
            Condition::Empty => f.write_str("no store"),
        }
    }
}

/// What is found when a store is looked over.
#[derive(Debug, Drop)]
pub struct Verdict {
    pub text: String,
    pub condition: Condition,
}

/// Whether a store with these findings is damaged.
fn condition_of(found: &[Finding], missing: Option<Side>) -> Condition {
    if let [Finding::NothingStored] = found {
        return Condition::Empty;
    }
    if missing.is_some() || any_is_damage(found) {
        Condition::Damaged
    } else {
        Condition::Sound
    }
}

/// Records behind the last gate.
fn push_hidden(
    alloc: Global,
    text: &mut String,
    side: Side,
    hidden: Hidden,
) -> Result<(), AllocError> {
    let at = hidden.at;
    let gate = hidden.gate;
    let records = counted(alloc, hidden.records as u64, "whole record")?;
    let answers = grouped(alloc, hidden.answers)?;
    writeln!(
        text,
        "  the gate at byte {at} of {side} is {gate}, and behind it: {records}, up to answer {answers}"
    )?;
    Ok(())
}

/// What is wrong, or was cut short.
fn push_finding(alloc: Global, text: &mut String, finding: Finding) -> Result<(), AllocError> {
    match finding {
        Finding::NothingStored => text.push_str(
            "  nothing was ever stored in these files, or they were cut\n",
        )?,
        Finding::Unmarked(side) => writeln!(
            text,
            "  {side} does not begin as a file of a store: damaged at byte 1"
        )?,
        Finding::SameGeneration => text.push_str(
            "  both files have one generation: one is a copy of the other\n",
        )?,
        Finding::NoImage(side) => writeln!(
            text,
            "  the image in {side} is damaged: no state can be read of it"
        )?,
        Finding::BadRecord {
            side,
            at,
            is_cut: true,
        } => writeln!(
            text,
            "  the record after the gate at byte {at} of {side} is cut short"
        )?,
        Finding::BadRecord {
            side,
            at,
            is_cut: false,
        } => writeln!(
            text,
            "  the record after the gate at byte {at} of {side} leads to no state"
        )?,
        Finding::HiddenRecords(side, hidden) | Finding::UnfinishedRecord(side, hidden) => {
            push_hidden(alloc, text, side, hidden)?;
        }
        Finding::HiddenGeneration {
            side,
            generation,
            answers,
        } => {
            let answers = counted(alloc, answers, "answer")?;
            writeln!(
                text,
                "  {side} is closed by its first byte, and behind it is generation {generation}, {answers}"
            )?;
        }
        Finding::UnfinishedGeneration { side, generation } => {
            writeln!(
                text,
                "  generation {generation} in {side} was not finished, or its first byte is damaged"
            )?;
        }
    }
    Ok(())
}

/// How many answers a file has up to the last state that is known of it.
fn answers_in(report: &StoreReport, side: Side) -> Option<u64> {
    match report.file(side) {
        FileReport::Open(open) => match open.known {
            Some(_) => Some(answers_of(open)),
            None => None,
        },
        _ => None,
    }
}

/// How to go on with the state of a file, by closing a gate.
fn push_closing(
    alloc: Global,
    text: &mut String,
    at: u64,
    side: Side,
    answers: Option<u64>,
) -> Result<(), AllocError> {
    text.push_str("    restore both files from a copy")?;
    if let Some(answers) = answers {
        let answers = counted(alloc, answers, "answer")?;
        write!(
            text,
            "; or keep a copy, and write 0 over byte {at} of {side}: then it opens with {answers}"
        )?;
    }
    text.push_str("\n")
}

/// How to have back what is behind a gate.
fn push_opening(text: &mut String, at: usize, side: Side) -> Result<(), AllocError> {
    writeln!(
        text,
        "    to have that back, keep a copy before another answer, and write 1 over byte {at} of {side}"
    )?;
    Ok(())
}

/// What to do about a finding.
fn push_advice(
    alloc: Global,
    text: &mut String,
    report: &StoreReport,
    finding: Finding,
) -> Result<(), AllocError> {
    match finding {
        Finding::NothingStored => {
            text.push_str(
                "    if a store was here, restore both files from a copy; else remove both to make one\n",
            )
        }
        Finding::SameGeneration => text.push_str("    restore both files from a copy\n"),
        Finding::Unmarked(side) | Finding::NoImage(side) => {
            push_closing(alloc, text, 0, side, answers_in(report, side.other()))
        }
        Finding::BadRecord { side, at, .. } => push_closing(
            alloc,
            text,
            at,
            side,
            answers_in(report, side),
        ),
        Finding::HiddenRecords(side, hidden) => push_opening(text, hidden.at, side),
        Finding::UnfinishedRecord(side, hidden) => {
            text.push_str(
                "    an answer that was in progress; if one that was given is missing, its gate is damaged:\n",
            )?;
            push_opening(text, hidden.at, side)
        }
        Finding::HiddenGeneration { side, .. } => push_opening(text, 0, side),
        Finding::UnfinishedGeneration { .. } => text.push_str(
            "    nothing is to be done: it has no answer more\n",
        ),
    }
}

/// Each finding, and what to do about it.
fn push_findings(
    alloc: Global,
    text: &mut String,
    report: &StoreReport,
    found: &[Finding],
) -> Result<(), AllocError> {
    for finding in found {
        push_finding(alloc, text, *finding)?;
        push_advice(alloc, text, report, *finding)?;
    }
    Ok(())
}

/// A file that is missing, and what to do about it.
fn push_missing(text: &mut String, missing: Option<Side>) -> Result<(), AllocError> {
    if let Some(side) = missing {
        writeln!(
            text,
            "  {side} is missing: the server does not open the store"
        )?;
        let other = side.other();
        writeln!(
            text,
            "    restore both files from a copy; or, if {other} holds the store, make an empty {side}"
        )?;
    }
    Ok(())
}

/// The last state that can be read.
fn push_last_good(
    alloc: Global,
    text: &mut String,
    report: &StoreReport,
) -> Result<(), AllocError> {
    match report.last_known() {
        Some((side, _, known)) => {
            let answers = counted(alloc, known.stored.state.seq, "answer")?;
            writeln!(
                text,
                "  the last good state has {answers}, and is in {side}"
            )?;
            Ok(())
        }
        None => text.push_str("  as the files are, no state can be read\n"),
    }
}

/// What is found when a store is looked over: which file is current, what is damaged and where, the last good state,
/// and what to do. One of the files may be missing; it counts as empty then.
pub fn verify_text(
    alloc: Global,
    name: &str,
    report: &StoreReport,
    missing: Option<Side>,
) -> Result<Verdict, AllocError> {
    let found = findings(alloc, report)?;
    let condition = condition_of(&found, missing);
    let mut text = String::new(alloc);
    writeln!(text, "{name}: {condition}")?;
    push_files(alloc, &mut text, report)?;
    push_missing(&mut text, missing)?;
    push_findings(alloc, &mut text, report, &found)?;
    if condition == Condition::Damaged {
        push_last_good(alloc, &mut text, report)?;
    }
    Ok(Verdict { text, condition })
}
