//! What is to be said of a store that was looked over.

use crate::hidden::{Hidden, answers_of};
use crate::report::{Damage, FileReport, OpenFile};
use crate::store::{Current, Side, StoreReport};
use std::alloc::{AllocError, Global};

/// What is to be said of a store.
#[derive(Clone, Copy, Debug, PartialEq, Eq)]
pub enum Finding {
    /// No file holds a generation, also behind its first gate.
    NothingStored,
    /// A file is open, and has no magic and no generation.
    Unmarked(Side),
    /// Both files have one generation.
    SameGeneration,
    /// The image of the current file is cut short, or that of no state.
    NoImage(Side),
    /// The current file has a record that is damaged, after the gate at an offset.
    BadRecord {
        side: Side,
        at: u64,
        is_cut: bool,
    },
    /// Behind the last gate are several records that lead on.
    HiddenRecords(Side, Hidden),
    /// Behind the last gate is one record that leads on.
    UnfinishedRecord(Side, Hidden),
    /// Behind the first gate of a closed file is a newer generation, of more answers or with records.
    HiddenGeneration {
        side: Side,
        generation: u64,
        answers: u64,
    },
    /// Behind the first gate of a closed file is the mark of the generation that is next.
    UnfinishedGeneration {
        side: Side,
        generation: u64,
    },
}

impl Finding {
    /// Whether answers are lost or hidden by it, or the store can't be opened.
    pub fn is_damage(self) -> bool {
        match self {
            Finding::UnfinishedRecord(_, _) | Finding::UnfinishedGeneration { .. } => false,
            Finding::NothingStored
            | Finding::Unmarked(_)
            | Finding::SameGeneration
            | Finding::NoImage(_)
            | Finding::BadRecord { .. }
            | Finding::HiddenRecords(_, _)
            | Finding::HiddenGeneration { .. } => true,
        }
    }
}

/// What is wrong with a file that is current.
fn finding_in(side: Side, report: &FileReport) -> Option<Finding> {
    match report {
        FileReport::Open(open) => match open.damage? {
            Damage::NoImage => Some(Finding::NoImage(side)),
            Damage::CutShort(at) => Some(Finding::BadRecord {
                side,
                at,
                is_cut: true,
            }),
            Damage::LeadsNowhere(at) => Some(Finding::BadRecord {
                side,
                at,
                is_cut: false,
            }),
        },
        FileReport::NoImage(_) => Some(Finding::NoImage(side)),
        FileReport::Unmarked => Some(Finding::Unmarked(side)),
        FileReport::Closed { .. } => None,
    }
}

/// What lies behind the last gate of the current file.
fn hidden_finding(side: Side, hidden: Hidden) -> Finding {
    if hidden.records > 1 {
        Finding::HiddenRecords(side, hidden)
    } else {
        Finding::UnfinishedRecord(side, hidden)
    }
}

/// What lies behind the first gate of a closed file, beside a current one.
fn closed_finding(side: Side, report: &FileReport, current: &OpenFile) -> Option<Finding> {
    let FileReport::Closed {
        behind: Some(behind),
    } = report
    else {
        return None;
    };
    let generation = behind.generation;
    if generation <= current.generation {
        return None;
    }
    let answers = answers_of(behind);
    let is_next = generation - 1 == current.generation;
    if is_next && behind.records == 0 && answers <= answers_of(current) {
        return Some(Finding::UnfinishedGeneration { side, generation });
    }
    Some(Finding::HiddenGeneration {
        side,
        generation,
        answers,
    })
}

/// What lies behind the first gate of a closed file, if both are closed.
fn lone_finding(side: Side, report: &FileReport) -> Option<Finding> {
    match report {
        FileReport::Closed {
            behind: Some(behind),
        } => Some(Finding::HiddenGeneration {
            side,
            generation: behind.generation,
            answers: answers_of(behind),
        }),
        _ => None,
    }
}

/// Adds a finding, if there is one.
fn add(findings: &mut Vec<Finding>, found: Option<Finding>) -> Result<(), AllocError> {
    match found {
        Some(finding) => Ok(findings.push(finding)?),
        None => Ok(()),
    }
}

/// What is to be said of a store with a current file.
fn add_current(
    findings: &mut Vec<Finding>,
    report: &StoreReport,
    side: Side,
) -> Result<(), AllocError> {
    add(findings, finding_in(side, report.file(side)))?;
    if let Some(hidden) = report.hidden {
        findings.push(hidden_finding(side, hidden))?;
    }
    if let FileReport::Open(open) = report.file(side) {
        add(
            findings,
            closed_finding(side.other(), report.file(side.other()), open),
        )?;
    }
    Ok(())
}

/// What is to be said of a store of which both files are closed.
fn add_closed(findings: &mut Vec<Finding>, report: &StoreReport) -> Result<(), AllocError> {
    add(findings, lone_finding(Side::First, &report.first))?;
    add(findings, lone_finding(Side::Second, &report.second))?;
    if findings.is_empty() {
        findings.push(Finding::NothingStored)?;
    }
    Ok(())
}

/// What is to be said of a store of which it is not clear which file is current.
fn add_unclear(findings: &mut Vec<Finding>, report: &StoreReport) -> Result<(), AllocError> {
    for side in [Side::First, Side::Second] {
        if let FileReport::Unmarked = report.file(side) {
            findings.push(Finding::Unmarked(side))?;
        }
    }
    if findings.is_empty() {
        findings.push(Finding::SameGeneration)?;
    }
    Ok(())
}

/// What is to be said of a store. Nothing, if it is sound and no write was cut short.
pub fn findings(alloc: Global, report: &StoreReport) -> Result<Vec<Finding>, AllocError> {
    let mut found = Vec::new(alloc);
    match report.current {
        Current::Is(side) => add_current(&mut found, report, side)?,
        Current::None => add_closed(&mut found, report)?,
        Current::Unclear => add_unclear(&mut found, report)?,
    }
    Ok(found)
}

/// Whether one of the findings is damage.
pub fn any_is_damage(found: &[Finding]) -> bool {
    found.iter().any(|finding| finding.is_damage())
}

/// Whether a store is damaged.
pub fn is_damaged(alloc: Global, report: &StoreReport) -> Result<bool, AllocError> {
    let found = findings(alloc, report)?;
    Ok(any_is_damage(&found))
}
