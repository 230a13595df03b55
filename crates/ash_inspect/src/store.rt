//! What the two files of a store hold.

ghost use Rattle.std.specs.Prelude.{◌≡◌, IfOk};
ghost use Rattle.ash_inspect.specs.Reports.{IsReport, IsCurrentSide};

use crate::header::{Header, header_of};
use crate::hidden::{Hidden, hidden_in};
use crate::known::KnownState;
use crate::report::{FileReport, OpenFile, report_of};
use std::alloc::{AllocError, Global};
use std::fmt;

/// One of the two files of a store.
#[derive(Clone, Copy, Debug, PartialEq, Eq)]
pub enum Side {
    First,
    Second,
}

impl Side {
    /// The other file.
    pub fn other(self) -> Side {
        match self {
            Side::First => Side::Second,
            Side::Second => Side::First,
        }
    }
}

impl fmt::Display for Side {
    fn fmt<W: fmt::Write>(&self, f: &mut fmt::Formatter<W>) -> fmt::Result {
        match self {
            Side::First => f.write_str("ash.a"),
            Side::Second => f.write_str("ash.b"),
        }
    }
}

/// Which file of a store is current.
#[derive(Clone, Copy, Debug, PartialEq, Eq)]
pub enum Current {
    Is(Side),
    /// Both files are closed.
    None,
    /// An open file has no mark, or both have one generation.
    Unclear,
}

/// What the two files of a store hold.
#[derive(Drop)]
pub struct StoreReport {
    pub current: Current,
    pub first: FileReport,
    pub second: FileReport,
    /// The lengths of the files, in bytes.
    pub first_len: usize,
    pub second_len: usize,
    /// What lies behind the last gate of the current file.
    pub hidden: Option<Hidden>,
}

impl StoreReport {
    /// What one of the files holds.
    pub fn file(&self, side: Side) -> &FileReport {
        match side {
            Side::First => &self.first,
            Side::Second => &self.second,
        }
    }

    /// How long one of the files is, in bytes.
    pub fn len(&self, side: Side) -> usize {
        match side {
            Side::First => self.first_len,
            Side::Second => self.second_len,
        }
    }

    /// The last state that is known: of the current file, or of the other if none is known of that.
    pub fn last_known(&self) -> Option<(Side, &OpenFile, &KnownState)> {
        let Current::Is(side) = self.current else {
            return None;
        };
        match known_in(side, self.file(side)) {
            Some(known) => Some(known),
            None => known_in(side.other(), self.file(side.other())),
        }
    }
}

/// The last state that is known of an open file.
fn known_in(side: Side, report: &FileReport) -> Option<(Side, &OpenFile, &KnownState)> {
    match report {
        FileReport::Open(open) => match &open.known {
            Some(known) => Some((side, open, known)),
            None => None,
        },
        _ => None,
    }
}

/// Which file is current: the open one with the greater generation.
#[tactic(auto, using(crate::proofs::ReportLaws::newer_closed, crate::proofs::ReportLaws::newer_older, crate::proofs::ReportLaws::first_lacks, crate::proofs::ReportLaws::second_lacks, crate::proofs::ReportLaws::both_same))]
pub fn current_of(first: &[u8], second: &[u8]) -> Current
    ensures current { IsCurrentSide result first.now second.now }
{
    match (header_of(first), header_of(second)) {
        (Header::Unmarked, _) | (_, Header::Unmarked) => Current::Unclear,
        (Header::Closed, Header::Closed) => Current::None,
        (Header::Marked(_), Header::Closed) => Current::Is(Side::First),
        (Header::Closed, Header::Marked(_)) => Current::Is(Side::Second),
        (Header::Marked(one), Header::Marked(two)) => {
            if one == two {
                Current::Unclear
            } else if one > two {
                Current::Is(Side::First)
            } else {
                Current::Is(Side::Second)
            }
        }
    }
}

/// What lies behind the last gate of a file that is open and not damaged.
fn hidden_behind(
    alloc: Global,
    file: &[u8],
    report: &FileReport,
) -> Result<Option<Hidden>, AllocError> {
    match report {
        FileReport::Open(open) => match open.damage {
            None => hidden_in(alloc, file, open),
            Some(_) => Ok(None),
        },
        _ => Ok(None),
    }
}

/// What the two files of a store hold.
pub fn inspect(alloc: Global, first: &[u8], second: &[u8]) -> Result<StoreReport, AllocError>
    ensures first { IfOk result (λ r. IsReport r.first first.now) }
    ensures second { IfOk result (λ r. IsReport r.second second.now) }
    ensures current { IfOk result (λ r. IsCurrentSide r.current first.now second.now) }
{
    let one = report_of(alloc, first)?;
    let two = report_of(alloc, second)?;
    let current = current_of(first, second);
    let hidden = match current {
        Current::Is(Side::First) => hidden_behind(alloc, first, &one)?,
        Current::Is(Side::Second) => hidden_behind(alloc, second, &two)?,
        Current::None | Current::Unclear => None,
    };
    Ok(StoreReport {
        current,
        first: one,
        second: two,
        first_len: first.len(),
        second_len: second.len(),
        hidden,
    })
}
