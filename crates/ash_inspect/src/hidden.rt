//! What lies behind the gate after the last record.

use crate::reading::reopened;
use crate::report::{OpenFile, open_file_of};
use std::alloc::{AllocError, Global};

/// Whole records behind a gate that is not open, which lead on from the last state.
#[derive(Clone, Copy, Debug, PartialEq, Eq)]
pub struct Hidden {
    /// The offset of the gate.
    pub at: usize,
    /// What it holds in place of 1.
    pub gate: u8,
    pub records: usize,
    /// How many requests were answered by the last of them.
    pub answers: u64,
}

/// How many requests were answered by the last state that is known.
pub fn answers_of(open: &OpenFile) -> u64 {
    match &open.known {
        Some(known) => known.stored.state.seq,
        None => 0,
    }
}

/// How many of its records lead to the last state that is known.
fn leading(open: &OpenFile) -> usize {
    match &open.known {
        Some(known) => known.records,
        None => 0,
    }
}

/// Whole records behind the gate after the last record of a file that is not damaged, if they lead on to more answers.
pub fn hidden_in(
    alloc: Global,
    file: &[u8],
    open: &OpenFile,
) -> Result<Option<Hidden>, AllocError> {
    let Some(gate) = file.get(open.end) else {
        return Ok(None);
    };
    let opened = reopened(alloc, file, open.end)?;
    let Some(further) = open_file_of(alloc, &opened)? else {
        return Ok(None);
    };
    let records = leading(&further).saturating_sub(open.records);
    let answers = answers_of(&further);
    if records == 0 || answers <= answers_of(open) {
        return Ok(None);
    }
    Ok(Some(Hidden {
        at: open.end,
        gate: *gate,
        records,
        answers,
    }))
}
