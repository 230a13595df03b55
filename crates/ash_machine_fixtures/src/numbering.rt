//! The numbers that boxes got, each after the name of the box.

use ash_host::{Event, HostAnswer, Target};
use ash_plain_data::host_call::{HostCall, HostRecord};
use std::alloc::{AllocError, Global};
use std::collections::VecDeque;

/// Gives the boxes that were started their numbers: those of the objects that were drawn, in order.
pub fn number_boxes(
    numbers: &mut Vec<(u64, u64)>,
    records: &VecDeque<HostRecord>,
    events: &[Event],
) -> Result<(), AllocError> {
    let mut drawn = events
        .iter()
        .filter(|event| matches!(event, Event::Drew(_)));
    for record in records {
        if let (HostCall::Start { .. }, Target::Object(name)) = (&record.call, record.target) {
            if let Some(Event::Drew(number)) = drawn.next() {
                numbers.push((name, *number))?;
            }
        }
    }
    Ok(())
}

/// The number of a box.
pub fn number_of(numbers: &[(u64, u64)], name: u64) -> u64 {
    match numbers.iter().find(|pair| pair.0 == name) {
        Some((_, number)) => *number,
        None => 0,
    }
}

/// A record with the number of its object in place of the name of its box.
fn with_number(record: HostRecord, numbers: &[(u64, u64)]) -> HostRecord {
    let target = match record.target {
        Target::Object(name) => Target::Object(number_of(numbers, name)),
        Target::Service(place) => Target::Service(place),
    };
    HostRecord { target, ..record }
}

/// The records with the numbers of the objects in place of the names of boxes.
pub fn with_numbers(
    alloc: Global,
    records: VecDeque<HostRecord>,
    numbers: &[(u64, u64)],
) -> Result<VecDeque<HostRecord>, AllocError> {
    let mut numbered = VecDeque::new(alloc);
    for found in records {
        numbered.push_back(with_number(found, numbers))?;
    }
    Ok(numbered)
}

/// The numbers of boxes with these names.
pub fn numbers_of(
    alloc: Global,
    names: &[u64],
    numbers: &[(u64, u64)],
) -> Result<Vec<u64>, AllocError> {
    let mut all = Vec::new(alloc);
    for name in names {
        all.push(number_of(numbers, *name))?;
    }
    Ok(all)
}

/// Whether a box had no memory.
pub fn starved(records: &VecDeque<HostRecord>) -> bool {
    records
        .iter()
        .any(|record| matches!(record.answer, HostAnswer::NoMemory))
}
