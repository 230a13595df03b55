//! Rows: what is asked of a host with what the program registers and hands over, and what is replied, byte for byte.

use crate::checks::check_text;
use crate::hosts::{Disks, begun_registered, crashed_disks, disks_with, replies_of};
use ash_host::{Counter, HostObject, Tally};
use ash_store_fixtures::hosts::Boxes;
use ash_store_fixtures::lives::Start;
use std::alloc::{AllocError, Global};
use std::process::Abort;
use std::test::Fail;

/// What is asked of a new host, with so many ticks for each request. After each part its process crashes, and the store
/// is opened again. A part has the lines of its requests, and below each request its reply, after an arrow.
pub struct Row {
    pub what: &'static str,
    pub budget: u64,
    pub parts: &'static [&'static str],
}

/// What a line with a reply begins with.
const ARROW: &str = "-> ";

/// The bytes of the requests of a part.
fn requests_of(alloc: Global, part: &str) -> Result<Vec<u8>, AllocError> {
    let mut requests = Vec::new(alloc);
    for line in part.lines() {
        if !line.starts_with(ARROW) {
            requests.extend_from_slice(line.as_bytes())?;
            requests.push(b'\n')?;
        }
    }
    Ok(requests)
}

/// Compares the reply to a request of a row.
fn check_reply(
    rt: &impl Abort,
    alloc: Global,
    what: (&str, &str),
    found: &str,
    wanted: &str,
) -> Result<(), AllocError> {
    let (row, request) = what;
    let what = format!(in alloc; "{row}, {request}")?;
    check_text(rt, found, wanted, what.as_str());
    Ok(())
}

/// Compares the replies to the requests of a part.
fn check_replies(
    rt: &impl Abort,
    alloc: Global,
    what: &str,
    part: &str,
    replies: &str,
) -> Result<(), AllocError> {
    let mut found = replies.lines();
    let mut request = String::new(alloc);
    for line in part.lines() {
        match line.strip_prefix(ARROW) {
            Some(wanted) => {
                let found = found.next().unwrap_or("no reply");
                check_reply(rt, alloc, (what, request.as_str()), found, wanted)?;
                request.clear();
            }
            None => {
                request.push_str(line)?;
                request.push_str("\n")?;
            }
        }
    }
    check_text(rt, found.next().unwrap_or(""), "", what);
    Ok(())
}

/// The disks of a store, and whether it is made on them or opened.
type Found = (Disks, Start);

/// What a host with these boxes replies to requests, and what a crash leaves of its disks then.
fn replies_with<B: HostObject>(
    alloc: Global,
    found: Found,
    boxes: Boxes<B>,
    budget: u64,
    requests: &[u8],
) -> Result<(String, Disks), Fail> {
    let (disks, start) = found;
    let mut host = begun_registered(alloc, disks, start, boxes)?;
    let replies = replies_of(alloc, &mut host, budget, requests)?;
    Ok((replies, crashed_disks(alloc, host)?))
}

/// The same of a host with so many free counters, and a tally.
fn replies_with_counters(
    alloc: Global,
    found: Found,
    counters: usize,
    budget: u64,
    requests: &[u8],
) -> Result<(String, Disks), Fail> {
    let mut pool: Vec<Box<dyn HostObject>> = Vec::new(alloc);
    for _ in 0..counters {
        pool.push(Box::new(alloc, Counter::new())?)?;
    }
    let mut services: Vec<Box<dyn HostObject>> = Vec::new(alloc);
    services.push(Box::new(alloc, Tally::new())?)?;
    replies_with(alloc, found, Boxes { pool, services }, budget, requests)
}

/// Compares what is replied to the requests of a part. What is found after the crash.
fn check_part(
    rt: &impl Abort,
    alloc: Global,
    row: &Row,
    counters: usize,
    found: Found,
    part: &str,
) -> Result<Found, Fail> {
    let requests = requests_of(alloc, part)?;
    let (replies, disks) = replies_with_counters(alloc, found, counters, row.budget, &requests)?;
    check_replies(rt, alloc, row.what, part, &replies)?;
    Ok((disks, Start::Open))
}

/// Compares what is replied in each part of a row.
fn check_row(rt: &impl Abort, alloc: Global, counters: usize, row: &Row) -> Result<(), Fail> {
    let mut found = (disks_with(alloc, &[], &[])?, Start::Make);
    for part in row.parts {
        found = check_part(rt, alloc, row, counters, found, part)?;
    }
    Ok(())
}

/// Compares what is replied in each part of each row, where so many counters are free in each.
pub fn check_rows_with(
    rt: &impl Abort,
    alloc: Global,
    counters: usize,
    rows: &[Row],
) -> Result<(), Fail> {
    for row in rows {
        check_row(rt, alloc, counters, row)?;
    }
    Ok(())
}

/// The same without free counters.
pub fn check_rows(rt: &impl Abort, alloc: Global, rows: &[Row]) -> Result<(), Fail> {
    check_rows_with(rt, alloc, 0, rows)
}
