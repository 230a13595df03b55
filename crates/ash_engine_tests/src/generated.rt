//! Sessions that are made by seeds: scripts, and what is asked of them.

use crate::scripts::script_of;
use crate::seeds::Seed;
use crate::sessions::{Ask, Counts, Host, NONE, play};
use ash_machine_fixtures::boxes::Pool;
use std::alloc::{AllocError, Global};
use std::process::Abort;
use std::test::Fail;

const HOST: Host = Host {
    pool: Pool {
        counters: 9,
        buffers: 2,
        odds: 2,
    },
    last: 0,
};

/// What is asked. `#` is a number, `@` a script.
static LINES: [&str; 30] = [
    "call m f #",
    "call m f #",
    "call m f #",
    "call m r #",
    "call m r #",
    "call m z #",
    "call m z #",
    "call m y # true",
    "call m y # false",
    "call k f #",
    "call k r #",
    "call k z #",
    "get m n",
    "get m g",
    "get m p",
    "get k w",
    "get m none",
    "object #",
    "object #",
    "object #",
    "seq",
    "snapshot",
    "open",
    "discard m",
    "load m @",
    "load k @",
    "load k @",
    "discard k",
    "call m two 1",
    "call m f",
];

/// The numbers that calls are handed, and of the objects that are looked at.
static NUMBERS: [&str; 12] = [
    "0",
    "1",
    "2",
    "3",
    "4",
    "5",
    "6",
    "7",
    "8",
    "-3",
    "100",
    "2147483647",
];

/// A line, with a number and a script in their places.
fn line_of(alloc: Global, seed: &mut Seed, pattern: &str) -> Result<String, AllocError> {
    let mut out = String::new(alloc);
    for letter in pattern.chars() {
        match letter {
            '#' => out.push_str(seed.pick(&NUMBERS))?,
            '@' => out.push_str(&script_of(alloc, seed)?)?,
            _ => out.push(letter)?,
        }
    }
    Ok(out)
}

/// How many ticks a request has: most often enough.
fn budget_of(seed: &mut Seed) -> u64 {
    match seed.below(5) {
        0 => seed.below(70),
        _ => 300,
    }
}

fn ask_of(alloc: Global, seed: &mut Seed, pattern: &str) -> Result<Ask, AllocError> {
    Ok(Ask {
        line: line_of(alloc, seed, pattern)?,
        budget: budget_of(seed),
    })
}

/// What is asked in the session of a seed: a load, requests, and discards at the end.
fn session_of(alloc: Global, number: u64) -> Result<Vec<Ask>, AllocError> {
    let mut seed = Seed::new(number);
    let mut asks = Vec::new(alloc);
    asks.push(Ask {
        line: line_of(alloc, &mut seed, "load m @")?,
        budget: 1000,
    })?;
    for _ in 0..12 {
        let pattern = seed.pick(&LINES);
        asks.push(ask_of(alloc, &mut seed, pattern)?)?;
    }
    for pattern in [
        "open",
        "object 1",
        "discard m",
        "discard k",
        "object 1",
        "seq",
    ] {
        asks.push(ask_of(alloc, &mut seed, pattern)?)?;
    }
    Ok(asks)
}

/// How many sessions a test plays.
const MANY: u64 = 125;

/// Plays the session of a seed, and fails at the first request of which both don't say the same.
fn check_seed(rt: &impl Abort, alloc: Global, number: u64, counts: Counts) -> Result<Counts, Fail> {
    let asks = session_of(alloc, number)?;
    let played = play(alloc, HOST, &asks, counts)?;
    if let Some(fault) = &played.fault {
        panic!(rt; "the session of {number}: {fault}");
    }
    Ok(played.counts)
}

/// Whether sessions have enough of each sort of end, and most loads of as many scripts come to their end.
fn are_rich(counts: Counts) -> bool {
    counts.loads > MANY / 2
        && counts.finished > MANY
        && counts.raised > MANY / 5
        && counts.aborted > MANY / 20
        && counts.dropped > MANY / 2
        && counts.opened > MANY
}

/// Plays the sessions of as many seeds, from this one on.
fn check_sessions(rt: &impl Abort, alloc: Global, from: u64) -> Result<(), Fail> {
    let mut counts = NONE;
    for place in 0..MANY {
        counts = check_seed(rt, alloc, from.saturating_add(place), counts)?;
    }
    if !are_rich(counts) {
        panic!(rt; "the sessions from {from} on have too little of some sort: {counts:?}");
    }
    Ok(())
}

#[test]
fn sessions_from_0(rt: HostRuntime) -> Result<(), Fail> {
    check_sessions(&rt, rt.alloc(), 0)
}

#[test]
fn sessions_from_125(rt: HostRuntime) -> Result<(), Fail> {
    check_sessions(&rt, rt.alloc(), 125)
}

#[test]
fn sessions_from_250(rt: HostRuntime) -> Result<(), Fail> {
    check_sessions(&rt, rt.alloc(), 250)
}

#[test]
fn sessions_from_375(rt: HostRuntime) -> Result<(), Fail> {
    check_sessions(&rt, rt.alloc(), 375)
}

#[test]
fn sessions_from_500(rt: HostRuntime) -> Result<(), Fail> {
    check_sessions(&rt, rt.alloc(), 500)
}

#[test]
fn sessions_from_625(rt: HostRuntime) -> Result<(), Fail> {
    check_sessions(&rt, rt.alloc(), 625)
}

#[test]
fn sessions_from_750(rt: HostRuntime) -> Result<(), Fail> {
    check_sessions(&rt, rt.alloc(), 750)
}

#[test]
fn sessions_from_875(rt: HostRuntime) -> Result<(), Fail> {
    check_sessions(&rt, rt.alloc(), 875)
}
