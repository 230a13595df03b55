//! How fast sources are cut into tokens and parsed: `ash_bench parse`.
//!
//! The sources have 16, 32 and 64 KiB: where twice the source takes twice the time, the parser takes linear time.

use crate::rates::Timing;
use crate::sources::{LENGTHS, series};
use anyhow::Result;
use ash_lex::lex;
use ash_parse::parse_module;
use std::alloc::Global;
use std::io;

/// How many tokens and items a source has.
pub fn count(alloc: Global, text: &str) -> Result<(usize, usize)> {
    let tokens = lex(alloc, text)?;
    let tree = parse_module(alloc, tokens.as_slice())?;
    Ok((tokens.len(), tree.items.len()))
}

/// Parses a source so many times, and prints how long it took.
fn measure(rt: &HostRuntime, text: &str, rounds: u64) -> Result<()> {
    let mut timing = Timing::zero();
    timing.measure(rt, rounds, || {
        count(rt.alloc(), text)?;
        Ok(())
    })?;
    let (one, speed) = (timing.microseconds(), timing.per_second(text.len() as u64));
    println!(rt; "{one} microseconds each, {speed} bytes per second")?;
    Ok(())
}

/// Parses sources of three lengths.
pub fn run(rt: &HostRuntime, rounds: Option<u64>) -> Result<()> {
    for bytes in LENGTHS {
        let text = series(rt.alloc(), bytes)?;
        let (tokens, items) = count(rt.alloc(), text.as_str())?;
        println!(rt; "{} bytes, {tokens} tokens, {items} items", text.len())?;
        if let Some(rounds) = rounds {
            measure(rt, text.as_str(), rounds)?;
        }
    }
    Ok(())
}
