//! How fast a source is cut into tokens: `ash_bench lex`.

use crate::rates::Timing;
use crate::sources::series;
use anyhow::Result;
use ash_lex::{MAX_SOURCE_BYTES, lex};
use std::alloc::Global;
use std::io;

/// How many tokens a source has.
fn count(alloc: Global, text: &str) -> Result<usize> {
    Ok(lex(alloc, text)?.len())
}

/// Cuts a source so many times, and prints how fast that was.
fn measure(rt: &HostRuntime, text: &str, rounds: u64) -> Result<()> {
    let mut timing = Timing::zero();
    timing.measure(rt, rounds, || {
        count(rt.alloc(), text)?;
        Ok(())
    })?;
    let speed = timing.per_second(text.len() as u64);
    println!(rt; "{speed} bytes per second")?;
    Ok(())
}

/// Cuts a source of 64 KiB.
pub fn run(rt: &HostRuntime, rounds: Option<u64>) -> Result<()> {
    let text = series(rt.alloc(), MAX_SOURCE_BYTES)?;
    let text = text.as_str();
    let tokens = count(rt.alloc(), text)?;
    println!(rt; "{} bytes, {tokens} tokens", text.len())?;
    match rounds {
        Some(rounds) => measure(rt, text, rounds),
        None => Ok(()),
    }
}
