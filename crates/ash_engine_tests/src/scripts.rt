//! Scripts that are made by a seed: the holes of a phrase are filled, those of what comes there too, and so on.

use crate::phrases::{SCRIPTS, sort_of};
use crate::seeds::Seed;
use std::alloc::{AllocError, Global};

/// How often holes are filled with phrases that may have holes.
const ROUNDS: u64 = 3;

/// Fills a hole.
fn push_phrase(
    out: &mut String,
    seed: &mut Seed,
    letter: char,
    is_last: bool,
) -> Result<(), AllocError> {
    let sort = sort_of(letter);
    let phrase = match is_last || seed.below(3) == 0 {
        true => seed.pick(sort.plain),
        false => seed.pick(sort.nested),
    };
    out.push_str(phrase)
}

/// Fills each hole of a text.
fn filled(alloc: Global, seed: &mut Seed, text: &str, is_last: bool) -> Result<String, AllocError> {
    let mut out = String::new(alloc);
    let mut is_hole = false;
    for letter in text.chars() {
        if is_hole {
            push_phrase(&mut out, seed, letter, is_last)?;
            is_hole = false;
        } else if letter == '$' {
            is_hole = true;
        } else {
            out.push(letter)?;
        }
    }
    Ok(out)
}

/// A script.
pub fn script_of(alloc: Global, seed: &mut Seed) -> Result<String, AllocError> {
    let mut text = String::from_str(alloc, seed.pick(&SCRIPTS))?;
    for _ in 0..ROUNDS {
        text = filled(alloc, seed, &text, false)?;
    }
    filled(alloc, seed, &text, true)
}
