//! How much room frames of code take, and how long functions are.
ghost use Rattle.std.specs.Prelude.{◌≡◌, max};
ghost use Rattle.ash_code.specs.Sizes as sizes;

use crate::code::CodeParts;

// The greater of two numbers.
fn greater(one: usize, other: usize) -> usize
    ensures greater { result ≡ max one other }
{
    if one < other { other } else { one }
}

/// The most slots that a frame uses.
pub fn most_slots(code: &CodeParts) -> usize
    ensures most { result ≡ sizes.most_slots code.now }
{
    let mut most = code.init.slots;
    for function in &code.functions {
        most = greater(most, function.slots);
    }
    most
}

/// How many instructions the longest function has.
pub fn longest(code: &CodeParts) -> usize
    ensures longest { result ≡ sizes.longest code.now }
{
    let mut longest = code.init.instructions.len();
    for function in &code.functions {
        longest = greater(longest, function.instructions.len());
    }
    longest
}
