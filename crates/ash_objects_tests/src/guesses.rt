//! Objects whose numbers have the same last bits, by which a slot is guessed.

use crate::checks::expect_all;
use crate::steps::{Memory, Sequence, TableStep, first_unmet};
use ash_host::Word;
use ash_objects::ElementTag;

static SAME_BITS: Sequence<'static> = Sequence {
    pool: &[],
    steps: &[
        TableStep::MakeArray(ElementTag::Int, 1, Ok(1)),
        TableStep::SetElement(1, 0, Word::Int(7), Ok(())),
        TableStep::Hold(1),
        // The numbers up to 4,096 go again, so that the next is as far from the first as there are guesses.
        TableStep::MakeEach(4095),
        TableStep::Sweep,
        TableStep::IsGone(4096),
        TableStep::MakeArray(ElementTag::Int, 2, Ok(4097)),
        TableStep::SetElement(4097, 0, Word::Int(8), Ok(())),
        // Its slot is guessed for the first number too.
        TableStep::IsIn(4097, 1),
        TableStep::IsIn(1, 0),
        TableStep::HasNumber(1, 0, 7),
        TableStep::HasNumber(4097, 0, 8),
        TableStep::Hold(4097),
        TableStep::HasCount(4097, 1),
        TableStep::HasCount(1, 1),
        // Each is remembered in place of the other.
        TableStep::Finds(1, 0),
        TableStep::IsIn(4097, 1),
        TableStep::Hold(1),
        TableStep::HasCount(1, 2),
        TableStep::HasCount(4097, 1),
        TableStep::Finds(4097, 1),
        TableStep::HasWords(1, 1),
        TableStep::HasWords(4097, 2),
        TableStep::Hold(4097),
        TableStep::HasCount(4097, 2),
        TableStep::HasNumber(1, 0, 7),
        TableStep::HasNumber(4097, 0, 8),
        // No number that is gone, or was never given, is found where one with the same bits is.
        TableStep::IsGone(8193),
    ],
    events: &[],
    given_up: &[],
    with_the_table: &[],
};

#[test]
fn numbers_with_the_same_bits_are_told_apart(rt: HostRuntime) {
    expect_all(&rt, first_unmet(rt.alloc(), &SAME_BITS, Memory::Ample));
}
