//! Arrays that grow and shrink, and the counts of what they hold.

use crate::checks::expect_all;
use crate::steps::{HANDLES, Memory, Sequence, TableStep, first_unmet};
use ash_host::Word;
use ash_objects::{ElementTag, IndexOutOfBounds, LengthFault, MAX_ELEMENTS, MakeFault};

const ONE: Word = Word::Object(1);

static COUNTED: Sequence<'static> = Sequence {
    pool: &[],
    steps: &[
        TableStep::Make(0, Ok(1)),
        TableStep::MakeArray(HANDLES, 0, Ok(2)),
        TableStep::Remove(2, Err(IndexOutOfBounds)),
        TableStep::HasWords(2, 0),
        TableStep::HasCount(1, 0),
        TableStep::Insert(2, ONE, Ok(())),
        TableStep::HasWords(2, 1),
        TableStep::HasCount(1, 1),
        TableStep::Insert(2, ONE, Ok(())),
        TableStep::HasWords(2, 2),
        TableStep::HasCount(1, 2),
        TableStep::Resize(2, MAX_ELEMENTS, Ok(())),
        TableStep::HasWords(2, 4096),
        TableStep::HasCount(1, 2),
        TableStep::Insert(2, ONE, Err(LengthFault::TooLong)),
        TableStep::HasWords(2, 4096),
        TableStep::HasCount(1, 2),
        TableStep::Resize(2, MAX_ELEMENTS + 1, Err(LengthFault::TooLong)),
        TableStep::HasWords(2, 4096),
        TableStep::HasCount(1, 2),
        TableStep::Remove(2, Ok(())),
        TableStep::HasWords(2, 4095),
        TableStep::HasCount(1, 2),
        TableStep::Resize(2, 1, Ok(())),
        TableStep::HasWords(2, 1),
        TableStep::HasCount(1, 1),
        TableStep::Remove(2, Ok(())),
        TableStep::HasWords(2, 0),
        TableStep::HasCount(1, 0),
    ],
    events: &[],
    given_up: &[],
    with_the_table: &[],
};

#[test]
fn an_array_counts_what_it_holds(rt: HostRuntime) {
    expect_all(&rt, first_unmet(rt.alloc(), &COUNTED, Memory::Ample));
}

static LONGEST: Sequence<'static> = Sequence {
    pool: &[],
    steps: &[
        TableStep::MakeArray(
            ElementTag::Int,
            MAX_ELEMENTS + 1,
            Err(MakeFault::ArrayLimit),
        ),
        TableStep::MakeArray(ElementTag::Int, MAX_ELEMENTS, Ok(1)),
        TableStep::HasWords(1, MAX_ELEMENTS),
        TableStep::Sweep,
        TableStep::IsGone(1),
    ],
    events: &[],
    given_up: &[],
    with_the_table: &[],
};

#[test]
fn an_array_is_no_longer_than_it_may_be(rt: HostRuntime) {
    expect_all(&rt, first_unmet(rt.alloc(), &LONGEST, Memory::Ample));
}

static INDEXED: Sequence<'static> = Sequence {
    pool: &[],
    steps: &[
        TableStep::MakeArray(ElementTag::Int, 2, Ok(1)),
        TableStep::SetElement(1, 1, Word::Int(7), Ok(())),
        TableStep::SetElement(1, 2, Word::Int(8), Err(IndexOutOfBounds)),
        TableStep::HasNumber(1, 0, 0),
        TableStep::HasNumber(1, 1, 7),
        TableStep::HasNothing(1, 2),
    ],
    events: &[],
    given_up: &[],
    with_the_table: &[],
};

#[test]
fn an_index_is_below_the_length(rt: HostRuntime) {
    expect_all(&rt, first_unmet(rt.alloc(), &INDEXED, Memory::Ample));
}
