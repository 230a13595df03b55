//! What is named as made, changed or taken away.

use crate::checks::expect_all;
use crate::steps::{Memory, Sequence, TableStep, first_unmet};
use ash_host::{Event, Target, Word};

static CHANGED: Sequence<'static> = Sequence {
    pool: &[11, 12],
    steps: &[
        TableStep::Make(1, Ok(1)),
        TableStep::Make(1, Ok(2)),
        TableStep::Draw(1, 1, Ok(3)),
        TableStep::SetField(1, 0, Word::Object(3)),
        TableStep::Hold(1),
        TableStep::Touched(&[1, 2, 3], &[]),
        // Only what a call changed, or a sweep took; what was made and went is not named.
        TableStep::Add(3, 1, 2),
        TableStep::Draw(1, 1, Ok(4)),
        TableStep::Sweep,
        TableStep::Touched(&[3], &[2]),
        TableStep::Touched(&[], &[]),
    ],
    events: &[
        Event::Drew(3),
        Event::Called(Target::Object(3), 1),
        Event::Drew(4),
        Event::Dropped(4),
    ],
    given_up: &[(12, 1)],
    with_the_table: &[(12, 1), (11, 2)],
};

#[test]
fn what_changed_is_named_once(rt: HostRuntime) {
    expect_all(&rt, first_unmet(rt.alloc(), &CHANGED, Memory::Ample));
}

static SLOTS: Sequence<'static> = Sequence {
    pool: &[],
    steps: &[
        TableStep::Make(1, Ok(1)),
        TableStep::Make(1, Ok(2)),
        TableStep::Make(1, Ok(3)),
        TableStep::Touched(&[1, 2, 3], &[]),
        // Two objects take the slots of two that went, and are named after an older one that is in a later slot.
        TableStep::SweepBut(3),
        TableStep::Make(1, Ok(4)),
        TableStep::Make(1, Ok(5)),
        TableStep::SetField(3, 0, Word::Object(5)),
        TableStep::Touched(&[3, 4, 5], &[1, 2]),
        // One object after the other takes a slot, and only the last of them lives.
        TableStep::SweepBut(5),
        TableStep::Make(1, Ok(6)),
        TableStep::SweepBut(5),
        TableStep::Make(1, Ok(7)),
        TableStep::Touched(&[7], &[3, 4]),
    ],
    events: &[],
    given_up: &[],
    with_the_table: &[],
};

#[test]
fn what_takes_a_slot_again_is_named(rt: HostRuntime) {
    expect_all(&rt, first_unmet(rt.alloc(), &SLOTS, Memory::Ample));
}
