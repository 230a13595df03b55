//! Sequences of calls, with the events that they leave.

use crate::checks::expect_all;
use crate::steps::{Memory, Sequence, TableStep, first_unmet};
use ash_host::{Event, Target, Word};
use ash_objects::MakeFault;

static LET_GO: Sequence<'static> = Sequence {
    pool: &[11],
    steps: &[
        TableStep::Draw(1, 1, Ok(1)),
        TableStep::Add(1, 1, 2),
        TableStep::Sweep,
    ],
    events: &[
        Event::Drew(1),
        Event::Called(Target::Object(1), 1),
        Event::Dropped(1),
    ],
    given_up: &[(11, 2)],
    with_the_table: &[(11, 2)],
};

#[test]
fn an_object_that_is_let_go_is_dropped(rt: HostRuntime) {
    expect_all(&rt, first_unmet(rt.alloc(), &LET_GO, Memory::Ample));
}

static EACH: Sequence<'static> = Sequence {
    pool: &[11, 12],
    steps: &[
        TableStep::Draw(1, 1, Ok(1)),
        TableStep::Draw(1, 5, Ok(2)),
        TableStep::Add(2, 1, 6),
        TableStep::SweepBut(2),
        TableStep::Add(2, 1, 7),
        TableStep::Sweep,
    ],
    events: &[
        Event::Drew(1),
        Event::Drew(2),
        Event::Called(Target::Object(2), 1),
        Event::Dropped(1),
        Event::Called(Target::Object(2), 1),
        Event::Dropped(2),
    ],
    given_up: &[(11, 1), (12, 7)],
    with_the_table: &[(11, 1), (12, 7)],
};

#[test]
fn each_is_dropped_where_it_is_let_go(rt: HostRuntime) {
    expect_all(&rt, first_unmet(rt.alloc(), &EACH, Memory::Ample));
}

// The box that is never drawn is the pool's, and goes with the table.
static ASCENDING: Sequence<'static> = Sequence {
    pool: &[11, 12, 13],
    steps: &[
        TableStep::Make(1, Ok(1)),
        TableStep::Make(1, Ok(2)),
        TableStep::Draw(1, 3, Ok(3)),
        TableStep::SetField(1, 0, Word::Object(3)),
        TableStep::Make(1, Ok(4)),
        TableStep::Draw(1, 5, Ok(5)),
        TableStep::SetField(2, 0, Word::Object(5)),
        TableStep::SetField(4, 0, Word::Object(3)),
        TableStep::HasCount(3, 2),
        TableStep::HasCount(5, 1),
        TableStep::Sweep,
    ],
    events: &[
        Event::Drew(3),
        Event::Drew(5),
        Event::Dropped(3),
        Event::Dropped(5),
    ],
    given_up: &[(11, 3), (12, 5)],
    with_the_table: &[(11, 3), (12, 5), (13, 0)],
};

#[test]
fn boxes_are_given_up_by_ascending_number(rt: HostRuntime) {
    expect_all(&rt, first_unmet(rt.alloc(), &ASCENDING, Memory::Ample));
}

static CHAIN: Sequence<'static> = Sequence {
    pool: &[11],
    steps: &[
        TableStep::Make(1, Ok(1)),
        TableStep::Make(1, Ok(2)),
        TableStep::Make(1, Ok(3)),
        TableStep::Draw(1, 7, Ok(4)),
        TableStep::SetField(1, 0, Word::Object(2)),
        TableStep::SetField(2, 0, Word::Object(3)),
        TableStep::SetField(3, 0, Word::Object(4)),
        TableStep::Hold(3),
        TableStep::Sweep,
        TableStep::IsGone(1),
        TableStep::IsGone(2),
        TableStep::HasCount(3, 1),
        TableStep::HasCount(4, 1),
    ],
    events: &[Event::Drew(4)],
    given_up: &[],
    with_the_table: &[(11, 7)],
};

#[test]
fn a_chain_goes_at_once(rt: HostRuntime) {
    expect_all(&rt, first_unmet(rt.alloc(), &CHAIN, Memory::Ample));
}

static ONCE: Sequence<'static> = Sequence {
    pool: &[11],
    steps: &[
        TableStep::Draw(1, 1, Ok(1)),
        TableStep::Sweep,
        TableStep::Draw(1, 0, Err(MakeFault::PoolEmpty)),
        TableStep::Draw(2, 0, Err(MakeFault::PoolEmpty)),
    ],
    events: &[Event::Drew(1), Event::Dropped(1)],
    given_up: &[(11, 1)],
    with_the_table: &[(11, 1)],
};

#[test]
fn a_box_is_drawn_once(rt: HostRuntime) {
    expect_all(&rt, first_unmet(rt.alloc(), &ONCE, Memory::Ample));
}

static RAISED: Sequence<'static> = Sequence {
    pool: &[11],
    steps: &[
        TableStep::Draw(1, 1, Ok(1)),
        TableStep::Raise(1, 9),
        TableStep::Sweep,
    ],
    events: &[
        Event::Drew(1),
        Event::Called(Target::Object(1), 2),
        Event::Dropped(1),
    ],
    given_up: &[(11, 1)],
    with_the_table: &[(11, 1)],
};

#[test]
fn an_object_that_raised_is_dropped(rt: HostRuntime) {
    expect_all(&rt, first_unmet(rt.alloc(), &RAISED, Memory::Ample));
}

static SLOTS: Sequence<'static> = Sequence {
    pool: &[11, 12, 13],
    steps: &[
        TableStep::Draw(1, 1, Ok(1)),
        TableStep::IsIn(1, 0),
        TableStep::Draw(1, 2, Ok(2)),
        TableStep::SweepBut(2),
        TableStep::IsGone(1),
        TableStep::Draw(1, 3, Ok(3)),
        TableStep::IsIn(3, 0),
        TableStep::Sweep,
    ],
    events: &[
        Event::Drew(1),
        Event::Drew(2),
        Event::Dropped(1),
        Event::Drew(3),
        Event::Dropped(2),
        Event::Dropped(3),
    ],
    given_up: &[(11, 1), (12, 2), (13, 3)],
    with_the_table: &[(11, 1), (12, 2), (13, 3)],
};

#[test]
fn a_slot_is_used_again_and_a_number_is_not(rt: HostRuntime) {
    expect_all(&rt, first_unmet(rt.alloc(), &SLOTS, Memory::Ample));
}

static OVER_ITSELF: Sequence<'static> = Sequence {
    pool: &[11],
    steps: &[
        TableStep::Make(1, Ok(1)),
        TableStep::Draw(1, 1, Ok(2)),
        TableStep::SetField(1, 0, Word::Object(2)),
        TableStep::SetField(1, 0, Word::Object(2)),
        TableStep::HasCount(2, 1),
        TableStep::SweepBut(1),
        TableStep::HasCount(2, 1),
        TableStep::SetField(1, 0, Word::Null),
        TableStep::SweepBut(1),
    ],
    events: &[Event::Drew(2), Event::Dropped(2)],
    given_up: &[(11, 1)],
    with_the_table: &[(11, 1)],
};

#[test]
fn a_handle_that_is_written_over_itself_stays(rt: HostRuntime) {
    expect_all(&rt, first_unmet(rt.alloc(), &OVER_ITSELF, Memory::Ample));
}
