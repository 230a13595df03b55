//! Tables from what a state holds.

use crate::checks::expect_all;
use crate::states::{RestoreInput, SavedHost, restored};
use crate::steps::{Sequence, TableStep, first_unmet_of};
use crate::table::new_log;
use ash_host::{Event, NoMemory};
use std::alloc::Global;

// A state over three counters.
static INPUT: RestoreInput<'static> = RestoreInput {
    pool: &[11, 12, 13],
    third: SavedHost {
        kind: 1,
        state: &[3, 0, 0, 0],
    },
    fifth: SavedHost {
        kind: 1,
        state: &[5, 0, 0, 0],
    },
    services: &[],
};

// Takes steps over a table from that state.
fn first_unmet(alloc: Global, sequence: &Sequence<'_>) -> Result<Option<usize>, NoMemory> {
    let log = new_log(alloc, 3)?;
    match restored(alloc, &log, &INPUT)? {
        Ok(objects) => first_unmet_of(alloc, objects, &log, sequence),
        Err(_) => Ok(Some(0)),
    }
}

static COUNTED: Sequence<'static> = Sequence {
    pool: &[],
    steps: &[
        TableStep::HasCount(1, 0),
        TableStep::HasCount(3, 2),
        TableStep::HasCount(5, 1),
        TableStep::IsGone(6),
        TableStep::Sweep,
    ],
    events: &[Event::Dropped(3), Event::Dropped(5)],
    given_up: &[(11, 3), (12, 5)],
    with_the_table: &[(11, 3), (12, 5), (13, 0)],
};

#[test]
fn counts_of_a_state_are_its_handles(rt: HostRuntime) {
    expect_all(&rt, first_unmet(rt.alloc(), &COUNTED));
}

static NUMBERED: Sequence<'static> = Sequence {
    pool: &[],
    steps: &[TableStep::Draw(1, 1, Ok(10)), TableStep::Sweep],
    events: &[
        Event::Drew(10),
        Event::Dropped(3),
        Event::Dropped(5),
        Event::Dropped(10),
    ],
    given_up: &[(11, 3), (12, 5), (13, 1)],
    with_the_table: &[(11, 3), (12, 5), (13, 1)],
};

#[test]
fn numbers_rise_from_the_last_of_a_state(rt: HostRuntime) {
    expect_all(&rt, first_unmet(rt.alloc(), &NUMBERED));
}
