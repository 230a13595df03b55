//! A table at its limits.

use crate::checks::expect_all;
use crate::steps::{Memory, Sequence, TableStep, first_unmet};
use ash_host::Event;
use ash_objects::{MAX_OBJECTS, MakeFault};

static FULL_TABLE: Sequence<'static> = Sequence {
    pool: &[11],
    steps: &[
        TableStep::MakeEach(MAX_OBJECTS),
        TableStep::Make(0, Err(MakeFault::ObjectLimit)),
        TableStep::Draw(1, 0, Err(MakeFault::ObjectLimit)),
        TableStep::Sweep,
        TableStep::Draw(1, 0, Ok(4097)),
    ],
    events: &[Event::Drew(4097)],
    given_up: &[],
    with_the_table: &[(11, 0)],
};

#[test]
fn as_many_objects_as_may_live(rt: HostRuntime) {
    expect_all(&rt, first_unmet(rt.alloc(), &FULL_TABLE, Memory::Ample));
}
