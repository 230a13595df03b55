//! What is read of a whole table.

use crate::checks::expect;
use crate::states::{RestoreInput, SERVICES, SavedHost, restored};
use crate::table::new_log;
use ash_host::{HostObject, NoMemory};
use std::alloc::Global;

static INPUT: RestoreInput<'static> = RestoreInput {
    pool: &[11, 12],
    third: SavedHost {
        kind: 1,
        state: &[3, 0, 0, 0],
    },
    fifth: SavedHost {
        kind: 1,
        state: &[5, 0, 0, 0],
    },
    services: &SERVICES,
};

// Whether a table from a state has its five objects and its two services in order.
fn is_in_order(alloc: Global) -> Result<bool, NoMemory> {
    let log = new_log(alloc, 4)?;
    let Ok(objects) = restored(alloc, &log, &INPUT)? else {
        return Ok(false);
    };
    let mut numbers = Vec::new(alloc);
    for number in objects.numbers() {
        numbers.push(*number)?;
    }
    let mut kinds = Vec::new(alloc);
    for service in objects.services() {
        kinds.push(service.kind())?;
    }
    let (all, each) = ([1, 2, 3, 4, 5], [3, 4]);
    let named = numbers.as_slice() == all.as_slice() && kinds.as_slice() == each.as_slice();
    Ok(named && objects.len() == all.len())
}

#[test]
fn a_table_is_read_in_order(rt: HostRuntime) {
    expect(&rt, is_in_order(rt.alloc()));
}
