//! Which boxes a table from a state takes from its pool, and which are given up with the table. A box has a name of two
//! digits, of which the first is its kind.

use crate::checks::expect_all;
use crate::reporter::{Log, has_reported, has_reported_then};
use crate::states::{RestoreInput, SERVICES, SavedHost, restored};
use crate::table::{Table, new_log};
use ash_host::{Event, NoMemory};
use std::alloc::Global;

// A pool, and which of its boxes the objects 3 and 5 take where object 5 is of a kind.
struct Order<'a> {
    pool: &'a [u16],
    kind: u16,
    third: u16,
    fifth: u16,
    left: [u16; 2],
}

// Each object takes the first box of its kind that is left, by ascending number of the objects.
static ORDERS: [Order<'static>; 8] = [
    Order {
        pool: &[11, 12, 21, 22],
        kind: 1,
        third: 11,
        fifth: 12,
        left: [21, 22],
    },
    Order {
        pool: &[22, 21, 12, 11],
        kind: 1,
        third: 12,
        fifth: 11,
        left: [21, 22],
    },
    Order {
        pool: &[12, 21, 11, 22],
        kind: 1,
        third: 12,
        fifth: 11,
        left: [21, 22],
    },
    Order {
        pool: &[22, 11, 21, 12],
        kind: 1,
        third: 11,
        fifth: 12,
        left: [21, 22],
    },
    Order {
        pool: &[11, 12, 21, 22],
        kind: 2,
        third: 11,
        fifth: 21,
        left: [12, 22],
    },
    Order {
        pool: &[22, 21, 12, 11],
        kind: 2,
        third: 12,
        fifth: 22,
        left: [11, 21],
    },
    Order {
        pool: &[12, 21, 11, 22],
        kind: 2,
        third: 12,
        fifth: 21,
        left: [11, 22],
    },
    Order {
        pool: &[22, 11, 21, 12],
        kind: 2,
        third: 11,
        fifth: 22,
        left: [12, 21],
    },
];

// Sweeps a table that nothing holds, and returns whether the objects 3 and 5 are dropped, and their boxes given up with
// their numbers; then the table goes.
fn drops_boxes(
    alloc: Global,
    mut objects: Table,
    log: &Log,
    order: &Order<'_>,
) -> Result<bool, NoMemory> {
    let mut events = Vec::new(alloc);
    objects.sweep(&mut events)?;
    let dropped = [Event::Dropped(3), Event::Dropped(5)];
    let swept = [(order.third, 3), (order.fifth, 5)];
    Ok(events.as_slice() == dropped.as_slice() && has_reported(log, &swept))
}

// Whether what was left goes with the table.
fn drops_others(log: &Log, order: &Order<'_>) -> bool {
    let [one, other] = order.left;
    let others = [
        (one, Some(0)),
        (other, Some(0)),
        (31, Some(8)),
        (41, Some(9)),
    ];
    has_reported_then(log, 2, &others)
}

fn input_of<'a>(order: &Order<'a>) -> RestoreInput<'a> {
    RestoreInput {
        pool: order.pool,
        third: SavedHost {
            kind: 1,
            state: &[3, 0, 0, 0],
        },
        fifth: SavedHost {
            kind: order.kind,
            state: &[5, 0, 0, 0],
        },
        services: &SERVICES,
    }
}

fn is_met(alloc: Global, order: &Order<'_>) -> Result<bool, NoMemory> {
    let log = new_log(alloc, 8)?;
    match restored(alloc, &log, &input_of(order))? {
        Ok(objects) => Ok(drops_boxes(alloc, objects, &log, order)? && drops_others(&log, order)),
        Err(_) => Ok(false),
    }
}

fn first_unmet(alloc: Global) -> Result<Option<usize>, NoMemory> {
    for place in 0..ORDERS.len() {
        if !is_met(alloc, &ORDERS[place])? {
            return Ok(Some(place));
        }
    }
    Ok(None)
}

#[test]
fn boxes_go_to_objects_by_ascending_number(rt: HostRuntime) {
    expect_all(&rt, first_unmet(rt.alloc()));
}
