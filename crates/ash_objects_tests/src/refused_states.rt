//! States that are refused, and the boxes that are given up then: those of the pool and of the services.

use crate::checks::expect_all;
use crate::reporter::has_reported_then;
use crate::states::{RestoreInput, SERVICES, SavedHost, Service, restored};
use crate::table::new_log;
use ash_host::NoMemory;
use ash_objects::TableFault;
use std::alloc::Global;

// Why a state is refused, and the boxes that are given up then: each once, with its number where it had taken its
// state.
struct Refusal<'a> {
    input: RestoreInput<'a>,
    fault: TableFault,
    given_up: &'a [(u16, Option<i32>)],
}

// Apart from memory, a pool that is too short comes first, then the services in order, then the objects by number.
// Those before the one that refuses have their states.
static REFUSALS: [Refusal<'static>; 6] = [
    Refusal {
        input: RestoreInput {
            pool: &[21, 12, 22],
            third: SavedHost {
                kind: 1,
                state: &[3],
            },
            fifth: SavedHost {
                kind: 1,
                state: &[5],
            },
            services: &[Service {
                name: 31,
                state: &[8],
            }],
        },
        fault: TableFault::PoolShort(1),
        given_up: &[(12, None), (21, None), (22, None), (31, None)],
    },
    Refusal {
        input: RestoreInput {
            pool: &[12, 11],
            third: SavedHost {
                kind: 1,
                state: &[3, 0, 0, 0],
            },
            fifth: SavedHost {
                kind: 2,
                state: &[5, 0, 0, 0],
            },
            services: &[],
        },
        fault: TableFault::PoolShort(2),
        given_up: &[(11, None), (12, None)],
    },
    Refusal {
        input: RestoreInput {
            pool: &[22, 21, 12, 11],
            third: SavedHost {
                kind: 1,
                state: &[3],
            },
            fifth: SavedHost {
                kind: 2,
                state: &[5],
            },
            services: &[
                Service {
                    name: 31,
                    state: &[8, 0, 0, 0],
                },
                Service {
                    name: 41,
                    state: &[9],
                },
                Service {
                    name: 51,
                    state: &[10],
                },
            ],
        },
        fault: TableFault::RestoreRefused(0),
        given_up: &[
            (11, None),
            (12, None),
            (21, None),
            (22, None),
            (31, Some(8)),
            (41, None),
            (51, None),
        ],
    },
    Refusal {
        input: RestoreInput {
            pool: &[11, 21, 12, 22],
            third: SavedHost {
                kind: 1,
                state: &[3],
            },
            fifth: SavedHost {
                kind: 1,
                state: &[5],
            },
            services: &SERVICES,
        },
        fault: TableFault::RestoreRefused(3),
        given_up: &[
            (11, None),
            (12, None),
            (21, None),
            (22, None),
            (31, Some(8)),
            (41, Some(9)),
        ],
    },
    Refusal {
        input: RestoreInput {
            pool: &[22, 12, 11],
            third: SavedHost {
                kind: 1,
                state: &[3, 0, 0, 0],
            },
            fifth: SavedHost {
                kind: 1,
                state: &[5, 0, 0, 0, 0],
            },
            services: &[Service {
                name: 31,
                state: &[8, 0, 0, 0],
            }],
        },
        fault: TableFault::RestoreRefused(5),
        given_up: &[(11, None), (12, Some(3)), (22, None), (31, Some(8))],
    },
    Refusal {
        input: RestoreInput {
            pool: &[12, 22, 11, 21],
            third: SavedHost {
                kind: 1,
                state: &[3, 0, 0, 0],
            },
            fifth: SavedHost {
                kind: 2,
                state: &[],
            },
            services: &[],
        },
        fault: TableFault::RestoreRefused(5),
        given_up: &[(11, None), (12, Some(3)), (21, None), (22, None)],
    },
];

fn is_met(alloc: Global, refusal: &Refusal<'_>) -> Result<bool, NoMemory> {
    let log = new_log(alloc, 8)?;
    match restored(alloc, &log, &refusal.input)? {
        Ok(_) => Ok(false),
        Err(fault) => Ok(fault == refusal.fault && has_reported_then(&log, 0, refusal.given_up)),
    }
}

fn first_unmet(alloc: Global) -> Result<Option<usize>, NoMemory> {
    for place in 0..REFUSALS.len() {
        if !is_met(alloc, &REFUSALS[place])? {
            return Ok(Some(place));
        }
    }
    Ok(None)
}

#[test]
fn boxes_of_a_refused_state_are_given_up(rt: HostRuntime) {
    expect_all(&rt, first_unmet(rt.alloc()));
}
