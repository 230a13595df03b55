//! The boxes that a test has.

use crate::noted::{Inner, Log, Noted, new_box};
use ash_example_kind::Buffer;
use ash_host::{Counter, NoMemory, Tally, Target};
use std::alloc::Global;

/// How many boxes are free: counters, then buffers, and then boxes of the kind that answers badly.
#[derive(Clone, Copy)]
pub struct Pool {
    pub counters: usize,
    pub buffers: usize,
    pub odds: usize,
}

/// Adds a box for an object, whose name is how many there are then.
fn push_free(boxes: &mut Vec<Noted>, log: &Log, inner: Inner) -> Result<(), NoMemory> {
    let name = boxes.len() as u64 + 1;
    boxes.push(new_box(log, Target::Object(name), inner)?)?;
    Ok(())
}

/// Free boxes, named from 1 on.
pub fn boxes_of(alloc: Global, log: &Log, pool: Pool) -> Result<Vec<Noted>, NoMemory> {
    let mut boxes = Vec::new(alloc);
    for _ in 0..pool.counters {
        push_free(&mut boxes, log, Inner::Counter(Counter::new()))?;
    }
    for _ in 0..pool.buffers {
        push_free(&mut boxes, log, Inner::Buffer(Buffer::new(alloc)))?;
    }
    for _ in 0..pool.odds {
        push_free(&mut boxes, log, Inner::Odd)?;
    }
    Ok(boxes)
}

/// A tally as the service.
pub fn services_of(alloc: Global, log: &Log) -> Result<Vec<Noted>, NoMemory> {
    let tally = new_box(log, Target::Service(0), Inner::Tally(Tally::new()))?;
    Ok(vec![in alloc; tally]?)
}
