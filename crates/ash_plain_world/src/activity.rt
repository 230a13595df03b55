//! What runs, and what it runs on.

use crate::objects::ObjectMap;
use ash_host::{Event, Word};
use ash_plain_data::host_call::HostRecord;
use std::alloc::Global;
use std::collections::VecDeque;

/// A free box of the pool.
#[derive(Drop)]
pub struct FreeBox {
    pub kind: u16,
    pub state: Vec<u8>,
}

/// What a run finds and what it leaves.
#[derive(Drop)]
pub struct World {
    /// The globals of the module that runs.
    pub globals: Vec<Word>,
    /// The objects that something outside holds, as the globals of other modules do.
    pub outside: Vec<u64>,
    pub objects: ObjectMap,
    /// The last number that was given to an object.
    pub last: u64,
    /// The states of the services.
    pub services: Vec<Vec<u8>>,
    pub pool: Vec<FreeBox>,
    /// What hosts will still answer.
    pub answers: VecDeque<HostRecord>,
    /// What was done to host objects and services so far.
    pub events: Vec<Event>,
}

/// The frame of a function that runs.
#[derive(Drop)]
pub struct Frame {
    pub function: String,
    /// The line that it has come to.
    pub line: usize,
    /// The object whose method runs, or null.
    pub this: Word,
    /// The locals by slot.
    pub locals: Vec<Word>,
    /// The objects that it holds until the full expression ends.
    pub held: Vec<u64>,
}

/// What runs.
#[derive(Drop)]
pub struct Activity {
    pub alloc: Global,
    pub world: World,
    /// The ticks left.
    pub ticks: u64,
    /// The frame that runs now.
    pub frame: Frame,
    /// Its callers, the nearest of them first.
    pub callers: Vec<Frame>,
}
