//! What evaluates phrases.

use ash_plain_data::classes::Program;

/// An evaluator of the phrases of a module.
#[derive(Drop)]
pub(crate) struct Evaluator<'a, 'n, F: Drop> {
    pub(crate) program: &'a Program<'n>,
    /// How deep calls go, and how many turns a loop takes, at most. Each takes a tick first, so that as many as ticks
    /// are left are enough.
    pub(crate) depth: u64,
    /// What the frame of a call does after the tick of its entry.
    pub(crate) body: F,
}
