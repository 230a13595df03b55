//! What is replied.

use crate::{Outcome, Refusal, Shown};
use ash_host::{Event, Word};

/// What a `load`, a `call` or a `discard` came to.
#[derive(Drop)]
pub struct Answer {
    pub outcome: Outcome,
    /// How many requests have been answered, this one among them.
    pub seq: u64,
    /// What was done to host objects and services.
    pub events: Vec<Event>,
}

/// What a request is replied.
#[derive(Drop)]
pub enum Reply<F: Drop> {
    Answer(Answer),
    Value(Word),
    Shown(Shown),
    Seq(u64),
    /// What was asked is done, and there is no more to say.
    Done,
    Refused(Refusal<F>),
}
