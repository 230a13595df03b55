//! What a host is in: what is registered with it, and what outlives a request. A state is written as an image by
//! `ash_image`, and is restored from one: each source is read again, and a state is restored only where what is stored
//! is of the types that the sources say, and of the kinds that are registered.
//!
//! The definitions are in `specs/`: `HostStates` (which states a host may be in), `StateSteps` (what a request asks
//! for) and `Images` (which bytes are the image of a state). In reading order: `state`; `restoring`, with `modules` and
//! `objects` (what was stored, with names in place of indexes); `writing`, with `parts` (what is written, with indexes
//! in place of names); `services`; `laws`.
#![tactic(auto)]

pub mod laws;
mod modules;
mod objects;
pub mod parts;
pub mod restoring;
pub mod services;
pub mod state;
pub mod writing;
