//! A kind of host object as an embedding program writes one. It uses `ash_host` alone. It promises that `Buffer`
//! meets the contract of `HostObject` by its own relation.
//!
//! `buffer` has the kind; the words of its relation are in `specs/Buffers`.
#![tactic(auto)]

mod buffer;

pub use buffer::Buffer;
