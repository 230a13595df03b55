//! Objects in slots, found by their numbers: what an object is, and what is read and written of one by its slot. It
//! uses `ash_host`, for words and host objects, and a slab. It promises that a store is a list of objects by
//! ascending number, each in a slot of its own, that each call changes of that list exactly what its contract names,
//! and that each object which lost its last count, or is new, is on the list of slots that the next sweep looks at.
//!
//! In reading order: `words` and `body` (what an object is), `entry` (what a store has of it), `guesses` (where to
//! look first), `store` (objects in slots), `counting` (the count of an object), `fields` and `elements` (its words), `calling` (its box).
#![tactic(auto)]

mod body;
mod calling;
mod counting;
mod elements;
mod entry;
mod fields;
mod guesses;
mod store;
mod words;

pub use body::{Array, Body, Script};
pub use calling::{box_in, invoke_in, set_in, start_in};
pub use counting::{add_ref, decrement_count, increment_count, remove_ref};
pub use elements::{grow_elements, set_elements, take_elements};
pub use entry::{Entry, Occupant};
pub use fields::{read_word, write_word};
pub use store::Store;
pub use words::Words;
