//! What scripts and the program that embeds them hand to each other: words, the values of the script language, and
//! host objects, the objects of the embedding program that handles refer to, with the two kinds that come with the
//! product. It uses no other crate, so that all others can use it. It promises that the integer operators are
//! those of whole numbers, reduced to the width of their type, and of every host object that each answer lies
//! within the relation of its kind.
//!
//! In reading order: `word` (values), `element` (what the elements of an array are), `answer` (what a call of a host
//! object answers), `fault` (why one isn't saved or restored), `host_object` (the trait), `boxes` (of host objects),
//! `counter` and `tally` (the kinds that come with the product, with `int`, the number that each has), `event` (what
//! happens to host objects during a request), `limits` (of the live objects), `laws` (of objects, and of what host
//! objects answer).
#![tactic(auto)]

mod answer;
mod boxes;
mod counter;
mod element;
mod event;
mod fault;
mod host_object;
mod int;
pub mod laws;
mod limits;
mod tally;
pub mod word;

pub use answer::HostAnswer;
pub use boxes::see_kinds;
pub use counter::Counter;
pub use element::ElementTag;
pub use event::{Event, Target};
pub use fault::{NoMemory, RestoreFault};
pub use host_object::HostObject;
pub use limits::{MAX_ELEMENTS, MAX_OBJECTS, MAX_STATE_BYTES};
pub use tally::Tally;
pub use word::Word;
