//! Whether what a state stores is of the types of its modules' sources.
//!
//! It is asked when a state is read from an image, of what the sources and the registered kinds decide: that the
//! globals are values of their types, that each object is as its class or its elements say, and that each host object
//! is of a kind of which objects are constructed. That numbers and names are in order, limits hold and every object can
//! be reached is tested where the image is read. It promises that the answer is exactly whether these parts of a
//! well-formed state hold (`ash_soundness`). The answer takes no memory, one look-up for each handle and one turn for
//! each object. A class is found by its place among those of its module.
//!
//! In reading order: `places` (classes and interfaces by their places in the source), `types` (whether an object is of
//! a type), `values` (whether words are values of their types), `elements` (whether words are elements of an array),
//! `contents` (whether an object is well-formed), `admission`.
#![tactic(auto)]

pub mod admission;
mod contents;
mod elements;
mod places;
mod types;
mod values;
