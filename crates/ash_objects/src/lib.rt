//! The objects of a host: those that live, by their numbers and with their counts; the boxes of the embedding program
//! that are free; its services. It uses `ash_slots`, where each object has a slot while it lives, and
//! `ash_host`. It promises that a table is a map from numbers to objects, in which a count is the number of fields that
//! hold the object and one for each hold that was not undone, and that a sweep takes away what no hold and no object
//! that stays leads to.
//!
//! In reading order: `objects` (the table, and its calls on fields and holds), `reading` (the numbers of all objects,
//! the services, and what holds of every table), `making` (new objects), `arrays` (calls of arrays), `host_calls` (calls
//! of host objects and services), `sweeping` (the sweep), `marking` (what was made, changed or taken away),
//! `marked_slots` (the slots of what was made or changed), `restoring` (a table from what a state holds), `counting` (the
//! counts of what an object's words are handles to).
#![tactic(auto)]

mod arrays;
mod counting;
mod host_calls;
mod making;
mod marked_slots;
mod marking;
mod objects;
mod reading;
mod restoring;
mod sweeping;

pub use arrays::{IndexOutOfBounds, LengthFault};
pub use ash_host::{ElementTag, MAX_ELEMENTS, MAX_OBJECTS};
pub use ash_slots::{Array, Body, Script, Words};
pub use making::MakeFault;
pub use marking::Changes;
pub use objects::Objects;
pub use restoring::{SavedHostObject, SavedObject, SavedObjects, TableFault, restore_services};
