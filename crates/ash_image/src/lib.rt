//! The image of a whole state, as bytes both ways: modules, objects, services and numbers, with the text of what is
//! registered, and the body of a record with one. It uses the words and the plain objects of `ash_host`. It promises,
//! unless memory is refused, that bytes are read as a state, in version 1 or 2, exactly where they are its image and
//! the state keeps the rules of its shape, and that the one image in version 2 is written of a state that has one. What
//! sources declare and what is registered is not asked. It also has the delta, what a request changed, as bytes both
//! ways: bytes are read as a delta exactly if they are its spelling, and the one spelling in version 2 is written. Up to
//! 16 deltas are read of one record likewise. And it applies a delta to a state: it gives the one state to which the
//! delta leads, if there is one.
//!
//! In reading order: `image`, and below it `modules`, `services`, `numbered`, `objects` and `words`, by the numbers and
//! texts of `fields` and within `limits`. `rules` is what holds over more than one field, `reaching` what can be
//! reached, `stored` what is read, `parts` what is written, with `lengths`. `examples` are images written by hand. Of
//! deltas: `delta` and `changed_modules`, `deltas` several of them, `stored_delta` what is read, `delta_parts` what is
//! written, with `delta_lengths`, and `delta_examples`. Of where a delta leads: `named_state`, a state with modules by
//! name; `leading`, which applies a delta to it; and `naming`, which leads to it from what is read, and back by
//! `fitting` and `ranges`.
#![tactic(auto)]

mod changed_modules;
pub mod delta;
pub mod delta_examples;
mod delta_lengths;
pub mod delta_parts;
pub mod deltas;
pub mod examples;
mod fields;
mod fitting;
pub mod image;
pub mod leading;
mod lengths;
mod limits;
mod modules;
pub mod named_state;
mod names;
pub mod naming;
mod numbered;
mod objects;
pub mod parts;
mod ranges;
mod reaching;
mod rules;
mod services;
pub mod stored;
pub mod stored_delta;
pub mod version;
mod words;
