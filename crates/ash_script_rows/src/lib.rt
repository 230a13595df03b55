//! Worked rows of scripts with classes, handles, host objects, interfaces and arrays, as data: each has a script,
//! requests, and what they come to. They are worked out by hand.
//!
//! `steps` is what scripts ask of host objects, `rows` what a row is. The others have the rows.
#![tactic(auto)]

pub mod arrays;
pub mod classes;
pub mod counters;
pub mod frame_points;
pub mod integers;
pub mod interfaces;
pub mod limits;
pub mod modules;
pub mod points;
pub mod rows;
pub mod services;
pub mod sources;
pub mod steps;
pub mod ticks;
