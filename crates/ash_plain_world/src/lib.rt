//! Activities of the plain evaluator of scripts, and their named steps.
//!
//! An activity is what runs and what it runs on. Each of its steps is proved to run as the step does whose definition
//! its contract names: for each activity it comes to the value and the activity that the definition gives, or ends as
//! it says. Where memory runs out it answers `NoMemory`, and of the activity nothing is said then.
//!
//! In reading order: `objects` (those that live, how many handles there are to each, and the sweep), `activity` (what
//! runs); the named steps of activities: `releases`, `frames`, `object_steps`, `host_steps`, `array_steps`,
//! `locations`, `stores`, `flow`.
#![tactic(auto)]

pub mod activity;
mod array_steps;
pub mod flow;
mod frames;
mod host_steps;
pub mod locations;
mod object_steps;
pub mod objects;
mod releases;
mod stores;

pub use frames::MAX_FRAMES;
