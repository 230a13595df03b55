//! The whole meaning of scripts: what each phrase of a typed tree does.
//!
//! A phrase is a run, from an activity (the world, the ticks left, and the frames) to how far it comes: to its value,
//! to an exception or a refused tick, or to no step, where hosts gave no answer to the call that it makes. Runs are put
//! together from named steps, and no phrase speaks of the fields of the activity. The definitions are in `specs/`, in
//! reading order: `Activity` (what runs), `Runs` (how phrases are put together), `Releases` (what is held, and release
//! points), `Frames` (ticks, frames), `ObjectSteps`, `HostSteps`, `ArraySteps`, `OperatorMeaning`, `Locations` (what is
//! read and written), `Classes` (what names mean), `CallMeaning`, `ExpressionMeaning`, `StatementMeaning`, `Functions`,
//! `Ends`; then what laws speak of: `Traces` (what phrases do, one transition at a time), `Numbers` (what events say of
//! the number of a host object), `Answers` (what may be relied on of hosts), `MeaningLaws`; and `Examples` with those
//! beside it. The crate uses typed trees, objects as plain data and the integers of scripts, and knows no parser and no
//! rule of typing; of trees it names the labels of a `switch`, in an example. A call and a turn of a loop each take a
//! tick, so that the definitions go by how many are left.
//!
//! In reading order: `exception` (what a script can raise), `laws` (of the meaning), `examples` (phrases whose
//! meaning is computed), `outcomes` (of small modules, with what they leave), `tables` (of integers and of ticks).
#![tactic(auto)]

mod examples;
mod exception;
pub mod laws;
mod outcomes;
mod tables;

pub use examples::{
    worked_control_examples, worked_examples, worked_host_examples, worked_object_examples,
    worked_release_examples,
};
pub use exception::Exception;
pub use outcomes::{
    worked_answer_examples, worked_array_examples, worked_effect_examples,
    worked_exception_examples, worked_order_examples, worked_point_examples, worked_pool_examples,
};
pub use tables::{
    worked_changes, worked_comparisons, worked_conversions, worked_frame_ticks, worked_int_table,
    worked_int64_table, worked_jump_ticks, worked_ticks, worked_uint_table, worked_uint64_table,
};
