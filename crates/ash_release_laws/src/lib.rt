//! When objects leave: each at the first release point at which it can't be reached.
//!
//! The meaning of scripts says where release points are and what one does. The laws here say what comes of it. If every
//! object that lives can be reached, each phrase leaves it so (`release_points_settle`). That is not since more is
//! held: a statement leaves nothing held, and a call only its value (`held`). What a frame has as a handle lives until
//! the full expression ends (`what_is_held_stays`), and so does what is overwritten. So an object leaves at the first
//! release point at which it can't be reached (`objects_leave_on_time`, and `runs_leave_on_time` for a whole run), and
//! a jump comes to one release point, where it leads (`jumps_release_once`). These hold of every module. In a sound one
//! the ends of full expressions and of blocks are at well-formed activities, so that no handle dangles there
//! (`safe_points`).
//!
//! The definitions are in `specs/`, in reading order: `Settling`, `Held`, `Leaving`, `WrongMeanings`, `SafePoints`.
//!
//! In reading order: `laws`; `held`; `wrong_meanings`, of meanings that the laws refuse; `safe_points`.
#![tactic(auto)]

pub mod held;
pub mod laws;
pub mod safe_points;
pub mod wrong_meanings;
