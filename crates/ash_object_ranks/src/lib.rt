//! Objects of scripts have ranks, so that counts find what can't be reached.
//!
//! The check gives each class a rank that falls along what its fields hold. From the ranks of classes each object gets
//! a rank that falls along every reference, in well-formed worlds and states. So no objects refer to one another in a
//! circle, and a sweep of the table by counts takes exactly what the meaning's release point takes. And each class and
//! each interface of a sound module has an index of its own. The definitions are in `specs/`, in reading order:
//! `ObjectRanks` (the rank of an object), `RankLaws`, `IndexLaws`, `ShownTables` (a table as plain data), `SweepLaws`,
//! `RankExample`.
//! The crate uses the meaning, what sound typed trees and well-formed worlds are, and the table of objects. It knows no
//! parser, no rule of typing and no evaluator.
//!
//! In reading order: `laws` (of ranks and of indexes), `table_laws` (of sweeps of a table), `examples` (that the
//! premises of the laws of ranks can be met).
#![tactic(auto)]

mod examples;
pub mod laws;
pub mod table_laws;

pub use examples::worked_ranks;
