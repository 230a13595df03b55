//! Which classes of a script refer to which, and ranks for them; or a cycle.
//!
//! Classes must not reach themselves by what their fields hold, since objects would hold one another in cycles that
//! nothing takes back (AngelScript collects such cycles instead). A field holds objects of a class by the class or by
//! an interface that the class lists, as its type, by a handle or in an array. The ranks of a script's classes fall
//! along each such field; and of classes that could form a cycle, the places that are reported are a path that a
//! reader can follow: each class holds the next one, and the last holds the first. It is the path back of the first
//! class in the text that has one, a shortest one, and of several the one whose classes come first. `IsReportedCycle`
//! of `specs/Paths.antt` says this of any relation between places, and `reported_cycle` of `specs/ReportedCycle.antt`
//! as a search. The ranks fall too along what the fields of the typed module hold, so that what walks the typed module
//! alone may rely on them. The crate uses `ash_tree`, whose trees declare the classes, typed trees and the rules of
//! typing.
//!
//! In reading order: `acyclic`, the whole; `references`, what classes refer to; `cycles` and `distances`, which speak
//! of places alone; `ranks`, the law on typed modules.
#![tactic(auto)]

mod acyclic;
mod cycles;
mod distances;
mod ranks;
mod references;

pub use acyclic::{class_ranks, search_is_exact};
pub use cycles::Cycle;
pub use ranks::typed_ranks_fall;
pub use references::classes;
