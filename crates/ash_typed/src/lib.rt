//! Typed trees of scripts.
//!
//! A typed tree is a script with its names resolved: a local by its slot, a member, a global, a function and a class by
//! its place, what is registered by its number, each with its type; each operator with what it takes, and each
//! conversion a node. What walks it looks no name up and meets no word of another type than it awaits:
//! `specs/SoundModules.antt` says which trees are so, of the tree alone. `specs/` has the same trees without where
//! their parts lie in memory, and `nodes` makes them. The rules of typing, which say which script has which typed tree,
//! are in `ash_type_rules`, above this crate, with the proof that what they type is sound: what walks typed trees alone
//! does not load them. The crate uses `ash_tree`, for the labels that a script writes, and `ash_integers`, for the
//! integer types.
//!
//! In reading order: `types`, `tree`: `operations`, `expressions`, `statements`, `items`; `nodes`, `places`,
//! `soundness`.
#![tactic(auto)]

pub mod nodes;
mod places;
mod soundness;
mod tree;
mod types;

pub use ash_integers::IntType;
pub use soundness::types_of_expressions;
pub use tree::expressions::{Expr, ExprKind, Link, Operand, Place};
pub use tree::items::{Class, Function, Implementation, Interface, Module, Signature, Variables};
pub use tree::operations::{
    ArrayMethod, Calculation, Calculator, CallTarget, Change, Comparator, Conversion, IncrementOp,
    Lazy, Method, ObjectMember, Operands, Operation, Variable,
};
pub use tree::statements::{Case, Head, Initialization, Loop, Stmt, StmtKind, Test};
pub use types::{Element, ObjectType, VarType};
