//! Trees of scripts and the grammar that they are derived by.
//!
//! A tree is what the tokens of a script derive: `specs/Grammar.antt` says which tokens derive which tree, one
//! case for each production. What reads tokens is in `ash_parse`, and whatever goes over scripts goes over
//! these trees. It uses `ash_lex`, whose tokens the grammar is about.
//!
//! In reading order: `tree`, what a script is made of: `places`, `types`, `operators`, `expressions`,
//! `statements`, `items`. A node has the offset that a fault in it names and the line that a tick before it
//! sets. Operators of one level and the suffixes of an operand are in lists, so that a tree is as deep as its
//! brackets and statements nest, and no deeper where a sum is long.
#![tactic(auto)]

pub mod nodes;
mod tree;

pub use tree::expressions::{Expr, ExprKind, Link, Suffix};
pub use tree::items::{
    Class, Constructor, Declaration, Function, Interface, InterfaceMethod, Item, Member, Module,
    Parameter, Property, Signature,
};
pub use tree::operators::{AssignOp, BinaryOp, UnaryOp};
pub use tree::places::Position;
pub use tree::statements::{Case, Decl, Initializer, Label, Stmt, StmtKind, Vars};
pub use tree::types::{Element, ElementKind, Primitive, Type, TypeKind, TypeName};
