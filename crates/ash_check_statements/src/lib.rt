//! The check of statements: the body of a function, whose parameters are its first locals, typed, or its first fault.
//!
//! `check_body` of `ash_type_rules/specs/StatementRules.antt` defines what a body is, and which fault of it is the first:
//! of a statement its parts in the order of the text, then the statement. The function `check_body` returns what it
//! defines, unless memory runs out; `Agrees` of `ash_check_names/specs/Agreement.antt` says so of each function that
//! may fail. `check_decl` does the same for a declared variable, of a block, a class or a module, by
//! `Declarations.antt` beside it; and `body_returns` says which bodies return, however their conditions turn out, by
//! `Returning.antt`. Expressions are checked by `ash_check_expressions`, in environments of `ash_check_names`. The crate uses
//! `ash_tree`, whose trees it checks, `ash_typed`, whose trees it makes, and the rules of `ash_type_rules`.
//!
//! A function `check_*` takes a part of a script; a function `build_*` takes parts that are checked, and returns the
//! typed phrase that they are the parts of, or its fault.
//!
//! In reading order: `bodies`, the whole; `statements`, the walk over a body, with `scopes`, what a statement can refer
//! to, `locals`, `conditions`, `loops`, `switches` and `jumps`; `declarations`, variables and their initial values.
//! Beside them `returning`, which statements return.
#![tactic(auto)]

mod bodies;
mod conditions;
mod declarations;
mod jumps;
mod locals;
mod loops;
mod returning;
mod scopes;
mod statements;
mod switches;

pub use bodies::{body_returns, check_body};
pub use declarations::{
    WrittenType, check_decl, check_variable_type, place_of, ty_in, type_name_offset,
};
pub use scopes::any_declares;
