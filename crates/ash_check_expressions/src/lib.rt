//! The check of expressions: an expression in an environment, typed, or its first fault.
//!
//! `check_expr` of `ash_type_rules/specs/ExpressionRules.antt` defines what an expression is in an environment, and which
//! fault of it is the first: its parts in the order of the text, then the expression. The function `check_expr` returns
//! what it defines, unless memory runs out; `Agrees` of `ash_check_names/specs/Agreement.antt` says so of each function
//! that may fail. The crate uses `ash_tree`, whose trees it checks, `ash_typed`, whose trees it makes,
//! `ash_check_names`, which has what names and types mean, and the rules of `ash_type_rules`.
//!
//! A function `check_*` takes a part of a script; a function `build_*` takes parts that are checked, and returns the
//! typed phrase that they are the parts of, or its fault.
//!
//! In reading order: `expressions`, the walk over an expression; `operators`, `assignments` and `calls`, which build a
//! phrase of its checked parts, with `operator_types`; `arrays`, their construction and their indexes; `typed_expr` and
//! `forms`.
#![tactic(auto)]

mod arrays;
mod assignments;
mod calls;
mod expressions;
mod forms;
mod operator_types;
mod operators;
mod typed_expr;

pub use arrays::array_callee;
pub use calls::{Arguments, build_call};
pub use expressions::{check_expr, check_exprs};
pub use forms::AssignmentSide;
pub use typed_expr::{TypedExpr, check_bool, coerce_for_assignment, integer_type};
