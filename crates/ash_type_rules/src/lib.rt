//! The rules of typing: which script has which typed tree, and where a script has none, its first fault.
//!
//! The rules are in `specs/`, one case for each: of expressions and of variables in `Typing`, of statements in
//! `TypedStatements`, of modules in `TypedModules`. The walk that finds the first fault is in `ExpressionRules`,
//! `Declarations`, `StatementRules` and `ItemRules`. What both need is in neither: in `TypeRules`, `Terms`,
//! `Environment`, `Coercions`, `ModuleDeclarations`, `Scopes`, `Returning`, `Labels` and `Implementations`. `typing`
//! and `modules` say that the two are one, and that each fault of a module is at one of its tokens, where its rule is
//! broken: at which, `FaultPlaces` says, and what is wrong there, `FaultMeaning`. `soundness` says that what the rules
//! type is sound, as `ash_typed` says it of the typed tree alone. The crate uses `ash_lex` and `ash_tree`, whose tokens
//! and trees are typed, `ash_registrations`, and `ash_typed`, whose trees are the typed ones. It types nothing itself:
//! `ash_check_expressions` and `ash_check` do, by these definitions.
//!
//! In reading order: `types`, `forms`, `fault`, `typing`, `modules`, `soundness`.
#![tactic(auto)]

mod fault;
mod forms;
mod modules;
mod soundness;
mod types;
mod typing;

pub use fault::{Fault, Rule};
pub use forms::{Callable, Form, Operator, OperatorClass};
pub use modules::{
    faults_are_at_tokens, faults_are_what_they_say, typing_of_modules, typing_of_statements,
};
pub use soundness::typed_is_sound;
pub use types::Ty;
pub use typing::{
    types_of_variables, typing_of_arguments, typing_of_expressions, typing_of_variables,
};
