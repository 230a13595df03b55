//! The check of scripts: from trees, with names as they are written, to typed trees, or to why a script is refused.
//!
//! `check` returns a script's typed module and a rank for each of its classes; else its first fault. What is typed, and
//! which fault is the first, `ash_type_rules` defines: `check_module` of its `specs/ItemRules.antt` walks a script in the
//! order of the text. Where no rule is broken, classes must not reach themselves by what their fields hold:
//! `ash_class_cycles` has their ranks, or the cycle that is reported. `checked` of `specs/Checks.antt` defines all this as
//! one function, and `check` returns what it defines, unless memory runs out; `check_is_exact` says what that is by the
//! rules of typing alone. Bodies and variables are checked by `ash_check_statements`, in environments of `ash_check_names`.
//!
//! What is returned is a `CheckedScript`. Of each value of that type it is known, by the typed tree alone, that its
//! module is sound and that its ranks fall along what its classes hold: `IsChecked` of `specs/CheckedModules.antt`.
//!
//! A function `check_*` takes a part of a script; a function `build_*` takes parts that are checked, and returns the
//! typed phrase that they are the parts of, or its fault.
//!
//! In reading order: `checked`, what is returned; `checks`, the whole; `faults`, what is reported; `items`, the walk
//! over a module, with `limits`, `names`, `interfaces`, `implementations` and `routines`; `signatures` and
//! `type_names`, what a module declares.
#![tactic(auto)]

mod checked;
mod checks;
mod faults;
mod implementations;
mod interfaces;
mod items;
mod limits;
mod names;
mod routines;
mod signatures;
mod type_names;

pub use ash_class_cycles::search_is_exact;
pub use checked::CheckedScript;
pub use checks::{check, check_is_exact};
pub use faults::{ClassNames, ScriptError, ScriptFault};
pub use limits::{MAX_CLASS_MEMBERS, MAX_GLOBALS, MAX_MODULE_TYPES};
