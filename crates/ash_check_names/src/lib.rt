//! What names and types mean where a phrase of a script is.
//!
//! A phrase is in an environment, which has what a module declares, what is registered, the class whose object runs,
//! and the locals. Each function that says what a name or a type means returns what a definition of `ash_type_rules` gives,
//! unless memory runs out. In its `specs/`, `Environment` has what a name means in an environment: a variable, what a
//! call calls, a member or a method of an object; `ModuleDeclarations`, which type a name is; `TypeRules`, what two
//! types have in common; `Coercions`, what may be stored in which variable; `Terms`, how a value is converted to
//! another type; and `ExpressionRules`, which type is `void`. Beside these, `Signatures::new` makes the indexes of what
//! a module declares, `Parameters::len` and `Parameters::split_first` go over the parameters of a call, and `fault_at`
//! makes the error of a rule that is broken. The crate uses `ash_tree`, which has types as they are written,
//! `ash_registrations`, `ash_typed`, which has what names become in a typed tree, and the rules of `ash_type_rules`.
//!
//! Nothing is checked here. But the crate has the error that ends checking, and `Agrees` of `specs/Agreement.antt`,
//! which says of each function of the crates above that may fail that it returns what the rules define.
//!
//! In reading order: `environment`, what names mean, with `lookup`; `callees`, `array_methods` and `parameters`, what
//! can be called and what it takes; `signatures` and `name_index`, what a module declares, found by its name;
//! `type_names`, the names of types; `types` and `coercions`; `error`, the error that ends checking.
#![tactic(auto)]

mod array_methods;
mod callees;
mod coercions;
mod environment;
mod error;
mod lookup;
mod name_index;
mod parameters;
mod signatures;
mod type_names;
mod types;

pub use callees::{Callee, MethodCallee};
pub use coercions::fits;
pub use environment::Environment;
pub use error::{CheckError, CheckResult, fault_at};
pub use lookup::first_function;
pub use parameters::Parameters;
pub use signatures::{Binding, ClassSignature, FunctionSignature, InterfaceSignature, Signatures};
pub use type_names::{element_named, object_named, result_named, ty_named};
pub use types::{
    common_integer_type, common_type, conversion, holds, is_same, is_same_object, is_void,
    number_type, result_type, signed_type, ty_of, ty_of_element, var_type,
};
