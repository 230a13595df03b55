//! Types, as the rules of typing see them (AngelScript manual, "Data types").

use ash_typed::{IntType, ObjectType};

/// The type of a variable or of an expression.
#[derive(Clone, Copy, Debug)]
pub enum Ty {
    Bool,
    Integer(IntType),
    /// An object that the variable itself is: `T x`.
    Object(ObjectType),
    /// A handle of an object: `T@ x`, and each expression that gives an object and is no variable.
    Handle(ObjectType),
    /// `null`
    Null,
    /// What a function without a result gives.
    Void,
    /// A type that is declared and not known. A fault is reported at its declaration, and none elsewhere for its sake.
    Unknown,
}
