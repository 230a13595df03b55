//! Types as they are written (AngelScript manual, "Data types").

use crate::tree::places::Position;

/// A type that is no object type.
#[derive(Clone, Copy, Debug, PartialEq, Eq)]
pub enum Primitive {
    /// `bool`
    Bool,
    /// `int` or `int32`
    Int,
    /// `int64`
    Int64,
    /// `uint` or `uint32`
    Uint,
    /// `uint64`
    Uint64,
}

/// A type, at its first token.
#[derive(Debug, PartialEq, Drop)]
pub struct Type {
    pub place: Position,
    pub kind: TypeKind,
}

/// What a type is.
#[derive(Debug, PartialEq, Drop)]
pub enum TypeKind {
    Primitive(Primitive),
    /// A class, an interface or a registered type, by its name.
    Object(String),
    /// A handle of one: `name@`.
    Handle(String),
    /// An array: `array<element>`.
    Array(Element),
    /// A handle of one: `array<element>@`.
    ArrayHandle(Element),
}

/// The type of an array's elements, at its first token.
#[derive(Debug, PartialEq, Drop)]
pub struct Element {
    pub place: Position,
    pub kind: ElementKind,
}

/// What the elements of an array are.
#[derive(Debug, PartialEq, Drop)]
pub enum ElementKind {
    Primitive(Primitive),
    /// Handles of a class, an interface or a registered type: `name@`.
    Handle(String),
}

/// The name of a class or an interface where a script refers to it.
#[derive(Debug, PartialEq, Drop)]
pub struct TypeName {
    pub place: Position,
    pub name: String,
}
