//! Types of variables (AngelScript manual, "Data types").

use ash_integers::IntType;

/// What the elements of an array are of.
#[derive(Clone, Copy, Debug)]
pub enum Element {
    Bool,
    Integer(IntType),
    /// Handles of objects of a class, by its place.
    Class(usize),
    /// Handles of objects of the classes that list an interface, by its place.
    Interface(usize),
    /// Handles of objects of a registered type, by its kind.
    Host(u16),
}

/// What an object is of.
#[derive(Clone, Copy, Debug)]
pub enum ObjectType {
    /// A class of the module, by its place among its classes.
    Class(usize),
    /// An interface of the module, by its place among its interfaces: the object is of a class that lists it.
    Interface(usize),
    /// A registered type, by its kind.
    Host(u16),
    /// `array<T>`
    Array(Element),
}

/// The type of a variable, a parameter or a field, and of what a function gives.
#[derive(Clone, Copy)]
pub enum VarType {
    Bool,
    Integer(IntType),
    /// An object that the variable itself is: `T x`.
    Object(ObjectType),
    /// A handle of an object: `T@ x`.
    Handle(ObjectType),
}
