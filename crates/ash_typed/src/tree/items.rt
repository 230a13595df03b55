//! Typed modules.

use crate::tree::statements::{Initialization, Stmt};
use crate::types::VarType;

/// A module: what it declares, each in source order.
#[derive(Drop)]
pub struct Module {
    pub interfaces: Vec<Interface>,
    pub classes: Vec<Class>,
    pub functions: Vec<Function>,
    pub globals: Vec<Variables>,
}

/// Variables of a module that are declared together, with the line of their first token.
#[derive(Drop)]
pub struct Variables {
    pub line: usize,
    pub initializations: Vec<Initialization>,
}

/// An interface, with the line of its name.
#[derive(Drop)]
pub struct Interface {
    pub name: String,
    pub line: usize,
    /// How many classes are declared before it.
    pub classes_before: usize,
    pub methods: Vec<Signature>,
}

/// A method that an interface declares, with what it gives, where it gives a value.
#[derive(Drop)]
pub struct Signature {
    pub name: String,
    pub result: Option<VarType>,
    pub parameters: Vec<VarType>,
}

/// An interface that a class lists, by its place, and the class's method for each of the interface's, by its place.
#[derive(Drop)]
pub struct Implementation {
    pub interface: usize,
    pub methods: Vec<usize>,
}

/// A class, with the line of its name. Its fields take no tick, so that they have no line.
#[derive(Drop)]
pub struct Class {
    pub name: String,
    pub line: usize,
    pub interfaces: Vec<Implementation>,
    pub fields: Vec<Initialization>,
    /// The constructor, where one is written. Its name is the class's.
    pub constructor: Option<Function>,
    pub methods: Vec<Function>,
}

/// A function, with the line of its name and what it gives, where it gives a value. Its parameters are its first
/// locals.
#[derive(Drop)]
pub struct Function {
    pub name: String,
    pub line: usize,
    pub result: Option<VarType>,
    pub parameters: Vec<VarType>,
    pub body: Vec<Stmt>,
}
