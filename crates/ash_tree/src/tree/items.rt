//! What a script declares, and what a host registers.

use crate::tree::places::Position;
use crate::tree::statements::{Stmt, Vars};
use crate::tree::types::{Type, TypeName};

/// A script: what it declares, in order.
#[derive(Debug, Drop)]
pub struct Module {
    pub items: Vec<Item>,
}

/// A declaration of a module.
#[derive(Debug, Drop)]
pub enum Item {
    Class(Class),
    Interface(Interface),
    Function(Function),
    Vars(Vars),
}

/// A class, at its name, with the interfaces that it lists.
#[derive(Debug, Drop)]
pub struct Class {
    pub place: Position,
    pub name: String,
    pub interfaces: Vec<TypeName>,
    pub members: Vec<Member>,
}

/// An interface, at its name.
#[derive(Debug, Drop)]
pub struct Interface {
    pub place: Position,
    pub name: String,
    pub methods: Vec<InterfaceMethod>,
}

/// A method that an interface declares, at its name. Without a result type it is `void`.
#[derive(Debug, Drop)]
pub struct InterfaceMethod {
    pub place: Position,
    pub result: Option<Type>,
    pub name: String,
    pub parameters: Vec<Parameter>,
}

/// What a class declares.
#[derive(Debug, Drop)]
pub enum Member {
    Function(Function),
    Vars(Vars),
    Constructor(Constructor),
}

/// A function, at its name. Without a result type it is `void`.
#[derive(Debug, Drop)]
pub struct Function {
    pub place: Position,
    pub result: Option<Type>,
    pub name: String,
    pub parameters: Vec<Parameter>,
    pub body: Vec<Stmt>,
}

/// `name(parameters) { body }` in a class, at the name.
#[derive(Debug, Drop)]
pub struct Constructor {
    pub place: Position,
    pub name: String,
    pub parameters: Vec<Parameter>,
    pub body: Vec<Stmt>,
}

/// A parameter of a function, at its name.
#[derive(Debug, Drop)]
pub struct Parameter {
    pub of: Type,
    pub place: Position,
    pub name: String,
}

/// What a host registers.
#[derive(Debug, Drop)]
pub enum Declaration {
    Function(Signature),
    Property(Property),
}

/// A function without a body, at its name. Its parameters have no names.
#[derive(Debug, Drop)]
pub struct Signature {
    pub place: Position,
    pub result: Option<Type>,
    pub name: String,
    pub parameters: Vec<Type>,
}

/// A property, at its name.
#[derive(Debug, Drop)]
pub struct Property {
    pub place: Position,
    pub of: Type,
    pub name: String,
}
