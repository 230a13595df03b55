//! Expressions (AngelScript manual, "Expressions").

use crate::tree::operators::{AssignOp, BinaryOp, UnaryOp};
use crate::tree::places::Position;
use crate::tree::types::{Element, Primitive, TypeName};

/// An expression, at its first token.
#[cycle(expressions)]
#[derive(Debug, Drop)]
pub struct Expr {
    pub place: Position,
    pub kind: Box<ExprKind>,
}

/// What an expression is.
#[cycle(expressions)]
#[derive(Debug, Drop)]
pub enum ExprKind {
    Number(u64),
    Bool(bool),
    Null,
    This,
    Name(String),
    /// `name(arguments)`
    Call {
        name: String,
        arguments: Vec<Expr>,
    },
    /// `(inner)`
    Brackets(Expr),
    /// `to(value)`
    Convert {
        to: Primitive,
        value: Expr,
    },
    /// `array<of>(arguments)`; the element's type is boxed, so that every other expression stays small
    NewArray {
        of: Box<Element>,
        arguments: Vec<Expr>,
    },
    /// `cast<to>(value)`
    Cast {
        to: TypeName,
        value: Expr,
    },
    /// An operand with suffixes, one at the least, in order.
    Postfix {
        operand: Expr,
        suffixes: Vec<Suffix>,
    },
    Unary {
        operator: UnaryOp,
        operand: Expr,
    },
    /// Operands of operators of one level, one operator at the least. They group to the left.
    Binary {
        first: Expr,
        links: Vec<Link>,
    },
    /// `condition ? then : otherwise`
    Conditional {
        condition: Expr,
        then: Expr,
        otherwise: Expr,
    },
    /// `target operator value`
    Assign {
        target: Expr,
        operator: AssignOp,
        value: Expr,
    },
}

/// What follows an operand.
#[cycle(expressions)]
#[derive(Debug, Drop)]
pub enum Suffix {
    /// `.name`, at the name
    Field {
        place: Position,
        name: String,
    },
    /// `.name(arguments)`, at the name
    Method {
        place: Position,
        name: String,
        arguments: Vec<Expr>,
    },
    /// `[index]`
    Index(Expr),
    /// `++`
    Increment,
    /// `--`
    Decrement,
}

/// An operator and its right operand.
#[cycle(expressions)]
#[derive(Debug, Drop)]
pub struct Link {
    pub operator: BinaryOp,
    pub operand: Expr,
}
