//! Typed expressions.
//!
//! Operators of one level and the suffixes of an operand are lists, so that a tree is no deeper where a sum is
//! long.

ghost use Rattle.std.specs.Prelude.{◌≡◌, IfOk, box_value};

use crate::tree::operations::{
    Calculation, CallTarget, Change, Conversion, IncrementOp, Lazy, Method, ObjectMember,
    Operation, Variable,
};
use crate::types::{Element, ObjectType, VarType};
use ash_integers::IntType;
use std::alloc::{AllocError, Global};

/// A typed expression: a box, so that what holds one stays small.
#[cycle(typed_expressions)]
#[derive(Drop)]
pub struct Expr {
    pub kind: Box<ExprKind>,
}

impl Expr {
    /// An expression of this kind.
    pub fn new(alloc: Global, kind: ExprKind) -> Result<Expr, AllocError>
        ensures of_kind { IfOk result (λ e. box_value e.kind ≡ kind) }
    {
        let kind = Box::new(alloc, kind)?;
        Ok(Expr { kind })
    }
}

/// What a typed expression is.
#[cycle(typed_expressions)]
#[derive(Drop)]
pub enum ExprKind {
    /// A number of an integer type that holds it.
    Number {
        of: IntType,
        value: u64,
    },
    Bool(bool),
    Null,
    /// The object that runs, of the class of this place.
    This(usize),
    /// What a variable holds.
    Variable(Variable),
    /// What the links make of it, one after the other.
    Path {
        base: Expr,
        links: Vec<Link>,
    },
    Convert {
        conversion: Conversion,
        value: Expr,
    },
    /// `cast<T>(value)`, of a class or an interface: null where the object is not of it.
    Cast {
        to: ObjectType,
        value: Expr,
    },
    Change {
        change: Change,
        operand: Expr,
    },
    /// What the operators make of it, one after the other.
    Chain {
        first: Expr,
        operands: Vec<Operand>,
    },
    /// The first operand, then the others as long as they leave open what comes out.
    Lazy {
        operator: Lazy,
        first: Expr,
        others: Vec<Expr>,
    },
    Conditional {
        condition: Expr,
        then: Expr,
        otherwise: Expr,
    },
    /// `place = value` or `@place = value`
    Assign {
        place: Place,
        value: Expr,
    },
    /// `place op= value`, at a place of type `of`: what it holds is converted to the type of the calculation, and what
    /// comes out is converted back.
    Update {
        place: Place,
        of: IntType,
        calculation: Calculation,
        value: Expr,
    },
    Step {
        place: Place,
        of: IntType,
        step: IncrementOp,
    },
    /// The parameters are the types of the arguments, in order.
    Call {
        target: CallTarget,
        parameters: Vec<VarType>,
        arguments: Vec<Expr>,
    },
}

/// What can be written to.
#[cycle(typed_expressions)]
#[derive(Drop)]
pub enum Place {
    Variable(Variable),
    Member {
        object: Expr,
        member: ObjectMember,
    },
    /// `array[index]`, with an index of type `uint`.
    Element {
        array: Expr,
        index: Expr,
        of: Element,
    },
}

/// What is made of an object.
#[cycle(typed_expressions)]
#[derive(Drop)]
pub enum Link {
    /// What it holds.
    Member(ObjectMember),
    /// What an array has at an index of type `uint`.
    Index {
        index: Expr,
        of: Element,
    },
    /// What its method gives. The parameters are the types of the arguments, in order.
    Invoke {
        method: Method,
        parameters: Vec<VarType>,
        arguments: Vec<Expr>,
    },
}

/// An operator with its right operand. What is before it is converted first, where a conversion is named.
#[cycle(typed_expressions)]
#[derive(Drop)]
pub struct Operand {
    pub before: Option<Conversion>,
    pub operation: Operation,
    pub value: Expr,
}
