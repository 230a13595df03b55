//! What a typed tree names: variables, members, functions, and operators with their integer types.

use crate::types::{Element, VarType};
use ash_integers::IntType;

/// A variable, with its type.
#[derive(Clone, Copy)]
pub enum Variable {
    /// A local or a parameter, by its slot: how many locals its function has before it. The parameters are the first.
    Local { slot: usize, of: VarType },
    /// A global of the module, by its place among them.
    Global { place: usize, of: VarType },
}

/// What an object holds.
#[derive(Clone, Copy)]
pub enum ObjectMember {
    /// A field of a class, by the place of the class and its own among the fields, with its type.
    Field {
        class: usize,
        place: usize,
        of: VarType,
    },
    /// A property of a registered type, by its number, with its type.
    Property {
        id: u16,
        of: VarType,
    },
}

/// A method of an object. What gives no value has no result.
#[derive(Clone, Copy)]
pub enum Method {
    /// A method of a class, by their places, with what it gives.
    Script {
        class: usize,
        method: usize,
        result: Option<VarType>,
    },
    /// A method that an interface declares, by their places, with what it gives. It is the object's own method of that
    /// name that runs.
    Interface {
        interface: usize,
        method: usize,
        result: Option<VarType>,
    },
    /// A method of a registered type, by its number, with what it gives.
    Host {
        id: u16,
        result: Option<VarType>,
    },
    Array(ArrayMethod),
}

/// A method of arrays (AngelScript manual, "Arrays").
#[derive(Clone, Copy)]
pub enum ArrayMethod {
    /// `uint length()`
    Length,
    /// `void resize(uint)`
    Resize,
    /// `void insertLast(T)`
    InsertLast,
    /// `void removeLast()`
    RemoveLast,
    /// `bool isEmpty()`
    IsEmpty,
}

/// What a call calls, but for methods. What gives no value has no result.
#[derive(Clone, Copy)]
pub enum CallTarget {
    /// A function of the module, by its place among them, with what it gives.
    Function {
        function: usize,
        result: Option<VarType>,
    },
    /// A function of a registered service, by its index and its number, with what it gives.
    Service {
        service: u16,
        id: u16,
        result: Option<VarType>,
    },
    /// The construction of an object of a class.
    Class(usize),
    /// The construction of an object of a registered type, by its kind.
    Host(u16),
    /// The construction of an array: empty, or of as many elements as its one argument says, each zero, `false` or
    /// null.
    Array(Element),
}

/// What is compared: both operands are of it.
#[derive(Clone, Copy, Debug)]
pub enum Operands {
    Integers(IntType),
    Bools,
    /// Objects and null.
    Handles,
}

/// An operator that makes an integer of two.
#[derive(Clone, Copy)]
pub enum Calculator {
    /// `*`
    Multiply,
    /// `/`
    Divide,
    /// `%`
    Remainder,
    /// `+`
    Add,
    /// `-`
    Subtract,
    /// `<<`
    ShiftLeft,
    /// `>>`
    ShiftRight,
    /// `>>>`
    ShiftRightArithmetic,
    /// `&`
    BitAnd,
    /// `^`
    BitXor,
    /// `|`
    BitOr,
}

/// The calculation of an integer of this type. Both operands are of it, but for the count of a shift, which is of any
/// integer type.
#[derive(Clone, Copy)]
pub struct Calculation {
    pub operator: Calculator,
    pub of: IntType,
}

/// An operator that makes a truth value of two operands, and evaluates both.
#[derive(Clone, Copy)]
pub enum Comparator {
    /// `<`
    Less,
    /// `<=`
    LessOrEqual,
    /// `>`
    Greater,
    /// `>=`
    GreaterOrEqual,
    /// `==`
    Equal,
    /// `!=`
    NotEqual,
    /// `is`
    Is,
    /// `!is`
    NotIs,
    /// `^^`
    Xor,
}

/// What is made of two operands.
#[derive(Clone, Copy)]
pub enum Operation {
    Calculate(Calculation),
    Compare(Comparator, Operands),
}

/// An operator whose right operand is evaluated only where the left one leaves open what comes out.
#[derive(Clone, Copy, PartialEq)]
pub enum Lazy {
    /// `&&`
    And,
    /// `||`
    Or,
}

/// An operation before its operand.
#[derive(Clone, Copy)]
pub enum Change {
    /// Unary `-`.
    Negate(IntType),
    /// `~`
    Complement(IntType),
    /// `!`
    Not,
}

/// A conversion among integer types.
#[derive(Clone, Copy)]
pub struct Conversion {
    pub from: IntType,
    pub to: IntType,
}

/// What `++` or `--` does to a place, and which of its values it gives.
#[derive(Clone, Copy)]
pub enum IncrementOp {
    /// `++p`
    Increment,
    /// `--p`
    Decrement,
    /// `p++`, which gives the old value
    IncrementAfter,
    /// `p--`, which gives the old value
    DecrementAfter,
}
