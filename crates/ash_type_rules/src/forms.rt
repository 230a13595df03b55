//! What the rules of typing see of an operator and of an expression, besides their types.

use ash_typed::{Calculator, CallTarget, Comparator, Lazy, VarType};

/// The class of an operator between two operands, by the types that it takes.
#[derive(Clone, Copy)]
pub enum OperatorClass {
    /// `+ - * / % & ^ |`
    Arithmetic,
    /// `<< >> >>>`
    Shift,
    /// `< <= > >=`
    Order,
    /// `== !=`
    Equality,
    /// `is !is`
    Identity,
    /// `&& || ^^`
    Logic,
}

/// What an operator between two operands is in a typed tree.
#[derive(Clone, Copy)]
pub enum Operator {
    Calculate(Calculator),
    Compare(Comparator),
    Lazy(Lazy),
}

/// What an expression is by itself.
#[derive(Clone, Copy)]
pub enum Form {
    /// A number, which takes the type of the other operand; in brackets it is a value.
    Number(u64),
    /// A variable, a field or a property, also in brackets: what can be assigned.
    Place,
    /// `@place` left of `=`
    HandlePlace,
    Value,
}

/// What a name before brackets is.
#[derive(Clone, Copy)]
pub enum Callable {
    /// A method of the object that runs, which is of the class of this place, with what it gives, where it gives a
    /// value.
    OwnMethod {
        class: usize,
        method: usize,
        result: Option<VarType>,
    },
    Target(CallTarget),
}
