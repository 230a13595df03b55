//! What a phrase of a script breaks, and where.

ghost use Rattle.std.specs.Prelude.{◌≡◌};
ghost use Rattle.ash_type_rules.specs.RuleCodes.{code_of};

use std::fmt;
use thiserror::Error;

/// A rule of typing that a phrase breaks.
#[derive(Clone, Copy, Debug, PartialEq, Eq)]
pub enum Rule {
    /// A name that nothing has.
    UnknownName,
    /// A type that nothing has.
    UnknownType,
    /// A name that something else has.
    NameTaken,
    /// An expression of a type that does not fit.
    TypeMismatch,
    /// A call with more or fewer arguments than there are parameters.
    WrongArgumentCount,
    /// An assignment to what is no place, or to a place that takes none.
    NotAssignable,
    /// A function with a result that may end without one.
    NoReturn,
    /// A phrase that may not be where it is.
    Misplaced,
    /// An object of a registered type that scripts can't construct.
    NoFactory,
    /// One more than there may be.
    TooMany,
    /// A constant of a `case` that its `switch` can't have.
    ConstantOutOfRange,
    /// A constant of a `case` that an earlier one has.
    DuplicateCase,
}

impl Rule {
    /// The code by which it is reported: its number and its name.
    pub fn code(self) -> &'static str
        ensures coded { result.now ≡ code_of self }
    {
        match self {
            Rule::UnknownName => "301 UnknownName",
            Rule::UnknownType => "302 UnknownType",
            Rule::NameTaken => "303 NameTaken",
            Rule::TypeMismatch => "304 TypeMismatch",
            Rule::WrongArgumentCount => "305 WrongArgumentCount",
            Rule::NotAssignable => "306 NotAssignable",
            Rule::NoReturn => "307 NoReturn",
            Rule::Misplaced => "308 Misplaced",
            Rule::NoFactory => "310 NoFactory",
            Rule::TooMany => "311 TooMany",
            Rule::ConstantOutOfRange => "312 ConstantOutOfRange",
            Rule::DuplicateCase => "313 DuplicateCase",
        }
    }
}

/// What is wrong where the rule is broken, without the place.
impl fmt::Display for Rule {
    fn fmt<W: fmt::Write>(&self, f: &mut fmt::Formatter<W>) -> fmt::Result {
        f.write_str(match self {
            Rule::UnknownName => "unknown name",
            Rule::UnknownType => "unknown type",
            Rule::NameTaken => "name that is taken",
            Rule::TypeMismatch => "type that does not fit",
            Rule::WrongArgumentCount => "wrong number of arguments",
            Rule::NotAssignable => "assignment to what takes none",
            Rule::NoReturn => "function that may end without a result",
            Rule::Misplaced => "misplaced phrase",
            Rule::NoFactory => "object that scripts can't construct",
            Rule::TooMany => "one more than there may be",
            Rule::ConstantOutOfRange => "constant out of range",
            Rule::DuplicateCase => "case that an earlier one has",
        })
    }
}

/// A rule that is broken, and the offset of the first byte of the token at which it is reported.
#[derive(Clone, Copy, Debug, PartialEq, Eq, Error)]
#[error("{rule} at byte {at}")]
pub struct Fault {
    pub rule: Rule,
    pub at: usize,
}
