//! Declarations of variables, and statements (AngelScript manual, "Statements").

use crate::tree::expressions::Expr;
use crate::tree::places::Position;
use crate::tree::types::Type;

/// Variables of one type, one at the least: `type decl, ..;`
#[derive(Debug, Drop)]
pub struct Vars {
    pub of: Type,
    pub decls: Vec<Decl>,
}

/// A variable, at its name.
#[derive(Debug, Drop)]
pub struct Decl {
    pub place: Position,
    pub name: String,
    pub initializer: Initializer,
}

/// What a variable begins with.
#[derive(Debug, Drop)]
pub enum Initializer {
    /// Nothing is written.
    Default,
    /// `= value`
    Value(Expr),
    /// `(arguments)`
    Arguments(Vec<Expr>),
}

/// A statement, or the declaration of variables in a block, at its first token.
#[cycle(statements)]
#[derive(Debug, Drop)]
pub struct Stmt {
    pub place: Position,
    pub kind: Box<StmtKind>,
}

/// What a statement is.
#[cycle(statements)]
#[derive(Debug, Drop)]
pub enum StmtKind {
    /// `;`
    Empty,
    /// The declaration of variables, in a block or in the head of a `for`.
    Vars(Vars),
    Expr(Expr),
    /// `{ body }`
    Block(Vec<Stmt>),
    If {
        condition: Expr,
        then: Stmt,
    },
    IfElse {
        condition: Expr,
        then: Stmt,
        otherwise: Stmt,
    },
    While {
        condition: Expr,
        body: Stmt,
    },
    DoWhile {
        body: Stmt,
        condition: Expr,
    },
    /// `for (first; condition; steps) body`, where `first` declares variables, is an expression, or is empty.
    For {
        first: Stmt,
        condition: Option<Expr>,
        steps: Vec<Expr>,
        body: Stmt,
    },
    Switch {
        value: Expr,
        cases: Vec<Case>,
    },
    Break,
    Continue,
    Return(Option<Expr>),
}

/// A label of a `switch`, at its constant (the `-` where there is one) or at the word `default`, with the statements
/// after it.
#[cycle(statements)]
#[derive(Debug, Drop)]
pub struct Case {
    pub place: Position,
    pub label: Label,
    pub body: Vec<Stmt>,
}

/// Which values a label of a `switch` takes.
#[derive(Clone, Copy, Debug, PartialEq, Eq)]
pub enum Label {
    /// `case value:`
    Case(u64),
    /// `case -value:`
    CaseMinus(u64),
    /// `default:`
    Default,
}
