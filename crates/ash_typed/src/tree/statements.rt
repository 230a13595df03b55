//! Typed statements. A tick before a statement, and before each evaluation of its condition, sets the line of the
//! statement.

use crate::tree::expressions::Expr;
use crate::types::VarType;
use ash_integers::IntType;
use ash_tree::Label;

/// A variable that is declared: its name, its type, and what it begins with; where nothing is written, with zero,
/// `false` or null.
#[derive(Drop)]
pub struct Initialization {
    pub name: String,
    pub of: VarType,
    pub value: Option<Expr>,
}

/// The head of a `for`. It takes no tick.
#[derive(Drop)]
pub enum Head {
    Empty,
    /// Variables, which the loop inside sees.
    Declare(Vec<Initialization>),
    Evaluate(Expr),
}

/// When the condition of a loop is evaluated.
#[derive(Clone, Copy)]
pub enum Test {
    /// Before each turn.
    First,
    /// After each turn, so that there is at least one.
    Last,
}

/// A statement, with the line of its first token.
#[cycle(typed_statements)]
#[derive(Drop)]
pub struct Stmt {
    pub line: usize,
    pub kind: StmtKind,
}

/// What a statement does.
#[cycle(typed_statements)]
#[derive(Drop)]
pub enum StmtKind {
    Empty,
    /// Variables are added to those of the block, in order.
    Declare(Vec<Initialization>),
    Evaluate(Expr),
    Block(Vec<Stmt>),
    If {
        condition: Expr,
        then: Box<Stmt>,
        otherwise: Option<Box<Stmt>>,
    },
    /// `while` and `do`
    Repeat(Loop),
    /// `for`: the head and the loop inside it are a block of their own.
    For {
        head: Head,
        inside: Loop,
    },
    /// The value is of an integer type, which holds the constant of each label.
    Switch {
        of: IntType,
        value: Expr,
        cases: Vec<Case>,
    },
    Break,
    Continue,
    Return(Option<Expr>),
}

/// What is repeated: the body, then the steps. An absent condition is `true`.
#[cycle(typed_statements)]
#[derive(Drop)]
pub struct Loop {
    pub test: Test,
    pub condition: Option<Expr>,
    pub steps: Vec<Expr>,
    pub body: Box<Stmt>,
}

/// A label of a `switch`, with the statements after it.
#[cycle(typed_statements)]
#[derive(Drop)]
pub struct Case {
    pub label: Label,
    pub body: Vec<Stmt>,
}
