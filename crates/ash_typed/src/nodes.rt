//! Nodes of typed trees.

ghost use Rattle.std.specs.Prelude.{◌≡◌, [], ◌∷◌, ◌++◌, map, option_map, IfOk};
ghost use Rattle.ash_typed.specs.TypedTree.{Read, Held, Indexed, Invoke, Cast, Alter};
ghost use Rattle.ash_typed.specs.TypedTree.{Lazily, Conditional, Assign, Update};
ghost use Rattle.ash_typed.specs.TypedTree.{Count, Call, exprs, converted};
ghost use Rattle.ash_typed.specs.StatementTree.{Block, Repeat, For, repeated};
ghost use Rattle.ash_typed.specs.StatementTree.{Switch, labelled, cases};
ghost use Rattle.ash_typed.specs.TypedTreeViews.{expr_in, expr_of, place_of, linked, chained};
ghost use Rattle.ash_typed.specs.BodyViews.{stmt_of, head_of, loop_of, case_of, body_of};
ghost use Rattle.ash_typed.specs.Flat.{base_of, links_of, first_of, operands_of, others_of};

pub use crate::places::place;
use crate::tree::expressions::{Expr, ExprKind, Link, Operand, Place};
use crate::tree::operations::{
    Calculation, CallTarget, Change, Conversion, IncrementOp, Lazy, Method, ObjectMember,
};
use crate::tree::statements::{Case, Head, Loop, Stmt, StmtKind, Test};
use crate::types::{Element, ObjectType, VarType};
use ash_integers::IntType;
use ash_tree::Label;
use std::alloc::{AllocError, Global};

/// A call of what is named as its target, with the types of its parameters.
pub fn call(
    alloc: Global,
    target: CallTarget,
    parameters: Vec<VarType>,
    arguments: Vec<Expr>,
) -> Result<Expr, AllocError>
    ensures calls_target { IfOk result (λ e.
        expr_of e ≡ Call target parameters.items (exprs (map expr_of arguments.items))) }
{
    let kind = ExprKind::Call {
        target,
        parameters,
        arguments,
    };
    Expr::new(alloc, kind)
}

/// What a link makes of an expression. A path takes it as one link more, so that it nests no deeper.
#[tactic(auto, using(crate::proofs::Rows::path_is, crate::proofs::Rows::all_linked_append))]
pub fn link(alloc: Global, base: Expr, next: Link) -> Result<Expr, AllocError>
    ensures value { IfOk result (λ e. expr_of e ≡ linked (expr_of base) next) }
    ensures same_base { IfOk result (λ e. base_of e ≡ base_of base) }
    ensures one_path { IfOk result (λ e. links_of e ≡ links_of base ++ next ∷ []) }
{
    match Box::into_inner(base.kind) {
        ExprKind::Path { base, mut links } => {
            links.push(next)?;
            Expr::new(alloc, ExprKind::Path { base, links })
        }
        kind => first_link(alloc, kind, next),
    }
}

/// A path of one link, after an expression of this kind.
#[tactic(auto, using(crate::proofs::Rows::path_is))]
fn first_link(alloc: Global, kind: ExprKind, next: Link) -> Result<Expr, AllocError>
    ensures value { IfOk result (λ e. expr_of e ≡ linked (expr_in kind) next) }
    ensures same_base { IfOk result (λ e. base_of e ≡ kind) }
    ensures one_link { IfOk result (λ e. links_of e ≡ next ∷ []) }
{
    let base = Expr::new(alloc, kind)?;
    let mut links = Vec::with_capacity(alloc, 1)?;
    links.push(next)?;
    Expr::new(alloc, ExprKind::Path { base, links })
}

/// What an object holds.
pub fn member(alloc: Global, object: Expr, member: ObjectMember) -> Result<Expr, AllocError>
    ensures value { IfOk result (λ e. expr_of e ≡ Read (Held (expr_of object) member)) }
    ensures same_base { IfOk result (λ e. base_of e ≡ base_of object) }
    ensures one_path { IfOk result (λ e. links_of e ≡ links_of object ++ Link.Member member ∷ []) }
{
    link(alloc, object, Link::Member(member))
}

/// What an array has at an index of type `uint`.
pub fn element(alloc: Global, array: Expr, index: Expr, of: Element) -> Result<Expr, AllocError>
    ensures value { IfOk result (λ e.
        expr_of e ≡ Read (Indexed (expr_of array) (expr_of index) of)) }
    ensures same_base { IfOk result (λ e. base_of e ≡ base_of array) }
    ensures one_path { IfOk result (λ e. links_of e ≡ links_of array ++ Link.Index index of ∷ []) }
{
    link(alloc, array, Link::Index { index, of })
}

/// What a method of an object gives.
#[tactic(auto, using(crate::proofs::Rows::invoke_is))]
pub fn invoke(
    alloc: Global,
    object: Expr,
    method: Method,
    parameters: Vec<VarType>,
    arguments: Vec<Expr>,
) -> Result<Expr, AllocError>
    ensures value { IfOk result (λ e.
        expr_of e ≡ Invoke (expr_of object) method parameters.items
        (exprs (map expr_of arguments.items))) }
    ensures same_base { IfOk result (λ e. base_of e ≡ base_of object) }
    ensures one_path { IfOk result (λ e.
        links_of e ≡ links_of object ++ Link.Invoke method parameters arguments ∷ []) }
{
    let next = Link::Invoke {
        method,
        parameters,
        arguments,
    };
    link(alloc, object, next)
}

/// What an operator makes of an expression. A chain takes it as one operator more, so that it nests no deeper.
#[tactic(auto, using(crate::proofs::Rows::chain_is, crate::proofs::Rows::all_chained_append))]
pub fn operate(alloc: Global, first: Expr, next: Operand) -> Result<Expr, AllocError>
    ensures value { IfOk result (λ e. expr_of e ≡ chained (expr_of first) next) }
    ensures same_first { IfOk result (λ e. first_of e ≡ first_of first) }
    ensures one_chain { IfOk result (λ e. operands_of e ≡ operands_of first ++ next ∷ []) }
{
    match Box::into_inner(first.kind) {
        ExprKind::Chain {
            first,
            mut operands,
        } => {
            operands.push(next)?;
            Expr::new(alloc, ExprKind::Chain { first, operands })
        }
        kind => first_operator(alloc, kind, next),
    }
}

/// A chain of one operator, whose first operand is of this kind.
#[tactic(auto, using(crate::proofs::Rows::chain_is))]
fn first_operator(alloc: Global, kind: ExprKind, next: Operand) -> Result<Expr, AllocError>
    ensures value { IfOk result (λ e. expr_of e ≡ chained (expr_in kind) next) }
    ensures same_first { IfOk result (λ e. first_of e ≡ kind) }
    ensures one_operator { IfOk result (λ e. operands_of e ≡ next ∷ []) }
{
    let first = Expr::new(alloc, kind)?;
    let mut operands = Vec::with_capacity(alloc, 1)?;
    operands.push(next)?;
    Expr::new(alloc, ExprKind::Chain { first, operands })
}

/// `&&` or `||` between two operands. A row of operands of the same operator takes one more, so that it nests no
/// deeper.
#[tactic(auto, using(crate::proofs::Rows::lazy_is, crate::proofs::Rows::all_lazies_append))]
pub fn lazily(alloc: Global, operator: Lazy, first: Expr, next: Expr) -> Result<Expr, AllocError>
    ensures value { IfOk result (λ e. expr_of e ≡ Lazily operator (expr_of first) (expr_of next)) }
    ensures one_row { IfOk result (λ e.
        others_of operator e ≡ others_of operator first ++ next ∷ []) }
{
    match Box::into_inner(first.kind) {
        ExprKind::Lazy {
            operator: before,
            first,
            mut others,
        } => {
            if before != operator {
                let kind = ExprKind::Lazy {
                    operator: before,
                    first,
                    others,
                };
                return first_lazily(alloc, operator, kind, next);
            }
            others.push(next)?;
            let kind = ExprKind::Lazy {
                operator,
                first,
                others,
            };
            Expr::new(alloc, kind)
        }
        kind => first_lazily(alloc, operator, kind, next),
    }
}

/// A row of two operands, of which the first is of this kind.
#[tactic(auto, using(crate::proofs::Rows::lazy_is, crate::proofs::Rows::all_lazies_append))]
fn first_lazily(
    alloc: Global,
    operator: Lazy,
    kind: ExprKind,
    next: Expr,
) -> Result<Expr, AllocError>
    ensures value { IfOk result (λ e. expr_of e ≡ Lazily operator (expr_in kind) (expr_of next)) }
    ensures one_other { IfOk result (λ e. others_of operator e ≡ next ∷ []) }
{
    let first = Expr::new(alloc, kind)?;
    let mut others = Vec::with_capacity(alloc, 1)?;
    others.push(next)?;
    let kind = ExprKind::Lazy {
        operator,
        first,
        others,
    };
    Expr::new(alloc, kind)
}

/// The value, converted where a conversion is named.
pub fn convert(
    alloc: Global,
    conversion: Option<Conversion>,
    value: Expr,
) -> Result<Expr, AllocError>
    ensures conversion_applied { IfOk result (λ e.
        expr_of e ≡ converted conversion (expr_of value)) }
{
    match conversion {
        None => Ok(value),
        Some(conversion) => Expr::new(alloc, ExprKind::Convert { conversion, value }),
    }
}

/// `cast<T>(value)`, with the type
pub fn cast(alloc: Global, to: ObjectType, value: Expr) -> Result<Expr, AllocError>
    ensures cast_to_type { IfOk result (λ e. expr_of e ≡ Cast to (expr_of value)) }
{
    Expr::new(alloc, ExprKind::Cast { to, value })
}

/// `-operand`, `~operand` or `!operand`
pub fn alter(alloc: Global, change: Change, operand: Expr) -> Result<Expr, AllocError>
    ensures operator_applied { IfOk result (λ e. expr_of e ≡ Alter change (expr_of operand)) }
{
    Expr::new(alloc, ExprKind::Change { change, operand })
}

/// `condition ? then : otherwise`
pub fn conditional(
    alloc: Global,
    condition: Expr,
    then: Expr,
    otherwise: Expr,
) -> Result<Expr, AllocError>
    ensures branches_in_order { IfOk result (λ e.
        expr_of e ≡ Conditional (expr_of condition) (expr_of then) (expr_of otherwise)) }
{
    let kind = ExprKind::Conditional {
        condition,
        then,
        otherwise,
    };
    Expr::new(alloc, kind)
}

/// `place = value`
pub fn assign(alloc: Global, place: Place, value: Expr) -> Result<Expr, AllocError>
    ensures value_assigned { IfOk result (λ e.
        expr_of e ≡ Assign (place_of place) (expr_of value)) }
{
    Expr::new(alloc, ExprKind::Assign { place, value })
}

/// `place op= value`
pub fn update(
    alloc: Global,
    place: Place,
    of: IntType,
    calculation: Calculation,
    value: Expr,
) -> Result<Expr, AllocError>
    ensures place_updated { IfOk result (λ e.
        expr_of e ≡ Update (place_of place) of calculation (expr_of value)) }
{
    let kind = ExprKind::Update {
        place,
        of,
        calculation,
        value,
    };
    Expr::new(alloc, kind)
}

/// `++` or `--`
pub fn count(
    alloc: Global,
    place: Place,
    of: IntType,
    step: IncrementOp,
) -> Result<Expr, AllocError>
    ensures place_counted { IfOk result (λ e. expr_of e ≡ Count (place_of place) of step) }
{
    Expr::new(alloc, ExprKind::Step { place, of, step })
}

/// `{ body }`
pub fn block(line: usize, body: Vec<Stmt>) -> Stmt
    ensures body_in_order { stmt_of result ≡ Block line (body_of body.items) }
{
    Stmt {
        line,
        kind: StmtKind::Block(body),
    }
}

/// What is repeated.
pub fn repetition(test: Test, condition: Option<Expr>, steps: Vec<Expr>, body: Box<Stmt>) -> Loop
    ensures body_repeated { loop_of result
        ≡ repeated test (option_map expr_of condition) (map expr_of steps.items)
        (stmt_of body.value) }
{
    Loop {
        test,
        condition,
        steps,
        body,
    }
}

/// `while` and `do`
pub fn repeat(line: usize, inside: Loop) -> Stmt
    ensures loop_of_line { stmt_of result ≡ Repeat line (loop_of inside) }
{
    Stmt {
        line,
        kind: StmtKind::Repeat(inside),
    }
}

/// `for`
pub fn for_loop(line: usize, head: Head, inside: Loop) -> Stmt
    ensures head_before_loop { stmt_of result ≡ For line (head_of head) (loop_of inside) }
{
    Stmt {
        line,
        kind: StmtKind::For { head, inside },
    }
}

/// `switch (value) { cases }`, of this integer type
pub fn switch(line: usize, int_type: IntType, value: Expr, labels: Vec<Case>) -> Stmt
    ensures cases_in_order { stmt_of result
        ≡ Switch line int_type (expr_of value) (cases (map case_of labels.items)) }
{
    Stmt {
        line,
        kind: StmtKind::Switch {
            of: int_type,
            value,
            cases: labels,
        },
    }
}

/// A label with the statements after it.
pub fn case(label: Label, body: Vec<Stmt>) -> Case
    ensures label_first { case_of result ≡ labelled label (body_of body.items) }
{
    Case { label, body }
}
