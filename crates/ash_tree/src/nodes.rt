//! Nodes that hold lists.

ghost use Rattle.std.specs.Prelude.{◌≡◌, map, option_map, string_bytes, IfOk};
ghost use Rattle.ash_tree.specs.Tree.{Call, Brackets, Convert, NewArray, Cast};
ghost use Rattle.ash_tree.specs.Tree.{Unary, Conditional, Assign, Method, Index};
ghost use Rattle.ash_tree.specs.Tree.{Evaluate, Declare, Block, Switch};
ghost use Rattle.ash_tree.specs.Tree.{For, place_of, place_of_type};
ghost use Rattle.ash_tree.specs.Tree.{exprs, chained, suffixed, stmts, labelled, cases};
ghost use Rattle.ash_tree.specs.TreeViews.{expr_at, expr_of, suffix_of, operation_of, stmt_at, stmt_of};
ghost use Rattle.ash_tree.specs.TreeViews.{case_of, vars_of};
ghost use Rattle.ash_tree.specs.TreeViews.{type_of, element_of, type_name_of};

use crate::tree::expressions::{Expr, ExprKind, Link, Suffix};
use crate::tree::operators::{AssignOp, UnaryOp};
use crate::tree::places::Position;
use crate::tree::statements::{Case, Label, Stmt, StmtKind, Vars};
use crate::tree::types::{Element, Primitive, TypeName};
use std::alloc::{AllocError, Global};

/// An expression of this kind, at its first token.
pub fn expression(alloc: Global, place: Position, kind: ExprKind) -> Result<Expr, AllocError>
    ensures placed { IfOk result (λ e. expr_of e ≡ expr_at place kind) }
{
    let kind = Box::new(alloc, kind)?;
    Ok(Expr { place, kind })
}

/// `name(arguments)`
pub fn call(
    alloc: Global,
    place: Position,
    name: String,
    arguments: Vec<Expr>,
) -> Result<Expr, AllocError>
    ensures calls_name { IfOk result (λ e. expr_of e
        ≡ Call place (string_bytes name) (exprs (map expr_of arguments.items))) }
{
    expression(alloc, place, ExprKind::Call { name, arguments })
}

/// `.name(arguments)`
pub fn method(place: Position, name: String, arguments: Vec<Expr>) -> Suffix
    ensures calls_method { suffix_of result
        ≡ Method place (string_bytes name) (exprs (map expr_of arguments.items)) }
{
    Suffix::Method {
        place,
        name,
        arguments,
    }
}

/// `array<of>(arguments)`
pub fn new_array(
    alloc: Global,
    place: Position,
    of: Element,
    arguments: Vec<Expr>,
) -> Result<Expr, AllocError>
    ensures makes_array { IfOk result (λ e. expr_of e
        ≡ NewArray place (element_of of) (exprs (map expr_of arguments.items))) }
{
    let of = Box::new(alloc, of)?;
    expression(alloc, place, ExprKind::NewArray { of, arguments })
}

/// The first operand, with the operators after it where there are any.
pub fn binary(alloc: Global, first: Expr, links: Vec<Link>) -> Result<Expr, AllocError>
    ensures operators_in_order { IfOk result (λ e. expr_of e
        ≡ chained (expr_of first) (map operation_of links.items)) }
{
    if links.is_empty() {
        return Ok(first);
    }
    let place = first.place;
    expression(alloc, place, ExprKind::Binary { first, links })
}

/// The operand, with the suffixes after it where there are any.
pub fn postfix(alloc: Global, operand: Expr, suffixes: Vec<Suffix>) -> Result<Expr, AllocError>
    ensures suffixes_in_order { IfOk result (λ e. expr_of e
        ≡ suffixed (expr_of operand) (map suffix_of suffixes.items)) }
{
    if suffixes.is_empty() {
        return Ok(operand);
    }
    let place = operand.place;
    expression(alloc, place, ExprKind::Postfix { operand, suffixes })
}

/// A statement of this kind, at its first token.
pub fn statement(alloc: Global, place: Position, kind: StmtKind) -> Result<Stmt, AllocError>
    ensures placed { IfOk result (λ s. stmt_of s ≡ stmt_at place kind) }
{
    let kind = Box::new(alloc, kind)?;
    Ok(Stmt { place, kind })
}

/// `{ body }`
pub fn block(alloc: Global, place: Position, body: Vec<Stmt>) -> Result<Stmt, AllocError>
    ensures body_in_order { IfOk result (λ s. stmt_of s
        ≡ Block place (stmts (map stmt_of body.items))) }
{
    statement(alloc, place, StmtKind::Block(body))
}

/// `switch (value) { labels }`
pub fn switch(
    alloc: Global,
    place: Position,
    value: Expr,
    labels: Vec<Case>,
) -> Result<Stmt, AllocError>
    ensures cases_in_order { IfOk result (λ s. stmt_of s
        ≡ Switch place (expr_of value) (cases (map case_of labels.items))) }
{
    let kind = StmtKind::Switch {
        value,
        cases: labels,
    };
    statement(alloc, place, kind)
}

/// A label of a `switch`, with the statements after it.
pub fn case(place: Position, label: Label, body: Vec<Stmt>) -> Case
    ensures body_after_label { case_of result
        ≡ labelled place label (stmts (map stmt_of body.items)) }
{
    Case { place, label, body }
}

/// `(inner)`
pub fn brackets(alloc: Global, place: Position, inner: Expr) -> Result<Expr, AllocError>
    ensures in_brackets { IfOk result (λ e. expr_of e ≡ Brackets place (expr_of inner)) }
{
    expression(alloc, place, ExprKind::Brackets(inner))
}

/// `to(value)`
pub fn convert(
    alloc: Global,
    place: Position,
    to: Primitive,
    value: Expr,
) -> Result<Expr, AllocError>
    ensures conversion_applied { IfOk result (λ e. expr_of e ≡ Convert place to (expr_of value)) }
{
    expression(alloc, place, ExprKind::Convert { to, value })
}

/// `cast<to>(value)`
pub fn cast(alloc: Global, place: Position, to: TypeName, value: Expr) -> Result<Expr, AllocError>
    ensures cast_to_type { IfOk result (λ e. expr_of e
        ≡ Cast place (type_name_of to) (expr_of value)) }
{
    expression(alloc, place, ExprKind::Cast { to, value })
}

/// `[value]`
pub fn index(value: Expr) -> Suffix
    ensures indexed_by_value { suffix_of result ≡ Index (expr_of value) }
{
    Suffix::Index(value)
}

/// `operator operand`
pub fn unary(
    alloc: Global,
    place: Position,
    operator: UnaryOp,
    operand: Expr,
) -> Result<Expr, AllocError>
    ensures operator_applied { IfOk result (λ e. expr_of e
        ≡ Unary place operator (expr_of operand)) }
{
    expression(alloc, place, ExprKind::Unary { operator, operand })
}

/// `condition ? then : otherwise`
pub fn conditional(
    alloc: Global,
    place: Position,
    condition: Expr,
    then: Expr,
    otherwise: Expr,
) -> Result<Expr, AllocError>
    ensures branches_in_order { IfOk result (λ e. expr_of e
        ≡ Conditional place (expr_of condition) (expr_of then) (expr_of otherwise)) }
{
    let kind = ExprKind::Conditional {
        condition,
        then,
        otherwise,
    };
    expression(alloc, place, kind)
}

/// `target operator value`
#[tactic(auto, using(crate::proofs::Rows::place_is))]
pub fn assign(
    alloc: Global,
    target: Expr,
    operator: AssignOp,
    value: Expr,
) -> Result<Expr, AllocError>
    ensures value_assigned { IfOk result (λ e. expr_of e
        ≡ Assign (place_of (expr_of target)) (expr_of target) operator (expr_of value)) }
{
    let place = target.place;
    let kind = ExprKind::Assign {
        target,
        operator,
        value,
    };
    expression(alloc, place, kind)
}

/// The statement that only evaluates an expression.
#[tactic(auto, using(crate::proofs::Rows::place_is))]
pub fn evaluate(alloc: Global, value: Expr) -> Result<Stmt, AllocError>
    ensures value_evaluated { IfOk result (λ s. stmt_of s
        ≡ Evaluate (place_of (expr_of value)) (expr_of value)) }
{
    let place = value.place;
    statement(alloc, place, StmtKind::Expr(value))
}

/// The declaration of variables in a block.
#[tactic(auto, using(crate::proofs::Rows::type_place_is))]
pub fn declare(alloc: Global, vars: Vars) -> Result<Stmt, AllocError>
    ensures variables_declared { IfOk result (λ s. stmt_of s
        ≡ Declare (place_of_type (type_of vars.of)) (vars_of vars)) }
{
    let place = vars.of.place;
    statement(alloc, place, StmtKind::Vars(vars))
}

/// What is between the brackets of a `for`: `first; condition; steps`.
#[derive(Debug, Drop)]
pub struct ForHead {
    pub first: Stmt,
    pub condition: Option<Expr>,
    pub steps: Vec<Expr>,
}

/// `for (head) body`
pub fn for_loop(
    alloc: Global,
    place: Position,
    head: ForHead,
    body: Stmt,
) -> Result<Stmt, AllocError>
    ensures head_before_body { IfOk result (λ s. stmt_of s
        ≡ For place (stmt_of head.first) (option_map expr_of head.condition)
        (map expr_of head.steps.items) (stmt_of body)) }
{
    let ForHead {
        first,
        condition,
        steps,
    } = head;
    let kind = StmtKind::For {
        first,
        condition,
        steps,
        body,
    };
    statement(alloc, place, kind)
}
