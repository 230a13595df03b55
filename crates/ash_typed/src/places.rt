//! Places in typed expressions.

ghost use Rattle.std.specs.Prelude.{◌≡◌, option_map, IfOk};
ghost use Rattle.ash_typed.specs.TypedTree.{place_in};
ghost use Rattle.ash_typed.specs.TypedTreeViews.{expr_of, place_of, all_linked, all_chained, all_lazies};

use crate::tree::expressions::{Expr, ExprKind, Link, Operand, Place};
use crate::tree::operations::Lazy;
use std::alloc::{AllocError, Global};

/// The place that an expression reads.
#[cycle(places)]
#[tactic(auto, using(crate::proofs::Rows::path_is, crate::proofs::Rows::chain_is, crate::proofs::Rows::lazy_is))]
pub fn place(alloc: Global, expr: Expr) -> Result<Option<Place>, AllocError>
    ensures place_read { IfOk result (λ found.
        option_map place_of found ≡ place_in (expr_of expr)) }
{
    match Box::into_inner(expr.kind) {
        ExprKind::Variable(variable) => Ok(Some(Place::Variable(variable))),
        ExprKind::Path { base, links } => member_of(alloc, base, links),
        ExprKind::Number { .. } | ExprKind::Bool(_) | ExprKind::Null | ExprKind::This(_) => Ok(
            None,
        ),
        ExprKind::Chain { first, operands } => chain_place(alloc, first, operands),
        ExprKind::Lazy {
            operator,
            first,
            others,
        } => lazy_place(alloc, operator, first, others),
        ExprKind::Convert { .. } | ExprKind::Cast { .. } | ExprKind::Change { .. } => Ok(None),
        ExprKind::Conditional { .. } | ExprKind::Assign { .. } | ExprKind::Update { .. } => Ok(
            None,
        ),
        ExprKind::Step { .. } | ExprKind::Call { .. } => Ok(None),
    }
}

/// What the last link holds, of what the links before it give.
#[cycle(places)]
#[tactic(auto, using(crate::proofs::Rows::path_is, crate::proofs::Rows::all_linked_append))]
fn member_of(alloc: Global, base: Expr, mut links: Vec<Link>) -> Result<Option<Place>, AllocError>
    ensures value { IfOk result (λ found.
        option_map place_of found ≡ place_in (all_linked (expr_of base) links.items)) }
{
    match links.pop() {
        Some(Link::Member(member)) => {
            let object = Expr::new(alloc, ExprKind::Path { base, links })?;
            Ok(Some(Place::Member { object, member }))
        }
        Some(Link::Index { index, of }) => {
            let array = Expr::new(alloc, ExprKind::Path { base, links })?;
            Ok(Some(Place::Element { array, index, of }))
        }
        Some(Link::Invoke { .. }) => Ok(None),
        None => place(alloc, base),
    }
}

/// A place that is alone.
#[cycle(places)]
#[tactic(auto, using(crate::proofs::Rows::chain_is, crate::proofs::Rows::no_place_chained))]
fn chain_place(
    alloc: Global,
    first: Expr,
    operands: Vec<Operand>,
) -> Result<Option<Place>, AllocError>
    ensures value { IfOk result (λ found.
        option_map place_of found ≡ place_in (all_chained (expr_of first) operands.items)) }
{
    if operands.is_empty() {
        return place(alloc, first);
    }
    Ok(None)
}

/// A place that is alone.
#[cycle(places)]
#[tactic(auto, using(crate::proofs::Rows::no_place_lazies))]
fn lazy_place(
    alloc: Global,
    operator: Lazy,
    first: Expr,
    others: Vec<Expr>,
) -> Result<Option<Place>, AllocError>
    ensures value { IfOk result (λ found.
        option_map place_of found
        ≡ place_in (all_lazies operator (expr_of first) others.items)) }
{
    if others.is_empty() {
        return place(alloc, first);
    }
    Ok(None)
}
