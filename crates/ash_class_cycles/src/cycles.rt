//! Ranks of places, each greater than those of the places that one goes to from there; or a cycle.

ghost use Rattle.std.specs.Prelude.{◌≡◌, ℕ, length, IfOk, IfErr, OnOk};
ghost use Rattle.ash_class_cycles.specs.Paths.{IsForemost, IsReportedCycle, Reaches, AreRanksAlong};
ghost use Rattle.ash_class_cycles.specs.Marking.{rows_of, Goes, AreWithin, IsAt, AreDistances};
ghost use Rattle.ash_class_cycles.specs.Marking.{IsNearest, unmarked};

use crate::distances::distances_to;
use std::alloc::{AllocError, Global};

/// A cycle: from the first place to the others in turn, and back.
#[derive(Debug, PartialEq, Eq, Drop)]
pub struct Cycle {
    pub first: usize,
    pub others: Vec<usize>,
}

// The first place at that distance that one goes to.
fn nearest(
    referrers: &[Vec<usize>],
    distances: &[Option<usize>],
    from: usize,
    distance: usize,
) -> Option<usize>
    requires length { length distances.now ≡ length referrers.now }
    ensures nearest { IsNearest (Goes (rows_of referrers.now)) distances.now from distance result }
{
    for (place, row) in referrers.iter().enumerate() {
        if distances[place] == Some(distance) && row.contains(&from) {
            return Some(place);
        }
    }
    None
}

// The places between on the foremost of the shortest paths back.
fn path_back(
    alloc: Global,
    referrers: &[Vec<usize>],
    distances: &[Option<usize>],
    first: usize,
    between: usize,
) -> Result<Vec<usize>, AllocError>
    requires distances { AreDistances (Goes (rows_of referrers.now)) (length referrers.now) first
        distances.now }
    requires back { IsAt distances.now first between }
    ensures foremost { IfOk result (λ path.
        IsForemost (Goes (rows_of referrers.now)) first path.items first) }
{
    let mut path = Vec::new(alloc);
    let mut at = first;
    let mut remaining = between;
    'steps: while remaining > 0 {
        remaining -= 1;
        let Some(next) = nearest(referrers, distances, at, remaining) else {
            unreachable!();
        };
        path.push(next)?;
        at = next;
    }
    Ok(path)
}

// How many places have no distance.
fn count_unmarked(distances: &[Option<usize>]) -> usize
    ensures value { result ≡ unmarked distances.now }
{
    distances
        .iter()
        .filter(|distance| distance.is_none())
        .count()
}

/// A rank for each place; or the cycle from the first place that reaches itself, by the first of its shortest paths
/// back.
///
/// `referrers` has for each place those that go to it, each below the number of places.
pub(crate) fn ranks(
    alloc: Global,
    referrers: &[Vec<usize>],
) -> Result<Result<Vec<usize>, Cycle>, AllocError>
    requires within { AreWithin (rows_of referrers.now) }
    ensures ranks { IfOk result (λ answer. IfOk answer (λ ranks.
        AreRanksAlong (Goes (rows_of referrers.now)) (length referrers.now) ranks.items)) }
    ensures acyclic { IfOk result (λ answer.
        OnOk answer ((place : ℕ) → Reaches (Goes (rows_of referrers.now)) place place → ⊥)) }
    ensures cycle { IfOk result (λ answer. IfErr answer (λ cycle.
        IsReportedCycle (Goes (rows_of referrers.now)) cycle.first cycle.others.items)) }
{
    let mut ranks = Vec::new(alloc);
    for first in 0..referrers.len() {
        let distances = distances_to(alloc, referrers, first)?;
        if let Some(between) = distances[first] {
            let others = path_back(alloc, referrers, &distances, first, between)?;
            return Ok(Err(Cycle { first, others }));
        }
        ranks.push(count_unmarked(&distances) - 1)?;
    }
    Ok(Ok(ranks))
}
