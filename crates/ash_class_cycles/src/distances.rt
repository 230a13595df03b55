//! How far each place is from one that it leads to.

ghost use Rattle.std.specs.Prelude.{◌≡◌, ℕ, ◌<◌, length, All, OnOk, IfOk};
ghost use Rattle.std.specs.Prelude.{Contains, vec_len, replicate};
ghost use Rattle.ash_class_cycles.specs.Marking.{rows_of, Goes, AreWithin, GoesToOne};
ghost use Rattle.ash_class_cycles.specs.Marking.{Marks, AreDistances};

use std::alloc::{AllocError, Global};

// A place gets this distance, unless it has one, and is found then.
fn mark(
    place: usize,
    distance: usize,
    distances: &mut Vec<Option<usize>>,
    found: &mut Vec<usize>,
) -> Result<(), AllocError>
    requires within { place < length distances.old.items }
    ensures marks { OnOk result
        (Marks (λ p. p ≡ place) distance distances.old.items distances.new.items found.old.items
        found.new.items) }
{
    if distances[place].is_none() {
        found.push(place)?;
        distances[place] = Some(distance);
    }
    Ok(())
}

fn mark_row(
    row: &[usize],
    distance: usize,
    distances: &mut Vec<Option<usize>>,
    found: &mut Vec<usize>,
) -> Result<(), AllocError>
    requires within { All (λ place. place < length distances.old.items) row.now }
    ensures marks { OnOk result
        (Marks (λ p. Contains row.now p) distance distances.old.items distances.new.items
        found.old.items found.new.items) }
{
    for place in row {
        mark(*place, distance, distances, found)?;
    }
    Ok(())
}

// Marks the places that go to one of a level.
fn mark_level(
    referrers: &[Vec<usize>],
    level: &[usize],
    distance: usize,
    distances: &mut Vec<Option<usize>>,
    found: &mut Vec<usize>,
) -> Result<(), AllocError>
    requires within { AreWithin (rows_of referrers.now) }
    requires long { length distances.old.items ≡ length referrers.now }
    requires places { All (λ place. place < length referrers.now) level.now }
    ensures marks { OnOk result
        (Marks (GoesToOne (Goes (rows_of referrers.now)) level.now) distance distances.old.items
        distances.new.items found.old.items found.new.items) }
{
    for to in level {
        mark_row(&referrers[*to], distance, distances, found)?;
    }
    Ok(())
}

// No place has a distance.
fn no_distances(alloc: Global, places: usize) -> Result<Vec<Option<usize>>, AllocError>
    ensures value { IfOk result (λ distances. distances.items ≡ replicate places None) }
{
    vec![in alloc; None; places]
}

/// For each place, how few places are between it and one that it leads to.
pub(crate) fn distances_to(
    alloc: Global,
    referrers: &[Vec<usize>],
    to: usize,
) -> Result<Vec<Option<usize>>, AllocError>
    requires within { AreWithin (rows_of referrers.now) }
    requires place { to < length referrers.now }
    ensures distances { IfOk result (λ distances.
        AreDistances (Goes (rows_of referrers.now)) (length referrers.now) to distances.items) }
{
    let mut distances = no_distances(alloc, referrers.len())?;
    let mut level = Vec::new(alloc);
    mark_row(&referrers[to], 0, &mut distances, &mut level)?;
    let mut between = 0;
    'levels: while !level.is_empty() {
        between += 1;
        let mut found = Vec::new(alloc);
        mark_level(referrers, &level, between, &mut distances, &mut found)?;
        level = found;
    }
    Ok(distances)
}
