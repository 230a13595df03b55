//! What is done to a store, up to the call at which a disk fails.

use crate::hosts::Disks;
use crate::stores::fuses::{
    Begun, FusedDisks, FusedHost, FusedRefused, close_host, create_host, inner_disks, open_host,
};
use ash_disk::MemoryDisk;
use ash_durable::{CreateFault, OpenFault, StoreFault};
use ash_store_fixtures::hosts::{State, add, is_done, load, snapshot};
use std::alloc::{AllocError, Global};
use std::test::Fail;

/// What a host is asked for.
#[derive(Clone, Copy)]
pub(crate) enum Step {
    Load,
    Call(i128),
    Snapshot,
}

/// What was reached: the state, and how many writes and syncs the first disk and the second have had.
pub(crate) type Reached = (State, usize, usize);

/// What is done to a store. It is made or opened, and serves; then it is closed and opened again, and serves once more.
pub(crate) struct Plan {
    /// Whether it is made.
    pub(crate) is_new: bool,
    /// What is loaded as `m`.
    pub(crate) source: &'static [u8],
    pub(crate) steps: &'static [Step],
    pub(crate) steps_again: &'static [Step],
    /// What is reached before all of it, and after each part that is acknowledged: the making or the opening, each
    /// step, the opening again, and each step after that.
    pub(crate) reached: &'static [Reached],
}

impl Plan {
    /// How many parts it has.
    pub(crate) fn parts(&self) -> usize {
        self.reached.len().saturating_sub(1)
    }

    /// What is reached after so many parts.
    pub(crate) fn reached_after(&self, parts: usize) -> Reached {
        match self.reached.get(parts) {
            Some(reached) => *reached,
            None => ((0, None), 0, 0),
        }
    }

    /// Whether a state may be found while the part after so many is in progress.
    pub(crate) fn is_state(&self, parts: usize, found: State) -> bool {
        let (before, _, _) = self.reached_after(parts);
        let (after, _, _) = self.reached_after(parts.wrapping_add(1).min(self.parts()));
        found == before || found == after
    }
}

/// Where a plan was stopped: how many parts of it were acknowledged, and the disks.
#[derive(Drop)]
pub(crate) struct Stopped {
    pub(crate) done: usize,
    pub(crate) first: Box<MemoryDisk>,
    pub(crate) second: Box<MemoryDisk>,
}

/// Takes a step, where this is loaded. Whether it is acknowledged.
fn is_acknowledged(host: &mut FusedHost, source: &[u8], step: Step) -> bool {
    let reply = match step {
        Step::Load => load(host, source),
        Step::Call(number) => add(host, number),
        Step::Snapshot => snapshot(host),
    };
    is_done(&reply)
}

/// How many steps are acknowledged, up to the first that is not.
fn count_acknowledged(host: &mut FusedHost, source: &[u8], steps: &[Step]) -> usize {
    let mut done = 0_usize;
    for step in steps {
        if !is_acknowledged(host, source, *step) {
            return done;
        }
        done = done.wrapping_add(1);
    }
    done
}

/// How many parts of a plan are acknowledged, and the disks.
type Served = (usize, FusedDisks);

/// What is served of these steps by a host that was made or opened, which is a part too.
fn served_by(
    alloc: Global,
    mut host: FusedHost,
    source: &[u8],
    steps: &[Step],
) -> Result<Served, AllocError> {
    let done = count_acknowledged(&mut host, source, steps);
    Ok((done.wrapping_add(1), close_host(alloc, host)?))
}

/// The same where there is no host. Only a failure of a disk may keep a store from being made or opened.
fn unserved(refused: FusedRefused) -> Result<Served, Fail> {
    let (fault, disks) = refused;
    match fault {
        StoreFault::Create(CreateFault::DeviceFailed) | StoreFault::Open(OpenFault::DeviceFailed) =>
            Ok((0, disks)),
        _ => Err(Fail::from(fault)),
    }
}

/// What is served of these steps where a store is made or opened.
fn served(alloc: Global, begun: Begun, source: &[u8], steps: &[Step]) -> Result<Served, Fail> {
    match begun {
        Ok(host) => Ok(served_by(alloc, host, source, steps)?),
        Err(refused) => unserved(refused),
    }
}

/// What is served of a plan before its store is opened again.
fn served_first(alloc: Global, plan: &Plan, disks: FusedDisks) -> Result<Served, Fail> {
    let begun = if plan.is_new {
        create_host(alloc, disks)?
    } else {
        open_host(alloc, disks)?
    };
    served(alloc, begun, plan.source, plan.steps)
}

/// What is served once it is opened again, beside what was before.
fn served_again(alloc: Global, plan: &Plan, before: Served) -> Result<Served, Fail> {
    let (done, disks) = before;
    let begun = open_host(alloc, disks)?;
    let (more, disks) = served(alloc, begun, plan.source, plan.steps_again)?;
    Ok((done.wrapping_add(more), disks))
}

/// What is served of a plan.
fn served_whole(alloc: Global, plan: &Plan, disks: FusedDisks) -> Result<Served, Fail> {
    let before = served_first(alloc, plan, disks)?;
    if before.0 > plan.steps.len() {
        return served_again(alloc, plan, before);
    }
    Ok(before)
}

/// Handles a plan over two disks, which fail after some calls.
pub(crate) fn handle_plan(alloc: Global, plan: &Plan, disks: FusedDisks) -> Result<Stopped, Fail> {
    let (done, disks) = served_whole(alloc, plan, disks)?;
    let Disks { first, second } = inner_disks(alloc, disks)?;
    Ok(Stopped {
        done,
        first,
        second,
    })
}
