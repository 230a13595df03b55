//! A store that is made or opened with boxes, and is asked something.

use crate::watched::{Log, Named, new_box, note_answers, note_end};
use ash_disk::Disk;
use ash_durable::{Host, OpenRefused};
use ash_host::HostObject;
use ash_registry::{Registry, RegistryFault};
use ash_store_fixtures::hosts::{Boxes, closed, shown};
use ash_store_fixtures::lives::{HostStep, Start, answers};
use std::alloc::Global;
use std::test::Fail;

/// What is registered.
#[derive(Clone, Copy)]
pub enum Registered {
    Nothing,
    /// Services of these kinds, in order.
    Services(&'static [u16]),
    /// What the program registers: the type `Counter` of the kind 1, and a service of the kind 2.
    Program,
    /// The same, and one more method.
    OneMore,
    /// What the program registers, and a type `Odd` of the kind 9 with a method that has a result.
    Odd,
}

fn register_services(registry: &mut Registry, kinds: &[u16]) -> Result<(), RegistryFault> {
    for kind in kinds {
        registry.service(*kind)?;
    }
    Ok(())
}

fn register_counter(registry: &mut Registry) -> Result<(), RegistryFault> {
    registry.object_type("Counter", 1)?;
    registry.factory("Counter", "Counter@ make(int)")?;
    registry.method("Counter", "int add(int)", 1)?;
    registry.method("Counter", "void fail(int)", 2)?;
    registry.property("Counter", "int value", 1)
}

fn register_program(registry: &mut Registry) -> Result<(), RegistryFault> {
    register_counter(registry)?;
    registry.service(2)?;
    registry.function(0, "int tally(int)", 1)?;
    registry.function(0, "int total()", 2)
}

fn register_odd(registry: &mut Registry) -> Result<(), RegistryFault> {
    registry.object_type("Odd", 9)?;
    registry.factory("Odd", "Odd@ make(int)")?;
    registry.method("Odd", "int bad()", 1)
}

/// A registry with what is registered.
pub fn registry_of(alloc: Global, registered: Registered) -> Result<Registry, RegistryFault> {
    let mut registry = Registry::new(alloc);
    match registered {
        Registered::Nothing => {}
        Registered::Services(kinds) => register_services(&mut registry, kinds)?,
        Registered::Program => register_program(&mut registry)?,
        Registered::OneMore => {
            register_program(&mut registry)?;
            registry.method("Counter", "int get()", 3)?;
        }
        Registered::Odd => {
            register_program(&mut registry)?;
            register_odd(&mut registry)?;
        }
    }
    Ok(registry)
}

/// A store that is made or opened with what is registered, free boxes and services; and what is asked of it then.
#[derive(Clone, Copy)]
pub struct Visit {
    pub start: Start,
    pub registered: Registered,
    pub pool: &'static [Named],
    pub services: &'static [Named],
    pub steps: &'static [HostStep],
}

/// What is answered, or why there is no host, and the disks.
pub type Visited<D> = (String, (D, D));

/// A host, or what was refused.
pub fn begun<D: Disk, B: HostObject>(
    disks: (D, D),
    alloc: Global,
    registry: Registry,
    boxes: Boxes<B>,
    start: Start,
) -> Result<Host<D, B>, OpenRefused<D>> {
    let (a, b) = disks;
    let Boxes { pool, services } = boxes;
    match start {
        Start::Make => Host::create(alloc, a, b, registry, pool, services),
        Start::Open => Host::open(alloc, a, b, registry, pool, services),
    }
}

/// Visits a store with these boxes.
fn visited_with<D: Disk + Drop, B: HostObject>(
    alloc: Global,
    disks: (D, D),
    visit: &Visit,
    boxes: Boxes<B>,
    log: &Log,
) -> Result<Visited<D>, Fail> {
    let registry = registry_of(alloc, visit.registered)?;
    let begun = begun(disks, alloc, registry, boxes, visit.start);
    note_end(log);
    match begun {
        Ok(mut host) => {
            let answers = answers(alloc, &mut host, visit.steps)?;
            note_answers(log);
            Ok((answers, closed(host)))
        }
        Err(refused) => Ok((shown(alloc, &refused.fault)?, (refused.a, refused.b))),
    }
}

/// Makes the boxes of a visit, and visits a store with them.
pub fn visited<D: Disk + Drop>(
    alloc: Global,
    disks: (D, D),
    visit: &Visit,
    log: &Log,
) -> Result<Visited<D>, Fail> {
    let mut pool: Vec<Box<dyn HostObject>> = Vec::new(alloc);
    for named in visit.pool {
        pool.push(Box::new(alloc, new_box(log, *named)?)?)?;
    }
    let mut services: Vec<Box<dyn HostObject>> = Vec::new(alloc);
    for named in visit.services {
        services.push(Box::new(alloc, new_box(log, *named)?)?)?;
    }
    visited_with(alloc, disks, visit, Boxes { pool, services }, log)
}
