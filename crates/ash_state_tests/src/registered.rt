//! What is registered: `Counter` and `Tally`, as the program registers them, and a kind that answers badly.

use ash_plain_world::activity::FreeBox;
use ash_registry::{Registry, RegistryFault};
use std::alloc::{AllocError, Global};
use std::test::Fail;

/// `Counter`, as the program registers it.
fn register_counter(registry: &mut Registry) -> Result<(), RegistryFault> {
    registry.object_type("Counter", 1)?;
    registry.factory("Counter", "Counter@ f(int)")?;
    registry.method("Counter", "int add(int)", 1)?;
    registry.method("Counter", "void fail(int)", 2)?;
    registry.property("Counter", "int value", 1)
}

/// `Tally`, as the program registers it.
fn register_tally(registry: &mut Registry) -> Result<(), RegistryFault> {
    registry.service(2)?;
    registry.function(0, "int tally(int)", 1)?;
    registry.function(0, "int total()", 2)
}

/// A type `Odd` of the kind 9.
fn register_odd(registry: &mut Registry) -> Result<(), RegistryFault> {
    registry.object_type("Odd", 9)?;
    registry.factory("Odd", "Odd@ f(int)")?;
    registry.method("Odd", "int bad()", 1)
}

/// What the program registers, and `Odd`.
fn register(registry: &mut Registry) -> Result<(), RegistryFault> {
    register_counter(registry)?;
    register_tally(registry)?;
    register_odd(registry)
}

/// What the program registers, and `Odd`: in a box, since a registry is long where it is written out.
pub fn registry(alloc: Global) -> Result<Box<Registry>, Fail> {
    let mut registry = Registry::new(alloc);
    register(&mut registry)?;
    Ok(Box::new(alloc, registry)?)
}

/// The state of a counter or a service before anything is done with it.
pub fn zero(alloc: Global) -> Result<Vec<u8>, AllocError> {
    Vec::from_slice(alloc, &[0, 0, 0, 0])
}

/// So many free counters, and a free box of the kind 9 after them.
pub fn pool(alloc: Global, counters: usize) -> Result<Vec<FreeBox>, AllocError> {
    let mut pool = Vec::new(alloc);
    for _ in 0..counters {
        let state = zero(alloc)?;
        pool.push(FreeBox { kind: 1, state })?;
    }
    pool.push(FreeBox {
        kind: 9,
        state: Vec::new(alloc),
    })?;
    Ok(pool)
}
