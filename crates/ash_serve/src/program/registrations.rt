//! What the program offers to scripts.

use ash_host::{Counter, Tally};
use ash_registry::{Registry, RegistryFault};
use std::alloc::Global;

/// Registers the type Counter.
fn register_counter(registry: &mut Registry) -> Result<(), RegistryFault> {
    registry.object_type("Counter", Counter::KIND)?;
    registry.factory("Counter", "Counter@ make(int)")?;
    registry.method("Counter", "int add(int)", 1)?;
    registry.method("Counter", "void fail(int)", 2)?;
    registry.property("Counter", "int value", 1)
}

/// Registers Tally, as the first service.
fn register_tally(registry: &mut Registry) -> Result<(), RegistryFault> {
    registry.service(Tally::KIND)?;
    registry.function(0, "int tally(int)", 1)?;
    registry.function(0, "int total()", 2)
}

/// The registry of the program: the type Counter, and Tally as the one service.
pub fn registrations(alloc: Global) -> Result<Registry, RegistryFault> {
    let mut registry = Registry::new(alloc);
    register_counter(&mut registry)?;
    register_tally(&mut registry)?;
    Ok(registry)
}
