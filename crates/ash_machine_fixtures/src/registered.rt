//! What is registered: `Counter` and `Tally`, as the program registers them, `Buffer`, and `Odd`, a kind that answers
//! badly.

use ash_registry::{Registry, RegistryFault};
use std::alloc::Global;

/// The kind of `Odd`.
pub const ODD: u16 = 9;

fn register_counter(registry: &mut Registry) -> Result<(), RegistryFault> {
    registry.object_type("Counter", 1)?;
    registry.factory("Counter", "Counter@ f(int)")?;
    registry.method("Counter", "int add(int)", 1)?;
    registry.method("Counter", "void fail(int)", 2)?;
    registry.property("Counter", "int value", 1)
}

fn register_tally(registry: &mut Registry) -> Result<(), RegistryFault> {
    registry.service(2)?;
    registry.function(0, "int tally(int)", 1)?;
    registry.function(0, "int total()", 2)
}

fn register_buffer(registry: &mut Registry) -> Result<(), RegistryFault> {
    registry.object_type("Buffer", 3)?;
    registry.factory("Buffer", "Buffer@ f()")?;
    registry.method("Buffer", "void put(int)", 1)?;
    registry.method("Buffer", "int take()", 2)?;
    registry.property("Buffer", "int length", 1)
}

fn register_odd(registry: &mut Registry) -> Result<(), RegistryFault> {
    registry.object_type("Odd", ODD)?;
    registry.factory("Odd", "Odd@ f(int)")?;
    registry.method("Odd", "int bad()", 1)?;
    registry.method("Odd", "int none()", 2)?;
    registry.method("Odd", "void some()", 3)?;
    registry.method("Odd", "int raise(int)", 4)?;
    registry.method("Odd", "int starve()", 5)?;
    registry.property("Odd", "int truth", 1)?;
    registry.property("Odd", "int64 number", 2)
}

/// A registry with all of these.
pub fn registry(alloc: Global) -> Result<Registry, RegistryFault> {
    let mut registry = Registry::new(alloc);
    register_counter(&mut registry)?;
    register_tally(&mut registry)?;
    register_buffer(&mut registry)?;
    register_odd(&mut registry)?;
    Ok(registry)
}
