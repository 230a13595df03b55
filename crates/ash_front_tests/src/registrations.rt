//! The registrations of the program, what is looked up among them, and the faults of others.

use crate::compare::expect;
use Registration::{Factory, Function, Method, Property, Service, Type};
use ash_registry::{Registry, RegistryFault};
use std::alloc::{AllocError, Global};
use std::panic::Expect;
use std::process::Abort;

/// A registration.
#[derive(Clone, Copy)]
pub(crate) enum Registration {
    /// A type's name and its kind.
    Type(&'static str, u16),
    /// A service's kind.
    Service(u16),
    /// A factory's type and its declaration.
    Factory(&'static str, &'static str),
    /// A method's type, its declaration and its number.
    Method(&'static str, &'static str, u16),
    /// A property's type, its declaration and its number.
    Property(&'static str, &'static str, u16),
    /// The place of a function's service, its declaration and its number.
    Function(u16, &'static str, u16),
}

pub(crate) fn register(
    registry: &mut Registry,
    registration: Registration,
) -> Result<(), RegistryFault> {
    match registration {
        Type(name, kind) => registry.object_type(name, kind),
        Service(kind) => {
            registry.service(kind)?;
            Ok(())
        }
        Factory(of, decl) => registry.factory(of, decl),
        Method(of, decl, id) => registry.method(of, decl, id),
        Property(of, decl, id) => registry.property(of, decl, id),
        Function(service, decl, id) => registry.function(service, decl, id),
    }
}

/// `Counter` and `Tally`, as the program registers them.
static REGISTRATIONS: [Registration; 8] = [
    Type("Counter", 1),
    Factory("Counter", "Counter@ f(int)"),
    Method("Counter", "int add(int)", 1),
    Method("Counter", "void fail(int)", 2),
    Property("Counter", "int value", 1),
    Service(2),
    Function(0, "int tally(int)", 1),
    Function(0, "int total()", 2),
];

fn register_each(
    registry: &mut Registry,
    registrations: &[Registration],
) -> Result<(), RegistryFault> {
    for registration in registrations {
        register(registry, *registration)?;
    }
    Ok(())
}

/// A registry where nothing is registered. It is boxed, so that no function that has it carries its parts.
pub(crate) fn empty(alloc: Global) -> Result<Box<Registry>, AllocError> {
    Ok(Box::new(alloc, Registry::new(alloc))?)
}

/// These registrations.
pub(crate) fn program(alloc: Global) -> Result<Box<Registry>, RegistryFault> {
    let mut registry = empty(alloc)?;
    register_each(&mut registry, &REGISTRATIONS)?;
    Ok(registry)
}

/// These registrations. A test fails where one is refused.
pub(crate) fn expect_program(rt: &impl Abort, alloc: Global) -> Box<Registry> {
    program(alloc).expect(rt, "a registration is refused")
}

/// The text of these registrations.
const PROGRAM: &str = "type Counter 1\nfactory Counter (int)\nmethod Counter 1 int add(int)\n\
    method Counter 2 void fail(int)\nproperty Counter 1 int value\nservice 2\n\
    function 0 1 int tally(int)\nfunction 0 2 int total()\n";

/// How many of these names are registered.
fn count_named(registry: &Registry, names: &[&str]) -> usize {
    let mut count = 0usize;
    for name in names {
        if registry.named(name).is_some() {
            count = count.wrapping_add(1);
        }
    }
    count
}

/// How many of these names are members of `Counter`.
fn count_members(registry: &Registry, names: &[&str]) -> usize {
    let mut count = 0usize;
    for name in names {
        if registry.member("Counter", name).is_some() {
            count = count.wrapping_add(1);
        }
    }
    count
}

/// Whether the kinds of services are these.
fn has_kinds(registry: &Registry, kinds: &[u16]) -> Result<bool, AllocError> {
    Ok(registry.service_kinds()?.as_slice() == kinds)
}

fn has_factory(registry: &Registry, of: &str) -> bool {
    registry.factory_of(of).is_some()
}

/// Whether the names are those of the program's registrations.
fn has_names(registry: &Registry) -> bool {
    let found = count_named(registry, &["Counter", "tally", "total"]);
    let others = count_named(registry, &["X", "g", "int", "add", "value", "Other"]);
    let members = count_members(registry, &["add", "fail", "value"]);
    let no_members = count_members(registry, &["g", "if", "other", "tally", "f", "c"]);
    found == 3 && others == 0 && members == 3 && no_members == 0
}

/// Whether the text and the look-ups are those of the program's registrations.
pub(crate) fn is_unchanged(registry: &Registry) -> Result<bool, AllocError> {
    let is_text = registry.text() == PROGRAM;
    let is_made = has_factory(registry, "Counter") && !has_factory(registry, "X");
    Ok(is_text && has_names(registry) && is_made && has_kinds(registry, &[2])?)
}

/// Whether the program's registrations have their text, and are found.
fn are_found(registry: &Registry) -> Result<bool, RegistryFault> {
    let has_kinds = registry.of_kind(2).is_some() && registry.of_kind(77).is_none();
    Ok(is_unchanged(registry)? && has_kinds)
}

#[test]
fn the_program_registers(rt: HostRuntime) {
    let registry = expect_program(&rt, rt.alloc());
    expect(&rt, are_found(&registry));
}

/// A method and a property.
static ADDED: [Registration; 2] = [
    Method("Counter", "uint32 sum(int32 a, bool b, uint64)", 3),
    Property("Counter", " int64 /* the */ total ", 3),
];

/// Whether what was added to the program's registrations has this text.
fn adds_text(registry: &mut Registry, wanted: &str) -> Result<bool, RegistryFault> {
    register_each(registry, &ADDED)?;
    Ok(registry.text().strip_prefix(PROGRAM) == Some(wanted))
}

#[test]
fn names_of_parameters_are_left_out(rt: HostRuntime) {
    let added = "method Counter 3 uint sum(int,bool,uint64)\nproperty Counter 3 int64 total\n";
    let mut registry = expect_program(&rt, rt.alloc());
    expect(&rt, adds_text(&mut registry, added));
}
