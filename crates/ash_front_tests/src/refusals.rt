//! Registrations that are refused, each of which changes nothing.

use crate::compare::expect_all;
use crate::registrations::{Registration, expect_program, is_unchanged, register};
use Registration::{Factory, Function, Method, Property, Service, Type};
use RegistryFault::{
    BadDeclaration, FactoryTaken, NameTaken, NoService, NotPrimitive, ReservedName, UnknownType,
};
use ash_registry::{Registry, RegistryFault};
use std::alloc::Global;
use std::process::Abort;

/// A registration, and why it is refused.
type Row = (Registration, RegistryFault);

/// Whether a registration is refused for this, and changes nothing.
fn is_refused(registry: &mut Registry, row: Row) -> Result<bool, RegistryFault> {
    let (registration, wanted) = row;
    Ok(register(registry, registration) == Err(wanted) && is_unchanged(registry)?)
}

/// Makes each registration in turn up to the first that is not refused as it must be.
fn first_unmet(registry: &mut Registry, rows: &[Row]) -> Result<Option<usize>, RegistryFault> {
    for place in 0..rows.len() {
        if !is_refused(registry, rows[place])? {
            return Ok(Some(place));
        }
    }
    Ok(None)
}

/// Makes each registration in turn, where the program's are made. Each is refused for its cause, and changes nothing.
fn check_refused(rt: &impl Abort, alloc: Global, rows: &[Row]) {
    let mut registry = expect_program(rt, alloc);
    expect_all(rt, first_unmet(&mut registry, rows));
}

static TYPES_AND_SERVICES: [Row; 19] = [
    (Type("Counter", 3), NameTaken),
    (Type("tally", 3), NameTaken),
    (Type("X", 1), NameTaken),
    (Type("X", 2), NameTaken),
    (Type("int", 3), ReservedName),
    (Type("interface", 3), ReservedName),
    (Type("array", 3), ReservedName),
    (Type("cast", 3), ReservedName),
    (Type("float", 3), ReservedName),
    (Type("int", 1), ReservedName),
    (Type("9x", 3), BadDeclaration),
    (Type("", 3), BadDeclaration),
    (Type("X Y", 3), BadDeclaration),
    (Type(" X", 3), BadDeclaration),
    (Type("X/**/", 3), BadDeclaration),
    (Type("X@", 3), BadDeclaration),
    (Type("\"", 3), BadDeclaration),
    (Service(1), NameTaken),
    (Service(2), NameTaken),
];

#[test]
fn refused_types_and_services_change_nothing(rt: HostRuntime) {
    check_refused(&rt, rt.alloc(), &TYPES_AND_SERVICES);
}

static METHODS: [Row; 21] = [
    (Method("Nope", "int g(int)", 3), UnknownType),
    (Method("Nope", "int g(", 3), UnknownType),
    (Method("tally", "int g(int)", 3), UnknownType),
    (Method("Counter", "int g(", 3), BadDeclaration),
    (Method("Counter", "int g(int) int", 3), BadDeclaration),
    (Method("Counter", "int g(int);", 3), BadDeclaration),
    (Method("Counter", "int g(int) \"", 3), BadDeclaration),
    (Method("Counter", "int g(int) /* ", 3), BadDeclaration),
    (Method("Counter", "int if(int)", 3), BadDeclaration),
    (Method("Counter", "int g(void)", 3), BadDeclaration),
    (Method("Counter", "float g(int)", 3), BadDeclaration),
    (Method("Counter", "int g", 3), BadDeclaration),
    (Method("Counter", "", 3), BadDeclaration),
    (Method("Counter", "int g(Other@)", 3), UnknownType),
    (Method("Counter", "int g(Counter@, Other)", 3), UnknownType),
    (Method("Counter", "int g(Counter@)", 3), NotPrimitive),
    (Method("Counter", "Counter@ g(int)", 3), NotPrimitive),
    (Method("Counter", "int add(Counter)", 1), NotPrimitive),
    (Method("Counter", "int add(int)", 3), NameTaken),
    (Method("Counter", "bool value()", 3), NameTaken),
    (Method("Counter", "int g(int)", 1), NameTaken),
];

#[test]
fn refused_methods_change_nothing(rt: HostRuntime) {
    check_refused(&rt, rt.alloc(), &METHODS);
}

static PROPERTIES_AND_FACTORIES: [Row; 21] = [
    (Property("Nope", "int other", 3), UnknownType),
    (Property("Counter", "int g()", 3), BadDeclaration),
    (Property("Counter", "void other", 3), BadDeclaration),
    (Property("Counter", "int other int", 3), BadDeclaration),
    (Property("Counter", "int 9", 3), BadDeclaration),
    (Property("Counter", "Other other", 3), UnknownType),
    (Property("Counter", "Other@ other", 3), UnknownType),
    (Property("Counter", "Counter@ other", 3), NotPrimitive),
    (Property("Counter", "Counter value", 1), NotPrimitive),
    (Property("Counter", "int fail", 3), NameTaken),
    (Property("Counter", "int other", 1), NameTaken),
    (Factory("Nope", "Nope@ c(int)"), UnknownType),
    (Factory("Counter", "Counter@ c("), BadDeclaration),
    (Factory("Counter", "Counter c(int)"), BadDeclaration),
    (Factory("Counter", "Other@ c(int)"), BadDeclaration),
    (Factory("Counter", "int c(Other@)"), BadDeclaration),
    (Factory("Counter", "void c(int)"), BadDeclaration),
    (Factory("Counter", "int c"), BadDeclaration),
    (Factory("Counter", "Counter@ c(Other@)"), UnknownType),
    (Factory("Counter", "Counter@ c(Counter@)"), NotPrimitive),
    (Factory("Counter", "Counter@ c(int)"), FactoryTaken),
];

#[test]
fn refused_properties_and_factories_change_nothing(rt: HostRuntime) {
    check_refused(&rt, rt.alloc(), &PROPERTIES_AND_FACTORIES);
}

static ARRAYS: [Row; 30] = [
    (Method("Counter", "int g(array<int>)", 3), NotPrimitive),
    (Method("Counter", "array<int> g()", 3), NotPrimitive),
    (Method("Counter", "array<Counter@>@ g()", 3), NotPrimitive),
    (Method("Counter", "int add(array<int>)", 1), NotPrimitive),
    (Method("Counter", "int g(array<Foo@>)", 3), UnknownType),
    (
        Method("Counter", "int g(Counter@, array<Foo@>@)", 3),
        UnknownType,
    ),
    (Method("Counter", "array<Foo@> g(int)", 3), UnknownType),
    (
        Method("Counter", "int g(array<Counter>)", 3),
        BadDeclaration,
    ),
    (
        Method("Counter", "int g(array<array<int>>)", 3),
        BadDeclaration,
    ),
    (Method("Counter", "int g(array<int>>)", 3), BadDeclaration),
    (Method("Counter", "int g(int[])", 3), BadDeclaration),
    (Method("Counter", "int[] g()", 3), BadDeclaration),
    (Method("Nope", "int g(array<Nope@>)", 3), UnknownType),
    (Property("Counter", "int other[2]", 3), BadDeclaration),
    (
        Property("Counter", "array<Counter> other", 3),
        BadDeclaration,
    ),
    (Property("Counter", "array<int> other", 3), NotPrimitive),
    (
        Property("Counter", "array<Counter@>@ other", 3),
        NotPrimitive,
    ),
    (Property("Counter", "array<int>@ value", 1), NotPrimitive),
    (Property("Counter", "array<Foo@> other", 3), UnknownType),
    (Factory("Counter", "array<int>@ c(int)"), BadDeclaration),
    (Factory("Counter", "array<Foo@>@ c(int)"), BadDeclaration),
    (
        Factory("Counter", "array<Counter@>@ c(int)"),
        BadDeclaration,
    ),
    (Factory("Counter", "Counter@ c(array<int>)"), NotPrimitive),
    (Factory("Counter", "Counter@ c(array<Foo@>)"), UnknownType),
    (Function(0, "array<int> g()", 3), NotPrimitive),
    (Function(0, "int g(int, array<Counter@>@)", 3), NotPrimitive),
    (Function(0, "array<bool>@ tally(int)", 1), NotPrimitive),
    (Function(0, "int g(array<Foo@>)", 3), UnknownType),
    (Function(0, "int g(array<Foo>)", 3), BadDeclaration),
    (Function(1, "array<int> g()", 3), NoService),
];

#[test]
fn refused_arrays_change_nothing(rt: HostRuntime) {
    check_refused(&rt, rt.alloc(), &ARRAYS);
}

/// Interfaces belong to scripts: where a registration names one, no such type is registered, and it declares none.
static INTERFACES: [Row; 19] = [
    (Type("interface I", 3), BadDeclaration),
    (Type("interface I { }", 3), BadDeclaration),
    (Type("Counter : I", 3), BadDeclaration),
    (Type("class X : I { }", 3), BadDeclaration),
    (Method("Counter", "int g(I@)", 3), UnknownType),
    (Method("Counter", "I@ g(int)", 3), UnknownType),
    (Method("Counter", "int g(array<I@>@)", 3), UnknownType),
    (Method("Counter", "int g(int) : I", 3), BadDeclaration),
    (Method("Counter", "interface g(int)", 3), BadDeclaration),
    (
        Method("Counter", "interface I { int g(int); }", 3),
        BadDeclaration,
    ),
    (Method("Counter", "int g(cast<Counter>)", 3), BadDeclaration),
    (Method("I", "int g(int)", 3), UnknownType),
    (Property("Counter", "I@ other", 3), UnknownType),
    (Property("Counter", "interface other", 3), BadDeclaration),
    (Factory("Counter", "I@ c(int)"), BadDeclaration),
    (Factory("Counter", "Counter@ c(I@)"), UnknownType),
    (Function(0, "I@ g()", 3), UnknownType),
    (Function(0, "int g(I@)", 3), UnknownType),
    (Function(0, "interface g()", 3), BadDeclaration),
];

#[test]
fn refused_interfaces_change_nothing(rt: HostRuntime) {
    check_refused(&rt, rt.alloc(), &INTERFACES);
}

static FUNCTIONS: [Row; 9] = [
    (Function(1, "int g()", 1), NoService),
    (Function(1, "int g(", 1), NoService),
    (Function(0, "int g(", 3), BadDeclaration),
    (Function(0, "int g", 3), BadDeclaration),
    (Function(0, "int g(Other)", 3), UnknownType),
    (Function(0, "Counter@ g()", 3), NotPrimitive),
    (Function(0, "int tally(int)", 3), NameTaken),
    (Function(0, "int Counter(int)", 3), NameTaken),
    (Function(0, "int g()", 1), NameTaken),
];

#[test]
fn refused_functions_change_nothing(rt: HostRuntime) {
    check_refused(&rt, rt.alloc(), &FUNCTIONS);
}
