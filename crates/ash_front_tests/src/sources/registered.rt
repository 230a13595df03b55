//! Scripts that use what is registered: they are checked and read like all others.

use crate::compare::{NO_MEMORY, check_text, expect_text};
use crate::registrations::empty;
use crate::sources::checks::{check_source_with, parts_of};
use ash_registry::{Registry, RegistryFault};
use ash_requests::sources::SourceReader;
use ash_sources::sources::Sources;
use std::alloc::Global;
use std::panic::Expect;
use std::process::Abort;

/// Registers a type with a factory, and a function of a service.
fn register(registry: &mut Registry) -> Result<(), RegistryFault> {
    registry.object_type("Counter", 1)?;
    registry.factory("Counter", "Counter@ make(int)")?;
    registry.service(2)?;
    registry.function(0, "int total()", 1)
}

/// A registry with these registrations.
fn registered(rt: &impl Abort, alloc: Global) -> Box<Registry> {
    let mut registry = empty(alloc).expect(rt, NO_MEMORY);
    register(&mut registry).expect(rt, "a registration is refused");
    registry
}

/// Each row has how checking and reading its source end, a bar, and the source.
fn check_ends(rt: &impl Abort, alloc: Global, rows: &str) {
    let registry = registered(rt, alloc);
    for row in rows.trim().lines() {
        let (wanted, source) = parts_of(row);
        check_source_with(rt, alloc, &registry, source.as_bytes(), wanted);
    }
}

#[test]
fn scripts_that_use_what_is_registered(rt: HostRuntime) {
    check_ends(
        &rt,
        rt.alloc(),
        "
        ok | class Box { Counter@ c; }
        ok | Counter@ g = Counter(7);
        ok | void f(Counter@ c) { }
        ok | array<Counter@> l;
        ok | int t() { return total(); }
        ok | int n = 2;
        ok | class A { int total; }
        ",
    )
}

#[test]
fn faults_of_scripts_that_use_what_is_registered(rt: HostRuntime) {
    check_ends(
        &rt,
        rt.alloc(),
        "
        NameTaken { at: 11 } | int n; int Counter() { return 1; }
        NameTaken { at: 4 } | int total = 1;
        Unexpected { at: 19 } | Counter@ g; int f( {
        UnknownName { at: 20 } | Counter@ g; int n = m;
        ",
    )
}

/// How reading a source ends by the trait that the steps of requests use, and the name of a kind.
fn read_by_steps(
    rt: &impl Abort,
    alloc: Global,
    registry: &Registry,
    source: &[u8],
    kind: u16,
) -> String {
    let sources = Sources { registry };
    let name = expect_text(rt, SourceReader::name_of_kind(&sources, alloc, kind));
    let tree = SourceReader::read(&sources, alloc, source).expect(rt, NO_MEMORY);
    expect_text(rt, format!(in alloc; "{} {name}", tree.is_ok()))
}

/// Compares how reading a row's source ends, and the name of its kind, with what is wanted.
fn check_by_steps(rt: &impl Abort, alloc: Global, row: (&str, u16, &str)) {
    let (source, kind, wanted) = row;
    let registry = registered(rt, alloc);
    let found = read_by_steps(rt, alloc, &registry, source.as_bytes(), kind);
    check_text(rt, found.as_str(), wanted, source);
}

#[test]
fn sources_of_steps(rt: HostRuntime) {
    check_by_steps(&rt, rt.alloc(), ("int n = 2;", 1, "true Counter"));
    check_by_steps(&rt, rt.alloc(), ("Counter@ g;", 1, "true Counter"));
    check_by_steps(&rt, rt.alloc(), ("Other@ g;", 2, "false "));
}
