//! The limits of a registry: how many services, types, members and functions, and the length of its text.

use crate::compare::{NO_MEMORY, expect, expect_text};
use crate::registrations::{empty, expect_program};
use crate::tokens::push_times;
use ash_registry::{Registry, RegistryFault};
use std::alloc::{AllocError, Global};
use std::panic::Expect;
use std::process::Abort;

/// A limit, by what it counts.
#[derive(Clone, Copy)]
enum Limit {
    Services,
    Types,
    Members,
    Functions,
}

/// Registers the service of a kind, whose place is 2 less than its kind.
fn add_service(registry: &mut Registry, kind: u16) -> Result<(), RegistryFault> {
    let place = registry.service(kind)?;
    if place.wrapping_add(2) != usize::from(kind) {
        return Err(RegistryFault::NoService);
    }
    Ok(())
}

/// A number between two texts.
fn numbered(alloc: Global, before: &str, number: u16, after: &str) -> Result<String, AllocError> {
    format!(in alloc; "{before}{number}{after}")
}

/// The name or the declaration of the item of this number of those that a limit counts. A service has none.
fn text_of_item(alloc: Global, limit: Limit, id: u16) -> Result<String, AllocError> {
    match limit {
        Limit::Services => Ok(String::new(alloc)),
        Limit::Types => numbered(alloc, "T", id, ""),
        Limit::Members => numbered(alloc, "void m", id, "()"),
        Limit::Functions => numbered(alloc, "void f", id, "()"),
    }
}

/// Registers the item of this number of those that a limit counts.
fn add(
    rt: &impl Abort,
    alloc: Global,
    registry: &mut Registry,
    limit: Limit,
    id: u16,
) -> Result<(), RegistryFault> {
    let text = expect_text(rt, text_of_item(alloc, limit, id));
    match limit {
        Limit::Services => add_service(registry, id),
        Limit::Types => registry.object_type(text.as_str(), id),
        Limit::Members => registry.method("Counter", text.as_str(), id),
        Limit::Functions => registry.function(0, text.as_str(), id),
    }
}

/// Registers those that a limit counts, with the numbers from 3 to the one before this.
fn fill(rt: &impl Abort, alloc: Global, registry: &mut Registry, limit: Limit, end: u16) {
    for id in 3..end {
        add(rt, alloc, registry, limit, id).expect(rt, "an item is refused below the limit");
    }
}

/// Whether the item of this number of those that a limit counts is one too many, and changes nothing.
fn refuses(rt: &impl Abort, alloc: Global, registry: &mut Registry, limit: Limit, id: u16) -> bool {
    let before = expect_text(rt, registry.text().to_string(alloc));
    let answer = add(rt, alloc, registry, limit, id);
    answer == Err(RegistryFault::TooMany) && registry.text() == before.as_str()
}

/// Looks for a limit: there may be those that it counts with the numbers below this one, and the next is one too many
/// and changes nothing.
fn check_limit(rt: &impl Abort, alloc: Global, registry: &mut Registry, limit: Limit, end: u16) {
    fill(rt, alloc, registry, limit, end);
    let is_refused = refuses(rt, alloc, registry, limit, end);
    expect(rt, Ok(is_refused));
}

/// Whether so many services are registered.
fn has_services(registry: &Registry, count: usize) -> Result<bool, RegistryFault> {
    Ok(registry.service_kinds()?.len() == count)
}

#[test]
fn one_service_too_many(rt: HostRuntime) {
    let mut registry = expect_program(&rt, rt.alloc());
    check_limit(&rt, rt.alloc(), &mut registry, Limit::Services, 18);
    expect(&rt, has_services(&registry, 16));
}

/// Whether one name is registered, and the other is not.
fn has_names(registry: &Registry, last: &str, none: &str) -> bool {
    registry.named(last).is_some() && registry.named(none).is_none()
}

#[test]
fn one_type_too_many(rt: HostRuntime) {
    let mut registry = expect_program(&rt, rt.alloc());
    check_limit(&rt, rt.alloc(), &mut registry, Limit::Types, 258);
    expect(&rt, Ok(has_names(&registry, "T257", "T258")));
}

/// Whether a property is one member too many, and changes nothing.
fn refuses_property(rt: &impl Abort, alloc: Global, registry: &mut Registry) -> bool {
    let before = expect_text(rt, registry.text().to_string(alloc));
    let answer = registry.property("Counter", "int p", 2);
    answer == Err(RegistryFault::TooMany) && registry.text() == before.as_str()
}

/// Whether one name is of a member of `Counter`, and the other is not.
fn has_members(registry: &Registry, last: &str, none: &str) -> bool {
    registry.member("Counter", last).is_some() && registry.member("Counter", none).is_none()
}

#[test]
fn one_member_too_many(rt: HostRuntime) {
    let mut registry = expect_program(&rt, rt.alloc());
    check_limit(&rt, rt.alloc(), &mut registry, Limit::Members, 32);
    let is_refused = refuses_property(&rt, rt.alloc(), &mut registry);
    expect(&rt, Ok(is_refused));
    expect(&rt, Ok(has_members(&registry, "m31", "m32")));
}

#[test]
fn one_function_too_many(rt: HostRuntime) {
    let mut registry = expect_program(&rt, rt.alloc());
    check_limit(&rt, rt.alloc(), &mut registry, Limit::Functions, 257);
    expect(&rt, Ok(has_names(&registry, "f256", "f257")));
}

/// A name that ends in many `x`, of this length or as long as a name may be.
fn long_name(alloc: Global, kind: u16, len: usize) -> Result<String, AllocError> {
    let mut name = numbered(alloc, "T", kind, "_")?;
    let free = len.min(60_000).saturating_sub(name.len());
    push_times(&mut name, "x", free)?;
    Ok(name)
}

/// Registers a type with such a name.
fn long_type(
    alloc: Global,
    registry: &mut Registry,
    kind: u16,
    len: usize,
) -> Result<(), RegistryFault> {
    let name = long_name(alloc, kind, len)?;
    registry.object_type(name.as_str(), kind)
}

/// Registers long types, after which a name has room for fewer bytes.
fn fill_text(alloc: Global, registry: &mut Registry) -> Result<(), RegistryFault> {
    for kind in 100..117 {
        long_type(alloc, registry, kind, 60_000)?;
    }
    Ok(())
}

/// How long a name may be.
fn free_bytes(registry: &Registry) -> usize {
    1_048_576usize
        .saturating_sub(registry.text().len())
        .saturating_sub("type  117\n".len())
}

/// Whether a name may have as many bytes as are free, and not one more.
fn takes_the_rest(alloc: Global, registry: &mut Registry) -> Result<bool, RegistryFault> {
    let name = free_bytes(registry);
    let answer = long_type(alloc, registry, 117, name.wrapping_add(1));
    long_type(alloc, registry, 117, name)?;
    Ok(answer == Err(RegistryFault::TooMany) && registry.text().len() == 1_048_576)
}

/// Whether a service is refused where the text is the longest, and changes nothing.
fn refuses_service(registry: &mut Registry) -> Result<bool, RegistryFault> {
    let fault = registry.service(9).err();
    let is_same = registry.text().len() == 1_048_576 && registry.service_kinds()?.len() == 0;
    Ok(fault == Some(RegistryFault::TooMany) && is_same)
}

/// Whether a text may be as long as the longest, and not longer, where nothing is registered before.
fn has_longest_text(alloc: Global, registry: &mut Registry) -> Result<bool, RegistryFault> {
    fill_text(alloc, registry)?;
    let is_longest = takes_the_rest(alloc, registry)?;
    Ok(is_longest && refuses_service(registry)?)
}

#[test]
fn a_text_of_1_048_576_bytes_is_the_longest(rt: HostRuntime) {
    let mut registry = empty(rt.alloc()).expect(&rt, NO_MEMORY);
    expect(&rt, has_longest_text(rt.alloc(), &mut registry));
}

/// A declaration, and blanks after it up to this length.
fn padded(alloc: Global, decl: &str, len: usize) -> Result<String, AllocError> {
    let mut text = decl.to_string(alloc)?;
    push_times(&mut text, " ", len.saturating_sub(decl.len()))?;
    Ok(text)
}

/// Registers the method of a number by a declaration of this length.
fn long_method(
    alloc: Global,
    registry: &mut Registry,
    id: u16,
    len: usize,
) -> Result<(), RegistryFault> {
    let decl = padded(alloc, "void g()", len)?;
    registry.method("Counter", decl.as_str(), id)
}

/// Whether a declaration may have 65,536 bytes, and not one more.
fn is_longest_declaration(alloc: Global, registry: &mut Registry) -> Result<bool, RegistryFault> {
    long_method(alloc, registry, 3, 65_536)?;
    let answer = long_method(alloc, registry, 4, 65_537);
    Ok(answer == Err(RegistryFault::BadDeclaration))
}

#[test]
fn a_text_that_is_too_long_to_cut_is_no_declaration(rt: HostRuntime) {
    let mut registry = expect_program(&rt, rt.alloc());
    expect(&rt, is_longest_declaration(rt.alloc(), &mut registry));
}
