//! Tests and searches over accepted registrations.
ghost use Rattle.std.specs.Prelude.{◌≡◌, find, map, slice_get, IfOk};
ghost use Rattle.std.specs.List.{list_any, filter_map};
ghost use Rattle.std.specs.Option.{option_copied};
ghost use Rattle.ash_registrations.specs.Registrations.{registration_of};
ghost use Rattle.ash_registrations.specs.Registrations as spec;

use crate::Registration;
use std::alloc::{AllocError, Global};

pub(crate) fn any_names_type(registrations: &[Registration], name: &str) -> bool
    ensures value { result
        ≡ list_any (λ r. spec.names_type name.now (registration_of r)) registrations.now }
{
    registrations
        .iter()
        .any(|registration| registration.names_type(name))
}

pub(crate) fn any_takes_kind(registrations: &[Registration], kind: u16) -> bool
    ensures value { result ≡ list_any (λ r. spec.takes_kind kind (registration_of r))
        registrations.now }
{
    registrations
        .iter()
        .any(|registration| registration.takes_kind(kind))
}

pub(crate) fn any_is_factory_of(registrations: &[Registration], of: &str) -> bool
    ensures value { result
        ≡ list_any (λ r. spec.is_factory_of of.now (registration_of r)) registrations.now }
{
    registrations
        .iter()
        .any(|registration| registration.is_factory_of(of))
}

pub(crate) fn any_takes_member(registrations: &[Registration], of: &str, name: &str) -> bool
    ensures value { result
        ≡ list_any (λ r. spec.takes_member of.now name.now (registration_of r)) registrations.now }
{
    registrations
        .iter()
        .any(|registration| registration.takes_member(of, name))
}

pub(crate) fn any_takes_method(registrations: &[Registration], of: &str, id: u16) -> bool
    ensures value { result
        ≡ list_any (λ r. spec.takes_method of.now id (registration_of r)) registrations.now }
{
    registrations
        .iter()
        .any(|registration| registration.takes_method(of, id))
}

pub(crate) fn any_takes_property(registrations: &[Registration], of: &str, id: u16) -> bool
    ensures value { result
        ≡ list_any (λ r. spec.takes_property of.now id (registration_of r)) registrations.now }
{
    registrations
        .iter()
        .any(|registration| registration.takes_property(of, id))
}

pub(crate) fn any_takes_function(registrations: &[Registration], service: u16, id: u16) -> bool
    ensures value { result
        ≡ list_any (λ r. spec.takes_function service id (registration_of r)) registrations.now }
{
    registrations
        .iter()
        .any(|registration| registration.takes_function(service, id))
}

/// The registration at a place, if there is one.
pub(crate) fn registration_at(registrations: &[Registration], at: usize) -> Option<&Registration>
    ensures value { option_copied result ≡ slice_get registrations.now at }
{
    if at < registrations.len() {
        Some(&registrations[at])
    } else {
        None
    }
}

pub(crate) fn find_member<'a>(
    registrations: &'a [Registration],
    of: &str,
    name: &str,
) -> Option<&'a Registration>
    ensures value { option_copied result
        ≡ find (λ r. spec.takes_member of.now name.now (registration_of r)) registrations.now }
{
    registrations
        .iter()
        .find(|registration| registration.takes_member(of, name))
}

pub(crate) fn find_factory<'a>(
    registrations: &'a [Registration],
    of: &str,
) -> Option<&'a Registration>
    ensures value { option_copied result
        ≡ find (λ r. spec.is_factory_of of.now (registration_of r)) registrations.now }
{
    registrations
        .iter()
        .find(|registration| registration.is_factory_of(of))
}

pub(crate) fn find_kind(registrations: &[Registration], kind: u16) -> Option<&Registration>
    ensures value { option_copied result
        ≡ find (λ r. spec.takes_kind kind (registration_of r)) registrations.now }
{
    registrations
        .iter()
        .find(|registration| registration.takes_kind(kind))
}

#[tactic(auto, using(crate::proofs::Mapped::any_mapped))]
fn constructed_kind(registrations: &[Registration], registration: &Registration) -> Option<u16>
    ensures value { result ≡ spec.constructed_kind (map registration_of registrations.now)
        (registration_of registration.now) }
{
    let Registration::Type { name, kind } = registration else {
        return None;
    };
    if any_is_factory_of(registrations, name) {
        Some(*kind)
    } else {
        None
    }
}

pub(crate) fn kinds_of_types(
    alloc: Global,
    registrations: &[Registration],
) -> Result<Vec<u16>, AllocError>
    ensures value { IfOk result (λ kinds. kinds.items ≡ filter_map (λ r. spec.constructed_kind
        (map registration_of registrations.now) (registration_of r)) registrations.now) }
{
    let mut kinds = Vec::new(alloc);
    for registration in registrations {
        if let Some(constructed) = constructed_kind(registrations, registration) {
            kinds.push(constructed)?;
        }
    }
    Ok(kinds)
}

pub(crate) fn kinds_of_services(
    alloc: Global,
    registrations: &[Registration],
) -> Result<Vec<u16>, AllocError>
    ensures value { IfOk result (λ kinds. kinds.items
        ≡ filter_map (λ r. spec.service_kind (registration_of r)) registrations.now) }
{
    let mut kinds = Vec::new(alloc);
    for registration in registrations {
        if let Some(kind) = registration.service_kind() {
            kinds.push(kind)?;
        }
    }
    Ok(kinds)
}
