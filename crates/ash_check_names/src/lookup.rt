//! Variables and functions in a list, by their names.

ghost use Rattle.std.specs.Prelude.{◌≡◌, None, map, option_map};
ghost use Rattle.ash_type_rules.specs.Environment as environment;
ghost use Rattle.ash_check_names.specs.EnvironmentViews.{binding_of, function_signature_of};
ghost use Rattle.ash_check_names.specs.EnvironmentViews.{placed_type, placed_function};

use crate::signatures::{Binding, FunctionSignature};
use ash_type_rules::Ty;

/// The first variable of this name, with its place.
pub(crate) fn first_binding(all: &[Binding], name: &str) -> Option<(usize, Ty)>
    ensures value { result
        ≡ option_map placed_type
        (environment.first_from (environment.declares name.now) 0 (map binding_of all.now)) }
{
    for (i, declared) in all.iter().enumerate() {
        if name == declared.name {
            return Some((i, declared.of));
        }
    }
    None
}

/// The last variable of this name, with its place.
pub(crate) fn last_binding(all: &[Binding], name: &str) -> Option<(usize, Ty)>
    ensures value { result ≡ environment.last_named name.now 0 None (map binding_of all.now) }
{
    for i in (0..all.len()).rev() {
        let binding = &all[i];
        if name == binding.name {
            return Some((i, binding.of));
        }
    }
    None
}

/// The first function of this name, with its place.
pub fn first_function<'a, 'n>(
    all: &'a [FunctionSignature<'n>],
    name: &str,
) -> Option<(usize, &'a FunctionSignature<'n>)>
    ensures first_of_name { option_map placed_function result
        ≡ environment.first_from (environment.is_called name.now) 0
        (map function_signature_of all.now) }
{
    for (i, function) in all.iter().enumerate() {
        if name == function.name {
            return Some((i, function));
        }
    }
    None
}
