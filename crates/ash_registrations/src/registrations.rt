//! What is registered.
ghost use Rattle.std.specs.Prelude.{◌≡◌, ◌≤◌, ℕ, List, map, length, string_bytes};
ghost use Rattle.indexmap.specs.IndexMap.{get_by_text};
ghost use Rattle.ash_registrations.specs.Registrations.{registration_of, takes_name};
ghost use Rattle.ash_registrations.specs.Names.{place_of};
ghost use Rattle.ash_registrations.specs.Text.{text_of, max_registered_text_bytes};

use crate::Registration;
use indexmap::IndexMap;
use std::alloc::Global;

/// What is registered: the accepted registrations in order, the place among them of each name of a type or function,
/// and their text.
#[derive(Drop)]
pub struct Registrations {
    pub(crate) alloc: Global,
    pub(crate) registrations: Vec<Registration>,
    pub(crate) names: IndexMap<String, usize>,
    pub(crate) text: String,
    ghost written: { string_bytes text ≡ text_of (map registration_of registrations.items) },
    ghost short: { length (string_bytes text) ≤ max_registered_text_bytes },
    ghost placed: { (name : List ℕ) → get_by_text names name
        ≡ place_of (λ r. takes_name name (registration_of r)) registrations.items },
}
