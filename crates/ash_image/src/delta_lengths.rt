//! How many bytes a delta has, so that its memory is taken at once.

ghost use Rattle.std.specs.Prelude.{◌≡◌, ◌<◌, ◌≤◌, ◌^◌, length};
ghost use Rattle.std.specs.List.{flat_map};
ghost use Rattle.ash_image.specs.Image.{service, max_globals, FitsModule};
ghost use Rattle.ash_image.specs.SnapshotViews.{module_in};
ghost use Rattle.ash_image.specs.Delta.{indexed_word, added, module_change, delta};
ghost use Rattle.ash_image.specs.Delta.{FitServiceStates, FitsChange, FitsDelta};
ghost use Rattle.ash_image.specs.DeltaViews.{all_indexed, change_in, service_states_in, delta_in};
ghost use Rattle.ash_image.specs.declared.version.Version.TheVariants.{Two};

use crate::delta_parts::{ChangeParts, DeltaParts, ServiceParts};
use crate::lengths::{host_length, objects_length, word_length, words_length};
use crate::parts::{HostParts, ModuleParts};
use crate::stored_delta::IndexedWord;

fn states_length(services: &[ServiceParts<'_>]) -> usize
    requires fit_states { FitServiceStates (service_states_in services.now) }
    ensures exact { result ≡ length (flat_map service (service_states_in services.now)) }
    ensures most { result ≤ 2 ^ 15 }
{
    let mut total = 0;
    for parts in services {
        total += host_length(HostParts {
            kind: parts.index,
            state: parts.state,
        });
    }
    total
}

fn indexed_length(words: &[IndexedWord]) -> usize
    requires few { length words.now ≤ max_globals }
    ensures exact { result ≡ length (flat_map indexed_word (all_indexed words.now)) }
    ensures most { result ≤ 2 ^ 12 }
{
    let mut total = 0;
    for indexed in words {
        total += 2 + word_length(indexed.word);
    }
    total
}

fn added_length(parts: ModuleParts<'_>) -> usize
    requires fits_module { FitsModule (module_in parts) }
    ensures exact { result ≡ length (added (module_in parts.entry)) }
    ensures most { result < 2 ^ 20 }
{
    let globals = 2 * parts.globals.len() + words_length(parts.globals);
    1 + parts.name.len() + 4 + parts.source.len() + 2 + globals
}

#[tactic(auto, using(crate::proofs::DeltaLengths::change_lengths))]
fn change_length(change: ChangeParts<'_>) -> usize
    requires fits_change { FitsChange (change_in change) }
    ensures exact { result ≡ length (module_change (change_in change.entry)) }
    ensures most { result ≤ 2 ^ 20 }
{
    match change {
        ChangeParts::Unchanged => 1,
        ChangeParts::Added(module) => 1 + added_length(module),
        ChangeParts::Removed(name) => 1 + 1 + name.len(),
        ChangeParts::Globals(globals) => {
            1 + 1 + globals.name.len() + 2 + indexed_length(globals.globals)
        }
    }
}

/// How many bytes a delta has.
pub fn delta_length(parts: DeltaParts<'_>) -> usize
    requires fits { FitsDelta Two (delta_in parts) }
    ensures exact { result ≡ length (delta (delta_in parts.entry)) }
    ensures most { result < 2 ^ 36 }
{
    let lists = states_length(parts.services) + 8 * parts.gone.len() + objects_length(parts.put);
    8 + 8 + 2 + 4 + 4 + lists + change_length(parts.change)
}
