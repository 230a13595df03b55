//! How many bytes an image has, so that its memory is taken at once.

ghost use Rattle.std.specs.Prelude.{◌≡◌, ◌<◌, ◌≤◌, ◌+◌, ◌*◌, ◌^◌, length};
ghost use Rattle.std.specs.List.{flat_map};
ghost use Rattle.ash_image.specs.ImageWords.{word};
ghost use Rattle.ash_image.specs.ObjectBytes.{element, host, plain, FitsHost, FitsPlain};
ghost use Rattle.ash_host.specs.ElementTags.{element_of};
ghost use Rattle.ash_image.specs.ImageObjectViews.{plain_in};
ghost use Rattle.ash_image.specs.Image.{loaded_module, service, object, image_of};
ghost use Rattle.ash_image.specs.Image.{FitsModule, FitsObject, FitServices};
ghost use Rattle.ash_image.specs.Image.{FitModules, FitObjects, FitsVersion};
ghost use Rattle.ash_image.specs.SnapshotViews.{services_in, module_in, modules_in};
ghost use Rattle.ash_image.specs.SnapshotViews.{object_in, objects_in, snapshot_in};
ghost use Rattle.ash_image.specs.declared.version.Version.TheVariants.{Two};

use crate::parts::{BodyParts, HostParts, ModuleParts, ObjectParts, StateParts};
use ash_host::{ElementTag, Word};

pub fn word_length(value: Word) -> usize
    ensures exact { result ≡ length (word value) }
    ensures most { result ≤ 9 }
{
    match value {
        Word::Null => 1,
        Word::Bool(_) => 2,
        Word::Int(_) | Word::Uint(_) => 5,
        Word::Int64(_) | Word::Uint64(_) | Word::Object(_) => 9,
    }
}

pub fn words_length(words: &[Word]) -> usize
    requires within { length words.now < 2 ^ 16 }
    ensures exact { result ≡ length (flat_map word words.now) }
    ensures most { result ≤ 9 * 2 ^ 16 }
{
    let mut total = 0;
    for word in words {
        total += word_length(*word);
    }
    total
}

fn element_length(of: ElementTag) -> usize
    ensures exact { result ≡ length (element (element_of of)) }
    ensures most { result ≤ 4 }
{
    match of {
        ElementTag::Class(_, _) => 4,
        ElementTag::Kind(_) => 3,
        ElementTag::Bool
        | ElementTag::Int
        | ElementTag::Uint
        | ElementTag::Int64
        | ElementTag::Uint64 => 1,
    }
}

pub fn host_length(parts: HostParts<'_>) -> usize
    requires fits_host { FitsHost parts.kind parts.state.now }
    ensures exact { result ≡ length (host parts.entry.kind parts.entry.state.now) }
    ensures most { result < 2 ^ 11 }
{
    2 + 2 + parts.state.len()
}

fn body_length(body: BodyParts<'_>) -> usize
    requires fits_plain { FitsPlain (plain_in body) }
    ensures exact { result ≡ length (plain (plain_in body.entry)) }
    ensures most { result ≤ 9 * 2 ^ 16 + 7 }
{
    match body {
        BodyParts::Script(parts) => 1 + 1 + 2 + 1 + words_length(parts.fields),
        BodyParts::Host(parts) => 1 + host_length(parts),
        BodyParts::Array(parts) => {
            1 + element_length(parts.element) + 2 + words_length(parts.elements)
        }
    }
}

fn object_length(parts: ObjectParts<'_>) -> usize
    requires fits_object { FitsObject Two (object_in parts) }
    ensures exact { result ≡ length (object (object_in parts.entry)) }
    ensures most { result < 2 ^ 20 }
{
    8 + body_length(parts.body)
}

pub fn objects_length(objects: &[ObjectParts<'_>]) -> usize
    requires fit_objects { FitObjects Two (objects_in objects.now) }
    ensures exact { result ≡ length (flat_map object (objects_in objects.now)) }
    ensures most { result ≤ 2 ^ 32 }
{
    let mut total = 0;
    for parts in objects {
        total += object_length(*parts);
    }
    total
}

fn services_length(services: &[HostParts<'_>]) -> usize
    requires fit_services { FitServices (services_in services.now) }
    ensures exact { result ≡ length (flat_map service (services_in services.now)) }
    ensures most { result ≤ 2 ^ 15 }
{
    let mut total = 0;
    for parts in services {
        total += host_length(*parts);
    }
    total
}

fn module_length(parts: ModuleParts<'_>) -> usize
    requires fits_module { FitsModule (module_in parts) }
    ensures exact { result ≡ length (loaded_module (module_in parts.entry)) }
    ensures most { result < 2 ^ 20 }
{
    1 + parts.name.len() + 4 + parts.source.len() + 2 + words_length(parts.globals)
}

fn modules_length(modules: &[ModuleParts<'_>]) -> usize
    requires fit_modules { FitModules (modules_in modules.now) }
    ensures exact { result ≡ length (flat_map loaded_module (modules_in modules.now)) }
    ensures most { result ≤ 2 ^ 24 }
{
    let mut total = 0;
    for parts in modules {
        total += module_length(*parts);
    }
    total
}

/// What services, modules and objects have beside their counts.
fn lists_length(state: StateParts<'_>) -> usize
    requires fits_version { FitsVersion Two (snapshot_in state) }
    ensures exact { result ≡ length (flat_map service (services_in state.entry.services.now))
        + length (flat_map loaded_module (modules_in state.entry.modules.now))
        + length (flat_map object (objects_in state.entry.objects.now)) }
    ensures most { result ≤ 2 ^ 33 }
{
    services_length(state.services) + modules_length(state.modules) + objects_length(state.objects)
}

/// How many bytes the image of a state has.
#[tactic(auto, using(crate::proofs::ImageLengths::image_length))]
pub fn image_length(state: StateParts<'_>) -> usize
    requires fits { FitsVersion Two (snapshot_in state) }
    ensures exact { result ≡ length (image_of (snapshot_in state.entry)) }
    ensures most { result < 2 ^ 34 }
{
    2 + 4 + state.registered.len() + 8 + 8 + 2 + 1 + 4 + lists_length(state)
}
