//! The numbers of a state are in the ranges of their types. These functions change nothing.

ghost use Rattle.std.specs.Prelude.{◌<◌, ◌^◌, string_bytes};
ghost use Rattle.std.specs.List.{AllByRecursion};
ghost use Rattle.std.specs.Str.{IsUtf8};
ghost use Rattle.ash_host.specs.ElementTags.{element_of};
ghost use Rattle.ash_image.specs.ImageWords.{FitsWord};
ghost use Rattle.ash_image.specs.ObjectBytes.{FitsElement};
ghost use Rattle.ash_image.specs.ImageObjectViews.{plain_of};
ghost use Rattle.ash_image.specs.SnapshotViews.{services_of, modules_of, object_of, objects_of};
ghost use Rattle.ash_image.specs.SnapshotViews.{snapshot_of};
ghost use Rattle.ash_image.specs.Fitting.{IsRanged, IsRangedEntry, AreRanged};

use crate::stored::{StoredBody, StoredHost, StoredModule, StoredObject, StoredState};
use ash_host::{ElementTag, Word};

fn word_range(word: Word)
    ensures fits { FitsWord word }
{
    match word {
        Word::Int(_value) => {}
        Word::Uint(_value) => {}
        Word::Int64(_value) => {}
        Word::Uint64(_value) => {}
        Word::Object(_number) => {}
        Word::Bool(_) | Word::Null => {}
    }
}

fn word_ranges(words: &[Word])
    ensures fit { AllByRecursion FitsWord words.now }
{
    for word in words {
        word_range(*word);
    }
}

fn element_range(element: ElementTag)
    ensures fits { FitsElement (element_of element) }
{
    match element {
        ElementTag::Class(_owner, _class) => {}
        ElementTag::Kind(_kind) => {}
        _ => {}
    }
}

fn service_range(service: &StoredHost)
    ensures ranged { service.now.kind < 2 ^ 16 }
{
    let _kind = service.kind;
}

fn service_ranges(services: &[StoredHost])
    ensures ranged { AllByRecursion (λ s. s.0 < 2 ^ 16) (services_of services.now) }
{
    for service in services {
        service_range(service);
    }
}

fn module_range(loaded: &StoredModule)
    ensures ranged { AllByRecursion FitsWord loaded.now.globals.items }
{
    word_ranges(&loaded.globals);
}

fn module_ranges(modules: &[StoredModule])
    ensures ranged { AllByRecursion (λ m. AllByRecursion FitsWord m.globals) (modules_of modules.now) }
{
    for loaded in modules {
        module_range(loaded);
    }
}

fn body_range(body: &StoredBody)
    ensures ranged { IsRanged (plain_of body.now) }
{
    match body {
        StoredBody::Script(script) => {
            let _owner = script.owner;
            let _class = script.class;
            word_ranges(&script.fields);
        }
        StoredBody::Host(host) => service_range(host),
        StoredBody::Array(array) => {
            element_range(array.element);
            word_ranges(&array.elements);
        }
    }
}

fn object_range(object: &StoredObject)
    ensures ranged { IsRangedEntry (object_of object.now) }
{
    let _number = object.number;
    body_range(&object.body);
}

fn object_ranges(objects: &[StoredObject])
    ensures ranged { AllByRecursion IsRangedEntry (objects_of objects.now) }
{
    for object in objects {
        object_range(object);
    }
}

fn text_utf8(text: &str)
    ensures utf8 { IsUtf8 text.now }
{}

fn string_utf8(text: &String)
    ensures utf8 { IsUtf8 (string_bytes text.now) }
{
    text_utf8(text.as_str());
}

/// The numbers of a state are in range, and its text is UTF-8.
pub fn state_range(state: &StoredState)
    ensures ranged { AreRanged (snapshot_of state.now) }
    ensures utf8 { IsUtf8 (string_bytes state.now.registered) }
{
    string_utf8(&state.registered);
    let _seq = state.seq;
    let _last = state.last;
    service_ranges(&state.services);
    module_ranges(&state.modules);
    object_ranges(&state.objects);
}
