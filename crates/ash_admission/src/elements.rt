//! Whether words are elements of an array.

ghost use Rattle.std.specs.Prelude.{◌≡◌, map};
ghost use Rattle.std.specs.List.{list_all};
ghost use Rattle.ash_typed.specs.Modules.{interface_of};
ghost use Rattle.ash_admission.specs.Places.{is_of_place, is_of_kind, is_of};
ghost use Rattle.ash_admission.specs.Values.{is_truth, is_integer, is_reference};
ghost use Rattle.ash_admission.specs.Contents.{are_of_class, any_interface, are_handles};
ghost use Rattle.ash_admission.specs.Admission.{program_of};

use crate::places::{class_at, is_sum};
use crate::types::{is_of_kind, is_of_place};
use crate::values::{is_integer, is_reference, is_truth};
use ash_host::Word;
use ash_plain_steps::state::LoadedModule;
use ash_plain_world::objects::ObjectMap;
use ash_typed::{IntType, Interface, ObjectType};

/// Whether words are truth values.
pub(crate) fn are_truths(words: &[Word]) -> bool
    ensures value { result ≡ list_all is_truth words.now }
{
    for word in words {
        if !is_truth(*word) {
            return false;
        }
    }
    true
}

/// Whether words are integers of a type.
pub(crate) fn are_integers(of: IntType, words: &[Word]) -> bool
    ensures value { result ≡ list_all (is_integer of) words.now }
{
    for word in words {
        if !is_integer(of, *word) {
            return false;
        }
    }
    true
}

/// Whether a word is null, or a handle of a living host object of a kind.
fn is_reference_of_kind(objects: &ObjectMap, kind: u16, word: Word) -> bool
    ensures value { result ≡ is_reference objects.now (is_of_kind kind) word }
{
    match word {
        Word::Null => true,
        Word::Object(number) => match objects.get(number) {
            Some(object) => is_of_kind(kind, object),
            None => false,
        },
        _ => false,
    }
}

/// Whether words are handles of host objects of a kind.
pub(crate) fn are_of_kind(objects: &ObjectMap, kind: u16, words: &[Word]) -> bool
    ensures value { result ≡ list_all (is_reference objects.now (is_of_kind kind)) words.now }
{
    for word in words {
        if !is_reference_of_kind(objects, kind, *word) {
            return false;
        }
    }
    true
}

/// Whether a word is null, or a handle of a living object of the class at a place of a module's source.
fn is_reference_of_place(objects: &ObjectMap, name: &str, place: usize, word: Word) -> bool
    ensures value { result ≡ is_reference objects.now (is_of_place name.now place) word }
{
    match word {
        Word::Null => true,
        Word::Object(number) => match objects.get(number) {
            Some(object) => is_of_place(name, place, object),
            None => false,
        },
        _ => false,
    }
}

fn are_of_place(objects: &ObjectMap, name: &str, place: usize, words: &[Word]) -> bool
    ensures value { result ≡ list_all (is_reference objects.now (is_of_place name.now place))
        words.now }
{
    for word in words {
        if !is_reference_of_place(objects, name, place, *word) {
            return false;
        }
    }
    true
}

/// Whether words are handles of objects of the class at a place of the module's source.
fn are_of_class(loaded: &LoadedModule, objects: &ObjectMap, place: usize, words: &[Word]) -> bool
    ensures value { result ≡ are_of_class objects.now place words.now (program_of loaded.now) }
{
    class_at(&loaded.tree, place).is_some()
        && are_of_place(objects, loaded.name.as_str(), place, words)
}

/// Whether words are handles of objects of a type of the module.
fn are_references(
    loaded: &LoadedModule,
    objects: &ObjectMap,
    of: ObjectType,
    words: &[Word],
) -> bool
    ensures value { result
        ≡ list_all (is_reference objects.now (is_of (program_of loaded.now) of)) words.now }
{
    for word in words {
        if !is_reference(loaded, objects, of, *word) {
            return false;
        }
    }
    true
}

/// Whether words are handles of objects of an interface at a place of the module's source.
fn are_of_interface(
    loaded: &LoadedModule,
    interfaces: &[Interface],
    objects: &ObjectMap,
    place: usize,
    words: &[Word],
) -> bool
    ensures value { result
        ≡ any_interface objects.now place words.now (program_of loaded.now) 0
        (map interface_of interfaces.now) }
{
    for (interface, source) in interfaces.iter().enumerate() {
        if is_sum(place, interface, source.classes_before)
            && are_references(loaded, objects, ObjectType::Interface(interface), words)
        {
            return true;
        }
    }
    false
}

/// Whether words are handles of objects of the class or of the interface at a place of the module's source.
pub(crate) fn are_handles(
    loaded: &LoadedModule,
    objects: &ObjectMap,
    place: usize,
    words: &[Word],
) -> bool
    ensures value { result ≡ are_handles objects.now place words.now (program_of loaded.now) }
{
    are_of_class(loaded, objects, place, words)
        || are_of_interface(loaded, &loaded.tree.interfaces, objects, place, words)
}
