//! Whether words are values of their types.

ghost use Rattle.std.specs.Prelude.{◌≡◌, map, option_map};
ghost use Rattle.ash_typed.specs.BodyViews.{value_of};
ghost use Rattle.ash_typed.specs.Modules.{variables_of};
ghost use Rattle.ash_typed.specs.Signatures.{type_declared, types_of_globals};
ghost use Rattle.ash_admission.specs.Places.{is_of};
ghost use Rattle.ash_admission.specs.Values.{is_truth, is_integer, is_reference};
ghost use Rattle.ash_admission.specs.Values.{is_value, after_value};
ghost use Rattle.ash_admission.specs.Values.{after_values, are_values};
ghost use Rattle.ash_admission.specs.Admission.{program_of, is_loaded};

use crate::types::is_of;
use ash_host::Word;
use ash_plain_steps::state::LoadedModule;
use ash_plain_world::objects::ObjectMap;
use ash_typed::{Initialization, IntType, ObjectType, VarType, Variables};

/// Whether a word is a truth value.
pub(crate) fn is_truth(word: Word) -> bool
    ensures value { result ≡ is_truth word }
{
    matches!(word, Word::Bool(_))
}

/// Whether a word is an integer of the type.
pub(crate) fn is_integer(of: IntType, word: Word) -> bool
    ensures value { result ≡ is_integer of word }
{
    match (of, word) {
        (IntType::Int, Word::Int(_)) => true,
        (IntType::Uint, Word::Uint(_)) => true,
        (IntType::Int64, Word::Int64(_)) => true,
        (IntType::Uint64, Word::Uint64(_)) => true,
        _ => false,
    }
}

/// Whether a word is null, or a handle of a living object of a type of a module.
pub(crate) fn is_reference(
    loaded: &LoadedModule,
    objects: &ObjectMap,
    of: ObjectType,
    word: Word,
) -> bool
    ensures value { result ≡ is_reference objects.now (is_of (program_of loaded.now) of) word }
{
    match word {
        Word::Null => true,
        Word::Object(number) => match objects.get(number) {
            Some(object) => is_of(loaded, of, object),
            None => false,
        },
        _ => false,
    }
}

/// Whether a word is a value of a type of a module.
fn is_value(loaded: &LoadedModule, objects: &ObjectMap, of: VarType, word: Word) -> bool
    ensures value { result ≡ is_value (program_of loaded.now) objects.now of word }
{
    match of {
        VarType::Bool => is_truth(word),
        VarType::Integer(of) => is_integer(of, word),
        VarType::Object(of) | VarType::Handle(of) => is_reference(loaded, objects, of, word),
    }
}

/// The words after one of a type; none where the first word is of another, or there is none.
fn after_value<'a>(
    loaded: &LoadedModule,
    objects: &ObjectMap,
    of: VarType,
    words: &'a [Word],
) -> Option<&'a [Word]>
    ensures value { option_map (λ rest. rest.now) result
        ≡ after_value (program_of loaded.now) objects.now of words.now }
{
    match words {
        [word, rest @ ..] => {
            if is_value(loaded, objects, of, *word) {
                Some(rest)
            } else {
                None
            }
        }
        [] => None,
    }
}

/// The words after those of variables; none where the first words are not of their types, or are too few.
fn after_values<'a>(
    loaded: &LoadedModule,
    objects: &ObjectMap,
    variables: &[Initialization],
    words: &'a [Word],
) -> Option<&'a [Word]>
    ensures value { option_map (λ rest. rest.now) result
        ≡ after_values (program_of loaded.now) objects.now
        (map type_declared (map value_of variables.now)) words.now }
{
    let mut rest = words;
    for variable in variables {
        rest = after_value(loaded, objects, variable.of, rest)?;
    }
    Some(rest)
}

/// Whether words are values of the types of variables.
pub(crate) fn are_values(
    loaded: &LoadedModule,
    objects: &ObjectMap,
    variables: &[Initialization],
    words: &[Word],
) -> bool
    ensures value { result
        ≡ are_values (program_of loaded.now) objects.now
        (map type_declared (map value_of variables.now)) words.now }
{
    match after_values(loaded, objects, variables, words) {
        Some([]) => true,
        _ => false,
    }
}

/// Whether words are values of the types of all that is declared.
fn are_of_globals(
    loaded: &LoadedModule,
    objects: &ObjectMap,
    declarations: &[Variables],
    words: &[Word],
) -> bool
    ensures value { result
        ≡ are_values (program_of loaded.now) objects.now
        (types_of_globals (map variables_of declarations.now)) words.now }
{
    let mut rest = words;
    for declaration in declarations {
        match after_values(loaded, objects, &declaration.initializations, rest) {
            Some(more) => rest = more,
            None => return false,
        }
    }
    rest.is_empty()
}

/// Whether what the globals of a module hold is of their types.
pub(crate) fn is_loaded(loaded: &LoadedModule, objects: &ObjectMap) -> bool
    ensures value { result ≡ is_loaded objects.now loaded.now }
{
    are_of_globals(loaded, objects, &loaded.tree.globals, &loaded.globals)
}
