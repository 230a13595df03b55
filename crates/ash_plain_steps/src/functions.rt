//! The functions and the globals of a module, by name.

ghost use Rattle.std.specs.Prelude.{◌≡◌, map, drop, slice_get};
ghost use Rattle.std.specs.List.{position_from};
ghost use Rattle.std.specs.Str.{bytes_eq};
ghost use Rattle.ash_typed.specs.BodyViews.{value_of};
ghost use Rattle.ash_typed.specs.Modules.{Function as FunctionData, function_of, variables_of};
ghost use Rattle.ash_typed.specs.SoundModules.{name_of_variable};
ghost use Rattle.ash_plain_steps.specs.TaskViews.{word_among};

use ash_host::Word;
use ash_typed::{Function, Initialization, Variables};

/// The place of the function of this name.
pub(crate) fn place_of_function(functions: &[Function], name: &str) -> Option<usize>
    ensures value { result ≡ position_from (λ (f : FunctionData). bytes_eq f.name name.now) 0
        (map function_of functions.now) }
{
    for (place, function) in functions.iter().enumerate() {
        if function.name.as_str() == name {
            return Some(place);
        }
    }
    None
}

/// The place of the variable of this name.
fn place_of_variable(variables: &[Initialization], name: &str) -> Option<usize>
    ensures value { result ≡ position_from (λ other. bytes_eq other name.now) 0
        (map name_of_variable (map value_of variables.now)) }
{
    for (place, variable) in variables.iter().enumerate() {
        if variable.name.as_str() == name {
            return Some(place);
        }
    }
    None
}

/// The word at a place.
fn word_at(words: &[Word], place: usize) -> Option<Word>
    ensures value { result ≡ slice_get words.now place }
{
    words.get(place).copied()
}

/// The words after the first so many.
fn after(words: &[Word], count: usize) -> &[Word]
    ensures value { result.now ≡ drop count words.now }
{
    if count < words.len() {
        &words[count..]
    } else {
        &[]
    }
}

/// What the global of this name holds.
pub(crate) fn word_named(declarations: &[Variables], globals: &[Word], name: &str) -> Option<Word>
    ensures value { result ≡ word_among name.now (map variables_of declarations.now) globals.now }
{
    let mut words = globals;
    for declaration in declarations {
        match place_of_variable(&declaration.initializations, name) {
            Some(place) => return word_at(words, place),
            None => words = after(words, declaration.initializations.len()),
        }
    }
    None
}
