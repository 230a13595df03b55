//! What a call is handed, as the words of its parameters.

ghost use Rattle.std.specs.Prelude.{◌≡◌, true, is_some, option_map, IfOk, OnErr, IsSome};
ghost use Rattle.std.specs.Option.{option_map_or};
ghost use Rattle.std.specs.List.{list_all};
ghost use Rattle.ash_typed.specs.declared.types.VarType.TheVariants as vars;
ghost use Rattle.ash_typed.specs.Modules.{function_of};
ghost use Rattle.ash_requests.specs.declared.argument.Arg.TheVariants as arguments;
ghost use Rattle.ash_requests.specs.Tasks.{argument_of, arguments_of, is_primitive, is_callable};

use ash_host::Word;
use ash_integers::{IntType, number, word_from};
use ash_requests::Arg;
use ash_typed::{Function, VarType};
use std::alloc::{AllocError, Global};

/// A number as a word of an integer type, where the type holds it.
#[tactic(auto, using(crate::proofs::Numbers::number_reduced))]
fn number_of(int_type: IntType, value: i128) -> Option<Word>
    ensures meaning { result ≡ argument_of (vars.Integer int_type) (arguments.Number value) }
{
    let word = word_from(int_type, value);
    if number(word) == value {
        Some(word)
    } else {
        None
    }
}

/// An argument as a word of a parameter's type, where the type holds it.
fn argument_of(of: VarType, argument: Arg) -> Option<Word>
    ensures value { result ≡ argument_of of argument }
{
    match (of, argument) {
        (VarType::Bool, Arg::Truth(value)) => Some(Word::Bool(value)),
        (VarType::Integer(int_type), Arg::Number(value)) => number_of(int_type, value),
        _ => None,
    }
}

/// Whether the type of a parameter holds an argument.
fn is_held(of: VarType, argument: Arg) -> bool
    ensures value { result ≡ is_some (argument_of of argument) }
{
    argument_of(of, argument).is_some()
}

/// Whether there are as many arguments as parameters, each held by its type.
#[tactic(auto, using(crate::proofs::ArgumentLists::one_held, crate::proofs::ArgumentLists::not_held))]
fn are_held(parameters: &[VarType], arguments: &[Arg]) -> bool
    ensures value { result ≡ is_some (arguments_of parameters.now arguments.now) }
{
    for (place, argument) in arguments.iter().enumerate() {
        let Some(of) = parameters.get(place) else {
            return false;
        };
        if !is_held(*of, *argument) {
            return false;
        }
    }
    parameters.len() <= arguments.len()
}

/// The words of arguments, where there are as many as parameters, each of its type.
#[tactic(auto, using(crate::proofs::ArgumentLists::one_more, crate::proofs::ArgumentLists::no_word, crate::proofs::ArgumentLists::as_many))]
fn words_of(
    alloc: Global,
    parameters: &[VarType],
    arguments: &[Arg],
) -> Result<Option<Vec<Word>>, AllocError>
    ensures value { IfOk result (λ words. option_map (λ v. v.items) words
        ≡ arguments_of parameters.now arguments.now) }
{
    let mut words = Vec::with_capacity(alloc, arguments.len())?;
    for (place, argument) in arguments.iter().enumerate() {
        let Some(of) = parameters.get(place) else {
            return Ok(None);
        };
        let Some(word) = argument_of(*of, *argument) else {
            return Ok(None);
        };
        words.push(word)?;
    }
    if parameters.len() > arguments.len() {
        return Ok(None);
    }
    Ok(Some(words))
}

/// The words of arguments, where there are as many as parameters, each of its type. That is tested before memory is
/// taken for the words: an `Err` means that memory was refused to arguments that a function can be called with.
#[tactic(auto, using(crate::proofs::ArgumentLists::none_held, crate::proofs::ArgumentLists::on_err))]
pub(crate) fn arguments_of(
    alloc: Global,
    parameters: &[VarType],
    arguments: &[Arg],
) -> Result<Option<Vec<Word>>, AllocError>
    ensures words { IfOk result (λ words. option_map (λ v. v.items) words
        ≡ arguments_of parameters.now arguments.now) }
    ensures memory { OnErr result (IsSome (arguments_of parameters.now arguments.now)) }
{
    if !are_held(parameters, arguments) {
        return Ok(None);
    }
    words_of(alloc, parameters, arguments)
}

/// Whether a value of this type is a primitive.
fn is_primitive(of: VarType) -> bool
    ensures value { result ≡ is_primitive of }
{
    match of {
        VarType::Bool | VarType::Integer(_) => true,
        VarType::Object(_) | VarType::Handle(_) => false,
    }
}

fn are_primitive(types: &[VarType]) -> bool
    ensures value { result ≡ list_all is_primitive types.now }
{
    for of in types {
        if !is_primitive(*of) {
            return false;
        }
    }
    true
}

fn gives_primitive(of: Option<VarType>) -> bool
    ensures value { result ≡ option_map_or is_primitive of true }
{
    match of {
        Some(of) => is_primitive(of),
        None => true,
    }
}

/// Whether a function can be called from outside: it takes and gives primitives alone.
pub(crate) fn is_callable(function: &Function) -> bool
    ensures value { result ≡ is_callable (function_of function.now) }
{
    are_primitive(&function.parameters) && gives_primitive(function.result)
}
