//! Words, events, exceptions and objects as texts.

use ash_host::{Event, Target, Word};
use ash_meaning::Exception;
use std::alloc::AllocError;
use std::fmt::Write;

/// Writes a word as a reply has it.
pub fn write_word(out: &mut String, word: Word) -> Result<(), AllocError> {
    match word {
        Word::Bool(truth) => write!(out, "{truth}"),
        Word::Int(number) => write!(out, "{number}"),
        Word::Uint(number) => write!(out, "{number}"),
        Word::Int64(number) => write!(out, "{number}"),
        Word::Uint64(number) => write!(out, "{number}"),
        Word::Null => write!(out, "null"),
        Word::Object(number) => write!(out, "object {number}"),
    }
}

/// The type of a word, if it is of a primitive type.
pub fn type_name(word: Word) -> &'static str {
    match word {
        Word::Bool(_) => "bool",
        Word::Int(_) => "int",
        Word::Uint(_) => "uint",
        Word::Int64(_) => "int64",
        Word::Uint64(_) => "uint64",
        Word::Null | Word::Object(_) => "handle",
    }
}

/// Writes words, each after a blank.
pub fn write_words(out: &mut String, words: &[Word]) -> Result<(), AllocError> {
    for word in words {
        out.push_str(" ")?;
        write_word(out, *word)?;
    }
    Ok(())
}

/// Writes the types of words, each after a blank.
pub fn write_types(out: &mut String, words: &[Word]) -> Result<(), AllocError> {
    for word in words {
        write!(out, " {}", type_name(*word))?;
    }
    Ok(())
}

/// Writes each byte as two hexadecimal digits.
pub fn write_bytes(out: &mut String, bytes: &[u8]) -> Result<(), AllocError> {
    for byte in bytes {
        write!(out, "{byte:02x}")?;
    }
    Ok(())
}

/// Writes an exception as a reply has it.
pub fn write_exception(out: &mut String, exception: Exception) -> Result<(), AllocError> {
    write!(out, "exception {}", exception.name())?;
    match exception {
        Exception::Raised(code) => write!(out, " {code}"),
        _ => Ok(()),
    }
}

fn write_named(out: &mut String, name: &str, number: u64) -> Result<(), AllocError> {
    write!(out, "{name} {number}; ")
}

fn write_call(out: &mut String, target: Target, function: u16) -> Result<(), AllocError> {
    match target {
        Target::Object(number) => write!(out, "Called {number} {function}; "),
        Target::Service(place) => write!(out, "Called service {place} {function}; "),
    }
}

fn write_event(out: &mut String, event: Event) -> Result<(), AllocError> {
    match event {
        Event::Drew(number) => write_named(out, "Drew", number),
        Event::Called(target, function) => write_call(out, target, function),
        Event::Dropped(number) => write_named(out, "Dropped", number),
    }
}

/// Writes events.
pub fn write_events(out: &mut String, events: &[Event]) -> Result<(), AllocError> {
    for event in events {
        write_event(out, *event)?;
    }
    Ok(())
}
