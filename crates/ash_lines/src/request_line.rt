//! What a line asks.

ghost use Rattle.std.specs.Prelude.{◌≡◌, ◌≤◌, ◌∷◌, [], List, true, Some, None, length, MatchOption};
ghost use Rattle.std.specs.Prelude.{vec_capacity, if◌then◌else◌};
ghost use Rattle.std.specs.List.{list_all};
ghost use Rattle.ash_requests.specs.declared.argument.Arg.{Arg};
ghost use Rattle.ash_lines.specs.Lines.{Line, Complete, is_word, arguments_of, max_line_bytes};
ghost use Rattle.ash_lines.specs.Lines.{max_arguments, parse_line, parse_verb, parse_load};
ghost use Rattle.ash_lines.specs.Lines.{parse_call, parse_discard, parse_get, parse_object};
ghost use Rattle.ash_lines.specs.Lines.{parse_batch, parse_lone};
ghost use Rattle.ash_lines.specs.LineWords.{words_left};
ghost use Rattle.ash_lines.specs.ParsedLines.{parsed_of, IsNotOneWord, IsNotTwoWords};

use crate::line::MAX_LINE_BYTES;
use crate::number::{
    is_same, parse_argument, parse_batch_length, parse_length, parse_object_number,
};
use crate::words::{Words, is_all_words};
use ash_requests::{Arg, Request};
use std::str;

/// More arguments than a line has room for.
pub const MAX_ARGUMENTS: usize = MAX_LINE_BYTES + 1;

/// What a line asks, as far as it is in the line.
#[derive(Clone, Copy)]
pub enum ParsedLine<'a> {
    /// A request of the host, all of it.
    Request(Request<'a>),
    /// A call with the arguments that are stored.
    Call(CallHeader<'a>),
    /// A load of the source that follows the line.
    Load(LoadHeader<'a>),
    /// A batch of so many lines, which follow the line.
    Batch(usize),
    Quit,
    BadRequest,
}

/// The line of a call, without its arguments.
#[derive(Clone, Copy)]
pub struct CallHeader<'a> {
    pub module: &'a str,
    pub function: &'a str,
}

/// The line of a load.
#[derive(Clone, Copy)]
pub struct LoadHeader<'a> {
    pub name: &'a str,
    /// How many bytes the source has.
    pub length: u32,
}

/// What a line asks. The arguments of a call are stored in place of what the buffer had.
pub fn parse_line<'a>(line: &'a [u8], arguments: &mut Vec<Arg>) -> ParsedLine<'a>
    requires short { length line.now ≤ max_line_bytes }
    requires room { max_arguments ≤ vec_capacity arguments.old }
    ensures parsed { parsed_of arguments.new.items result ≡ parse_line line.now }
    ensures room { max_arguments ≤ vec_capacity arguments.new }
{
    if !is_all_words(line) {
        return ParsedLine::BadRequest;
    }
    let mut words = Words::of(line);
    match words.next() {
        None => ParsedLine::BadRequest,
        Some(verb) => parse_verb(verb, words, arguments),
    }
}

fn parse_verb<'a>(verb: &[u8], words: Words<'a>, arguments: &mut Vec<Arg>) -> ParsedLine<'a>
    requires words { list_all is_word (words_left words.rest) ≡ true }
    requires short { length (words_left words.rest) ≤ max_arguments }
    requires room { max_arguments ≤ vec_capacity arguments.old }
    ensures parsed { parsed_of arguments.new.items result
        ≡ parse_verb verb.now (words_left words.entry.rest) }
    ensures room { max_arguments ≤ vec_capacity arguments.new }
{
    if is_same(verb, b"load") {
        parse_load(words)
    } else if is_same(verb, b"call") {
        parse_call(words, arguments)
    } else if is_same(verb, b"discard") {
        parse_discard(words)
    } else if is_same(verb, b"get") {
        parse_get(words)
    } else if is_same(verb, b"object") {
        parse_object(words)
    } else if is_same(verb, b"seq") {
        parse_lone(ParsedLine::Request(Request::Seq), words)
    } else if is_same(verb, b"snapshot") {
        parse_lone(ParsedLine::Request(Request::Snapshot), words)
    } else if is_same(verb, b"quit") {
        parse_lone(ParsedLine::Quit, words)
    } else if is_same(verb, b"batch") {
        parse_batch(words)
    } else {
        ParsedLine::BadRequest
    }
}

/// A request of one word, if that is all of the line.
fn parse_lone<'a>(request: ParsedLine<'a>, words: Words<'_>) -> ParsedLine<'a>
    ensures parsed { (arguments : List Arg) (line : Line)
        → parsed_of arguments request.entry ≡ Complete line
        → parsed_of arguments result ≡ parse_lone line (words_left words.entry.rest) }
{
    if words.is_empty() {
        request
    } else {
        ParsedLine::BadRequest
    }
}

fn parse_load<'a>(words: Words<'a>) -> ParsedLine<'a>
    requires words { list_all is_word (words_left words.rest) ≡ true }
    ensures parsed { (arguments : List Arg)
        → parsed_of arguments result ≡ parse_load (words_left words.entry.rest) }
{
    match two_words(words) {
        None => ParsedLine::BadRequest,
        Some((name, bytes)) => match parse_length(bytes.as_bytes()) {
            None => ParsedLine::BadRequest,
            Some(length) => ParsedLine::Load(LoadHeader { name, length }),
        },
    }
}

fn parse_call<'a>(mut words: Words<'a>, arguments: &mut Vec<Arg>) -> ParsedLine<'a>
    requires words { list_all is_word (words_left words.rest) ≡ true }
    requires short { length (words_left words.rest) ≤ max_arguments }
    requires room { max_arguments ≤ vec_capacity arguments.old }
    ensures parsed { parsed_of arguments.new.items result
        ≡ parse_call (words_left words.entry.rest) }
    ensures room { max_arguments ≤ vec_capacity arguments.new }
{
    let Some(module) = words.next() else {
        return ParsedLine::BadRequest;
    };
    let Some(function) = words.next() else {
        return ParsedLine::BadRequest;
    };
    if !store_arguments(words, arguments) {
        return ParsedLine::BadRequest;
    }
    ParsedLine::Call(CallHeader {
        module: word_str(module),
        function: word_str(function),
    })
}

fn parse_discard<'a>(words: Words<'a>) -> ParsedLine<'a>
    requires words { list_all is_word (words_left words.rest) ≡ true }
    ensures parsed { (arguments : List Arg)
        → parsed_of arguments result ≡ parse_discard (words_left words.entry.rest) }
{
    match one_word(words) {
        None => ParsedLine::BadRequest,
        Some(module) => ParsedLine::Request(Request::Discard { module }),
    }
}

fn parse_get<'a>(words: Words<'a>) -> ParsedLine<'a>
    requires words { list_all is_word (words_left words.rest) ≡ true }
    ensures parsed { (arguments : List Arg)
        → parsed_of arguments result ≡ parse_get (words_left words.entry.rest) }
{
    match two_words(words) {
        None => ParsedLine::BadRequest,
        Some((module, name)) => ParsedLine::Request(Request::Global { module, name }),
    }
}

fn parse_object<'a>(words: Words<'a>) -> ParsedLine<'a>
    requires words { list_all is_word (words_left words.rest) ≡ true }
    ensures parsed { (arguments : List Arg)
        → parsed_of arguments result ≡ parse_object (words_left words.entry.rest) }
{
    match one_word(words) {
        None => ParsedLine::BadRequest,
        Some(word) => match parse_object_number(word.as_bytes()) {
            None => ParsedLine::BadRequest,
            Some(number) => ParsedLine::Request(Request::Object { number }),
        },
    }
}

fn parse_batch<'a>(words: Words<'a>) -> ParsedLine<'a>
    requires words { list_all is_word (words_left words.rest) ≡ true }
    ensures parsed { (arguments : List Arg)
        → parsed_of arguments result ≡ parse_batch (words_left words.entry.rest) }
{
    match one_word(words) {
        None => ParsedLine::BadRequest,
        Some(word) => match parse_batch_length(word.as_bytes()) {
            None => ParsedLine::BadRequest,
            Some(count) => ParsedLine::Batch(count),
        },
    }
}

/// Stores arguments, which are the words, in place of what the buffer had, up to a word that is none. Whether each word
/// is an argument.
fn store_arguments(mut words: Words<'_>, arguments: &mut Vec<Arg>) -> bool
    requires short { length (words_left words.rest) ≤ max_arguments }
    requires room { max_arguments ≤ vec_capacity arguments.old }
    ensures stored { arguments_of (words_left words.entry.rest)
        ≡ (if result then Some arguments.new.items else None) }
    ensures room { max_arguments ≤ vec_capacity arguments.new }
{
    arguments.clear();
    while let Some(word) = words.next() {
        match parse_argument(word) {
            None => return false,
            Some(value) => arguments.push_reserved(value),
        }
    }
    true
}

/// One word, if that is all that is left.
fn one_word<'a>(mut words: Words<'a>) -> Option<&'a str>
    requires words { list_all is_word (words_left words.rest) ≡ true }
    ensures word { MatchOption result (IsNotOneWord (words_left words.entry.rest))
        (λ word. words_left words.entry.rest ≡ word.now ∷ []) }
{
    let word = words.next()?;
    match words.next() {
        None => Some(word_str(word)),
        Some(_) => None,
    }
}

/// Two words, if that is all that is left.
fn two_words<'a>(mut words: Words<'a>) -> Option<(&'a str, &'a str)>
    requires words { list_all is_word (words_left words.rest) ≡ true }
    ensures both { MatchOption result (IsNotTwoWords (words_left words.entry.rest))
        (λ two. words_left words.entry.rest ≡ two.0.now ∷ two.1.now ∷ []) }
{
    let first = words.next()?;
    let second = words.next()?;
    if words.is_empty() {
        Some((word_str(first), word_str(second)))
    } else {
        None
    }
}

/// A word as text.
fn word_str<'a>(word: &'a [u8]) -> &'a str
    requires word { is_word word.now ≡ true }
    ensures same_bytes { result.now ≡ word.now }
{
    match str::from_utf8(word) {
        Ok(text) => text,
        Err(_) => unreachable!(),
    }
}
