//! Requests as lines. A source follows the name of its module.

use ash_requests::{Arg, Request};
use std::alloc::{AllocError, Global};

/// What comes before a blank, and what after it.
fn parted(text: &str) -> (&str, &str) {
    text.split_once(' ').unwrap_or((text, ""))
}

/// A word of a call, if it is an argument.
fn argument_of(word: &str) -> Option<Arg> {
    match word {
        "true" => Some(Arg::Truth(true)),
        "false" => Some(Arg::Truth(false)),
        _ => match word.parse::<i128>() {
            Ok(number) => Some(Arg::Number(number)),
            Err(_) => None,
        },
    }
}

/// What a call is handed, after the names of its module and its function.
pub fn arguments_of(alloc: Global, line: &str) -> Result<Vec<Arg>, AllocError> {
    let mut arguments = Vec::new(alloc);
    if !line.starts_with("call ") {
        return Ok(arguments);
    }
    for word in line.split(' ').skip(3) {
        if let Some(argument) = argument_of(word) {
            arguments.push(argument)?;
        }
    }
    Ok(arguments)
}

/// The request of a line. A line that is none asks for the number of answers.
pub fn request_of<'a>(line: &'a str, arguments: &'a [Arg]) -> Request<'a> {
    let (verb, rest) = parted(line);
    let (name, more) = parted(rest);
    match verb {
        "load" => Request::Load {
            module: name,
            source: more.as_bytes(),
        },
        "call" => Request::Call {
            module: name,
            function: parted(more).0,
            arguments,
        },
        "get" => Request::Global {
            module: name,
            name: more,
        },
        "discard" => Request::Discard { module: name },
        "object" => Request::Object {
            number: name.parse::<u64>().unwrap_or(0),
        },
        "snapshot" => Request::Snapshot,
        _ => Request::Seq,
    }
}
