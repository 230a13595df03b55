//! Requests as lines.

use ash_requests::{Arg, Request};
use std::alloc::{AllocError, Global};

/// What comes before a blank, and what after it.
fn parted(text: &str) -> (&str, &str) {
    text.split_once(' ').unwrap_or((text, ""))
}

/// What a call is handed: numbers and truth values, after the function's name. Anything else is left out.
pub fn arguments_of(alloc: Global, line: &str) -> Result<Vec<Arg>, AllocError> {
    let mut arguments = Vec::new(alloc);
    if !line.starts_with("call ") {
        return Ok(arguments);
    }
    for word in line.split(' ') {
        if let Ok(number) = word.parse::<i64>() {
            arguments.push(Arg::Number(i128::from(number)))?;
        }
    }
    Ok(arguments)
}

/// The request of a line. A line that is none asks for the number of answers.
pub fn request_of<'a>(line: &'a str, arguments: &'a [Arg]) -> Request<'a> {
    let (verb, rest) = parted(line);
    let (name, more) = parted(rest);
    match verb {
        "load" => Request::Load {
            module: name,
            source: more.as_bytes(),
        },
        "call" => Request::Call {
            module: name,
            function: parted(more).0,
            arguments,
        },
        "get" => Request::Global {
            module: name,
            name: more,
        },
        "discard" => Request::Discard { module: name },
        "object" => Request::Object {
            number: name.parse::<u64>().unwrap_or(0),
        },
        "snapshot" => Request::Snapshot,
        _ => Request::Seq,
    }
}
