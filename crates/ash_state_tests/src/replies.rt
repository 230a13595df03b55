//! Replies as the program writes them, and events.

use ash_check::ScriptFault;
use ash_host::{Event, Target, Word};
use ash_lex::LexFault;
use ash_parse::ParseFault;
use ash_requests::{Answer, Exception, ObjectContents, Outcome, Refusal, Reply, Shown};
use ash_sources::fault::SourceFault;
use std::alloc::{AllocError, Global};
use std::fmt::Write;

/// Writes a word as a reply has it.
pub fn write_word(out: &mut String, word: Word) -> Result<(), AllocError> {
    match word {
        Word::Bool(truth) => write!(out, "{truth}"),
        Word::Int(number) => write!(out, "{number}"),
        Word::Uint(number) => write!(out, "{number}"),
        Word::Int64(number) => write!(out, "{number}"),
        Word::Uint64(number) => write!(out, "{number}"),
        Word::Null => write!(out, "null"),
        Word::Object(number) => write!(out, "object {number}"),
    }
}

/// Writes each byte as two hexadecimal digits.
pub fn write_bytes(out: &mut String, bytes: &[u8]) -> Result<(), AllocError> {
    for byte in bytes {
        write!(out, "{byte:02x}")?;
    }
    Ok(())
}

fn write_exception(out: &mut String, exception: Exception) -> Result<(), AllocError> {
    write!(out, "exception {}", exception.name())?;
    match exception {
        Exception::Raised(code) => write!(out, " {code}"),
        _ => Ok(()),
    }
}

fn write_outcome(out: &mut String, outcome: &Outcome) -> Result<(), AllocError> {
    match outcome {
        Outcome::Finished(None) => write!(out, "ok"),
        Outcome::Finished(Some(word)) => {
            write!(out, "ok ")?;
            write_word(out, *word)
        }
        Outcome::Exception {
            code,
            function,
            line,
        } => {
            write_exception(out, *code)?;
            write!(out, " {function} {line}")
        }
        Outcome::Aborted { function, line } => write!(out, "aborted {function} {line}"),
    }
}

/// The numbers of the objects that were dropped, where there are some.
fn write_dropped(out: &mut String, events: &[Event]) -> Result<(), AllocError> {
    let mut word = " dropped";
    for event in events {
        if let Event::Dropped(number) = event {
            write!(out, "{word} {number}")?;
            word = "";
        }
    }
    Ok(())
}

fn write_answer(out: &mut String, answer: &Answer) -> Result<(), AllocError> {
    write_outcome(out, &answer.outcome)?;
    write!(out, " seq {}", answer.seq)?;
    write_dropped(out, &answer.events)
}

/// Elements, or how many zeros they are where they are many.
fn write_elements(out: &mut String, elements: &[Word]) -> Result<(), AllocError> {
    let is_long = elements.len() > 64;
    if is_long && elements.iter().all(|word| matches!(word, Word::Int(0))) {
        return write!(out, " ({} zeros)", elements.len());
    }
    for word in elements {
        write!(out, " ")?;
        write_word(out, *word)?;
    }
    Ok(())
}

fn write_contents(out: &mut String, contents: &ObjectContents) -> Result<(), AllocError> {
    match contents {
        ObjectContents::Fields(fields) => {
            for (name, word) in fields {
                write!(out, " {name} ")?;
                write_word(out, *word)?;
            }
            Ok(())
        }
        ObjectContents::HostState(state) => {
            write!(out, " state ")?;
            write_bytes(out, state)
        }
        ObjectContents::Elements(elements) => write_elements(out, elements),
    }
}

fn write_shown(out: &mut String, shown: &Shown) -> Result<(), AllocError> {
    write!(
        out,
        "ok object {} {} count {}",
        shown.number, shown.type_name, shown.count
    )?;
    write_contents(out, &shown.contents)
}

/// The offset of a lexical fault, if it has one.
fn write_lexical(out: &mut String, fault: LexFault) -> Result<(), AllocError> {
    match fault {
        LexFault::BadCharacter { at }
        | LexFault::UnclosedComment { at }
        | LexFault::NumberTooLarge { at } => write!(out, " {at}"),
        LexFault::SourceTooLong | LexFault::NoMemory => Ok(()),
    }
}

/// The word and the offset of a fault of the grammar, if it has them.
fn write_syntactic(out: &mut String, fault: ParseFault) -> Result<(), AllocError> {
    match fault {
        ParseFault::Unexpected { at } | ParseFault::TooDeep { at } => write!(out, " {at}"),
        ParseFault::Unsupported { word, at } => write!(out, " {word} {at}"),
        ParseFault::NoMemory => Ok(()),
    }
}

/// Names, each after a blank.
fn write_names(out: &mut String, names: &[String]) -> Result<(), AllocError> {
    for name in names {
        write!(out, " {name}")?;
    }
    Ok(())
}

fn write_fault(out: &mut String, fault: &SourceFault) -> Result<(), AllocError> {
    write!(out, "{}", fault.code())?;
    match fault {
        SourceFault::Lexical(fault) => write_lexical(out, *fault),
        SourceFault::Syntactic(fault) => write_syntactic(out, *fault),
        SourceFault::Checked(ScriptFault::Broken(fault)) => write!(out, " {}", fault.at),
        SourceFault::Checked(ScriptFault::Cyclic(names)) => write_names(out, names.0.as_slice()),
    }
}

/// The code and the name of a refusal. A source is refused with those of its fault.
fn refusal_text(refusal: &Refusal<SourceFault>) -> &'static str {
    match refusal {
        Refusal::SequenceSpent => "410 SequenceSpent",
        Refusal::BadName => "409 BadName",
        Refusal::ModuleTaken => "402 ModuleTaken",
        Refusal::TooManyModules => "408 TooManyModules",
        Refusal::BadSource(_) => "",
        Refusal::NoModule => "401 NoModule",
        Refusal::NoFunction => "403 NoFunction",
        Refusal::NotCallable => "404 NotCallable",
        Refusal::BadArguments => "405 BadArguments",
        Refusal::NoGlobal => "406 NoGlobal",
        Refusal::NoObject => "407 NoObject",
        Refusal::Reopen => "508 Reopen",
        Refusal::DeviceFailed => "507 DeviceFailed",
        Refusal::NoMemory => "509 NoMemory",
        Refusal::GenerationSpent => "511 GenerationSpent",
    }
}

fn write_refusal(out: &mut String, refusal: &Refusal<SourceFault>) -> Result<(), AllocError> {
    out.push_str("refused ")?;
    match refusal {
        Refusal::BadSource(fault) => write_fault(out, fault),
        _ => out.push_str(refusal_text(refusal)),
    }
}

fn write_reply(out: &mut String, reply: &Reply<SourceFault>) -> Result<(), AllocError> {
    match reply {
        Reply::Answer(answer) => write_answer(out, answer),
        Reply::Value(word) => {
            write!(out, "ok ")?;
            write_word(out, *word)
        }
        Reply::Shown(shown) => write_shown(out, shown),
        Reply::Seq(seq) => write!(out, "ok {seq}"),
        Reply::Done => write!(out, "ok"),
        Reply::Refused(refusal) => write_refusal(out, refusal),
    }
}

/// A reply as the program writes it.
pub fn reply_text(alloc: Global, reply: &Reply<SourceFault>) -> Result<String, AllocError> {
    let mut out = String::new(alloc);
    write_reply(&mut out, reply)?;
    Ok(out)
}

/// Writes an event of an object: what comes to it, and its number.
fn write_named(out: &mut String, name: &str, number: u64) -> Result<(), AllocError> {
    write!(out, "{name} {number}; ")
}

fn write_call(out: &mut String, target: Target, function: u16) -> Result<(), AllocError> {
    match target {
        Target::Object(number) => write!(out, "Called {number} {function}; "),
        Target::Service(place) => write!(out, "Called service {place} {function}; "),
    }
}

fn write_event(out: &mut String, event: Event) -> Result<(), AllocError> {
    match event {
        Event::Drew(number) => write_named(out, "Drew", number),
        Event::Called(target, function) => write_call(out, target, function),
        Event::Dropped(number) => write_named(out, "Dropped", number),
    }
}

/// The events of a reply; one that is no answer has none.
pub fn events_text(alloc: Global, reply: &Reply<SourceFault>) -> Result<String, AllocError> {
    let mut out = String::new(alloc);
    if let Reply::Answer(answer) = reply {
        for event in &answer.events {
            write_event(&mut out, *event)?;
        }
    }
    Ok(out)
}
