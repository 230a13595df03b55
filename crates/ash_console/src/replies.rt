//! What requests come to, in sentences.

use crate::ending::Ending;
use ash_host::Word;
use ash_meaning::Exception;
use ash_outline::routines::{declaration_of, functions_of, line_of};
use ash_reports::report::lines_on;
use ash_requests::{Arg, ObjectContents, Outcome, Refusal, Reply, Shown};
use ash_states::state::{HostRefusal, HostReply};
use std::alloc::{AllocError, Global};

/// What a request is about: a script, where it comes from, and a function of it.
#[derive(Clone, Copy)]
pub struct Call<'a> {
    /// The file of the script, or the name of its module.
    pub file: &'a str,
    pub script: &'a [u8],
    pub module: &'a str,
    pub function: &'a str,
    pub arguments: &'a [Arg],
    pub budget: u64,
    /// The text of what is registered.
    pub registered: &'a str,
}

/// What a request came to: how that ends a command, and the lines that are printed of it.
#[derive(Drop)]
pub struct Answered {
    pub ending: Ending,
    pub lines: String,
}

/// What a request came to.
pub fn answer_to(alloc: Global, call: Call<'_>, reply: &HostReply) -> Result<Answered, AllocError> {
    let (ending, lines) = match reply {
        Reply::Answer(answer) => return outcome_answered(alloc, call, &answer.outcome),
        Reply::Refused(refusal) => return refusal_answered(alloc, call, refusal),
        Reply::Value(word) => (Ending::Done, value_line(alloc, *word)?),
        Reply::Shown(shown) => (Ending::Done, object_line(alloc, shown)?),
        Reply::Seq(seq) => (Ending::Done, format!(in alloc; "{seq}\n")?),
        Reply::Done => (Ending::Done, String::new(alloc)),
    };
    Ok(Answered { ending, lines })
}

/// The value that a run gave, or why it ended.
fn outcome_answered(
    alloc: Global,
    call: Call<'_>,
    outcome: &Outcome,
) -> Result<Answered, AllocError> {
    match outcome {
        Outcome::Finished(None) => Ok(Answered {
            ending: Ending::Done,
            lines: String::new(alloc),
        }),
        Outcome::Finished(Some(word)) => Ok(Answered {
            ending: Ending::Done,
            lines: value_line(alloc, *word)?,
        }),
        Outcome::Exception {
            code,
            function,
            line,
        } => {
            let exception = exception_text(alloc, *code)?;
            let help = help_on_exception(*code);
            let lines = ended_lines(alloc, call, &exception, function, *line, help)?;
            Ok(Answered {
                ending: Ending::AtFault,
                lines,
            })
        }
        Outcome::Aborted { function, line } => {
            let budget = call.budget;
            let what = format!(in alloc; "the budget of {budget} ticks is spent")?;
            let help = Some("is there a loop without an end? If not, give more ticks by --budget");
            let lines = ended_lines(alloc, call, &what, function, *line, help)?;
            Ok(Answered {
                ending: Ending::AtFault,
                lines,
            })
        }
    }
}

/// Where a run ended, the line of the script, and what helps.
fn ended_lines(
    alloc: Global,
    call: Call<'_>,
    what: &str,
    function: &str,
    line: usize,
    help: Option<&str>,
) -> Result<String, AllocError> {
    let file = call.file;
    let mut lines = format!(in alloc; "{file}:{line}: {what} in {function}\n")?;
    let text = line_of(call.script, line);
    if !text.is_empty() {
        lines.push_str(text)?;
        lines.push('\n')?;
    }
    if let Some(help) = help {
        lines.push_str("    ")?;
        lines.push_str(help)?;
        lines.push('\n')?;
    }
    Ok(lines)
}

/// Why a request is refused.
fn refusal_answered(
    alloc: Global,
    call: Call<'_>,
    refusal: &HostRefusal,
) -> Result<Answered, AllocError> {
    let file = call.file;
    let function = call.function;
    let lines = match refusal {
        Refusal::BadSource(fault) => {
            return Ok(Answered {
                ending: Ending::AtFault,
                lines: lines_on(alloc, call.registered, file, call.script, fault)?,
            });
        }
        Refusal::BadName => {
            let module = call.module;
            format!(in alloc; "{file}: no module can be named '{module}'\n")?
        }
        Refusal::NoFunction => {
            let names = functions_of(alloc, call.script)?;
            format!(in alloc; "{file}: there is no function '{function}'\n    it has: {names}\n")?
        }
        Refusal::NotCallable | Refusal::BadArguments => {
            let declared = declaration_of(alloc, call.script, function)?;
            format!(in alloc; "{file}: {refusal}\n    it is declared as '{declared}'\n")?
        }
        Refusal::Reopen | Refusal::DeviceFailed => format!(in alloc;
            "{file}: {refusal}: the disk may be full, or the files of the store may be gone\n"
        )?,
        _ => format!(in alloc; "{file}: {refusal}\n")?,
    };
    Ok(Answered {
        ending: Ending::Impossible,
        lines,
    })
}

/// A value on a line.
fn value_line(alloc: Global, word: Word) -> Result<String, AllocError> {
    let mut line = value_text(alloc, word)?;
    line.push('\n')?;
    Ok(line)
}

/// An object on a line.
fn object_line(alloc: Global, shown: &Shown) -> Result<String, AllocError> {
    let number = shown.number;
    let count = shown.count;
    let type_name = shown.type_name.as_str();
    let handles = if count == 1 { "handle" } else { "handles" };
    let mut line = format!(in alloc; "object {number} {type_name}, {count} {handles}:")?;
    match &shown.contents {
        ObjectContents::Fields(fields) => {
            for (name, word) in fields {
                let value = value_text(alloc, *word)?;
                write!(line, " {name} {value}")?;
            }
        }
        ObjectContents::Elements(words) => {
            for word in words {
                let value = value_text(alloc, *word)?;
                write!(line, " {value}")?;
            }
        }
        ObjectContents::HostState(bytes) => {
            for byte in bytes {
                write!(line, " {byte:02x}")?;
            }
        }
    }
    line.push('\n')?;
    Ok(line)
}

/// A value as a script writes it. An object is shown by its number.
pub fn value_text(alloc: Global, word: Word) -> Result<String, AllocError> {
    match word {
        Word::Bool(value) => format!(in alloc; "{value}"),
        Word::Int(value) => format!(in alloc; "{value}"),
        Word::Uint(value) => format!(in alloc; "{value}"),
        Word::Int64(value) => format!(in alloc; "{value}"),
        Word::Uint64(value) => format!(in alloc; "{value}"),
        Word::Null => format!(in alloc; "null"),
        Word::Object(number) => format!(in alloc; "object {number}"),
    }
}

/// An exception, with the code that a host object raised.
pub fn exception_text(alloc: Global, exception: Exception) -> Result<String, AllocError> {
    let name = exception.name();
    match exception {
        Exception::Raised(code) => format!(in alloc; "{name} {code}"),
        _ => format!(in alloc; "{name}"),
    }
}

/// What helps after an exception.
pub fn help_on_exception(exception: Exception) -> Option<&'static str> {
    match exception {
        Exception::PoolEmpty => Some("no Counter is left to construct: give more by --counters"),
        Exception::NullPointerAccess => Some("a handle is null there: test it by 'is null'"),
        Exception::StackOverflow => Some(
            "256 functions were under way: does one call itself without end?",
        ),
        Exception::ObjectLimit => Some("4,096 objects live, which is the most"),
        Exception::ArrayLimit => Some("an array has 4,096 elements at the most"),
        Exception::BadHostAnswer => Some(
            "a registered function gave something else than it declares",
        ),
        Exception::Raised(_) => Some("a registered function raised this code"),
        Exception::DivideByZero
        | Exception::DivideOverflow
        | Exception::NumbersSpent
        | Exception::IndexOutOfBounds => None,
    }
}
