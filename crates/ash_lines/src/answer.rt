//! Writing an answer.

ghost use Rattle.std.specs.Prelude.{◌≡◌, ◌++◌, codes};
ghost use Rattle.std.specs.List.{flat_map, list_any};
ghost use Rattle.ash_requests.specs.OutcomeViews.{end_seen};
ghost use Rattle.ash_lines.specs.Sink.{Writes};
ghost use Rattle.ash_lines.specs.ReplyText.{answer_text, end_text, finished_text, exception_text};
ghost use Rattle.ash_lines.specs.ReplyText.{raised_text, place_text, seq_text, is_drop, drop_text};
ghost use Rattle.ash_lines.specs.ReplyText.{drops_text};

use crate::object::write_ok;
use crate::pieces::write_all;
use crate::sink::{Sink, WriteFault};
use ash_host::{Event, Word};
use ash_requests::{Answer, Exception, Outcome};
use itoa::Buffer;

/// Writes an answer: how the run ended, how many requests have been answered, and which host objects were dropped.
pub(crate) fn write_answer<K: Sink>(output: &mut K, answer: &Answer) -> Result<(), WriteFault>
    ensures text { Writes K.outlet output.old
        (answer_text (end_seen answer.now.outcome) answer.now.seq answer.now.events.items)
        result output.new }
{
    write_outcome(output, &answer.outcome)?;
    write_seq(output, answer.seq)?;
    write_drops(output, answer.events.as_slice())
}

/// Writes how a run ended.
fn write_outcome<K: Sink>(output: &mut K, outcome: &Outcome) -> Result<(), WriteFault>
    ensures text { Writes K.outlet output.old (end_text (end_seen outcome.now)) result output.new }
{
    match outcome {
        Outcome::Finished(value) => write_finished(output, *value),
        Outcome::Exception {
            code,
            function,
            line,
        } => write_exception_at(output, *code, function.as_str(), *line),
        Outcome::Aborted { function, line } => {
            output.write(b"aborted")?;
            write_place(output, function.as_str(), *line)
        }
    }
}

fn write_finished<K: Sink>(output: &mut K, value: Option<Word>) -> Result<(), WriteFault>
    ensures text { Writes K.outlet output.old (finished_text value) result output.new }
{
    match value {
        None => output.write(b"ok"),
        Some(word) => write_ok(output, word),
    }
}

fn write_exception_at<K: Sink>(
    output: &mut K,
    exception: Exception,
    function: &str,
    line: usize,
) -> Result<(), WriteFault>
    ensures text { Writes K.outlet output.old
        (codes "exception " ++ (exception_text exception ++ place_text function.now line))
        result output.new }
{
    output.write(b"exception ")?;
    write_exception(output, exception)?;
    write_place(output, function, line)
}

/// Writes an exception by its name, with the code that a host object raised.
fn write_exception<K: Sink>(output: &mut K, exception: Exception) -> Result<(), WriteFault>
    ensures text { Writes K.outlet output.old (exception_text exception) result output.new }
{
    output.write(exception.name().as_bytes())?;
    write_raised(output, exception)
}

/// Writes the code that a host object raised, if it is that.
fn write_raised<K: Sink>(output: &mut K, exception: Exception) -> Result<(), WriteFault>
    ensures text { Writes K.outlet output.old (raised_text exception) result output.new }
{
    let mut digits = Buffer::new();
    match exception {
        Exception::Raised(code) => {
            write_all(output, &[b" ".as_slice(), digits.format(code).as_bytes()])
        }
        _ => Ok(()),
    }
}

fn write_place<K: Sink>(output: &mut K, function: &str, line: usize) -> Result<(), WriteFault>
    ensures text { Writes K.outlet output.old (place_text function.now line) result output.new }
{
    let mut digits = Buffer::new();
    write_all(
        output,
        &[
            b" ".as_slice(),
            function.as_bytes(),
            b" ".as_slice(),
            digits.format(line).as_bytes(),
        ],
    )
}

fn write_seq<K: Sink>(output: &mut K, seq: u64) -> Result<(), WriteFault>
    ensures text { Writes K.outlet output.old (seq_text seq) result output.new }
{
    let mut digits = Buffer::new();
    write_all(
        output,
        &[b" seq ".as_slice(), digits.format(seq).as_bytes()],
    )
}

/// Writes the numbers of the host objects that were dropped, in the order in which they were, if there are any.
fn write_drops<K: Sink>(output: &mut K, events: &[Event]) -> Result<(), WriteFault>
    ensures text { Writes K.outlet output.old (drops_text events.now) result output.new }
{
    if !has_drop(events) {
        return Ok(());
    }
    output.write(b" dropped")?;
    write_numbers(output, events)
}

/// Whether a host object was dropped.
fn has_drop(events: &[Event]) -> bool
    ensures drop { result ≡ list_any is_drop events.now }
{
    events.iter().any(|event| is_drop(*event))
}

fn is_drop(event: Event) -> bool
    ensures drop { result ≡ is_drop event }
{
    matches!(event, Event::Dropped(_))
}

/// Writes the numbers of the host objects that were dropped, with a blank before each.
fn write_numbers<K: Sink>(output: &mut K, events: &[Event]) -> Result<(), WriteFault>
    ensures text { Writes K.outlet output.old (flat_map drop_text events.now) result output.new }
{
    for event in events {
        write_drop(output, *event)?;
    }
    Ok(())
}

fn write_drop<K: Sink>(output: &mut K, event: Event) -> Result<(), WriteFault>
    ensures text { Writes K.outlet output.old (drop_text event) result output.new }
{
    let mut digits = Buffer::new();
    match event {
        Event::Dropped(number) => {
            write_all(output, &[b" ".as_slice(), digits.format(number).as_bytes()])
        }
        _ => Ok(()),
    }
}
