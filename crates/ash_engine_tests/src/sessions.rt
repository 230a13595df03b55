//! Sessions: what is asked of an engine and of the plain evaluator, one request after another, and openings between
//! them.

ghost use Rattle.std.specs.Prelude.{◌≡◌, [], IsSome, IfOk};

use crate::both::{Both, Compared, durable_in, engine_text};
use crate::boxes::{taken_by, zero};
use crate::kept::Kept;
use ash_engine::engine::Engine;
use ash_machine_fixtures::boxes::{Pool, boxes_of, services_of};
use ash_machine_fixtures::lines::{arguments_of, request_of};
use ash_machine_fixtures::noted::{Log, Noted, new_log};
use ash_machine_fixtures::registered::registry;
use ash_plain_steps::state::PlainState;
use ash_states::state::HostState;
use std::alloc::{AllocError, Global};
use std::test::Fail;

/// What is asked, with so many ticks. The line `open` asks for an opening with new boxes.
#[derive(Drop)]
pub struct Ask {
    pub line: String,
    pub budget: u64,
}

/// The boxes with which a session begins, which are there again at each opening, and the last number that was given to
/// an object before.
#[derive(Clone, Copy)]
pub struct Host {
    pub pool: Pool,
    pub last: u64,
}

/// Both, the log of their boxes, and what a store would have of the engine.
#[derive(Drop)]
pub struct Session {
    pub both: Both<Noted>,
    log: Log,
    kept: Kept,
}

fn new_engine(alloc: Global, log: &Log, pool: Pool) -> Result<Engine<Noted>, Fail>
    ensures live { IfOk result (λ engine. IsSome engine.live) }
{
    let boxes = boxes_of(alloc, log, pool)?;
    let services = services_of(alloc, log)?;
    Ok(Engine::new(alloc, registry(alloc)?, boxes, services)?)
}

/// An engine in a state that was stored.
fn restored(alloc: Global, log: &Log, pool: Pool, durable: HostState) -> Result<Engine<Noted>, Fail>
    ensures live { IfOk result (λ after. IsSome after.live) }
    ensures registered { IfOk result (λ after. after.registered ≡ durable.registered) }
{
    let boxes = boxes_of(alloc, log, pool)?;
    let services = services_of(alloc, log)?;
    Ok(Engine::restored(durable, boxes, services)?)
}

/// An image of a state in which another number was the last that was given. It stands after the version, the text, and
/// the number of answers.
fn with_last(alloc: Global, image: &[u8], text: usize, last: u64) -> Result<Vec<u8>, AllocError> {
    let at = text.saturating_add(2 + 4 + 8);
    let mut out = Vec::from_slice(alloc, image.get(..at).unwrap_or_default())?;
    out.extend_from_slice(&last.to_le_bytes())?;
    out.extend_from_slice(image.get(at.saturating_add(8)..).unwrap_or_default())?;
    Ok(out)
}

/// The engine with which a session begins. The boxes of one that is restored note in this log alone.
fn first_engine(alloc: Global, log: &Log, host: Host) -> Result<Engine<Noted>, Fail>
    ensures live { IfOk result (λ engine. IsSome engine.live) }
{
    if host.last == 0 {
        return new_engine(alloc, log, host.pool);
    }
    let engine = new_engine(alloc, &new_log(alloc)?, host.pool)?;
    let text = engine.registry().text().len();
    let image = with_last(alloc, &engine.image()?, text, host.last)?;
    let durable = durable_in(alloc, engine.into_registry(), &image)?;
    restored(alloc, log, host.pool, durable)
}

/// The state before any request, but for the last number that was given to an object.
fn first_state(alloc: Global, last: u64) -> Result<PlainState, AllocError>
    ensures no_modules { IfOk result (λ state. state.modules.items ≡ []) }
{
    let mut state = PlainState::new(alloc, vec![in alloc; zero(alloc)?]?);
    state.last = last;
    Ok(state)
}

/// The session before any request.
pub fn begun(alloc: Global, host: Host) -> Result<Session, Fail> {
    let log = new_log(alloc)?;
    let state = first_state(alloc, host.last)?;
    let taken = taken_by(alloc, host.pool, &state)?;
    let engine = first_engine(alloc, &log, host)?;
    let kept = Kept::begun(alloc, &engine)?;
    Ok(Session {
        both: Both {
            engine,
            state: Box::new(alloc, state)?,
            pool: taken.pool,
            numbers: taken.numbers,
        },
        log,
        kept,
    })
}

/// The session after an opening with new boxes, in the state to which the records lead.
fn opened(alloc: Global, pool: Pool, session: Session) -> Result<Session, Fail> {
    let Session {
        both,
        log: _old,
        kept,
    } = session;
    let Both { engine, state, .. } = both;
    let log = new_log(alloc)?;
    let taken = taken_by(alloc, pool, &state)?;
    let durable = kept.state(alloc, engine.into_registry())?;
    let engine = restored(alloc, &log, pool, durable)?;
    Ok(Session {
        both: Both {
            engine,
            state,
            pool: taken.pool,
            numbers: taken.numbers,
        },
        log,
        kept,
    })
}

/// What is compared, with the state to which records lead beside that of the engine.
fn with_kept(
    alloc: Global,
    engine: &Engine<Noted>,
    kept: &Kept,
    compared: Compared,
) -> Result<Compared, Fail>
    requires live { IsSome engine.now.live }
{
    let Compared {
        mut found,
        mut wanted,
        line,
        events,
    } = compared;
    found.push_str("\nby records: ")?;
    found.push_str(&kept.text(alloc)?)?;
    wanted.push_str("\nby records: ")?;
    wanted.push_str(&engine_text(alloc, engine)?)?;
    Ok(Compared {
        found,
        wanted,
        line,
        events,
    })
}

/// The session after a request, of which a record is kept.
fn kept_on(
    alloc: Global,
    both: Both<Noted>,
    log: Log,
    kept: Kept,
    compared: Compared,
) -> Result<(Option<Session>, Compared), Fail> {
    let Both {
        engine,
        state,
        pool,
        numbers,
    } = both;
    let kept = kept.with_last(&engine)?;
    let compared = with_kept(alloc, &engine, &kept, compared)?;
    let both = Both {
        engine,
        state,
        pool,
        numbers,
    };
    Ok((Some(Session { both, log, kept }), compared))
}

/// What a line does on both.
pub fn asked(
    alloc: Global,
    session: Session,
    line: &str,
    budget: u64,
) -> Result<(Option<Session>, Compared), Fail> {
    let Session { both, log, kept } = session;
    let arguments = arguments_of(alloc, line)?;
    let request = request_of(line, &arguments);
    let (both, compared) = both.handle(alloc, &log, &request, budget)?;
    match both {
        Some(both) => kept_on(alloc, both, log, kept, compared),
        None => Ok((None, compared)),
    }
}

/// How many requests of sessions were answered, and how they ended.
#[derive(Clone, Copy, Debug)]
pub struct Counts {
    pub loads: u64,
    pub finished: u64,
    pub raised: u64,
    pub aborted: u64,
    pub refused: u64,
    pub dropped: u64,
    pub opened: u64,
    pub lost: u64,
}

/// No requests.
pub const NONE: Counts = Counts {
    loads: 0,
    finished: 0,
    raised: 0,
    aborted: 0,
    refused: 0,
    dropped: 0,
    opened: 0,
    lost: 0,
};

/// One more, if this is so.
fn raised_if(count: u64, is_so: bool) -> u64 {
    match is_so {
        true => count.saturating_add(1),
        false => count,
    }
}

/// Counts what a request came to.
fn counted(counts: Counts, asked: &str, line: &str) -> Counts {
    let is_load = asked.starts_with("load") && line.starts_with("ok");
    Counts {
        loads: raised_if(counts.loads, is_load),
        finished: raised_if(counts.finished, line.starts_with("ok")),
        raised: raised_if(counts.raised, line.starts_with("exception")),
        aborted: raised_if(counts.aborted, line.starts_with("aborted")),
        refused: raised_if(counts.refused, line.starts_with("refused")),
        dropped: raised_if(counts.dropped, line.contains(" dropped ")),
        opened: counts.opened,
        lost: raised_if(counts.lost, line.is_empty()),
    }
}

/// What came of a session: how its requests ended, and the first of which both don't say the same.
#[derive(Drop)]
pub struct Played {
    pub counts: Counts,
    pub fault: Option<String>,
}

fn fault_of(alloc: Global, line: &str, compared: &Compared) -> Result<Option<String>, AllocError> {
    if compared.found == compared.wanted {
        return Ok(None);
    }
    let text = format!(in alloc;
        "{line}\n----found\n{}\n----wanted\n{}\n",
        compared.found, compared.wanted
    )?;
    Ok(Some(text))
}

/// Takes a step of a session: an opening, or a request.
fn played_on(
    alloc: Global,
    pool: Pool,
    session: Session,
    ask: &Ask,
    counts: Counts,
) -> Result<(Option<Session>, Played), Fail> {
    if ask.line.as_str() == "open" {
        let counts = Counts {
            opened: counts.opened.saturating_add(1),
            ..counts
        };
        let session = opened(alloc, pool, session)?;
        return Ok((
            Some(session),
            Played {
                counts,
                fault: None,
            },
        ));
    }
    let (session, compared) = asked(alloc, session, &ask.line, ask.budget)?;
    let played = Played {
        counts: counted(counts, &ask.line, &compared.line),
        fault: fault_of(alloc, &ask.line, &compared)?,
    };
    Ok((session, played))
}

/// Plays a session up to its end, or to what is lost, or to the first request of which both don't say the same.
pub fn play(alloc: Global, host: Host, asks: &[Ask], counts: Counts) -> Result<Played, Fail> {
    let mut session = Some(begun(alloc, host)?);
    let mut played = Played {
        counts,
        fault: None,
    };
    for ask in asks {
        let Some(before) = session else {
            return Ok(played);
        };
        if played.fault.is_some() {
            return Ok(played);
        }
        (session, played) = played_on(alloc, host.pool, before, ask, played.counts)?;
    }
    Ok(played)
}
