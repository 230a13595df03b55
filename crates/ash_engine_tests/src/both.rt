//! An engine beside the plain evaluator, over boxes that note what they are asked.

ghost use Rattle.std.specs.Prelude.{◌≡◌, IsSome, IfOk};
ghost use Rattle.ash_registry.specs.RegistryViews.{registered};
ghost use Rattle.ash_image.specs.Rules.{IsShaped};
ghost use Rattle.ash_image.specs.SnapshotViews.{snapshot_of};
ghost use Rattle.ash_sources.specs.Sources.{embedding_of};
ghost use Rattle.ash_plain_steps.specs.Consistency.{AreConsistent};

use crate::texts::{events_in, events_text, line_of, state_text, stored_text};
use ash_engine::engine::Engine;
use ash_host::{Event, HostObject};
use ash_image::image::read_image;
use ash_image::stored::StoredState;
use ash_machine_fixtures::noted::{Log, Notes, take_notes};
use ash_machine_fixtures::numbering::{number_boxes, numbers_of, starved, with_numbers};
use ash_plain_data::host_call::HostRecord;
use ash_plain_steps::state::{Hosts, PlainState};
use ash_plain_steps::step::Step;
use ash_plain_steps::steps::plain_step;
use ash_plain_world::activity::FreeBox;
use ash_registry::Registry;
use ash_requests::{Request, StepError};
use ash_sources::fault::SourceFault;
use ash_sources::sources::Sources;
use ash_states::state::{HostReply, HostState};
use std::alloc::{AllocError, Global};
use std::collections::VecDeque;
use std::fmt::Write;
use std::marker::Model;
use std::test::Fail;

/// An engine; what outlives a request, and the free boxes, as the plain evaluator has them; and the numbers that boxes
/// got, each after the name of its box.
#[derive(Drop)]
pub struct Both<B: HostObject> {
    pub engine: Engine<B>,
    pub state: Box<PlainState>,
    pub pool: Vec<FreeBox>,
    pub numbers: Vec<(u64, u64)>,
}

impl<B: HostObject> Model for Both<B> {
    ghost use Rattle.std.specs.Prelude.{IsSome};
    ghost use Rattle.ash_engine.specs.LiveStates.{EngineState};
    ghost use Rattle.ash_sources.specs.Sources.{embedding_of};
    ghost use Rattle.ash_plain_steps.specs.Consistency.{AreConsistent};

    ghost Value = { EngineState B };

    ghost view = { λ both. both.engine };

    // The engine has a state, and each tree is that of its source.
    ghost invariant = { λ both. IsSome both.engine.live
        × AreConsistent (embedding_of both.engine.registered) both.state.value.modules.items };
}

/// What a request came to on the engine, and what the plain evaluator wants of it.
#[derive(Drop)]
pub struct Compared {
    pub found: String,
    pub wanted: String,
    /// The reply as the program writes it.
    pub line: String,
    pub events: String,
}

/// What boxes noted while a request was handled: what they answered, the numbers of those that went, whether one had no
/// memory, and whether a note is missing.
#[derive(Drop)]
struct Noted {
    records: VecDeque<HostRecord>,
    gone: Vec<u64>,
    is_starved: bool,
    is_short: bool,
}

/// Takes what was noted, with the numbers of the objects in place of the names of boxes.
fn noted_in(
    alloc: Global,
    log: &Log,
    events: &[Event],
    numbers: &mut Vec<(u64, u64)>,
) -> Result<Noted, AllocError> {
    let Notes {
        records,
        gone,
        is_short,
        ..
    } = take_notes(alloc, log);
    number_boxes(numbers, &records, events)?;
    let gone = numbers_of(alloc, &gone, numbers)?;
    let is_starved = starved(&records);
    Ok(Noted {
        records: with_numbers(alloc, records, numbers)?,
        gone,
        is_starved,
        is_short,
    })
}

/// The numbers of the objects that were dropped, in order.
fn dropped_in(alloc: Global, events: &[Event]) -> Result<Vec<u64>, AllocError> {
    let mut numbers = Vec::new(alloc);
    for event in events {
        if let Event::Dropped(number) = event {
            numbers.push(*number)?;
        }
    }
    Ok(numbers)
}

/// What a request does on the engine.
fn ask<B: HostObject>(
    engine: Engine<B>,
    request: &Request<'_>,
    budget: u64,
) -> Result<(Engine<B>, HostReply), StepError>
    requires live { IsSome engine.live }
    ensures live { IfOk result (λ r. IsSome r.0.live) }
    ensures registered { IfOk result (λ r. r.0.registered ≡ engine.registered) }
{
    let mut engine = engine;
    let reply = engine.handle(request, budget)?;
    Ok((engine, reply))
}

/// What it does by the plain evaluator, if hosts answer this.
fn ask_plain(
    registry: &Registry,
    request: &Request<'_>,
    budget: u64,
    state: Box<PlainState>,
    hosts: Hosts,
) -> Result<Step<SourceFault>, StepError>
    requires consistent { AreConsistent (embedding_of (registered registry.now))
        state.value.modules.items }
    ensures consistent { IfOk result (λ s. AreConsistent (embedding_of (registered registry.now))
        s.state.modules.items) }
{
    let sources = Sources { registry };
    plain_step(&sources, budget, request, Box::into_inner(state), hosts)
}

/// The state that was stored, with this registry.
fn restored(alloc: Global, registry: Registry, stored: StoredState) -> Result<HostState, Fail>
    requires shaped { IsShaped (snapshot_of stored) }
    ensures registered { IfOk result (λ s. s.registered ≡ registered registry) }
{
    match HostState::restore(alloc, registry, stored)? {
        Some(durable) => Ok(durable),
        None => Err(Fail::new("no state")),
    }
}

/// The state that an image has, with this registry.
pub fn durable_in(alloc: Global, registry: Registry, image: &[u8]) -> Result<HostState, Fail>
    ensures registered { IfOk result (λ s. s.registered ≡ registered registry) }
{
    match read_image(alloc, image)? {
        Some(stored) => restored(alloc, registry, stored.state),
        None => Err(Fail::new("no image")),
    }
}

/// The state of an engine, by its image, as a text.
pub fn engine_text<B: HostObject>(alloc: Global, engine: &Engine<B>) -> Result<String, Fail>
    requires live { IsSome engine.now.live }
{
    match read_image(alloc, &engine.image()?)? {
        Some(stored) => stored_text(alloc, &stored.state),
        None => Err(Fail::new("no image")),
    }
}

/// What a request left, as a text: the reply, the events, the boxes that went, and the state.
fn left_text(
    alloc: Global,
    line: &str,
    events: &str,
    gone: &[u64],
    state: &str,
) -> Result<String, AllocError> {
    let mut out = format!(in alloc; "{line}\n{events}\ngone")?;
    for number in gone {
        write!(out, " {number}")?;
    }
    write!(out, "\n{state}")?;
    Ok(out)
}

/// What a step of the plain evaluator left, as a text.
fn wanted_text(
    alloc: Global,
    reply: HostReply,
    state: &PlainState,
    left: usize,
) -> Result<String, Fail> {
    let events = events_in(alloc, &reply)?;
    let gone = dropped_in(alloc, &events)?;
    let events = events_text(alloc, &events)?;
    let state = state_text(alloc, state)?;
    let mut out = left_text(alloc, &line_of(alloc, reply)?, &events, &gone, &state)?;
    if left != 0 {
        out.push_str("\nanswers are left")?;
    }
    Ok(out)
}

/// What came of a request that lost the state of the engine. Only a host without memory does that.
fn lost(alloc: Global, is_starved: bool, error: StepError) -> Result<Compared, AllocError> {
    let found = format!(in alloc; "{error:?}")?;
    let wanted = match is_starved {
        true => "NoMemory",
        false => "a reply",
    };
    Ok(Compared {
        found,
        wanted: String::from_str(alloc, wanted)?,
        line: String::new(alloc),
        events: String::new(alloc),
    })
}

/// What the engine left, as far as it is compared, without what is wanted.
fn found_of<B: HostObject>(
    alloc: Global,
    engine: &Engine<B>,
    reply: HostReply,
    events: &[Event],
    noted: &Noted,
) -> Result<Compared, Fail>
    requires live { IsSome engine.now.live }
{
    let events = events_text(alloc, events)?;
    let line = line_of(alloc, reply)?;
    let state = engine_text(alloc, engine)?;
    let mut found = left_text(alloc, &line, &events, &noted.gone, &state)?;
    if noted.is_short {
        found.push_str("\na note is missing")?;
    }
    Ok(Compared {
        found,
        wanted: String::new(alloc),
        line,
        events,
    })
}

impl<B: HostObject> Both<B> {
    /// What a request does on both. There is no state after it if a host had no memory, or if the plain evaluator has
    /// no step.
    pub fn handle(
        self,
        alloc: Global,
        log: &Log,
        request: &Request<'_>,
        budget: u64,
    ) -> Result<(Option<Both<B>>, Compared), Fail> {
        let Both {
            engine,
            state,
            pool,
            mut numbers,
        } = self;
        match ask(engine, request, budget) {
            Ok((engine, reply)) => {
                let events = events_in(alloc, &reply)?;
                let noted = noted_in(alloc, log, &events, &mut numbers)?;
                let compared = found_of(alloc, &engine, reply, &events, &noted)?;
                let hosts = Hosts {
                    pool,
                    answers: noted.records,
                };
                let stepped = ask_plain(engine.registry(), request, budget, state, hosts);
                beside(alloc, engine, numbers, stepped, compared)
            }
            Err(error) => {
                let noted = noted_in(alloc, log, &[], &mut numbers)?;
                Ok((None, lost(alloc, noted.is_starved, error)?))
            }
        }
    }
}

/// An engine beside what the plain evaluator comes to.
fn beside<B: HostObject>(
    alloc: Global,
    engine: Engine<B>,
    numbers: Vec<(u64, u64)>,
    stepped: Result<Step<SourceFault>, StepError>,
    compared: Compared,
) -> Result<(Option<Both<B>>, Compared), Fail>
    requires live { IsSome engine.live }
    requires consistent { IfOk stepped (λ s. AreConsistent (embedding_of engine.registered)
        s.state.modules.items) }
{
    match stepped {
        Ok(step) => {
            let wanted = wanted_text(alloc, step.reply, &step.state, step.hosts.answers.len())?;
            let both = Both {
                engine,
                state: Box::new(alloc, step.state)?,
                pool: step.hosts.pool,
                numbers,
            };
            Ok((Some(both), Compared { wanted, ..compared }))
        }
        Err(error) => {
            let wanted = format!(in alloc; "no step: {error:?}")?;
            Ok((None, Compared { wanted, ..compared }))
        }
    }
}
