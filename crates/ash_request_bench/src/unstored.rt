//! An engine as the request loop uses it.

ghost use Rattle.std.specs.Prelude.{IsSome};

use anyhow::Result;
use ash_durable::batch::{BatchReply, BatchRequest};
use ash_engine::engine::Engine;
use ash_host::HostObject;
use ash_lines::reader::Reader;
use ash_lines::writer::Writer;
use ash_requests::{Refusal, Reply, Request};
use ash_serve::handler::RequestHandler;
use ash_serve::program::registrations::registrations;
use ash_serve::serve::serve;
use ash_sources::fault::SourceFault;
use std::alloc::Global;
use std::io::{Read, Write};
use std::marker::Model;

/// The ticks that each request may take.
const BUDGET: u64 = 10_000_000;

/// The most bytes of a reply that are buffered.
const MAX_BUFFERED_BYTES: usize = 8192;

/// An engine, until its state is lost. Nothing of it is stored.
#[derive(Drop)]
struct Unstored<B: HostObject> {
    engine: Option<Engine<B>>,
}

impl<B: HostObject> Model for Unstored<B> {
    ghost use Rattle.std.specs.Prelude.{Option, IfSome, IsSome};
    ghost use Rattle.ash_engine.specs.LiveStates.{EngineState};

    ghost Value = { Option (EngineState B) };

    ghost view = { λ u. u.engine };

    ghost invariant = { λ u. IfSome u.engine (λ engine. IsSome engine.live) };
}

impl<B: HostObject> Unstored<B> {
    fn of(engine: Engine<B>) -> Unstored<B>
        requires live { IsSome engine.live }
    {
        Unstored {
            engine: Some(engine),
        }
    }
}

impl<B: HostObject> RequestHandler for Unstored<B> {
    // What is replied is not told of.
    ghost handles = { λ budget request old reply new. Unit {0} };

    ghost handles_batch = { λ budget requests old result new. Unit {0} };

    ghost depends_on_prefix = { λ budget name source old new reply handled. handled };

    ghost batch_depends_on_prefix = { λ budget requests old new result handled. handled };

    #[tactic(auto, using(crate::proofs::Lives::live_after))]
    fn handle(&mut self, request: &Request, budget: u64) -> Reply<SourceFault> {
        let Some(mut engine) = self.engine.take() else {
            return Reply::Refused(Refusal::Reopen);
        };
        match engine.handle(request, budget) {
            Ok(reply) => {
                self.engine = Some(engine);
                reply
            }
            Err(_) => Reply::Refused(Refusal::NoMemory),
        }
    }

    // What a batch gains is two syncs, and here is none: it is refused.
    fn batch(
        &mut self,
        _: &[BatchRequest<'_>],
        _: u64,
    ) -> Result<Vec<BatchReply>, Refusal<SourceFault>> {
        Err(Refusal::NoMemory)
    }
}

/// Serves a reader and a writer from an engine that has these free boxes and these services, and no module.
pub(crate) fn run<B: HostObject, R: Read + Drop, W: Write>(
    alloc: Global,
    reader: R,
    writer: &mut W,
    pool: Vec<B>,
    services: Vec<B>,
) -> Result<()> {
    let engine = Engine::new(alloc, registrations(alloc)?, pool, services)?;
    let mut host = Unstored::of(engine);
    let mut input = Reader::new(alloc, reader)?;
    let buffer = Vec::with_capacity(alloc, MAX_BUFFERED_BYTES)?;
    let mut output = Writer::new(writer, buffer);
    serve(alloc, &mut input, &mut output, &mut host, BUDGET)?;
    Ok(())
}
