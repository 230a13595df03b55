//! What a store keeps of an engine: an image, and a record of what each request changed that was answered since.

ghost use Rattle.std.specs.Prelude.{◌≡◌, IsSome, IfOk};
ghost use Rattle.ash_registry.specs.RegistryViews.{registered};

use crate::texts::stored_text;
use ash_engine::engine::Engine;
use ash_host::HostObject;
use ash_journal::Record;
use ash_registry::Registry;
use ash_replay::replay::replay;
use ash_replay::state::state_in;
use ash_states::state::HostState;
use std::alloc::Global;
use std::test::Fail;

/// An image, the records after it, and how many requests were answered by then.
#[derive(Drop)]
pub struct Kept {
    image: Vec<u8>,
    records: Vec<Record>,
    seq: u64,
}

impl Kept {
    /// The image of an engine, and no records.
    pub fn begun<B: HostObject>(alloc: Global, engine: &Engine<B>) -> Result<Kept, Fail>
        requires live { IsSome engine.now.live }
    {
        Ok(Kept {
            image: engine.image()?,
            records: Vec::new(alloc),
            seq: engine.seq(),
        })
    }

    /// One record more, if a request was answered since the last.
    pub fn with_last<B: HostObject>(self, engine: &Engine<B>) -> Result<Kept, Fail>
        requires live { IsSome engine.now.live }
    {
        let Kept {
            image,
            mut records,
            seq,
        } = self;
        let after = engine.seq();
        if after != seq {
            let body = engine.delta_body()?;
            records.push(Record { gate: after, body })?;
        }
        Ok(Kept {
            image,
            records,
            seq: after,
        })
    }

    /// The state to which the records lead, with this registry.
    pub fn state(&self, alloc: Global, registry: Registry) -> Result<HostState, Fail>
        ensures registered { IfOk result (λ s. s.registered ≡ registered registry) }
    {
        match state_in(alloc, registry, &self.image, &self.records) {
            Ok(read) => Ok(read.state),
            Err(_) => Err(Fail::new("no state")),
        }
    }

    /// The state to which the records lead, as a text.
    pub fn text(&self, alloc: Global) -> Result<String, Fail> {
        match replay(alloc, &self.image, &self.records) {
            Ok(stored) => stored_text(alloc, &stored.state),
            Err(fault) => Ok(format!(in alloc; "no state: {fault:?}")?),
        }
    }
}
