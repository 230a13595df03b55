//! Handling the requests of a batch over an engine, before what they changed is stored.

ghost use Rattle.std.specs.Prelude.{◌≡◌, ◌+◌, ◌*◌, ◌<◌, ◌≤◌, ◌++◌, ◌∷◌, [], ◌↔◌, List, Some, length, map};
ghost use Rattle.std.specs.Prelude.{option_map, IfErr, IfOk, IsSome, IsTrue, OnOk};
ghost use Rattle.ash_requests.specs.Requests.{Done, Snapshot};
ghost use Rattle.ash_requests.specs.RequestViews.{request_seen, reply_seen};
ghost use Rattle.ash_sources.specs.SourceFaults.{fault_of};
ghost use Rattle.ash_image.specs.Deltas.{deltas_tag};
ghost use Rattle.ash_engine.specs.LiveStates.{LiveState};
ghost use Rattle.ash_engine.specs.RecordedChanges.{AppendsChanges};
ghost use Rattle.ash_durable.specs.Batches.{Asked, adding_request, max_batch};
ghost use Rattle.ash_durable.specs.BatchViews.{batch_request_seen, batch_reply_seen};
ghost use Rattle.ash_durable.specs.BatchRuns.{asked_seen, adding_one, IsAnswered, IsReplyOfBatch};
ghost use Rattle.ash_durable.specs.BatchRuns.{IsStopAfter, TriesReply, RunsNext, RunsBatch};
ghost use Rattle.ash_durable.specs.BatchRuns.{max_delta_bytes, IsFitted};

use crate::batch::{BatchRefusal, BatchReply, BatchRequest};
use ash_engine::engine::Engine;
use ash_host::HostObject;
use ash_journal::LENGTH_LIMIT;
use ash_requests::{Refusal, Reply, Request};
use ash_states::state::HostReply;
use std::alloc::{AllocError, Global};

/// The tag of a record's body that has the changes of several requests.
const DELTAS_TAG: u8 = 3;

/// What becomes of a batch if memory is refused.
#[derive(Drop)]
pub enum BatchStop {
    /// No request was answered, and nothing has changed.
    Unchanged,
    /// A request was answered, or was changing the state: the state is lost.
    Lost,
}

/// A batch that runs.
#[derive(Drop)]
pub struct BatchRun {
    pub replies: Vec<BatchReply>,
    /// The body of a record: a tag, a count that is set last, and what each answered request changed.
    pub body: Vec<u8>,
    /// How many requests were answered.
    pub answered: u8,
}

/// The request, if it may add a record.
fn adding<'a>(request: &BatchRequest<'a>) -> Option<Request<'a>>
    ensures value { option_map request_seen result ≡ adding_one (batch_request_seen request.now) }
{
    match *request {
        BatchRequest::Load { name, source } => Some(Request::Load {
            module: name,
            source,
        }),
        BatchRequest::Call {
            module,
            function,
            args,
        } => Some(Request::Call {
            module,
            function,
            arguments: args,
        }),
        BatchRequest::Discard { name } => Some(Request::Discard { module: name }),
        BatchRequest::Global { .. }
        | BatchRequest::Object(_)
        | BatchRequest::Seq
        | BatchRequest::Bad(_) => None,
    }
}

/// The first request of a batch that may add a record; else one that adds none.
pub fn adding_request<'a>(requests: &[BatchRequest<'a>]) -> Request<'a>
    ensures value { request_seen result ≡ adding_request (map batch_request_seen requests.now) }
{
    for request in requests {
        match adding(request) {
            Some(request) => return request,
            None => {}
        }
    }
    Request::Seq
}

/// What a host is asked by a request of a batch. An `Err` is the number by which the request is refused.
fn asked<'a>(request: &BatchRequest<'a>) -> Result<Request<'a>, u16>
    ensures same { asked_seen result ≡ batch_request_seen request.now }
    ensures no_snapshot { IfOk result (λ asked. request_seen asked ≡ Snapshot → ⊥) }
{
    match *request {
        BatchRequest::Load { name, source } => Ok(Request::Load {
            module: name,
            source,
        }),
        BatchRequest::Call {
            module,
            function,
            args,
        } => Ok(Request::Call {
            module,
            function,
            arguments: args,
        }),
        BatchRequest::Discard { name } => Ok(Request::Discard { module: name }),
        BatchRequest::Global { module, name } => Ok(Request::Global { module, name }),
        BatchRequest::Object(number) => Ok(Request::Object { number }),
        BatchRequest::Seq => Ok(Request::Seq),
        BatchRequest::Bad(number) => Err(number),
    }
}

/// The reply of a batch that an engine's reply is. `None` if memory was refused.
fn batch_reply(reply: HostReply) -> Option<BatchReply>
    requires not_done { reply_seen fault_of reply ≡ Done → ⊥ }
    ensures same { IsReplyOfBatch (reply_seen fault_of reply) (option_map batch_reply_seen result) }
{
    match reply {
        Reply::Answer(answer) => Some(BatchReply::Answer(answer)),
        Reply::Value(word) => Some(BatchReply::Value(word)),
        Reply::Shown(shown) => Some(BatchReply::Shown(shown)),
        Reply::Seq(seq) => Some(BatchReply::Seq(seq)),
        Reply::Refused(Refusal::NoMemory) => None,
        Reply::Refused(refusal) => Some(BatchReply::Refused(BatchRefusal::Host(refusal))),
        Reply::Done => unreachable!(),
    }
}

/// The reply is an answer, which raises the sequence number.
fn is_answered(reply: &BatchReply) -> bool
    ensures exact { IsTrue result ↔ IsAnswered (batch_reply_seen reply.now) }
{
    matches!(reply, BatchReply::Answer(_))
}

impl BatchRun {
    ghost use Rattle.std.specs.Prelude.{◌≡◌, ℕ};

    /// A batch of so many requests, before the first of them.
    fn begin(alloc: Global, requests: usize) -> Result<BatchRun, AllocError>
        ensures replies { IfOk result (λ run. run.replies.items ≡ []) }
        ensures body { IfOk result (λ run. run.body.items ≡ deltas_tag ∷ 0 ∷ []) }
        ensures answered { IfOk result (λ run. run.answered ≡ 0) }
    {
        let replies = Vec::with_capacity(alloc, requests)?;
        let body = Vec::from_slice(alloc, &[DELTAS_TAG, 0])?;
        Ok(BatchRun {
            replies,
            body,
            answered: 0,
        })
    }

    /// What becomes of the batch if memory is refused now.
    fn stop(&self) -> BatchStop
        ensures stop { IsStopAfter self.now.answered result }
    {
        if self.answered == 0 {
            BatchStop::Unchanged
        } else {
            BatchStop::Lost
        }
    }

    /// One reply more.
    fn reply(&mut self, reply: BatchReply) -> Result<(), BatchStop>
        ensures added { OnOk result (self.new.replies.items ≡ self.old.replies.items ++ reply ∷ []) }
        ensures body { self.new.body ≡ self.old.body }
        ensures answered { self.new.answered ≡ self.old.answered }
        ensures stop { IfErr result (λ stop. IsStopAfter self.old.answered stop) }
    {
        match self.replies.push(reply) {
            Ok(()) => Ok(()),
            Err(_) => Err(self.stop()),
        }
    }

    /// Adds what the last answered request changed.
    fn add_delta<B: HostObject>(&mut self, engine: &Engine<B>) -> Result<(), BatchStop>
        requires live { IsSome engine.now.live }
        requires few { self.old.answered < max_batch }
        ensures replies { self.new.replies ≡ self.old.replies }
        ensures added { (live : LiveState B) → engine.now.live ≡ Some live
            → OnOk result (AppendsChanges live self.old.body.items self.new.body.items) }
        ensures short { OnOk result (length self.new.body.items
            ≤ length self.old.body.items + max_delta_bytes) }
        ensures answered { OnOk result (self.new.answered ≡ self.old.answered + 1) }
        ensures stop { IfErr result (λ stop. stop ≡ BatchStop.Lost) }
    {
        match engine.append_delta(&mut self.body) {
            Ok(()) => {
                self.answered += 1;
                Ok(())
            }
            Err(_) => Err(BatchStop::Lost),
        }
    }

    /// If what was changed is too long for a record, the body has the image of the state in its place.
    #[tactic(auto, using(crate::proofs::BatchRunLaws::fitted_kept, crate::proofs::BatchRunLaws::fitted_whole))]
    fn fit<B: HostObject>(&mut self, engine: &Engine<B>) -> Result<(), BatchStop>
        requires live { IsSome engine.now.live }
        ensures replies { self.new.replies ≡ self.old.replies }
        ensures answered { self.new.answered ≡ self.old.answered }
        ensures fitted { (live : LiveState B) → engine.now.live ≡ Some live
            → OnOk result (IsFitted live.durable self.old.body.items self.new.body.items) }
        ensures stop { IfErr result (λ stop. IsStopAfter self.old.answered stop) }
    {
        if self.body.len() < LENGTH_LIMIT {
            return Ok(());
        }
        match engine.body() {
            Ok(body) => {
                self.body = body;
                Ok(())
            }
            Err(_) => Err(self.stop()),
        }
    }

    /// One reply more, and what the request changed if it was answered.
    fn add<B: HostObject>(&mut self, engine: &Engine<B>, reply: BatchReply) -> Result<(), BatchStop>
        requires live { IsSome engine.now.live }
        requires few { self.old.answered < max_batch }
        ensures tries { (live : LiveState B) → engine.now.live ≡ Some live
            → TriesReply live (batch_reply_seen reply) self.old result self.new }
    {
        if !is_answered(&reply) {
            return self.reply(reply);
        }
        self.add_delta(engine)?;
        self.reply(reply)
    }

    /// Handles one request more that a host is asked.
    fn handle_asked<B: HostObject>(
        &mut self,
        engine: &mut Engine<B>,
        request: &Request<'_>,
        budget: u64,
    ) -> Result<(), BatchStop>
        requires live { IsSome engine.old.live }
        requires few { self.old.answered < max_batch }
        requires no_snapshot { request_seen request.now ≡ Snapshot → ⊥ }
        ensures registered { engine.new.registered ≡ engine.old.registered }
        ensures runs { RunsNext B.HostObject budget (Asked (request_seen request.now)) self.old
            engine.old result self.new engine.new }
    {
        let reply = match engine.handle(request, budget) {
            Ok(reply) => reply,
            // The state is lost: memory was refused while it changed.
            Err(_) => return Err(BatchStop::Lost),
        };
        engine.facts();
        match batch_reply(reply) {
            Some(reply) => self.add(engine, reply),
            None => Err(self.stop()),
        }
    }

    /// Handles one request more.
    fn handle<B: HostObject>(
        &mut self,
        engine: &mut Engine<B>,
        request: &BatchRequest<'_>,
        budget: u64,
    ) -> Result<(), BatchStop>
        requires live { IsSome engine.old.live }
        requires few { self.old.answered < max_batch }
        ensures registered { engine.new.registered ≡ engine.old.registered }
        ensures runs { RunsNext B.HostObject budget (batch_request_seen request.now) self.old
            engine.old result self.new engine.new }
    {
        engine.facts();
        match asked(request) {
            Ok(request) => self.handle_asked(engine, &request, budget),
            Err(number) => self.add(engine, BatchReply::Refused(BatchRefusal::Bad(number))),
        }
    }
}

/// Handles the requests of a batch in order, each with a budget in ticks, over the live state of an engine. The body of
/// the record is whole if some were answered.
pub fn run_batch<B: HostObject>(
    alloc: Global,
    engine: &mut Engine<B>,
    requests: &[BatchRequest<'_>],
    budget: u64,
) -> Result<BatchRun, BatchStop>
    requires live { IsSome engine.old.live }
    requires few { length requests.now ≤ max_batch }
    ensures registered { engine.new.registered ≡ engine.old.registered }
    ensures runs { (live : LiveState B) → engine.old.live ≡ Some live
        → RunsBatch B.HostObject budget (map batch_request_seen requests.now) live result
        engine.new }
{
    let mut run = match BatchRun::begin(alloc, requests.len()) {
        Ok(run) => run,
        Err(_) => return Err(BatchStop::Unchanged),
    };
    for request in requests {
        run.handle(engine, request, budget)?;
    }
    run.body[1] = run.answered;
    run.fit(engine)?;
    Ok(run)
}
