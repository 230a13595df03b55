//! How a host handles several requests at once.

ghost use Rattle.std.specs.Prelude.{◌≡◌, ◌<◌, ◌≤◌, [], length, map, IsSome};
ghost use Rattle.ash_journal.specs.Layout.{length_limit};
ghost use Rattle.ash_durable.specs.Hosting.{IsFull};
ghost use Rattle.ash_durable.specs.HostRequests.{CommitsRecord};
ghost use Rattle.ash_durable.specs.Batches.{HandlesBatch, max_batch};
ghost use Rattle.ash_durable.specs.BatchViews.{batch_request_seen, batch_result_seen};

use crate::batch::{BatchReply, BatchRequest};
use crate::batching::{BatchStop, adding_request, run_batch};
use crate::host::Host;
use crate::saving::add_record;
use ash_disk::Disk;
use ash_host::HostObject;
use ash_requests::Refusal;
use ash_states::state::HostRefusal;

impl<D: Disk, B: HostObject> Host<D, B> {
    /// Stores a record with this body, before what it has is answered. `last` is the number of the last answer before
    /// it, which stays if this is not stored: from then on the host must be reopened.
    fn commit_record(&mut self, last: u64, body: &[u8]) -> Result<(), HostRefusal>
        requires live { IsSome self.old.live }
        requires room { IsFull self.old → ⊥ }
        requires short { length body.now < length_limit }
        ensures commits { CommitsRecord D.Disk last body.now self.old result self.new }
    {
        self.engine.facts();
        match add_record(body, &mut self.journal) {
            Ok(()) => Ok(()),
            Err(refusal) => {
                self.stopped = Some(last);
                Err(refusal)
            }
        }
    }

    /// Handles a batch of a host that runs. If what its requests changed is not stored, or the state is lost, the host
    /// must be reopened from then on.
    fn batch_running(
        &mut self,
        requests: &[BatchRequest<'_>],
        budget: u64,
    ) -> Result<Vec<BatchReply>, HostRefusal>
        requires live { IsSome self.old.live }
        requires some { requests.now ≡ [] → ⊥ }
        requires few { length requests.now ≤ max_batch }
        ensures handled { HandlesBatch D.Disk B.HostObject budget
            (map batch_request_seen requests.now) self.old (batch_result_seen result) self.new }
    {
        self.make_room(&adding_request(requests))?;
        let seq = self.engine.seq();
        let run = match run_batch(self.alloc, &mut self.engine, requests, budget) {
            Ok(run) => run,
            Err(BatchStop::Unchanged) => return Err(Refusal::NoMemory),
            Err(BatchStop::Lost) => {
                self.stopped = Some(seq);
                return Err(Refusal::NoMemory);
            }
        };
        self.engine.facts();
        if run.answered == 0 {
            return Ok(run.replies);
        }
        self.commit_record(seq, &run.body)?;
        Ok(run.replies)
    }

    /// Handles a batch: requests in order, each with a budget in ticks, of which each sees what the ones before it
    /// changed. What is refused changes nothing, and the batch goes on. What all of them changed is stored at once, as
    /// one record, before any reply is given: a crash leaves the state before the batch or the one after it, and once
    /// the replies are given the latter. If it is too long for a record, the record has the image of the state after
    /// the batch.
    ///
    /// Refusals of the whole batch, the first that holds: `Reopen`; if a request is a `load`, a `call` or a `discard`,
    /// `GenerationSpent`, `NoMemory` and `DeviceFailed` of a new generation that is installed first; `NoMemory`;
    /// `DeviceFailed` if the record could not be stored. At `DeviceFailed` the host must be reopened from then on, and
    /// at `NoMemory` if a request was answered or changed the state; else `NoMemory` changes nothing.
    pub fn batch(
        &mut self,
        requests: &[BatchRequest<'_>],
        budget: u64,
    ) -> Result<Vec<BatchReply>, HostRefusal>
        requires few { length requests.now ≤ max_batch }
        ensures handled { HandlesBatch D.Disk B.HostObject budget
            (map batch_request_seen requests.now) self.old (batch_result_seen result) self.new }
    {
        self.facts();
        match self.stopped {
            Some(_) => Err(Refusal::Reopen),
            None => {
                if requests.is_empty() {
                    return Ok(Vec::new(self.alloc));
                }
                self.batch_running(requests, budget)
            }
        }
    }
}
