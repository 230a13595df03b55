//! What handles requests.

ghost use Rattle.std.specs.Prelude.{ℕ, ◌≤◌, length, map};
ghost use Rattle.ash_durable.specs.Batches.{HandlesBatch};
ghost use Rattle.ash_durable.specs.Batches.{max_batch};
ghost use Rattle.ash_durable.specs.BatchViews.{batch_request_seen, batch_result_seen};
ghost use Rattle.ash_durable.specs.Hosting.{Handles};
ghost use Rattle.ash_requests.specs.RequestViews.{request_seen, reply_seen};
ghost use Rattle.ash_sources.specs.SourceFaults.{fault_of};
ghost use Rattle.ash_serve.specs.Serving.{RequestRelation, BatchRelation, DependsOnPrefix};
ghost use Rattle.ash_serve.specs.Serving.{BatchDependsOnPrefix};
ghost use Rattle.ash_serve.specs.LongSources.{handles_by_prefix, batch_by_prefix};

use ash_disk::Disk;
use ash_durable::Host;
use ash_durable::batch::{BatchReply, BatchRequest};
use ash_host::HostObject;
use ash_requests::{Refusal, Reply, Request};
use ash_sources::fault::SourceFault;

/// A host, as the loop uses it.
pub trait RequestHandler {
    /// What the reply to a request may be, by a budget in ticks, and the host after it.
    ghost handles: { ℕ → RequestRelation Self };

    /// What a batch of requests may be replied, by a budget in ticks for each, and the host after it.
    ghost handles_batch: { ℕ → BatchRelation Self };

    /// Handles one request, with a budget in ticks.
    fn handle(&mut self, request: &Request, budget: u64) -> Reply<SourceFault>
        ensures handled { handles budget (request_seen request.now) self.old
            (reply_seen fault_of result) self.new };

    /// Handles the requests of a batch, with a budget in ticks for each.
    fn batch(
        &mut self,
        requests: &[BatchRequest<'_>],
        budget: u64,
    ) -> Result<Vec<BatchReply>, Refusal<SourceFault>>
        requires few { length requests.now ≤ max_batch }
        ensures handled { handles_batch budget (map batch_request_seen requests.now) self.old
            (batch_result_seen result) self.new };

    /// A source that is too long is refused whatever bytes come after its prefix.
    ghost depends_on_prefix: { (budget : ℕ) → DependsOnPrefix (handles budget) };

    /// So it is in a batch.
    ghost batch_depends_on_prefix: { (budget : ℕ) → BatchDependsOnPrefix (handles_batch budget) };
}

impl<D: Disk, B: HostObject> RequestHandler for Host<D, B> {
    ghost handles = { Handles D.Disk B.HostObject };

    ghost handles_batch = { HandlesBatch D.Disk B.HostObject };

    ghost depends_on_prefix = { handles_by_prefix _ _ };

    ghost batch_depends_on_prefix = { batch_by_prefix _ _ };

    fn handle(&mut self, request: &Request, budget: u64) -> Reply<SourceFault> {
        Host::handle(self, request, budget)
    }

    fn batch(
        &mut self,
        requests: &[BatchRequest<'_>],
        budget: u64,
    ) -> Result<Vec<BatchReply>, Refusal<SourceFault>> {
        Host::batch(self, requests, budget)
    }
}
