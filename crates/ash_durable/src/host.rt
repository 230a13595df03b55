//! The host.

ghost use Rattle.std.specs.Prelude.{◌≡◌, ◌↔◌, ℕ, map, Some, IfOk, IsSome, IsTrue, OnOk, OnErr};
ghost use Rattle.ash_registry.specs.RegistryViews.{registered};
ghost use Rattle.ash_requests.specs.Requests.{Call, Discard, Get, Load, Number, Object, Seq, Snapshot};
ghost use Rattle.ash_requests.specs.RequestViews.{request_seen, reply_seen};
ghost use Rattle.ash_sources.specs.SourceFaults.{fault_of};
ghost use Rattle.ash_engine.specs.LiveStates.{LiveState};
ghost use Rattle.ash_durable.specs.Hosting.{first, second, Handles, HandlesAll, IsAnswer, IsFull};
ghost use Rattle.ash_durable.specs.Hosting.{IsInstalled, IsRunning, RefusesFirst, RunsSound};
ghost use Rattle.ash_durable.specs.Hosting.{WantsInstall, reply_stopped};
ghost use Rattle.ash_durable.specs.Batches.{single_calls, single_results};
ghost use Rattle.ash_durable.specs.Lives.{LivesOn};
ghost use Rattle.ash_durable.specs.OpenedStore.{Opens, OpensAgain};
ghost use Rattle.ash_durable.specs.HostReplies.{done_of, reply_of};
ghost use Rattle.ash_durable.specs.HostRequests.{Commits, MakesRoom, TriesInstall};
ghost use Rattle.ash_durable.specs.RequestRuns.{RunsToFailure};
ghost use Rattle.ash_durable.specs.Store.{Creates};

mod batches;

use crate::fault::OpenRefused;
use crate::saving::{add_state, install_state};
use crate::store::{find, make};
use ash_disk::Disk;
use ash_engine::engine::Engine;
use ash_host::HostObject;
use ash_journal::Journal;
use ash_registry::Registry;
use ash_requests::{Arg, Refusal, Reply, Request};
use ash_states::state::{HostRefusal, HostReply};
use std::alloc::{AllocError, Global};
use std::marker::Model;

/// How many bytes of records a generation has at the least before a new one is installed in place of a record more.
pub const FULL_RECORD_BYTES: u64 = 16_777_216;

/// A host for script modules whose state outlives the process. It has a registry of its own, whose text is in each
/// image that it writes. Each call is one request. Every answer to a `load`, a `call` or a `discard` but a refusal
/// raises the sequence number by one, and before it is given what the request changed is one more record on the current
/// disk of the journal, by two writes and two syncs, so that every crash afterwards leaves the new state there. Where
/// that fails, or finds no memory for the record, the answer is lost: a crash leaves the state before the request or the
/// one after it, and the host must be reopened. So it must where memory is refused while a request changes the state:
/// the state is lost, and the disks have the one before the request. Every call but `seq`, `close` and `reopen` is from
/// then on refused with `Refusal::Reopen`. Any other refusal changes nothing, but for a new generation that was
/// installed before it.
///
/// A `load`, a `call` or a `discard` that finds 16,777,216 bytes of records or more in the current generation first
/// installs the state as a new one, without records, in the file that isn't current.
///
/// It owns the boxes of host objects that it is handed: those that are free, in the pool, those of the host objects
/// that live, and one for each service that is registered. Write `B: HostObject` on what holds a host; only who makes
/// the boxes names their type.
#[derive(Drop)]
pub struct Host<D: Disk, B: HostObject = Box<dyn HostObject>> {
    alloc: Global,
    engine: Engine<B>,
    /// Where the host must be reopened, the number after the last request that was answered.
    stopped: Option<u64>,
    journal: Journal<D>,
}

impl<D: Disk, B: HostObject> Model for Host<D, B> {
    ghost use Rattle.ash_durable.specs.Hosting.{Hosted, IsReadyUnless, live_unless, seq_in};
    ghost use Rattle.std.specs.Prelude.{unwrap_or};

    ghost Value = { Hosted D B };

    ghost view = { λ h. record {
      registered = h.engine.registered;
      live = live_unless h.stopped h.engine.live;
      seq = unwrap_or h.stopped (seq_in h.engine.live);
      journal = h.journal;
    } };

    // A host that runs has a live state, and may write to its journal.
    ghost invariant = { λ h. IsReadyUnless h.stopped h.engine.live h.journal };
}

impl<D: Disk, B: HostObject> Host<D, B> {
    /// Makes a store on two disks, and a host with this registry and no module, before any request. It has these free
    /// boxes, and these services: the one at a place must be of the kind that is registered there, and those beyond the
    /// last are dropped. No host object lives. The first generation, on the disk `a`, holds that state, with the states
    /// of the services.
    ///
    /// Faults, the first that holds: `DeviceFailed` and `AlreadyThere` where a file is open, each a
    /// `StoreFault::Create`; `PoolShort` with the first kind for which no service is in its place;
    /// `StoreFault::Create(NoMemory)`. Nothing is written except before `DeviceFailed`. A crash on the way leaves no
    /// file open, or the store of a host that has answered nothing, where each file had one byte at the most before, or
    /// 0 for its first.
    pub fn create(
        alloc: Global,
        a: D,
        b: D,
        registry: Registry,
        pool: Vec<B>,
        services: Vec<B>,
    ) -> Result<Host<D, B>, OpenRefused<D>>
        ensures created { Creates D.Disk B.HostObject (registered registry) pool.items
            services.items a b result }
    {
        let made = make(alloc, registry, pool, services, a, b)?;
        Ok(Host {
            alloc,
            engine: made.engine,
            stopped: None,
            journal: made.journal,
        })
    }

    /// Opens the store on two disks, and gives a host with this registry in the state of which the files are. Its
    /// services take the states that are stored, and each host object lives in the first free box of its kind, by
    /// ascending number. It reads the current generation once, and last of all writes 0 over gates that a crash has
    /// left half written, with a sync for each. That is all it writes where the generation is of version 2: the files
    /// hold the same image and the same records as before. A generation of version 1 is then moved: one of version 2
    /// with the same state, without records, is installed in the other file, and a crash on the way leaves the one or
    /// the other.
    ///
    /// Faults, each a `StoreFault::Open` except `OtherInterface`, `PoolShort`, `RestoreRefused` and `GenerationSpent`,
    /// the first that holds: `DeviceFailed`; `NoGeneration` where no file is open; `Damaged` where bytes have not the
    /// shape of a generation, an image or a record, a record does not lead on from the state before it, or the state
    /// that the records lead to breaks the rules of a state; `OtherInterface` where the store was made with a registry
    /// of another text; `Damaged` where no host with the registry may be in that state; `PoolShort` with the kind of a
    /// service that is not in its place, and then with the kind of a host object for which no free box is left;
    /// `RestoreRefused` with 0 for a service, and then with the number of a host object, that does not take its state;
    /// `GenerationSpent` where the generation is of version 1, and its number is 2^64 - 1. `NoMemory` where there is
    /// none to read into, none for the boxes, or none for the generation of version 2. Except for `DeviceFailed` in the
    /// last steps, both disks read as before.
    pub fn open(
        alloc: Global,
        a: D,
        b: D,
        registry: Registry,
        pool: Vec<B>,
        services: Vec<B>,
    ) -> Result<Host<D, B>, OpenRefused<D>>
        ensures opened { Opens D.Disk B.HostObject (registered registry) pool.items services.items
            a b result }
    {
        let found = find(alloc, registry, pool, services, a, b)?;
        Ok(Host {
            alloc,
            engine: found.engine,
            stopped: None,
            journal: found.journal,
        })
    }

    /// What is known of a host that runs: its boxes are those of its state, and the state has what is registered with
    /// the host. The function does nothing.
    pub fn facts(&self)
        ensures sound { RunsSound B.HostObject self.now }
        ensures runs { (live : LiveState B) → self.now.live ≡ Some live
            → IsRunning live.durable self.now }
    {
        self.engine.facts();
    }

    /// Gives the disks back, as they are. The boxes are dropped.
    pub fn close(self) -> (D, D)
        ensures first { result.0 ≡ first self }
        ensures second { result.1 ≡ second self }
    {
        self.journal.close()
    }

    /// What a host is opened with again: its registry and its disks.
    fn into_parts(self) -> (Registry, D, D)
        ensures registry { registered result.0 ≡ self.registered }
        ensures first { result.1 ≡ first self }
        ensures second { result.2 ≡ second self }
    {
        let (first, second) = self.journal.close();
        (self.engine.into_registry(), first, second)
    }

    /// Closes the host and opens its store again with the same registry and with fresh boxes, as a host needs that must
    /// be reopened. A host that ran is then in the state in which it was.
    ///
    /// It is what `open` gives of the disks that are handed back, whether the host ran or not.
    ///
    /// Faults are those of `open`.
    pub fn reopen(self, pool: Vec<B>, services: Vec<B>) -> Result<Host<D, B>, OpenRefused<D>>
        ensures opens { Opens D.Disk B.HostObject self.registered pool.items services.items
            (first self) (second self) result }
        ensures again { OpensAgain D.Disk B.HostObject pool.items services.items self result }
    {
        self.facts();
        let alloc = self.alloc;
        let (registry, first, second) = self.into_parts();
        Host::open(alloc, first, second, registry, pool, services)
    }

    /// Installs the state of a host that runs as a new generation.
    fn install(&mut self) -> Result<(), HostRefusal>
        requires live { IsSome self.old.live }
        ensures tries_install { TriesInstall D.Disk self.old result self.new }
    {
        self.engine.facts();
        match install_state(&self.engine, &mut self.journal) {
            Ok(()) => Ok(()),
            Err(refusal) => match refusal {
                Refusal::DeviceFailed => {
                    self.stopped = Some(self.engine.seq());
                    Err(Refusal::DeviceFailed)
                }
                refusal => Err(refusal),
            },
        }
    }

    /// The records of the current generation are so long that no more is added.
    fn is_full(&self) -> bool
        ensures full { IsTrue result ↔ IsFull self.now }
        ensures runs { (live : LiveState B) → self.now.live ≡ Some live
            → IsRunning live.durable self.now }
    {
        self.engine.facts();
        self.journal.record_bytes() >= FULL_RECORD_BYTES
    }

    /// The state is installed as a new generation before a request.
    fn wants_install(&self, request: &Request<'_>) -> bool
        ensures wanted { IsTrue result ↔ WantsInstall (request_seen request.now) self.now }
        ensures runs { (live : LiveState B) → self.now.live ≡ Some live
            → IsRunning live.durable self.now }
    {
        let is_full = self.is_full();
        match *request {
            Request::Snapshot => true,
            Request::Load { .. } | Request::Call { .. } | Request::Discard { .. } => is_full,
            Request::Global { .. } | Request::Object { .. } | Request::Seq => false,
        }
    }

    /// Makes room for a request of a host that runs, which may add a record.
    fn make_room(&mut self, request: &Request<'_>) -> Result<(), HostRefusal>
        requires live { IsSome self.old.live }
        ensures makes_room { MakesRoom D.Disk (request_seen request.now) self.old result self.new }
    {
        if !self.wants_install(request) {
            return Ok(());
        }
        self.install()
    }

    /// Stores what a request has changed, before it is answered. `last` is the number of the last answer before it,
    /// which stays where this is not stored: from then on the host must be reopened.
    fn commit(&mut self, last: u64) -> Result<(), HostRefusal>
        requires live { IsSome self.old.live }
        requires room { IsFull self.old → ⊥ }
        ensures commits { Commits D.Disk last self.old result self.new }
    {
        self.engine.facts();
        match add_state(&self.engine, &mut self.journal) {
            Ok(()) => Ok(()),
            Err(refusal) => {
                self.stopped = Some(last);
                Err(refusal)
            }
        }
    }

    /// Handles one request of a host that runs. Where its answer is not stored, or its state is lost, the host must be
    /// reopened from then on.
    fn handle_running(
        &mut self,
        request: &Request<'_>,
        budget: u64,
    ) -> Result<HostReply, HostRefusal>
        requires live { IsSome self.old.live }
        ensures handles { Handles D.Disk B.HostObject budget (request_seen request.now) self.old
            (reply_of result) self.new }
    {
        self.make_room(request)?;
        let seq = self.engine.seq();
        let reply = match self.engine.handle(request, budget) {
            Ok(reply) => reply,
            // The state is lost: memory was refused while it changed.
            Err(_) => {
                self.stopped = Some(seq);
                return Err(Refusal::NoMemory);
            }
        };
        self.engine.facts();
        if !is_answer(&reply) {
            return Ok(reply);
        }
        self.commit(seq)?;
        Ok(reply)
    }

    /// Handles one request, with a budget in ticks. A host that runs, and needs no new generation before it, refuses
    /// each request for which there is a cause, with the first cause or out of memory on the way to it, and is as it
    /// was.
    ///
    /// Refusals, the first that holds. Each request but `seq`: `Reopen`. A `load`, a `call` and a `discard`:
    /// `GenerationSpent`, `NoMemory` and `DeviceFailed` where a new generation is installed first; `SequenceSpent`; of
    /// a `load` then `BadName`, `ModuleTaken`, `TooManyModules` and `BadSource`; of a `call` `NoModule`, `NoFunction`,
    /// `NotCallable` and `BadArguments`; of a `discard` `NoModule`; `NoMemory` where finding these, the run or the
    /// record finds no memory; `DeviceFailed` where the answer could not be stored. A `global`: `NoModule`, `NoGlobal`.
    /// An `object`: `NoObject`, `NoMemory`. A snapshot: `GenerationSpent`, `NoMemory`, `DeviceFailed`. At
    /// `DeviceFailed`, and at `NoMemory` where the state was changed, the host must be reopened from then on.
    pub fn handle(&mut self, request: &Request<'_>, budget: u64) -> HostReply
        ensures handled { Handles D.Disk B.HostObject budget (request_seen request.now) self.old
            (reply_seen fault_of result) self.new }
        ensures refused { RefusesFirst (request_seen request.now) self.old
            (reply_seen fault_of result) self.new }
    {
        match self.stopped {
            Some(seq) => reply_of_stopped(request, seq),
            None => match self.handle_running(request, budget) {
                Ok(reply) => reply,
                Err(refusal) => Reply::Refused(refusal),
            },
        }
    }

    /// Loads a source as a module of this name: reads it and runs its initializers, with a budget in ticks. The
    /// module is stored where they finish. Refusals are those of `handle`.
    pub fn load(&mut self, module: &str, source: &[u8], budget: u64) -> HostReply
        ensures handled { Handles D.Disk B.HostObject budget (Load module.now source.now) self.old
            (reply_seen fault_of result) self.new }
        ensures refused { RefusesFirst (Load module.now source.now) self.old
            (reply_seen fault_of result) self.new }
    {
        self.handle(&Request::Load { module, source }, budget)
    }

    /// Calls a function of a module, with a budget in ticks. Refusals are those of `handle`.
    pub fn call(
        &mut self,
        module: &str,
        function: &str,
        arguments: &[Arg],
        budget: u64,
    ) -> HostReply
        ensures handled { Handles D.Disk B.HostObject budget (Call module.now function.now arguments.now)
            self.old (reply_seen fault_of result) self.new }
        ensures refused { RefusesFirst (Call module.now function.now arguments.now) self.old
            (reply_seen fault_of result) self.new }
    {
        self.handle(
            &Request::Call {
                module,
                function,
                arguments,
            },
            budget,
        )
    }

    /// Removes a module, with its globals. Refusals are those of `handle`.
    pub fn discard(&mut self, module: &str) -> HostReply
        ensures handled { (budget : ℕ) → Handles D.Disk B.HostObject budget (Discard module.now) self.old
            (reply_seen fault_of result) self.new }
        ensures refused { RefusesFirst (Discard module.now) self.old (reply_seen fault_of result)
            self.new }
    {
        self.handle(&Request::Discard { module }, 0)
    }

    /// What a global of a module holds. It takes no memory, and touches no disk. Refusals are those of `handle`.
    pub fn global(&mut self, module: &str, name: &str) -> HostReply
        ensures handled { (budget : ℕ) → Handles D.Disk B.HostObject budget (Get module.now name.now) self.old
            (reply_seen fault_of result) self.new }
        ensures unchanged { self.new ≡ self.old }
    {
        self.handle(&Request::Global { module, name }, 0)
    }

    /// The object of a number: its type, how many handles there are to it, and what is in it. It touches no disk.
    /// Refusals are those of `handle`.
    pub fn object(&mut self, number: u64) -> HostReply
        ensures handled { (budget : ℕ) → Handles D.Disk B.HostObject budget (Object number) self.old
            (reply_seen fault_of result) self.new }
        ensures unchanged { self.new ≡ self.old }
    {
        self.handle(&Request::Object { number }, 0)
    }

    /// Writes the whole state into a new generation without records, in the file that isn't current. Nothing of the
    /// state changes, and every crash leaves it.
    ///
    /// Refusals, the first that holds: `Reopen`; `GenerationSpent` where the generation's number is 2^64 - 1;
    /// `NoMemory`; these change nothing. After `DeviceFailed` the host must be reopened.
    pub fn snapshot(&mut self) -> Result<(), HostRefusal>
        ensures handled { (budget : ℕ) → Handles D.Disk B.HostObject budget Snapshot self.old (done_of result)
            self.new }
        ensures installed { OnOk result (IsInstalled self.old self.new) }
    {
        self.facts();
        match self.stopped {
            None => self.install(),
            Some(_) => Err(Refusal::Reopen),
        }
    }

    /// How many requests have been answered.
    pub fn seq(&self) -> u64
        ensures number { result ≡ self.now.seq }
        ensures handled { (budget : ℕ) → Handles D.Disk B.HostObject budget Seq self.now (Number result)
            self.now }
    {
        self.facts();
        match self.stopped {
            Some(seq) => seq,
            None => self.engine.seq(),
        }
    }

    /// Handles requests in order, each with a budget in ticks. They are a run of the written steps up to the first
    /// whose answer or state is lost; from then on the host must be reopened. An `Err` comes before the first of them.
    pub fn handle_all(
        &mut self,
        alloc: Global,
        requests: &[Request<'_>],
        budget: u64,
    ) -> Result<Vec<HostReply>, AllocError>
        ensures run { IfOk result (λ replies. HandlesAll D.Disk B.HostObject budget self.old
            (map request_seen requests.now) (map (reply_seen fault_of) replies.items) self.new) }
        ensures defined { IfOk result (λ replies. RunsToFailure D.Disk B.HostObject budget self.old
            (single_calls (map request_seen requests.now))
            (single_results (map (reply_seen fault_of) replies.items)) self.new) }
        ensures lives { IfOk result (λ replies. LivesOn D.Disk B.HostObject budget self.old
            (single_calls (map request_seen requests.now))
            (single_results (map (reply_seen fault_of) replies.items)) self.new) }
        ensures err { OnErr result (self.new ≡ self.old) }
    {
        let mut replies = Vec::with_capacity(alloc, requests.len())?;
        for request in requests {
            replies.push(self.handle(request, budget))?;
        }
        Ok(replies)
    }
}

/// The reply is an answer, which raises the sequence number.
fn is_answer(reply: &HostReply) -> bool
    ensures exact { IsTrue result ↔ IsAnswer (reply_seen fault_of reply.now) }
{
    matches!(reply, Reply::Answer(_))
}

/// The reply of a host that must be reopened. `seq` is the number of the last answer.
fn reply_of_stopped(request: &Request<'_>, seq: u64) -> HostReply
    ensures value { reply_seen fault_of result ≡ reply_stopped (request_seen request.now) seq }
{
    match *request {
        Request::Seq => Reply::Seq(seq),
        _ => Reply::Refused(Refusal::Reopen),
    }
}
