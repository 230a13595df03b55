//! The life of a store, as a theorem.

ghost use Rattle.std.specs.Prelude.{ℕ, List, ◌∷◌, ◌++◌};
ghost use Rattle.ash_engine.specs.LiveSteps.{Reached};
ghost use Rattle.ash_durable.specs.StoreFaults.{IsMishap};
ghost use Rattle.ash_states.specs.HostStates.{HostState};
ghost use Rattle.ash_durable.specs.HandedBoxes.{AreSaved, CanOpen, RestoreKinds};
ghost use Rattle.ash_durable.specs.Lives.{AreLeft, BeginWith, CanOpenAfter, Crashed, StoreEvent};
ghost use Rattle.ash_durable.specs.Lives.{IsPrefixAt, LeadBy, Life, OnDisks, Outlives};
ghost use Rattle.ash_durable.specs.Lives.{StoreLocation, first_at, second_at};
ghost use Rattle.ash_durable.specs.OpenedStore.{WasRefused};
ghost use Rattle.ash_durable.specs.StoredStates.{AreHonest, SettleNow};
ghost use Rattle.ash_durable.specs.declared.fault.OpenRefused.{OpenRefused};

use ash_disk::Disk;
use ash_host::HostObject;

/// In every life of a store on honest disks, whatever happens to it and as often as it does (requests, batches, failures
/// of the devices, out of memory, snapshots, closing and opening, refused openings and creations, the end of the
/// process or of the power at any moment of any of these), the following holds. A life begins when a store is made, or
/// when one that is there is first opened.
///
/// `whole`: all that a crash may leave of the disks settles on states to which the events lead: every request that was
/// answered, in order and with its answer, and each that is in doubt at its place once or not at all, as it was found
/// at the next opening; a batch in doubt as a whole. Where the newest event is not in doubt there is one such state. A
/// host that runs is in one.
///
/// `each`: so each event that ever came is in every such state, at its place among the others.
///
/// `prefix`: since the store was made or last opened each event is a request that was answered, so that the states are
/// those after a prefix of the requests that holds every acknowledged one. The newest alone may be in doubt, and where
/// it is no host runs.
///
/// `opens`: a store is never refused to a host with the same registry, with boxes with which the state can be opened
/// that the disks have as they read, except because memory ran out or because a disk failed.
///
/// It does nothing: the clauses are the theorem. Each step of a life is what the contract of a public call says.
pub fn nothing_acknowledged_is_lost<D: Disk, B: HostObject>()
    ensures whole { (start : Reached) (events : List StoreEvent) (place : StoreLocation D B)
        → Life D.Disk B.HostObject start events place
        → Outlives D.Disk B.HostObject start events place }
    ensures each { (start : Reached) (later : List StoreEvent) (event : StoreEvent)
        (earlier : List StoreEvent) (place : StoreLocation D B)
        → Life D.Disk B.HostObject start (later ++ event ∷ earlier) place
        → SettleNow D.Disk (first_at place) (second_at place)
        (LeadBy B.HostObject later event earlier start) }
    ensures prefix { (start : Reached) (events : List StoreEvent) (place : StoreLocation D B)
        → Life D.Disk B.HostObject start events place → IsPrefixAt events place }
    ensures opens { (start : Reached) (events : List StoreEvent) (pool services : List B) (a b : D)
        (refused : OpenRefused D)
        → Life D.Disk B.HostObject start events (OnDisks a b)
        → CanOpenAfter D.Disk B.HostObject pool services events start a b
        → WasRefused D.Disk B.HostObject start.durable.registered pool services a b refused
        → IsMishap refused.fault }
{}

/// With which boxes a state can be opened: with services of the registered kinds, and with boxes enough of each kind,
/// where each restores whatever an object of its kind saves. Each host object and each service of a store's state has
/// what an object of its kind saves.
///
/// Where a program boxes several types of one kind, a box of one need not restore what one of another saves; `CanOpen`
/// asks only of each box that it takes what the state has for it.
pub fn kinds_that_restore_open<B: HostObject>()
    ensures opens { (pool services : List B) (state : HostState) → AreSaved B.HostObject state
        → RestoreKinds B.HostObject pool services state
        → CanOpen B.HostObject pool services state }
{}

/// Of which kinds a crash may be. `power`: a power failure leaves an image of each disk, and the next host is opened on
/// disks that begin with these. `process`: where a process ends, the next host is opened on the disks as they are.
pub fn kinds_of_crash<D: Disk>()
    ensures power { (a b : ℕ) (first second new_first new_second : D) (x y : List ℕ)
        → AreLeft D.Disk a b first second x y → BeginWith D.Disk new_first new_second x y
        → Crashed D.Disk a b first second new_first new_second }
    ensures process { (first second : D) → AreHonest D.Disk first second
        → Crashed D.Disk (D.clock first) (D.clock second) first second first second }
{}
