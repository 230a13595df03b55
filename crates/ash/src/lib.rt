//! What a program needs that has the host within it, under one name. It has no code of its own: each item is one of a
//! crate below, with the contract that it has there.
//!
//! In the order in which a program uses them: kinds of host objects; what is registered; disks; the host, and why there
//! is none; requests and their replies; whether a source would be loaded. `specs/` hands on the definitions that the
//! clauses of a kind cite.
#![tactic(auto)]

// Kinds of host objects, and the two that come with the product.
pub use ash_host::{
    Counter, HostAnswer, HostObject, MAX_STATE_BYTES, NoMemory, RestoreFault, Tally, Word,
};

// What scripts may use.
pub use ash_registry::{Registry, RegistryFault};

// Where a store is.
pub use ash_disk::{DeviceFailed, Disk, FileDisk, MemoryDisk};

// The host, and why there is none.
pub use ash_durable::{CreateFault, Host, OpenFault, OpenRefused, StoreFault};

// Requests and their replies, alone and in batches.
pub use ash_durable::batch::{BatchRefusal, BatchReply, BatchRequest};
pub use ash_host::{Event, Target};
pub use ash_requests::{
    Answer, Arg, Exception, ObjectContents, Outcome, Refusal, Reply, Request, Shown,
};
pub use ash_sources::fault::SourceFault;
pub use ash_states::state::{HostRefusal, HostReply};

// Whether a source would be loaded.
pub use ash_durable::check_source;
pub use ash_sources::fault::SourceError;
