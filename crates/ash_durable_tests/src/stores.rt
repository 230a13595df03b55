//! Tests of the host without its requests' bytes: its calls, stores on two disks with what is registered, and a host
//! whose disks fail, or which crashes, at each moment.
//!
//! Of disks that do not fail: `host` has the host's calls, `store` the bytes of stores and crashes between requests,
//! `objects` what is found of objects after these, `versions` stores of version 1, `damage` and `registered` what is
//! wrong with stores that are opened, `deltas` and `object_deltas` what records lead to. `batches` has several requests
//! in one call, with stops at each call of a disk too.
//!
//! Of disks that do: `snapshots` has new generations, `faults` disks that fail; `crashes`, `moves` and `full_crashes`
//! disks that fail, with crashes at each moment, of small stores, of an empty one of version 1, and of one that is
//! full: what is done to these is in `plans`, and where disks fail in `fuses`. `runs` compares what a run leaves.

mod batches;
mod crashes;
mod damage;
mod deltas;
mod faults;
mod full_crashes;
pub(crate) mod fuses;
mod host;
mod moves;
mod object_deltas;
mod objects;
mod plans;
mod registered;
mod runs;
mod snapshots;
mod store;
mod versions;
