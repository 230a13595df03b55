//! Disks as the store sees them: files of bytes that are read, written over and synced, any call of which may fail.
//! It uses no other crate. It promises, of every disk that is honest, what a read gives and which images a crash at
//! any moment may leave, and of every disk that `DeviceFailed` is reported only where the device has failed. It
//! requires that an honest disk is asked only for bytes that it has, and written to at most at its end.
//!
//! In reading order: `failure` (the one error and its count), `disk` (the trait), `durably` (a write and its sync),
//! `standard` (the descriptors of the standard streams), `file` (a file of the system), `fuse` (a disk that fails from
//! a chosen call on), `memory` (a disk in memory, with `call` and `bytes`, what it records and how it writes), `crash`
//! (what a crash may leave of it, for tests). The words of the clauses are in `specs/DiskImage` (files and torn
//! writes), `specs/Moments` (times) and `specs/Device` (a disk during calls, for the crates above, which pass
//! `D.Disk`), and the laws about them in `proofs/TornLaws`, `proofs/MomentLaws` and `proofs/DeviceLaws`.
#![tactic(auto)]

mod bytes;
mod call;
mod crash;
mod disk;
mod durably;
mod failure;
mod file;
mod fuse;
mod memory;
mod standard;

pub use crash::Survives;
pub use disk::Disk;
pub use durably::write_durably;
pub use failure::DeviceFailed;
pub use file::FileDisk;
pub use fuse::FuseDisk;
pub use memory::MemoryDisk;
pub use standard::take_closed_streams;
