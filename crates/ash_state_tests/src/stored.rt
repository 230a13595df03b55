//! Tests of the images of whole states: bytes that were written by hand, what they are read as, which changes of them
//! are images of other states, and the states of hosts whose images they are.
//!
//! In reading order: `images`, the bytes in their parts; `compare`; `encoding`, which writes what was read by the
//! layout alone; `reading`, `refused` and `limits`, of images and the bodies of records; `changes`, with each byte
//! changed and each cut; `deltas`, of what requests changed; `hosts`, the states of hosts, and `restoring`, the changes
//! that a host may be in.

mod changes;
mod compare;
mod deltas;
mod encoding;
mod hosts;
mod images;
mod limits;
mod reading;
mod refused;
mod restoring;
