//! What a store has in it, read before it is opened.

use ash_disk::Disk;
use ash_host::Counter;
use ash_image::stored::{StoredBody, StoredModule, StoredState};
use ash_journal::{Journal, OpenedJournal};
use ash_replay::replay::replay;
use std::alloc::Global;

/// What was read of a store, and its disks as they were.
#[derive(Drop)]
pub struct Stored<D> {
    pub a: D,
    pub b: D,
    pub modules: Vec<StoredModule>,
    /// How many Counters live.
    pub counters: usize,
}

/// Reads a store. Where it can't be read nothing is in it: opening it says why.
pub fn read_stored<D: Disk>(alloc: Global, a: D, b: D) -> Stored<D> {
    match Journal::open(alloc, a, b) {
        Err(refused) => Stored {
            a: refused.first,
            b: refused.second,
            modules: Vec::new(alloc),
            counters: 0,
        },
        Ok(opened) => {
            let OpenedJournal {
                journal,
                image,
                records,
            } = opened;
            let (a, b) = journal.close();
            match replay(alloc, &image, &records) {
                Ok(stored) => Stored {
                    a,
                    b,
                    counters: count_counters(&stored.state),
                    modules: stored.state.modules,
                },
                Err(_) => Stored {
                    a,
                    b,
                    modules: Vec::new(alloc),
                    counters: 0,
                },
            }
        }
    }
}

/// How many Counters live in a state.
fn count_counters(state: &StoredState) -> usize {
    state
        .objects
        .iter()
        .filter(|object| is_counter(&object.body))
        .count()
}

fn is_counter(body: &StoredBody) -> bool {
    match body {
        StoredBody::Host(host) => host.kind == Counter::KIND,
        StoredBody::Script(_) | StoredBody::Array(_) => false,
    }
}

/// The source of a module, if there is one of this name.
pub fn source_of<'a>(modules: &'a [StoredModule], name: &str) -> Option<&'a [u8]> {
    for module in modules {
        if module.name.as_str() == name {
            return Some(module.source.as_slice());
        }
    }
    None
}
