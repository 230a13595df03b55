//! What outlives a request, and what hosts bring to one.

ghost use Rattle.std.specs.Prelude.{◌≡◌, [], map};
ghost use Rattle.ash_requests.specs.States.{empty};
ghost use Rattle.ash_plain_steps.specs.StateViews.{state_seen};

use ash_host::Word;
use ash_plain_data::host_call::HostRecord;
use ash_plain_world::activity::FreeBox;
use ash_plain_world::objects::ObjectMap;
use ash_typed::Module;
use std::alloc::Global;
use std::collections::VecDeque;

/// A module that is loaded, with the typed tree of its source.
#[derive(Drop)]
pub struct LoadedModule {
    pub name: String,
    pub source: Vec<u8>,
    pub tree: Module,
    /// What its globals hold, in source order.
    pub globals: Vec<Word>,
}

/// What outlives a request.
#[derive(Drop)]
pub struct PlainState {
    pub alloc: Global,
    /// The modules by ascending name.
    pub modules: Vec<LoadedModule>,
    pub objects: ObjectMap,
    /// The states of the services, in order of registration.
    pub services: Vec<Vec<u8>>,
    /// The last number that was given to an object.
    pub last: u64,
    /// How many requests have been answered.
    pub seq: u64,
}

/// What hosts bring to a request.
#[derive(Drop)]
pub struct Hosts {
    /// The free boxes.
    pub pool: Vec<FreeBox>,
    /// What hosts will answer.
    pub answers: VecDeque<HostRecord>,
}

impl PlainState {
    /// The state before any request, with services in these states.
    pub fn new(alloc: Global, services: Vec<Vec<u8>>) -> PlainState
        ensures is_empty { state_seen result ≡ empty (map (λ state. state.items) services.items) }
        ensures no_modules { result.modules.items ≡ [] }
    {
        PlainState {
            alloc,
            modules: Vec::new(alloc),
            objects: ObjectMap::new(alloc),
            services,
            last: 0,
            seq: 0,
        }
    }
}
