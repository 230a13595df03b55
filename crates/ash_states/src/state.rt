//! The state of a host, and its image.

ghost use Rattle.std.specs.Prelude.{◌≡◌, ◌≤◌, ◌<◌, ◌^◌, length, map, IfOk};
ghost use Rattle.std.specs.List.{AllByRecursion};
ghost use Rattle.ash_registry.specs.RegistryViews.{registered};
ghost use Rattle.ash_soundness.specs.WellFormed.{IsState};
ghost use Rattle.ash_image.specs.Image.{max_services};
ghost use Rattle.ash_image.specs.Rules.{IsShaped};
ghost use Rattle.ash_image.specs.SnapshotViews.{snapshot_of};
ghost use Rattle.ash_image.specs.declared.version.Version.TheVariants.{Two};
ghost use Rattle.ash_states.specs.HostStates.{service_kinds, empty};
ghost use Rattle.ash_states.specs.Holding.{held_with, IsHeld};
ghost use Rattle.ash_states.specs.Images.{IsImageIn, IsBodyIn, IsImageRestored};

use crate::restoring::restore_state;
use crate::writing::{body_of, image_of};
use ash_image::stored::StoredState;
use ash_plain_steps::state::PlainState;
use ash_registry::Registry;
use ash_sources::fault::SourceFault;
use std::alloc::{AllocError, Global};
use std::marker::Model;

/// Why a request to a host is refused.
pub type HostRefusal = ash_requests::Refusal<SourceFault>;

/// What a request to a host is replied.
pub type HostReply = ash_requests::Reply<SourceFault>;

/// What is registered with a host, and what outlives a request.
#[derive(Drop)]
pub struct HostState {
    registry: Registry,
    state: PlainState,
}

impl Model for HostState {
    ghost use Rattle.ash_registry.specs.RegistryViews.{registered};
    ghost use Rattle.ash_plain_steps.specs.StateViews.{state_seen};
    ghost use Rattle.ash_states.specs.HostStates as states;
    ghost use Rattle.ash_states.specs.Holding.{IsHeld};

    ghost Value = { states.HostState };

    ghost view = { λ s. record { registered = registered s.registry; state = state_seen s.state } };

    // A host may be in the state, and each tree is that of its source.
    ghost invariant = { λ s. IsHeld (registered s.registry) s.state };
}

impl HostState {
    /// The state before any request, with what is registered, and with services in these states, one for each that is
    /// registered.
    pub fn new(alloc: Global, registry: Registry, services: Vec<Vec<u8>>) -> HostState
        requires served { length services.items ≡ length (service_kinds (registered registry)) }
        requires few { length services.items ≤ max_services }
        requires fit { AllByRecursion IsState (map (λ state. state.items) services.items) }
        ensures before_any_request { result
            ≡ empty (registered registry) (map (λ state. state.items) services.items) }
    {
        HostState {
            registry,
            state: PlainState::new(alloc, services),
        }
    }

    /// The state that was stored, with what is registered: each source is read again. `None` where no host with these
    /// registrations may be in it. An `Err` means that memory was refused.
    pub fn restore(
        alloc: Global,
        registry: Registry,
        stored: StoredState,
    ) -> Result<Option<HostState>, AllocError>
        requires shaped { IsShaped (snapshot_of stored) }
        ensures exact { IfOk result (IsImageRestored (registered registry) (snapshot_of stored)) }
    {
        match restore_state(alloc, &registry, stored)? {
            Some(state) => Ok(Some(HostState { registry, state })),
            None => Ok(None),
        }
    }

    /// What is registered.
    pub fn registry(&self) -> &Registry
        ensures same { registered result.now ≡ self.now.registered }
    {
        &self.registry
    }

    /// What is registered, and what outlives a request.
    pub fn into_parts(self) -> (Registry, PlainState)
        ensures same { held_with (registered result.0) result.1 ≡ self }
        ensures held { IsHeld (registered result.0) result.1 }
    {
        (self.registry, self.state)
    }

    /// How many requests have been answered.
    pub fn seq(&self) -> u64
        ensures number { result ≡ self.now.state.seq }
    {
        self.state.seq
    }

    /// The image of the state, in version 2. An `Err` means that memory was refused.
    pub fn image(&self) -> Result<Vec<u8>, AllocError>
        ensures image { IfOk result (λ image. IsImageIn Two image.items self.now) }
        // It fits into a record.
        ensures short { IfOk result (λ image. length image.items < 2 ^ 28) }
    {
        image_of(&self.registry, &self.state)
    }

    /// The body of a record that has the image of the state, in version 2. An `Err` means that memory was refused.
    pub fn body(&self) -> Result<Vec<u8>, AllocError>
        ensures body { IfOk result (λ body. IsBodyIn Two body.items self.now) }
        // It fits into a record.
        ensures short { IfOk result (λ body. length body.items < 2 ^ 28) }
    {
        body_of(&self.registry, &self.state)
    }
}
