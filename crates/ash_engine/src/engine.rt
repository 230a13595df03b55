//! The engine: a live state, which takes the steps of requests.

ghost use Rattle.std.specs.Prelude.{◌≡◌, ◌<◌, ◌≤◌, ◌+◌, ◌-◌, ◌^◌, ℕ, length, Some, IfOk, OnOk, IsSome, IsErrOf};
ghost use Rattle.ash_registry.specs.RegistryViews.{registered};
ghost use Rattle.ash_requests.specs.RequestViews.{request_seen};
ghost use Rattle.ash_objects.specs.declared.restoring.TableFault.{TableFault};
ghost use Rattle.ash_image.specs.declared.version.Version.TheVariants.{Two};
ghost use Rattle.ash_states.specs.Images.{IsImageIn, IsBodyIn};
ghost use Rattle.ash_engine.specs.LiveStates.{LiveState, AreOf, begin};
ghost use Rattle.ash_engine.specs.LiveSteps.{reached_by, IsReached, Handled};
ghost use Rattle.ash_engine.specs.NamedChanges.{changes_seen};
ghost use Rattle.ash_engine.specs.RecordedChanges.{IsBodyOfChanges, AppendsChanges};
ghost use Rattle.ash_engine.specs.RestoredBoxes.{HasServices, LacksService, IsShort};
ghost use Rattle.ash_engine.specs.RestoredBoxes.{IsRefused, Restores};

use crate::boxes::take_services;
use crate::changes::Changes;
use crate::live::Live;
use crate::recording::{append_changes, delta_body};
use crate::starting::{first_live, restored_live};
use crate::steps::step_of;
use crate::writing::{body_of, image_of};
use ash_host::HostObject;
use ash_objects::TableFault;
use ash_registry::Registry;
use ash_requests::{Request, StepError};
use ash_states::state::{HostReply, HostState};
use std::alloc::{AllocError, Global};
use std::marker::Model;

/// A registry, and a live state: what outlives a request, beside the boxes of host objects, which are free, in use by
/// number, or services. Its state is lost if memory is refused while or after a request runs code.
#[derive(Drop)]
pub struct Engine<B: HostObject = Box<dyn HostObject>> {
    registry: Registry,
    live: Option<Live<B>>,
}

impl<B: HostObject> Model for Engine<B> {
    ghost use Rattle.std.specs.Prelude.{option_map, IfSome};
    ghost use Rattle.ash_registry.specs.RegistryViews.{registered};
    ghost use Rattle.ash_engine.specs.LiveStates.{EngineState};
    ghost use Rattle.ash_engine.specs.TableStates.{live_seen, IsLive};

    ghost Value = { EngineState B };

    ghost view = { λ e. record {
      registered = registered e.registry;
      live = option_map (live_seen B.HostObject (registered e.registry)) e.live;
    } };

    // A host may be in the live state, and the boxes are those of the state.
    ghost invariant = { λ e. IfSome e.live (IsLive B.HostObject (registered e.registry)) };
}

impl<B: HostObject> Engine<B> {
    /// An engine before any request, with these free boxes, and with these services, one of each kind that is
    /// registered, in order. Services beyond them are dropped.
    ///
    /// # Errors
    ///
    /// `PoolShort` with the first registered kind of which no service is in its place; `NoMemory`. The boxes are then
    /// given up.
    pub fn new(
        alloc: Global,
        registry: Registry,
        pool: Vec<B>,
        services: Vec<B>,
    ) -> Result<Engine<B>, TableFault>
        ensures begun { IfOk result (λ engine. engine ≡ record {
          registered = registered registry;
          live = Some (begin B.HostObject (registered registry) pool.items services.items);
        }) }
        ensures has { IfOk result (λ engine.
            HasServices B.HostObject (registered registry) services.items) }
        ensures short { (kind : ℕ) → IsErrOf result (TableFault.PoolShort kind)
            → LacksService B.HostObject (registered registry) services.items kind }
        ensures not_refused { (number : ℕ) → IsErrOf result (TableFault.RestoreRefused number)
            → ⊥ }
    {
        let taken = take_services(&registry, services)?;
        let live = first_live(alloc, &registry, pool, taken);
        Ok(Engine {
            registry,
            live: Some(live),
        })
    }

    /// An engine in a state that was stored. Each host object takes the first free box of its kind, by ascending
    /// number; then the services take their states, and then these boxes.
    ///
    /// # Errors
    ///
    /// The first that holds: `PoolShort` with the kind of a service, and then with that of a host object;
    /// `RestoreRefused` with 0 for a service, and then with the number of a host object. `NoMemory` at any time. The
    /// boxes are then given up.
    pub fn restored(
        durable: HostState,
        pool: Vec<B>,
        services: Vec<B>,
    ) -> Result<Engine<B>, TableFault>
        ensures restored { IfOk result (λ engine. (live : LiveState B)
            × (engine ≡ record { registered = durable.registered; live = Some live })
            × Restores B.HostObject durable pool.items services.items live) }
        ensures short { (kind : ℕ) → IsErrOf result (TableFault.PoolShort kind)
            → IsShort B.HostObject durable pool.items services.items kind }
        ensures refused { (number : ℕ) → IsErrOf result (TableFault.RestoreRefused number)
            → IsRefused B.HostObject durable pool.items services.items number }
    {
        let (registry, state) = durable.into_parts();
        let taken = take_services(&registry, services)?;
        let live = restored_live(&registry, state, pool, taken)?;
        Ok(Engine {
            registry,
            live: Some(live),
        })
    }

    /// What is known of a live state. The function does nothing.
    pub fn facts(&self)
        ensures boxes { (live : LiveState B) → self.now.live ≡ Some live → AreOf B.HostObject live }
        ensures reached { (live : LiveState B) → self.now.live ≡ Some live
            → IsReached (reached_by live) }
        ensures registered { (live : LiveState B) → self.now.live ≡ Some live
            → live.durable.registered ≡ self.now.registered }
    {
        let _live = &self.live;
    }

    /// What is registered.
    pub fn registry(&self) -> &Registry
        ensures same { registered result.now ≡ self.now.registered }
    {
        &self.registry
    }

    /// What is registered, taken out of the engine. The boxes are given up.
    pub fn into_registry(self) -> Registry
        ensures same { registered result ≡ self.registered }
    {
        self.registry
    }

    /// How many requests have been answered.
    pub fn seq(&self) -> u64
        requires live { IsSome self.now.live }
        ensures number { (live : LiveState B) → self.now.live ≡ Some live
            → result ≡ live.durable.state.seq }
    {
        let Some(live) = &self.live else {
            unreachable!()
        };
        live.loaded.seq
    }

    /// What the last request that was answered may have changed; nothing before the first.
    #[tactic(auto, using(crate::proofs::LiveFacts::changes_in))]
    pub fn changes(&self) -> &Changes
        requires live { IsSome self.now.live }
        ensures changes { (live : LiveState B) → self.now.live ≡ Some live
            → changes_seen live.durable.state.modules result.now ≡ live.changes }
    {
        let Some(live) = &self.live else {
            unreachable!()
        };
        &live.changes
    }

    /// The image of the state, in version 2. An `Err` means that memory was refused.
    pub fn image(&self) -> Result<Vec<u8>, AllocError>
        requires live { IsSome self.now.live }
        ensures image { (live : LiveState B) → self.now.live ≡ Some live
            → IfOk result (λ image. IsImageIn Two image.items live.durable) }
        // It fits into a record.
        ensures short { IfOk result (λ image. length image.items < 2 ^ 28) }
    {
        let Some(live) = &self.live else {
            unreachable!()
        };
        image_of(&self.registry, live)
    }

    /// The body of a record that has the image of the state, in version 2. An `Err` means that memory was refused.
    pub fn body(&self) -> Result<Vec<u8>, AllocError>
        requires live { IsSome self.now.live }
        ensures body { (live : LiveState B) → self.now.live ≡ Some live
            → IfOk result (λ body. IsBodyIn Two body.items live.durable) }
        // It fits into a record.
        ensures short { IfOk result (λ body. length body.items < 2 ^ 28) }
    {
        let Some(live) = &self.live else {
            unreachable!()
        };
        body_of(&self.registry, live)
    }

    /// The body of a record of what the last request that was answered changed, in version 2: it lists what the
    /// changes name, as it is in the state, and nothing else. An `Err` means that memory was refused.
    pub fn delta_body(&self) -> Result<Vec<u8>, AllocError>
        requires live { IsSome self.now.live }
        ensures delta { (live : LiveState B) → self.now.live ≡ Some live
            → IfOk result (λ body. IsBodyOfChanges live body.items) }
        // It fits into a record.
        ensures short { IfOk result (λ body. length body.items < 2 ^ 28) }
    {
        let Some(live) = &self.live else {
            unreachable!()
        };
        delta_body(live)
    }

    /// Appends the delta of what the last request that was answered changed, in version 2: it lists what the changes
    /// name, as it is in the state, and nothing else. An `Err` means that memory was refused.
    pub fn append_delta(&self, body: &mut Vec<u8>) -> Result<(), AllocError>
        requires live { IsSome self.now.live }
        ensures delta { (live : LiveState B) → self.now.live ≡ Some live
            → OnOk result (AppendsChanges live body.old.items body.new.items) }
        // A record has room for one.
        ensures short { OnOk result (length body.new.items ≤ length body.old.items + (2 ^ 28 - 2)) }
    {
        let Some(live) = &self.live else {
            unreachable!()
        };
        append_changes(live, body)
    }

    /// One request, with so many ticks. If memory is refused before anything changes, the reply is the refusal
    /// `NoMemory`, and the live state is as it was.
    ///
    /// # Errors
    ///
    /// The live state is lost; that comes only of a request that is not refused and runs code: of a call, or of a load of
    /// a module that has globals. `NoMemory` if memory was refused while the code ran or after that; never `NoStep`.
    pub fn handle(&mut self, request: &Request<'_>, budget: u64) -> Result<HostReply, StepError>
        requires live { IsSome self.old.live }
        ensures handled { (live : LiveState B) → self.old.live ≡ Some live
            → Handled B.HostObject budget (request_seen request.now) live result self.new.live }
        ensures registered { self.new.registered ≡ self.old.registered }
    {
        let Some(live) = self.live.take() else {
            unreachable!()
        };
        let step = step_of(&self.registry, request, budget, live)?;
        self.live = Some(step.live);
        Ok(step.reply)
    }
}
