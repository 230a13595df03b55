//! How the sources of modules are read: to the typed tree of each, by what is registered.

ghost use Rattle.std.specs.Prelude.{◌≡◌, List, Ok, IfOk, IfErr};
ghost use Rattle.ash_registry.specs.AcceptedRegistrations.{Registration as Registered};
ghost use Rattle.ash_registry.specs.RegistryViews.{registered};
ghost use Rattle.ash_typed.specs.Modules.{module_of};
ghost use Rattle.ash_typed.specs.SoundModules.{IsSound};
ghost use Rattle.ash_type_rules.specs.Environment.{name_of_kind};
ghost use Rattle.ash_type_rules.specs.Offered.{offered};
ghost use Rattle.ash_requests.specs.Premises.{ReadsSound};
ghost use Rattle.ash_sources.specs.SourceFaults.{SourceFault as Fault, RefusesSource, fault_of};
ghost use Rattle.ash_sources.specs.SourceFaults.{MayTakeMemory};
ghost use Rattle.ash_sources.specs.TypedSource.{typed_source};
ghost use Rattle.ash_sources.specs.Sources.{registered_for, embedding_of};

use crate::fault::{SourceError, SourceFault};
use crate::parsing::script_of;
use crate::typing::type_script;
use ash_registry::{Registration, Registry};
use ash_requests::sources::SourceReader;
use ash_typed::Module as Tree;
use std::alloc::{AllocError, Global};

/// How the sources of modules are read.
#[derive(Clone, Copy)]
pub struct Sources<'a> {
    pub registry: &'a Registry,
}

impl Sources<'_> {
    /// The typed tree of a source.
    ///
    /// # Errors
    ///
    /// A source is refused for the fault that checking it comes to. Or memory was refused, which a source that is too
    /// long never is.
    pub fn read_tree(&self, alloc: Global, source: &[u8]) -> Result<Tree, SourceError>
        ensures found { IfOk result (λ tree. typed_source (registered_for self.now) source.now
            ≡ Ok (module_of tree)) }
        ensures sound { IfOk result (λ tree. IsSound (offered (registered_for self.now))
            (module_of tree)) }
        ensures refused { IfErr result
            (RefusesSource (typed_source (registered_for self.now) source.now)) }
    {
        let script = script_of(alloc, source)?;
        type_script(alloc, self.registry, &script)
    }

    /// The name of the registered type of a kind. A kind that no type has has none.
    #[tactic(auto, unfolding(ash_type_rules::specs::Environment::name_of_kind))]
    pub fn type_name(&self, kind: u16) -> &str
        ensures named { result.now ≡ name_of_kind (registered self.now.registry.now) kind }
    {
        match self.registry.registrations().of_kind(kind) {
            Some(Registration::Type { name, .. }) => name.as_str(),
            _ => "",
        }
    }
}

impl SourceReader for Sources<'_> {
    type Fault = SourceFault;

    ghost FaultSeen = { Fault };

    ghost fault_seen = { fault_of };

    ghost embedding = { λ s. embedding_of (registered_for s) };

    ghost TakesMemory = { MayTakeMemory };

    #[tactic(auto, using(crate::proofs::SourceLaws::memory_refused))]
    fn read(&self, alloc: Global, source: &[u8]) -> Result<Result<Tree, SourceFault>, AllocError> {
        match self.read_tree(alloc, source) {
            Ok(tree) => Ok(Ok(tree)),
            Err(SourceError::Fault(fault)) => Ok(Err(fault)),
            Err(SourceError::NoMemory) => Err(AllocError),
        }
    }

    fn name_of_kind(&self, alloc: Global, kind: u16) -> Result<String, AllocError> {
        String::from_str(alloc, self.type_name(kind))
    }
}

/// Each source that is read has a tree that is sound with what is registered.
pub fn sources_are_read_sound()
    ensures sound { (registrations : List Registered)
        → ReadsSound (offered registrations) (embedding_of registrations) }
{}
