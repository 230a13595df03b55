//! What the embedding program has registered, as far as requests see it.

ghost use Rattle.std.specs.Prelude.{◌≡◌, IfOk, OnErr, string_bytes};
ghost use Rattle.ash_requests.specs.States.{Embedding};
ghost use Rattle.ash_requests.specs.SourceViews.{read_seen, TakesMemoryToRead};

use ash_typed::Module;
use std::alloc::{AllocError, Global};

/// How sources are read, and what kinds are called.
pub trait SourceReader {
    /// Why a source has no typed tree.
    type Fault: Drop;

    /// What faults are to the definitions.
    ghost FaultSeen: { Type 0 };

    /// What a fault represents.
    ghost fault_seen: { Self.Fault → FaultSeen };

    /// The faults that take memory to find.
    ghost TakesMemory: { FaultSeen → Type 0 };

    /// What is registered.
    ghost embedding: { Self → Embedding FaultSeen };

    /// The typed tree of a source, or the first fault for which it has none. An `Err` means that memory was refused,
    /// which comes of no source whose fault takes no memory to find.
    fn read(&self, alloc: Global, source: &[u8]) -> Result<Result<Module, Self::Fault>, AllocError>
        ensures read { IfOk result (λ found. read_seen fault_seen found
            ≡ (embedding self.now).read source.now) }
        ensures memory { OnErr result
            (TakesMemoryToRead TakesMemory ((embedding self.now).read source.now)) };

    /// The name of the type of a kind. An `Err` means that memory was refused.
    fn name_of_kind(&self, alloc: Global, kind: u16) -> Result<String, AllocError>
        ensures named { IfOk result (λ name. string_bytes name
            ≡ (embedding self.now).name_of_kind kind) };
}
