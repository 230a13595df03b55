//! The laws of ranks and of indexes. A function without a body does nothing: its contract is the law. `F` is the type
//! of the faults of sources.
ghost use Rattle.ash_typed.specs.Modules.{Module};
ghost use Rattle.ash_typed.specs.Signatures.{HostSignatures};
ghost use Rattle.ash_typed.specs.SoundModules.{IsSound};
ghost use Rattle.ash_requests.specs.States.{Embedding};
ghost use Rattle.ash_object_ranks.specs.RankLaws.{ObjectsHaveRanks, WorldsHaveRanks};
ghost use Rattle.ash_object_ranks.specs.RankLaws.{ActivitiesHaveRanks, StatesHaveRanks};
ghost use Rattle.ash_object_ranks.specs.IndexLaws.{ClassesDiffer, InterfacesDiffer};
ghost use Rattle.ash_object_ranks.specs.IndexLaws.{ClassesAreNoInterfaces, AreBelow};

/// Objects of modules whose classes have ranks have ranks that fall along every reference: in a well-formed world, in a
/// well-formed activity, and in a well-formed state between requests.
pub fn objects_have_ranks<F>()
    ensures objects { ObjectsHaveRanks }
    ensures worlds { WorldsHaveRanks }
    ensures activities { ActivitiesHaveRanks }
    ensures states { (embedding : Embedding F) (host : HostSignatures)
        → StatesHaveRanks embedding host }
{}

/// Each class and each interface of a sound module has an index of its own in the source.
pub fn indexes_are_apart()
    ensures classes { (m : Module) → ClassesDiffer m }
    ensures interfaces { (host : HostSignatures) (m : Module) → IsSound host m → InterfacesDiffer m }
    ensures apart { (host : HostSignatures) (m : Module) → IsSound host m
        → ClassesAreNoInterfaces m }
    ensures below { (host : HostSignatures) (m : Module) → IsSound host m → AreBelow m }
{}
