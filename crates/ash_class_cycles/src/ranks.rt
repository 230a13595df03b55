//! That the ranks of the written classes are ranks of the typed ones too. The function does nothing when it runs.
ghost use Rattle.std.specs.Prelude.{ℕ, List, length};
ghost use Rattle.ash_class_cycles.specs.ClassReferences as written;
ghost use Rattle.ash_class_cycles.specs.Paths as paths;
ghost use Rattle.ash_registrations.specs.Registrations.{Registration};
ghost use Rattle.ash_tree.specs.Tree.{Item};
ghost use Rattle.ash_typed.specs.Modules.{Module};
ghost use Rattle.ash_typed.specs.References.{ClassRefers, AreRanks};
ghost use Rattle.ash_typed.specs.Signatures.{signatures_of};
ghost use Rattle.ash_type_rules.specs.Offered.{offered};
ghost use Rattle.ash_type_rules.specs.TypedModules.{IsTyped};

/// That a class of a typed module refers only to what it refers to as it is written, so that ranks of the written
/// classes are ranks of the typed ones. It does nothing when it runs.
pub fn typed_ranks_fall()
    ensures refers { (registrations : List Registration) (is : List Item) (typed : Module)
        → IsTyped registrations is typed → (from to : ℕ)
        → ClassRefers (signatures_of (offered registrations) typed) from to
        → written.DeclaredClassRefers (written.classes_of is) from to }
    ensures ranks { (registrations : List Registration) (is : List Item) (typed : Module)
        → IsTyped registrations is typed → (ranks : List ℕ)
        → paths.AreRanksAlong (written.DeclaredClassRefers (written.classes_of is))
        (length (written.classes_of is)) ranks
        → AreRanks (signatures_of (offered registrations) typed) ranks }
{}
