//! Ranks of the classes of a module, each greater than those of the classes that it refers to; or a cycle of them.

ghost use Rattle.std.specs.Prelude.{◌≡◌, ◌↔◌, ℕ, List, Some, None, length, IfOk, IfErr, OnOk};
ghost use Rattle.ash_tree.specs.Tree.{Class};
ghost use Rattle.ash_tree.specs.TreeViews.{module_of};
ghost use Rattle.ash_class_cycles.specs.Paths.{IsReportedCycle, Reaches, AreRanksAlong};
ghost use Rattle.ash_class_cycles.specs.ClassReferences.{DeclaredClassRefers, classes_of};
ghost use Rattle.ash_class_cycles.specs.ReportedCycle.{reported_cycle};

use crate::cycles::{Cycle, ranks};
use crate::references::{classes, referrers};
use ash_tree::Module;
use std::alloc::{AllocError, Global};

/// A rank for each class of a module, by its place among them; where a class reaches itself, the cycle that is
/// reported.
///
/// Handles let objects hold one another, and nothing would take objects back that do so in a cycle. So a class that
/// reaches itself by what its fields hold is refused. (AngelScript collects such objects instead.)
pub fn class_ranks(alloc: Global, script: &Module) -> Result<Result<Vec<usize>, Cycle>, AllocError>
    ensures ranks { IfOk result (λ answer. IfOk answer (λ ranks.
        AreRanksAlong (DeclaredClassRefers (classes_of (module_of script.now)))
        (length (classes_of (module_of script.now))) ranks.items)) }
    ensures acyclic { IfOk result (λ answer.
        OnOk answer ((class : ℕ)
        → Reaches (DeclaredClassRefers (classes_of (module_of script.now))) class class → ⊥)) }
    ensures cycle { IfOk result (λ answer. IfErr answer (λ cycle.
        IsReportedCycle (DeclaredClassRefers (classes_of (module_of script.now)))
        cycle.first cycle.others.items)) }
    ensures only { IfOk result (λ answer. IfErr answer (λ cycle. (first : ℕ) (others : List ℕ)
        → IsReportedCycle (DeclaredClassRefers (classes_of (module_of script.now))) first others
        → (first ≡ cycle.first) × (others ≡ cycle.others.items))) }
    ensures reported { IfOk result (λ answer. IfErr answer (λ cycle.
        reported_cycle (classes_of (module_of script.now))
        ≡ Some (cycle.first, cycle.others.items))) }
    ensures none { IfOk result (λ answer.
        OnOk answer (reported_cycle (classes_of (module_of script.now)) ≡ None)) }
{
    let classes = classes(alloc, &script.items)?;
    let referrers = referrers(alloc, &classes)?;
    ranks(alloc, &referrers)
}

/// The search for a cycle finds the one that is reported, and none exactly where no class reaches itself.
pub fn search_is_exact()
    ensures reported { (classes : List Class) (first : ℕ) (others : List ℕ)
        → (reported_cycle classes ≡ Some (first, others))
        ↔ IsReportedCycle (DeclaredClassRefers classes) first others }
    ensures none { (classes : List Class)
        → (reported_cycle classes ≡ None)
        ↔ ((class : ℕ) → Reaches (DeclaredClassRefers classes) class class → ⊥) }
{}
