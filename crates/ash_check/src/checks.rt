//! The check of a script: its typed module with a rank for each class, or why it is refused.

ghost use Rattle.std.specs.Prelude.{◌≡◌, ◌↔◌, ◌<◌, ◌∷◌, ℕ, List, Ok, Err, length, map, string_bytes};
ghost use Rattle.std.specs.Prelude.{All, IfOk};
ghost use Rattle.std.specs.Prelude.{IfErr, OnOk, MatchResult};
ghost use Rattle.ash_registrations.specs.Registrations.{Registration};
ghost use Rattle.ash_registrations.specs.Registered as table;
ghost use Rattle.ash_registry.specs.RegistryViews.{registered};
ghost use Rattle.ash_tree.specs.Tree.{Item};
ghost use Rattle.ash_tree.specs.TreeViews.{module_of as written_module};
ghost use Rattle.ash_typed.specs.Modules as modules;
ghost use Rattle.ash_typed.specs.Modules.{module_of};
ghost use Rattle.ash_type_rules.specs.declared.fault.Fault.{Fault};
ghost use Rattle.ash_type_rules.specs.ItemRules as definition;
ghost use Rattle.ash_type_rules.specs.Nesting.{ItemsDeclareInBlocks};
ghost use Rattle.ash_type_rules.specs.TypedModules.{IsTyped};
ghost use Rattle.ash_class_cycles.specs.ClassReferences.{DeclaredClassRefers, classes_of, borrowed_classes};
ghost use Rattle.ash_class_cycles.specs.Paths.{IsReportedCycle, Reaches, AreRanksAlong};
ghost use Rattle.ash_check.specs.CheckedModules.{IsChecked};
ghost use Rattle.ash_check.specs.ScriptFaults.{Broken, Cyclic};
ghost use Rattle.ash_check.specs.Checks.{checked, ReportsFault};
ghost use Rattle.ash_check.specs.Checks.{name_at, names_of_cycle, IsNamedCycleIfCyclic};

use crate::checked::CheckedScript;
use crate::faults::{ClassNames, ScriptError, ScriptFault};
use crate::items::check_module;
use ash_class_cycles::{Cycle, class_ranks, classes};
use ash_registrations::Registrations;
use ash_registry::Registry;
use ash_tree::Class;
use std::alloc::{AllocError, Global};
use std::snapshot::Snapshot;

// The names of the classes at these places.
fn class_names_at(
    alloc: Global,
    classes: &[&Class],
    places: &[usize],
) -> Result<Vec<String>, AllocError>
    requires within { All (λ place. place < length classes.now) places.now }
    ensures value { IfOk result
        (λ names. map string_bytes names.items
        ≡ map (name_at (borrowed_classes classes.now)) places.now) }
{
    let mut names = Vec::new(alloc);
    for place in places {
        names.push(classes[*place].name.clone()?)?;
    }
    Ok(names)
}

// The places of the classes on a cycle, from the first on.
fn places_on(alloc: Global, cycle: &Cycle) -> Result<Vec<usize>, AllocError>
    ensures value { IfOk result
        (λ places. places.items ≡ cycle.now.first ∷ cycle.now.others.items) }
{
    let mut places = Vec::new(alloc);
    places.push(cycle.first)?;
    places.extend_from_slice(&cycle.others)?;
    Ok(places)
}

// The names of the classes on a cycle.
fn cycle_names(
    alloc: Global,
    script: &ash_tree::Module,
    cycle: &Cycle,
) -> Result<ClassNames, AllocError>
    requires first { cycle.now.first < length (classes_of (written_module script.now)) }
    requires others { All (λ place. place < length (classes_of (written_module script.now)))
        cycle.now.others.items }
    ensures value { IfOk result
        (λ names. map string_bytes names.0.items
        ≡ names_of_cycle (classes_of (written_module script.now))
        (cycle.now.first, cycle.now.others.items)) }
{
    let places = places_on(alloc, cycle)?;
    let classes = classes(alloc, &script.items)?;
    Ok(ClassNames(class_names_at(alloc, &classes, &places)?))
}

/// Checks a script against what is registered.
fn check_against(
    alloc: Global,
    registry: &Registrations,
    script: &ash_tree::Module,
) -> Result<CheckedScript, ScriptError>
    requires nested { ItemsDeclareInBlocks (written_module script.now) }
    ensures answer { MatchResult result
        (λ done. checked (table.registered registry.now) (written_module script.now)
        ≡ Ok (module_of done.typed))
        (ReportsFault (checked (table.registered registry.now) (written_module script.now))) }
    ensures typed { IfOk result (λ done.
        IsTyped (table.registered registry.now) (written_module script.now)
        (module_of done.typed)) }
    ensures ranks { IfOk result (λ done.
        AreRanksAlong (DeclaredClassRefers (classes_of (written_module script.now)))
        (length (classes_of (written_module script.now))) done.ranks) }
    ensures registered { IfOk result (λ done. done.registered ≡ table.registered registry.now) }
    ensures sound { IfOk result
        (λ done. IsChecked (table.registered registry.now) (module_of done.typed) done.ranks) }
    ensures acyclic { OnOk result ((class : ℕ) →
        Reaches (DeclaredClassRefers (classes_of (written_module script.now))) class class → ⊥) }
    ensures cycle { IfErr result
        (IsNamedCycleIfCyclic (classes_of (written_module script.now))) }
{
    let module = check_module(alloc, registry, script)?;
    match class_ranks(alloc, script)? {
        Ok(ranks) => Ok(CheckedScript {
            module,
            ranks,
            registrations: Snapshot::of(registry),
        }),
        Err(cycle) => {
            let names = cycle_names(alloc, script, &cycle)?;
            Err(ScriptError::Fault(ScriptFault::Cyclic(names)))
        }
    }
}

/// Checks a script by itself and against what is registered: names, types, where phrases may be, limits, and that
/// none of its classes could form a cycle. Its declarations must be in blocks or in the heads of loops, as in every
/// script that the grammar derives.
///
/// # Errors
///
/// The first fault in the order of the text: of an item its types and names, then its body; of a phrase its parts, then
/// the phrase. Its offset is that of a byte of the source. `ScriptFault::Cyclic` comes after all others. Or memory was
/// refused, which says nothing of the script.
pub fn check(
    alloc: Global,
    registry: &Registry,
    script: &ash_tree::Module,
) -> Result<CheckedScript, ScriptError>
    requires nested { ItemsDeclareInBlocks (written_module script.now) }
    ensures answer { MatchResult result
        (λ done. checked (registered registry.now) (written_module script.now)
        ≡ Ok (module_of done.typed))
        (ReportsFault (checked (registered registry.now) (written_module script.now))) }
    ensures typed { IfOk result (λ done.
        IsTyped (registered registry.now) (written_module script.now) (module_of done.typed)) }
    ensures ranks { IfOk result (λ done.
        AreRanksAlong (DeclaredClassRefers (classes_of (written_module script.now)))
        (length (classes_of (written_module script.now))) done.ranks) }
    ensures registered { IfOk result (λ done. done.registered ≡ registered registry.now) }
    ensures sound { IfOk result
        (λ done. IsChecked (registered registry.now) (module_of done.typed) done.ranks) }
    ensures acyclic { OnOk result ((class : ℕ) →
        Reaches (DeclaredClassRefers (classes_of (written_module script.now))) class class → ⊥) }
    ensures cycle { IfErr result
        (IsNamedCycleIfCyclic (classes_of (written_module script.now))) }
{
    check_against(alloc, registry.registrations(), script)
}

/// That the check accepts a script, with this typed module, exactly where the rules give it this module and no class
/// reaches itself. And that it returns a cycle exactly where the rules give it a module and some class reaches itself:
/// the cycle from the first class that does, by the first of its shortest paths back. Else it returns the first fault
/// of the walk. It does nothing when it runs.
pub fn check_is_exact()
    ensures accepted { (registrations : List Registration) (items : List Item)
        (typed : modules.Module) →
        (checked registrations items ≡ Ok typed) ↔ (IsTyped registrations items typed ×
        ((class : ℕ) → Reaches (DeclaredClassRefers (classes_of items)) class class → ⊥)) }
    ensures cyclic { (registrations : List Registration) (items : List Item) →
        ((names : List (List ℕ)) × (checked registrations items ≡ Err (Cyclic names))) ↔
        ((typed : modules.Module) × (class : ℕ) × IsTyped registrations items typed ×
        Reaches (DeclaredClassRefers (classes_of items)) class class) }
    ensures names { (registrations : List Registration) (items : List Item)
        (names : List (List ℕ)) →
        (checked registrations items ≡ Err (Cyclic names)) ↔
        ((typed : modules.Module) × (first : ℕ) × (others : List ℕ) ×
        IsTyped registrations items typed ×
        IsReportedCycle (DeclaredClassRefers (classes_of items)) first others ×
        (names ≡ names_of_cycle (classes_of items) (first, others))) }
    ensures broken { (registrations : List Registration) (items : List Item) (fault : Fault) →
        (checked registrations items ≡ Err (Broken fault))
        ↔ (definition.check_module registrations items ≡ Err fault) }
{}
