//! The script that a source spells, if it is typed.

ghost use Rattle.std.specs.Prelude.{◌≡◌, ◌↔◌, ℕ, List, Ok, IsOk, IfOk, IfErr, OnOk, MatchResult};
ghost use Rattle.std.specs.List.{AllByRecursion};
ghost use Rattle.ash_tree.specs.TreeViews.{module_of as items_of};
ghost use Rattle.ash_tree.specs.Tree.{Item};
ghost use Rattle.ash_registry.specs.AcceptedRegistrations.{Registration};
ghost use Rattle.ash_registry.specs.RegistryViews.{registered};
ghost use Rattle.ash_typed.specs.Modules.{Module as Typed};
ghost use Rattle.ash_type_rules.specs.Nesting.{ItemsDeclareInBlocks};
ghost use Rattle.ash_type_rules.specs.TypedModules.{IsFree, IsTyped};
ghost use Rattle.ash_tree.specs.Items.{item_names};
ghost use Rattle.ash_check.specs.ScriptFaults.{Cyclic};
ghost use Rattle.ash_sources.specs.CheckedSource.{SourceResult, Checks, IsAccepted};
ghost use Rattle.ash_sources.specs.CheckedSource.{HasCycle, ReportsCycle};
ghost use Rattle.ash_sources.specs.CheckedSource.{items_checked, checked_source};
ghost use Rattle.ash_sources.specs.SourceFaults.{Checked, RefusesSource, IfFault};
ghost use Rattle.ash_sources.specs.declared.fault.SourceError.TheVariants.{NoMemory};

use crate::fault::SourceError;
use crate::parsing::script_of;
use ash_check::check;
use ash_registry::Registry;
use ash_tree::Module;
use std::alloc::Global;

/// The script, if it is typed.
fn check_module(alloc: Global, registry: &Registry, script: Module) -> Result<Module, SourceError>
    requires nested { ItemsDeclareInBlocks (items_of script) }
    ensures found { IfOk result (λ found. items_checked (registered registry.now) (items_of script)
        ≡ Ok (items_of found)) }
    ensures refused { IfErr result (RefusesSource (items_checked (registered registry.now)
        (items_of script))) }
{
    check(alloc, registry, &script)?;
    Ok(script)
}

/// The script that a source spells, with these registrations.
///
/// # Errors
///
/// A source is refused for the first of these that holds: it has more than 65,536 bytes, it is no UTF-8, it has a
/// lexical fault, its tokens are no script or are nested too deep, the script breaks a rule of typing, classes of it
/// could form a cycle. Or memory was refused.
pub(crate) fn checked_module(
    alloc: Global,
    registry: &Registry,
    source: &[u8],
) -> Result<Module, SourceError>
    ensures found { IfOk result (λ script. checked_source (registered registry.now) source.now
        ≡ Ok (items_of script)) }
    ensures refused { IfErr result (RefusesSource (checked_source (registered registry.now)
        source.now)) }
{
    let script = script_of(alloc, source)?;
    check_module(alloc, registry, script)
}

/// Checks a source as `load` does, with these registrations, and runs nothing. It is `Ok` where nothing is
/// reported.
///
/// # Errors
///
/// The first of these that holds: `SourceTooLong`; `BadCharacter`, where it is no UTF-8; `BadCharacter`,
/// `UnclosedComment` or `NumberTooLarge`, the first in the source; `Unexpected`, `Unsupported` or `TooDeep`, the first
/// in the source; a rule of typing that is broken, the first in the order in which the script is walked; `CyclicType`.
/// Or `NoMemory`, which a source that is too long never is.
pub fn check_source(alloc: Global, registry: &Registry, source: &[u8]) -> Result<(), SourceError>
    // What is accepted by the rules, and nothing else; only memory may be in the way.
    ensures accepted { OnOk result (IsAccepted (registered registry.now) source.now) }
    ensures only { IsAccepted (registered registry.now) source.now →
        IfErr result (λ error. error ≡ NoMemory) }
    // A cycle is answered where the rules give a typed module and some class reaches itself, and nowhere else.
    ensures cycle { IfErr result (IfFault (λ fault. (names : List (List ℕ))
        → fault ≡ Checked (Cyclic names) →
        ReportsCycle (registered registry.now) source.now fault)) }
    ensures cyclic { HasCycle (registered registry.now) source.now
        → MatchResult result (λ _. ⊥)
        (IfFault (ReportsCycle (registered registry.now) source.now)) }
    // All of it as one function of the source, with the first fault.
    ensures found { OnOk result (IsOk (checked_source (registered registry.now) source.now)) }
    ensures refused { IfErr result (RefusesSource (checked_source (registered registry.now)
        source.now)) }
{
    checked_module(alloc, registry, source)?;
    Ok(())
}

/// Checking a source comes to one script that is typed, or to one fault.
pub fn checking_has_one_result()
    ensures exact { (registered : List Registration) (source : List ℕ) (outcome : SourceResult) →
        (checked_source registered source ≡ outcome) ↔ Checks registered source outcome }
{}

/// No script that is typed declares a registered name: those and the names of a module are one space.
pub fn registered_names_are_taken()
    ensures free { (registered : List Registration) (items : List Item) (typed : Typed) →
        IsTyped registered items typed → AllByRecursion (IsFree registered) (item_names items) }
{}
