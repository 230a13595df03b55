//! The typed tree of a script, and what a source is typed as.

ghost use Rattle.std.specs.Prelude.{◌≡◌, ◌↔◌, ℕ, List, Ok, Err, IfOk, IfErr};
ghost use Rattle.ash_tree.specs.TreeViews.{module_of as items_of};
ghost use Rattle.ash_registry.specs.AcceptedRegistrations.{Registration};
ghost use Rattle.ash_registry.specs.RegistryViews.{registered};
ghost use Rattle.ash_typed.specs.Modules.{Module as Typed, module_of};
ghost use Rattle.ash_typed.specs.SoundModules.{IsSound};
ghost use Rattle.ash_type_rules.specs.Nesting.{ItemsDeclareInBlocks};
ghost use Rattle.ash_type_rules.specs.Offered.{offered};
ghost use Rattle.ash_sources.specs.CheckedSource.{checked_source};
ghost use Rattle.ash_sources.specs.TypedSource.{IsTypedSource, check_items, typed_source};
ghost use Rattle.ash_sources.specs.SourceFaults.{SourceFault as Fault, RefusesSource};

use crate::fault::SourceError;
use ash_check::check;
use ash_registry::Registry;
use ash_tree::Module;
use ash_typed::Module as Tree;
use std::alloc::Global;

/// The typed tree of a script, with these registrations.
///
/// # Errors
///
/// The script breaks a rule of typing, of which the first is reported, or classes of it could form a cycle. Or memory
/// was refused.
pub(crate) fn type_script(
    alloc: Global,
    registry: &Registry,
    script: &Module,
) -> Result<Tree, SourceError>
    requires nested { ItemsDeclareInBlocks (items_of script.now) }
    ensures found { IfOk result (λ tree. check_items (registered registry.now)
        (items_of script.now) ≡ Ok (module_of tree)) }
    ensures refused { IfErr result (RefusesSource (check_items (registered registry.now)
        (items_of script.now))) }
{
    Ok(check(alloc, registry, script)?.into_module())
}

/// A source is typed as the rules say, where no class reaches itself; it has a fault exactly where checking it comes to
/// one, and has that. The typed tree is sound with these registrations.
pub fn typing_has_one_result()
    ensures by_rules { (registrations : List Registration) (source : List ℕ) (typed : Typed) →
        (typed_source registrations source ≡ Ok typed) ↔ IsTypedSource registrations source typed }
    ensures refused { (registrations : List Registration) (source : List ℕ) (fault : Fault) →
        (typed_source registrations source ≡ Err fault)
        ↔ (checked_source registrations source ≡ Err fault) }
    ensures sound { (registrations : List Registration) (source : List ℕ) (typed : Typed) →
        typed_source registrations source ≡ Ok typed → IsSound (offered registrations) typed }
{}
