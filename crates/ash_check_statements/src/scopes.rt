//! The scope of a statement: its block, the loop or `switch` that it is in, and the function around it.

ghost use Rattle.std.specs.Prelude.{◌≡◌, drop, map, IfOk};
ghost use Rattle.std.specs.List.{list_any};
ghost use Rattle.ash_tree.specs.TreeViews.{decl_of};
ghost use Rattle.ash_type_rules.specs.Environment.{declares};
ghost use Rattle.ash_type_rules.specs.ModuleDeclarations.{declared};
ghost use Rattle.ash_type_rules.specs.Scopes as scopes;
ghost use Rattle.ash_type_rules.specs.StatementRules as definition;
ghost use Rattle.ash_check_names.specs.Agreement.{Agrees};
ghost use Rattle.ash_check_names.specs.EnvironmentViews.{binding_of, environment_of};
ghost use Rattle.ash_check_statements.specs.StatementViews.{scope_of};

use ash_check_names::{Binding, CheckResult, Environment, Signatures, fault_at};
use ash_registrations::Registrations;
use ash_tree::Decl;
use ash_type_rules::{Rule, Ty};
use std::alloc::Global;

/// What a statement can refer to, beside the locals.
#[derive(Clone, Copy)]
pub(crate) struct Scope<'a, 'n> {
    pub(crate) alloc: Global,
    pub(crate) signatures: &'a Signatures<'n>,
    pub(crate) registry: &'a Registrations,
    /// The class whose object runs.
    pub(crate) this: Option<usize>,
    /// How many locals are before those of the block.
    pub(crate) block_start: usize,
    /// The type that the function returns.
    pub(crate) result: Ty,
    pub(crate) in_loop: bool,
    pub(crate) in_switch: bool,
}

/// The locals of a block: those from the first on.
fn locals_of_block<'b, 'n>(locals: &'b [Binding<'n>], first: usize) -> &'b [Binding<'n>]
    ensures value { result.now ≡ drop first locals.now }
{
    if first <= locals.len() {
        &locals[first..]
    } else {
        &[]
    }
}

/// Whether one of these variables has this name.
pub fn any_declares(all: &[Binding], name: &str) -> bool
    ensures name_declared { result ≡ list_any (declares name.now) (map binding_of all.now) }
{
    for declared in all {
        if name == declared.name {
            return true;
        }
    }
    false
}

impl<'a, 'n> Scope<'a, 'n> {
    /// The environment of an expression.
    pub(crate) fn environment(&self, locals: &'a [Binding<'n>]) -> Environment<'a, 'n>
        ensures value { environment_of result
            ≡ (scope_of self.now (map binding_of locals.now)).env }
    {
        Environment {
            alloc: self.alloc,
            signatures: self.signatures,
            registry: self.registry,
            this: self.this,
            locals,
        }
    }

    fn is_taken(&self, locals: &[Binding], name: &str) -> bool
        ensures value { result
            ≡ scopes.is_taken (scope_of self.now (map binding_of locals.now)) name.now }
    {
        any_declares(locals_of_block(locals, self.block_start), name)
    }

    /// A new local, whose name has to be free in its block.
    #[tactic(auto, unfolding(ash_type_rules::specs::StatementRules::fresh))]
    pub(crate) fn new_local(
        &self,
        locals: &[Binding],
        of: Ty,
        decl: &'n Decl,
    ) -> CheckResult<Binding<'n>>
        ensures typed { Agrees binding_of result
            (definition.fresh (scope_of self.now (map binding_of locals.now)) of
            (decl_of decl.now)) }
        ensures named { IfOk result (λ local. binding_of local ≡ declared of (decl_of decl.now)) }
    {
        let name = decl.name.as_str();
        if self.is_taken(locals, name) {
            return Err(fault_at(Rule::NameTaken, decl.place.at));
        }
        Ok(Binding { name, of })
    }
}
