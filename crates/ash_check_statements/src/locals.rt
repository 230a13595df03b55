//! Variables of a block.

ghost use Rattle.std.specs.Prelude.{◌≡◌, ◌++◌, map, IfOk};
ghost use Rattle.ash_tree.specs.TreeViews.{decl_of, vars_of};
ghost use Rattle.ash_type_rules.specs.ModuleDeclarations.{declared};
ghost use Rattle.ash_type_rules.specs.Scopes as scopes;
ghost use Rattle.ash_type_rules.specs.StatementRules as definition;
ghost use Rattle.ash_check_names.specs.Agreement.{Agrees};
ghost use Rattle.ash_check_statements.specs.StatementViews.{locals_of, scope_of, values_of};

use crate::declarations::{WrittenType, check_decl, check_variable_type, place_of, ty_in};
use crate::scopes::Scope;
use ash_check_names::{Binding, CheckResult};
use ash_tree::{Decl, Vars};
use ash_typed::Initialization;

/// Checks variables of this type. Each can be referred to from the end of its own on.
fn check_local_decls<'n>(
    scope: &Scope<'_, 'n>,
    locals: &mut Vec<Binding<'n>>,
    written: WrittenType,
    decls: &'n [Decl],
) -> CheckResult<Vec<Initialization>>
    ensures typed { Agrees values_of result
        (definition.check_decls (scope_of scope.now (locals_of locals.old)) written.at written.of
        (map decl_of decls.now)) }
    ensures locals { IfOk result
        (λ _. locals_of locals.new ≡ locals_of locals.old
        ++ map (declared written.of) (map decl_of decls.now)) }
{
    let mut values = Vec::with_capacity(scope.alloc, decls.len())?;
    for decl in decls {
        let local = (&*scope).new_local(locals, written.of, decl)?;
        let env = (&*scope).environment(locals);
        let value = check_decl(&env, written, decl)?;
        locals.push(local)?;
        values.push(value)?;
    }
    Ok(values)
}

/// Checks variables of one type.
#[tactic(auto, unfolding(ash_type_rules::specs::StatementRules::check_vars))]
pub(crate) fn check_local_vars<'n>(
    scope: &Scope<'_, 'n>,
    locals: &mut Vec<Binding<'n>>,
    vars: &'n Vars,
) -> CheckResult<Vec<Initialization>>
    ensures typed { Agrees values_of result
        (definition.check_vars (scope_of scope.now (locals_of locals.old)) (vars_of vars.now)) }
    ensures locals { IfOk result
        (λ _. locals_of locals.new ≡ locals_of locals.old
        ++ scopes.declared_in (scope_of scope.now (locals_of locals.old)) (vars_of vars.now)) }
{
    let place = place_of(&vars.of);
    let env = (&*scope).environment(locals);
    let of = check_variable_type(&vars.of, ty_in(&env, &vars.of))?;
    let written = WrittenType { at: place.at, of };
    check_local_decls(scope, locals, written, &vars.decls)
}
