//! Bodies of functions.

ghost use Rattle.std.specs.Prelude.{◌≡◌, map};
ghost use Rattle.ash_tree.specs.TreeViews.{stmt_of};
ghost use Rattle.ash_type_rules.specs.Environment.{with_locals};
ghost use Rattle.ash_type_rules.specs.Returning as returning;
ghost use Rattle.ash_type_rules.specs.StatementRules as definition;
ghost use Rattle.ash_typed.specs.BodyViews.{body_of};
ghost use Rattle.ash_check_names.specs.Agreement.{Agrees};
ghost use Rattle.ash_check_names.specs.EnvironmentViews.{binding_of, environment_of};

use crate::returning::any_returns;
use crate::scopes::Scope;
use crate::statements::check_block;
use ash_check_names::{Binding, CheckResult, Environment};
use ash_tree::Stmt;
use ash_type_rules::Ty;

/// Checks the body of a function that returns this type. Its parameters are `locals`; those of `env` are ignored. That
/// a body may end without a value is no fault of it: `check_routine` of `ash_check` asks `body_returns`, and adds the
/// fault `NoReturn`.
#[tactic(auto, unfolding(ash_type_rules::specs::StatementRules::check_body))]
pub fn check_body<'a>(
    env: &Environment<'_, 'a>,
    mut locals: Vec<Binding<'a>>,
    of: Ty,
    body: &'a [Stmt],
) -> CheckResult<Vec<ash_typed::Stmt>>
    ensures typed { Agrees (λ b. body_of b.items) result
        (definition.check_body
        (with_locals (environment_of env.now) (map binding_of locals.entry.items)) of
        (map stmt_of body.now)) }
{
    let scope = Scope {
        alloc: env.alloc,
        signatures: env.signatures,
        registry: env.registry,
        this: env.this,
        block_start: 0,
        result: of,
        in_loop: false,
        in_switch: false,
    };
    check_block(&scope, &mut locals, body)
}

/// Whether a body returns, however its conditions turn out.
#[tactic(auto, unfolding(ash_type_rules::specs::Returning::returns_in))]
pub fn body_returns(body: &[Stmt]) -> bool
    ensures always_returns { result ≡ returning.returns_in (map stmt_of body.now) }
{
    any_returns(body)
}
