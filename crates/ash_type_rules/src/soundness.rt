//! That what the rules of typing type is sound, as the typed tree alone says it.

ghost use Rattle.std.specs.Prelude.{ℕ, Bool, List};
ghost use Rattle.ash_registrations.specs.Registrations.{Registration};
ghost use Rattle.ash_tree.specs.Grammar.{Derives};
ghost use Rattle.ash_tree.specs.GrammarTokens.{Tokens};
ghost use Rattle.ash_tree.specs.Tree as written;
ghost use Rattle.ash_typed.specs.Modules.{Module};
ghost use Rattle.ash_typed.specs.SoundExpressions as expressions;
ghost use Rattle.ash_typed.specs.SoundModules.{IsSound};
ghost use Rattle.ash_typed.specs.SoundStatements as statements;
ghost use Rattle.ash_typed.specs.StatementTree.{Stmts};
ghost use Rattle.ash_type_rules.specs.Environment.{Environment};
ghost use Rattle.ash_type_rules.specs.Nesting.{AllDeclareInBlocks, ItemsDeclareInBlocks};
ghost use Rattle.ash_type_rules.specs.Offered.{offered};
ghost use Rattle.ash_type_rules.specs.Soundness.{seen_in, seen_at};
ghost use Rattle.ash_type_rules.specs.Scopes.{Scope};
ghost use Rattle.ash_type_rules.specs.TypeRules.{value_type};
ghost use Rattle.ash_type_rules.specs.TypedModules.{IsTyped};
ghost use Rattle.ash_type_rules.specs.TypedStatements.{IsKnownScope, AreTypedStmts};
ghost use Rattle.ash_type_rules.specs.Typing.{IsKnown, HasType};
ghost use Rattle.ash_type_rules.specs.Terms.{Term};

/// That what the rules of typing type is sound. It does nothing when it runs.
pub fn typed_is_sound()
    ensures expressions { (env : Environment) → IsKnown env
        → (left : Bool) (e : written.Expr) (t : Term) → HasType env left e t
        → expressions.IsWellTyped (seen_in env) t.tree (value_type t.ty) }
    ensures statements { (scope : Scope) → IsKnownScope scope → (ss : written.Stmts) (ts : Stmts)
        → AllDeclareInBlocks ss → AreTypedStmts scope ss ts
        → statements.AreSoundStmts (seen_at scope) ts }
    ensures modules { (registrations : List Registration) (is : List written.Item) (typed : Module)
        → ItemsDeclareInBlocks is → IsTyped registrations is typed
        → IsSound (offered registrations) typed }
    ensures derived { (registrations : List Registration) (free : ℕ) (tokens : Tokens)
        (is : List written.Item) (typed : Module) → Derives free tokens is
        → IsTyped registrations is typed → IsSound (offered registrations) typed }
{}
