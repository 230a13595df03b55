//! What sound typed trees say.

ghost use Rattle.std.specs.Prelude.{◌≡◌};
ghost use Rattle.ash_typed.specs.declared.types.VarType.{VarType};
ghost use Rattle.ash_typed.specs.TypedTree.{Expr, Place};
ghost use Rattle.ash_typed.specs.TypeOf.{ValueType, type_of, type_of_place};
ghost use Rattle.ash_typed.specs.SoundExpressions.{TypedEnvironment, IsWellTyped, HasPlace};

/// That a sound expression gives what its tree says, and nothing else, and that a sound place has the type that its
/// tree says. It does nothing when it runs.
pub fn types_of_expressions()
    ensures typed { (env : TypedEnvironment) (e : Expr) (of : ValueType) → IsWellTyped env e of
        → type_of e ≡ of }
    ensures one_type { (env : TypedEnvironment) (e : Expr) (one other : ValueType)
        → IsWellTyped env e one → IsWellTyped env e other → one ≡ other }
    ensures place { (env : TypedEnvironment) (place : Place) (of : VarType) → HasPlace env place of
        → type_of_place place ≡ of }
{}
