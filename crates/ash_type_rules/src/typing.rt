//! The rules of typing, and the walk that types: there is no fault exactly where a typed tree exists.

ghost use Rattle.std.specs.Prelude.{◌≡◌, ◌↔◌, ◌≢◌, ℕ, List, map, Bool, Option, Ok, IsOk};
ghost use Rattle.ash_tree.specs.Tree as written;
ghost use Rattle.ash_type_rules.specs.declared.types.Ty.{Ty};
ghost use Rattle.ash_type_rules.specs.declared.types.Ty.TheVariants.{Unknown};
ghost use Rattle.ash_type_rules.specs.Environment.{Environment};
ghost use Rattle.ash_type_rules.specs.ExpressionRules.{TypedExpr, check_expr, check_exprs, first_at};
ghost use Rattle.ash_type_rules.specs.ExpressionRules.{placed, all_placed, term_of};
ghost use Rattle.ash_type_rules.specs.Declarations.{Initialization, initialized, check_decl};
ghost use Rattle.ash_typed.specs.TypedTree.{Expr};
ghost use Rattle.ash_typed.specs.TypeOf.{type_of};
ghost use Rattle.ash_typed.specs.declared.types.VarType.{VarType};
ghost use Rattle.ash_type_rules.specs.TypeRules.{var_type, ty_of_var, value_type};
ghost use Rattle.ash_type_rules.specs.Typing.{IsKnown, IsVariableType, HasType, AllHaveType};
ghost use Rattle.ash_type_rules.specs.Typing.{IsTypedBeginning, IsDeclaredType};
ghost use Rattle.ash_type_rules.specs.Typing.{IsReadWherePlace};
ghost use Rattle.ash_type_rules.specs.Terms.{Term};

/// That the walk types what has a type by the rules, and nothing else where all types are known. Its answer is the term
/// of the rules, with the offset of the first token. And that the tree of a term says what an expression of the term's
/// type gives. What can be assigned has the tree of a read. It does nothing when it runs.
pub fn typing_of_expressions()
    ensures complete { (env : Environment) (left : Bool) (e : written.Expr) (t : Term)
        → HasType env left e t → check_expr env left e ≡ Ok (placed (first_at e) t) }
    ensures sound { (env : Environment) → IsKnown env → (left : Bool) (e : written.Expr)
        (t : TypedExpr) → check_expr env left e ≡ Ok t → HasType env left e (term_of t) }
    ensures no_fault { (env : Environment) → IsKnown env → (left : Bool) (e : written.Expr)
        → IsOk (check_expr env left e) ↔ ((t : Term) × HasType env left e t) }
    ensures one_term { (env : Environment) (left : Bool) (e : written.Expr) (t u : Term)
        → HasType env left e t → HasType env left e u → t ≡ u }
    ensures known { (env : Environment) → IsKnown env → (left : Bool) (e : written.Expr) (t : Term)
        → HasType env left e t → t.ty ≢ Unknown }
    ensures typed { (env : Environment) → IsKnown env → (left : Bool) (e : written.Expr) (t : Term)
        → HasType env left e t → type_of t.tree ≡ value_type t.ty }
    ensures place { (env : Environment) (left : Bool) (e : written.Expr) (t : Term)
        → HasType env left e t → IsReadWherePlace t.form t.tree }
{}

/// The same of arguments. It does nothing when it runs.
pub fn typing_of_arguments()
    ensures complete { (env : Environment) (es : written.Exprs) (ts : List Term)
        → AllHaveType env es ts → check_exprs env es ≡ Ok (all_placed es ts) }
    ensures sound { (env : Environment) → IsKnown env → (es : written.Exprs) (ts : List TypedExpr)
        → check_exprs env es ≡ Ok ts → AllHaveType env es (map term_of ts) }
    ensures no_fault { (env : Environment) → IsKnown env → (es : written.Exprs)
        → IsOk (check_exprs env es) ↔ ((ts : List Term) × AllHaveType env es ts) }
{}

/// The same of variables and of what they begin with, whatever the offsets of the type and of the name. It does nothing
/// when it runs.
pub fn typing_of_variables()
    ensures begins_complete { (env : Environment) (of_at at : ℕ) (of : Ty) (i : written.Initializer)
        (value : Option Expr) → IsTypedBeginning env of i value
        → initialized env of_at at of i ≡ Ok value }
    ensures begins_sound { (env : Environment) → IsKnown env
        → (of_at at : ℕ) (of : Ty) (i : written.Initializer) (value : Option Expr)
        → initialized env of_at at of i ≡ Ok value → IsTypedBeginning env of i value }
    ensures complete { (env : Environment) (at : ℕ) (of : Ty) (d : written.Decl)
        (i : Initialization) → IsDeclaredType env of d i → check_decl env at of d ≡ Ok i }
    ensures sound { (env : Environment) → IsKnown env
        → (at : ℕ) (of : Ty) (d : written.Decl) (i : Initialization) → check_decl env at of d ≡ Ok i
        → IsDeclaredType env of d i }
    ensures no_fault { (env : Environment) → IsKnown env → (at : ℕ) (of : Ty) (d : written.Decl)
        → IsOk (check_decl env at of d) ↔ ((i : Initialization) × IsDeclaredType env of d i) }
{}

/// That each type of variables is one of a typed tree, and each of a typed tree one of variables. It does nothing when
/// it runs.
pub fn types_of_variables()
    ensures written { (of : Ty) → IsVariableType of → ty_of_var (var_type of) ≡ of }
    ensures read { (of : VarType) → var_type (ty_of_var of) ≡ of }
{}
