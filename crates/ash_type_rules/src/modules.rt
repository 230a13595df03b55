//! The typing rules of statements and of modules, and the walk that types: there is no fault exactly where a typed tree
//! exists.

ghost use Rattle.std.specs.Prelude.{◌≡◌, ◌↔◌, ℕ, List, Ok, Err, IsOk};
ghost use Rattle.ash_registrations.specs.Registrations.{Registration};
ghost use Rattle.ash_tree.specs.Grammar.{Derives};
ghost use Rattle.ash_tree.specs.GrammarTokens.{Tokens};
ghost use Rattle.ash_tree.specs.Tree as written;
ghost use Rattle.ash_type_rules.specs.declared.fault.Fault.{Fault};
ghost use Rattle.ash_type_rules.specs.FaultMeaning.{IsBrokenAt};
ghost use Rattle.ash_type_rules.specs.FaultPlaces.{IsTokenOf, IsFaultOf};
ghost use Rattle.ash_type_rules.specs.ItemRules.{check_module};
ghost use Rattle.ash_typed.specs.Modules as modules;
ghost use Rattle.ash_typed.specs.StatementTree.{Stmts};
ghost use Rattle.ash_type_rules.specs.StatementRules.{check_stmts};
ghost use Rattle.ash_type_rules.specs.TypedModules.{environment, IsTyped};
ghost use Rattle.ash_type_rules.specs.TypedStatements.{IsKnownScope, AreTypedStmts};
ghost use Rattle.ash_type_rules.specs.Typing.{IsKnown};
ghost use Rattle.ash_type_rules.specs.Scopes.{Scope};

/// That the walk types the statements that have a typed tree by the rules, and no others where all types are known; and
/// then its answer is that tree. It does nothing when it runs.
pub fn typing_of_statements()
    ensures complete { (scope : Scope) (ss : written.Stmts) (ts : Stmts) → AreTypedStmts scope ss ts
        → check_stmts scope ss ≡ Ok ts }
    ensures sound { (scope : Scope) → IsKnownScope scope → (ss : written.Stmts) (ts : Stmts)
        → check_stmts scope ss ≡ Ok ts → AreTypedStmts scope ss ts }
    ensures no_fault { (scope : Scope) → IsKnownScope scope → (ss : written.Stmts)
        → IsOk (check_stmts scope ss) ↔ ((ts : Stmts) × AreTypedStmts scope ss ts) }
    ensures one_tree { (scope : Scope) (ss : written.Stmts) (ts us : Stmts)
        → AreTypedStmts scope ss ts → AreTypedStmts scope ss us → ts ≡ us }
{}

/// That the walk finds no fault of a module exactly where the rules give it a typed tree, whatever is registered; and
/// then its answer is that tree, the only one. All types that such a module names are known. It does nothing when it
/// runs.
pub fn typing_of_modules()
    ensures agrees { (registrations : List Registration) (is : List written.Item)
        (typed : modules.Module)
        → (check_module registrations is ≡ Ok typed) ↔ IsTyped registrations is typed }
    ensures no_fault { (registrations : List Registration) (is : List written.Item)
        → IsOk (check_module registrations is)
        ↔ ((typed : modules.Module) × IsTyped registrations is typed) }
    ensures one_tree { (registrations : List Registration) (is : List written.Item)
        (t u : modules.Module)
        → IsTyped registrations is t → IsTyped registrations is u → t ≡ u }
    ensures known { (registrations : List Registration) (is : List written.Item)
        (typed : modules.Module)
        → IsTyped registrations is typed → IsKnown (environment registrations is) }
{}

/// That the fault of a module is at one of the tokens that derive it, whatever is registered, and at one that means
/// what a fault of its rule may be at. It does nothing when it runs.
pub fn faults_are_at_tokens()
    ensures at_a_token { (registrations : List Registration) (free : ℕ) (tokens : Tokens)
        (is : List written.Item) (fault : Fault)
        → Derives free tokens is → check_module registrations is ≡ Err fault
        → IsTokenOf tokens fault.at }
    ensures at_its_token { (registrations : List Registration) (free : ℕ) (tokens : Tokens)
        (is : List written.Item) (fault : Fault)
        → Derives free tokens is → check_module registrations is ≡ Err fault
        → IsFaultOf tokens fault }
{}

/// That where the fault of a module is reported, its rule is broken: a phrase is there of which what the rule says is
/// true, with what that phrase sees. It does nothing when it runs.
pub fn faults_are_what_they_say()
    ensures broken_there { (registrations : List Registration) (free : ℕ) (tokens : Tokens)
        (is : List written.Item) (fault : Fault)
        → Derives free tokens is → check_module registrations is ≡ Err fault
        → IsBrokenAt registrations is tokens fault }
{}
