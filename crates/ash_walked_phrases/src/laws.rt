//! The laws. A function without a body does nothing: its contract is the law.
ghost use Rattle.std.specs.Prelude.{ℕ};
ghost use Rattle.ash_typed.specs.TypedTree.{Expr};
ghost use Rattle.ash_meaning.specs.Runs.{Run};
ghost use Rattle.ash_meaning.specs.CallMeaning.{Calls};
ghost use Rattle.ash_meaning.specs.StatementMeaning.{Turn};
ghost use Rattle.ash_walked_phrases.specs.WalkedLaws.{RunsCompose, ExpressionsAreWalked};
ghost use Rattle.ash_walked_phrases.specs.WalkedLaws.{ArgumentsAreWalked, TurnsAreWalked};
ghost use Rattle.ash_walked_phrases.specs.WalkedLaws.{LabelsAreWalked};

/// Runs are put together in either grouping, and a value alone before or after a run changes nothing.
pub fn runs_compose<A, B, C>()
    ensures compose { (first : Run A) (next : A → Run B) (last : B → Run C)
        → RunsCompose first next last }
{}

/// A chain of operators, a path and the operands of a lazy operator, walked from their first expression on, come to
/// what their trees mean.
pub fn expressions_are_walked()
    ensures walked { (calls : Calls) (first : Expr) → ExpressionsAreWalked calls first }
{}

/// Arguments, walked one by one, come to what all of them mean.
pub fn arguments_are_walked()
    ensures walked { (calls : Calls) → ArgumentsAreWalked calls }
{}

/// A loop, walked turn by turn, comes to what it means.
pub fn turns_are_walked()
    ensures walked { (turn : Turn) → TurnsAreWalked turn }
{}

/// The labels that code goes on from are those that the meaning chooses, and are fallen through one by one.
pub fn labels_are_walked()
    ensures walked { (calls : Calls) (depth : ℕ) → LabelsAreWalked calls depth }
{}
