//! Which label of a `switch` is gone to.

ghost use denote.Param.Weighed.{most};
ghost use Rattle.std.specs.Prelude.{◌≡◌, ◌≤◌, ℕ, map, is_none};
ghost use Rattle.ash_typed.specs.declared.tree.statements.Case.{size-Case};
ghost use Rattle.ash_typed.specs.StatementTree.{cases};
ghost use Rattle.ash_typed.specs.BodyViews.{case_of};
ghost use Rattle.ash_typed.specs.SoundStatements.{constant_of};
ghost use Rattle.ash_meaning.specs.CallMeaning.{Calls};
ghost use Rattle.ash_meaning.specs.StatementMeaning.{is_constant, chosen, cases as labelled};
ghost use Rattle.ash_walked_phrases.specs.WalkedPhrases.{from_case};

use ash_tree::Label;
use ash_typed::Case;

/// The constant of a label; `default` has none.
fn constant_of(label: Label) -> Option<i128>
    ensures value { result ≡ constant_of label }
{
    match label {
        Label::Case(number) => Some(i128::from(number)),
        Label::CaseMinus(number) => Some(0 - i128::from(number)),
        Label::Default => None,
    }
}

/// Whether this is the constant of a label.
fn is_constant(number: i128, label: Label) -> bool
    ensures value { result ≡ is_constant number (constant_of label) }
{
    match constant_of(label) {
        Some(constant) => number == constant,
        None => false,
    }
}

/// From the first label with this constant on.
fn from_constant(all: &[Case], number: i128) -> &[Case]
    ensures value { result.now ≡ from_case (is_constant number) all.now }
{
    match all {
        [] => all,
        [first, rest @ ..] => {
            if is_constant(number, first.label) {
                all
            } else {
                from_constant(rest, number)
            }
        }
    }
}

/// From the first `default` on.
fn from_default(all: &[Case]) -> &[Case]
    ensures value { result.now ≡ from_case is_none all.now }
{
    match all {
        [] => all,
        [first, rest @ ..] => {
            if constant_of(first.label).is_none() {
                all
            } else {
                from_default(rest)
            }
        }
    }
}

/// From the label with this constant on, or else from `default` on, or else past all.
pub(crate) fn chosen(all: &[Case], number: i128) -> &[Case]
    ensures smaller { most size-Case result.now ≤ most size-Case all.now }
    ensures labels { (calls : Calls) (depth : ℕ)
        → labelled calls depth (cases (map case_of result.now))
        ≡ chosen number (labelled calls depth (cases (map case_of all.now))) }
{
    let found = from_constant(all, number);
    if found.is_empty() {
        from_default(all)
    } else {
        found
    }
}
