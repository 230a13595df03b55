//! Labels of a `switch`.

ghost use Rattle.std.specs.Prelude.{◌≡◌, ◌<◌, ◌+◌, length, map, drop, IsErrOf};
ghost use Rattle.std.specs.List.{list_any};
ghost use Rattle.ash_tree.specs.Tree.{cases};
ghost use Rattle.ash_tree.specs.TreeViews.{case_of};
ghost use Rattle.ash_type_rules.specs.Labels as constants;
ghost use Rattle.ash_type_rules.specs.Switches as definition;
ghost use Rattle.ash_check_names.specs.declared.error.CheckError.TheVariants.{NoMemory};
ghost use Rattle.ash_check_names.specs.Agreement.{Agrees};

use ash_check_names::{CheckResult, fault_at, holds};
use ash_tree::{Case, Label};
use ash_type_rules::{Rule, Ty};
use ash_typed::IntType;

/// The integer type of the value, where it has one.
pub(crate) fn integer_type_in(of: Ty) -> Option<IntType>
    ensures value { result ≡ definition.integer_type_in of }
{
    match of {
        Ty::Integer(int_type) => Some(int_type),
        _ => None,
    }
}

/// Whether a type holds what is this much below zero.
fn holds_minus(int_type: IntType, number: u64) -> bool
    ensures value { result ≡ constants.holds_minus int_type number }
{
    match int_type {
        IntType::Int => number <= 1 << 31,
        IntType::Int64 => number <= 1 << 63,
        IntType::Uint | IntType::Uint64 => number == 0,
    }
}

/// Whether a type holds the constant of a label. No range is known without an integer type.
#[tactic(auto, unfolding(ash_type_rules::specs::Switches::is_within))]
fn is_within(int_type: Option<IntType>, label: Label) -> bool
    ensures value { result ≡ definition.is_within int_type label }
{
    match (int_type, label) {
        (Some(int_type), Label::Case(number)) => holds(int_type, number),
        (Some(int_type), Label::CaseMinus(number)) => holds_minus(int_type, number),
        _ => true,
    }
}

/// Whether two labels have equal constants: `-0` is `0`.
fn is_same_constant(one: Label, other: Label) -> bool
    ensures value { result ≡ constants.is_same_constant one other }
{
    match (one, other) {
        (Label::Case(m), Label::Case(n)) | (Label::CaseMinus(m), Label::CaseMinus(n)) => m == n,
        (Label::Case(m), Label::CaseMinus(n)) | (Label::CaseMinus(m), Label::Case(n)) => {
            m == 0 && n == 0
        }
        _ => false,
    }
}

fn any_is_same(before: &[Label], label: Label) -> bool
    ensures value { result ≡ list_any (constants.is_same_constant label) before.now }
{
    for other in before {
        if is_same_constant(label, *other) {
            return true;
        }
    }
    false
}

/// Whether no label is after this one.
pub(crate) fn is_last(labels: &[Case], i: usize) -> bool
    requires within { i < length labels.now }
    ensures none_after { result
        ≡ constants.is_last (cases (map case_of (drop (i + 1) labels.now))) }
{
    i + 1 == labels.len()
}

/// What a label is checked against: the integer type of the value, where it has one, and the other labels.
#[derive(Clone, Copy)]
pub(crate) struct LabelContext<'a> {
    pub(crate) int_type: Option<IntType>,
    pub(crate) before: &'a [Label],
    pub(crate) is_last: bool,
}

/// The constant of a label at this offset, after the labels before it. No memory is taken.
#[tactic(auto, unfolding(ash_type_rules::specs::Switches::check_constant))]
fn check_constant(
    int_type: Option<IntType>,
    before: &[Label],
    at: usize,
    label: Label,
) -> CheckResult<Label>
    ensures checked { Agrees (λ l. l) result
        (definition.check_constant int_type before.now at label) }
    ensures no_memory { IsErrOf result NoMemory → ⊥ }
{
    if !is_within(int_type, label) {
        return Err(fault_at(Rule::ConstantOutOfRange, at));
    }
    if any_is_same(before, label) {
        return Err(fault_at(Rule::DuplicateCase, at));
    }
    Ok(label)
}

/// A label at this offset: `default` has to be the last one. No memory is taken.
#[tactic(auto, unfolding(ash_type_rules::specs::Switches::check_label))]
pub(crate) fn check_label(context: LabelContext, at: usize, label: Label) -> CheckResult<Label>
    ensures checked { Agrees (λ l. l) result
        (definition.check_label context.entry.int_type context.entry.before.now
        context.entry.is_last at label) }
    ensures no_memory { IsErrOf result NoMemory → ⊥ }
{
    match label {
        Label::Default => {
            if !context.is_last {
                return Err(fault_at(Rule::Misplaced, at));
            }
            Ok(label)
        }
        _ => check_constant(context.int_type, context.before, at, label),
    }
}
