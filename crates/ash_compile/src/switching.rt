//! The code of `switch`.
//!
//! The constants of the labels are tested one after the other. Behind the tests come the statements of all labels, so
//! that each label falls through to the next one.

ghost use Rattle.std.specs.Prelude.{◌≡◌, ◌+◌, ◌≤◌, ◌<◌, length, IfOk, map, option_map};
ghost use Rattle.ash_integers.specs.Integers.{number_of};
ghost use Rattle.ash_typed.specs.TypedTreeViews.{expr_of};
ghost use Rattle.ash_typed.specs.BodyViews.{case_of};
ghost use Rattle.ash_typed.specs.StatementTree.{Switch, cases as case_list};
ghost use Rattle.ash_typed.specs.SoundStatements.{constant_of};
ghost use Rattle.ash_compile.specs.Emission.{Keeps, end_of};
ghost use Rattle.ash_compile.specs.EmittedStatements.{draft, EmitsStatement, EmitsLabel, EmitsLabels, label_jump};

use crate::blocks::one_more;
use crate::bodies::{Jumps, Scope};
use crate::builder::CodeBuilder;
use ash_code::instruction::Instruction;
use ash_host::Word;
use ash_integers::IntType;
use ash_tree::Label;
use ash_typed::{Case, Expr};
use std::alloc::AllocError;
use std::mem;

/// The constant of a label; `default` has none.
fn constant(label: Label) -> Option<i128>
    ensures constant { result ≡ constant_of label }
{
    match label {
        Label::Case(number) => Some(i128::from(number)),
        Label::CaseMinus(number) => Some(0 - i128::from(number)),
        Label::Default => None,
    }
}

/// A word of a number. Tests compare numbers, so that any integer type serves.
fn word_of_number(number: i128) -> Result<Word, AllocError>
    ensures number { IfOk result (λ word. number_of word ≡ number) }
{
    if let Ok(number) = u64::try_from(number) {
        return Ok(Word::Uint64(number));
    }
    match i64::try_from(number) {
        Ok(number) => Ok(Word::Int64(number)),
        Err(_) => Err(AllocError),
    }
}

/// A word of the constant of a label, if it has one.
fn constant_word(label: Label) -> Result<Option<Word>, AllocError>
    ensures constant { IfOk result (λ word. option_map number_of word ≡ constant_of label) }
{
    match constant(label) {
        None => Ok(None),
        Some(number) => {
            let word = word_of_number(number)?;
            Ok(Some(word))
        }
    }
}

/// What leads to the statements of a label.
fn label_test(word: Option<Word>, from: usize, to: usize) -> Instruction
    ensures jump { result ≡ label_jump word from to }
{
    match word {
        Some(word) => Instruction::JumpIfNumber { from, word, to },
        None => Instruction::Jump { to },
    }
}

impl CodeBuilder {
    /// `switch`
    #[cycle(statements)]
    pub(crate) fn switch(
        &mut self,
        line: usize,
        of: IntType,
        value: &Expr,
        cases: &[Case],
        scope: Scope,
        jumps: &mut Jumps,
    ) -> Result<(), AllocError>
        ensures emits { IfOk result (λ u. EmitsStatement (draft self.old jumps.old)
            (draft self.new jumps.new) (Switch line of (expr_of value.now) (case_list (map case_of cases.now))) scope) }
    {
        self.tick(line, scope.locals)?;
        self.full_value(value, scope.locals)?;
        let tests = self.here();
        self.test_places(cases, scope.locals)?;
        let past = self.here();
        let after = self.behind();
        self.put(scope.locals, Instruction::Jump { to: after })?;
        let outer = mem::replace(&mut jumps.breaks, Vec::new(jumps.alloc));
        let broken = scope.locals;
        self.labels(tests, cases, Scope { broken, ..scope }, jumps)?;
        self.landing(&jumps.breaks, scope.locals)?;
        jumps.breaks = outer;
        let end = self.here();
        self.lead(past, Instruction::Jump { to: end });
        Ok(())
    }

    /// Places for the tests of labels.
    fn test_places(&mut self, cases: &[Case], slot: usize) -> Result<(), AllocError>
        ensures keeps { IfOk result (λ u. Keeps self.old self.new) }
        ensures places { IfOk result (λ u. end_of self.new ≡ end_of self.old + length cases.now) }
    {
        for _case in cases {
            let after = self.behind();
            self.put(slot, Instruction::Jump { to: after })?;
        }
        Ok(())
    }

    /// The statements of labels, to which the tests from a place on lead.
    #[cycle(statements)]
    fn labels(
        &mut self,
        tests: usize,
        cases: &[Case],
        scope: Scope,
        jumps: &mut Jumps,
    ) -> Result<(), AllocError>
        requires there { tests + length cases.now ≤ end_of self.old }
        ensures emits { IfOk result (λ u. EmitsLabels (draft self.old jumps.old)
            (draft self.new jumps.new) tests (case_list (map case_of cases.now)) scope) }
    {
        let mut test = tests;
        for case in cases {
            self.label(test, case, scope, jumps)?;
            test = one_more(test)?;
        }
        Ok(())
    }

    /// The statements of a label, to which its test leads.
    #[cycle(statements)]
    fn label(
        &mut self,
        test: usize,
        case: &Case,
        scope: Scope,
        jumps: &mut Jumps,
    ) -> Result<(), AllocError>
        requires there { test < end_of self.old }
        ensures emits { IfOk result (λ u. EmitsLabel (draft self.old jumps.old)
            (draft self.new jumps.new) test (case_of case.now) scope) }
    {
        let word = constant_word(case.label)?;
        let to = self.here();
        self.lead(test, label_test(word, scope.locals, to));
        self.statements(&case.body, scope, jumps)
    }
}
