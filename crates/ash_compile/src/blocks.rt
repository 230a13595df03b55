//! The code of variables, of full expressions and of lists of statements.

ghost use Rattle.std.specs.Prelude.{◌≡◌, ◌+◌, IfOk, map};
ghost use Rattle.ash_typed.specs.TypedTree.{Expr as ExprData};
ghost use Rattle.ash_typed.specs.TypedTreeViews.{expr_of, chained, all_chained};
ghost use Rattle.ash_typed.specs.BodyViews.{value_of, head_of};
ghost use Rattle.ash_meaning.specs.OperatorMeaning.{zero_of};
ghost use Rattle.ash_code.specs.declared.instruction.Instruction.TheVariants as i;
ghost use Rattle.ash_compile.specs.Emission.{Puts, Emits};
ghost use Rattle.ash_compile.specs.Operands.{Compares};
ghost use Rattle.ash_compile.specs.declared.builder.Written.{Written};
ghost use Rattle.ash_compile.specs.EmittedStatements.{EmitsVariable, EmitsVariables, EmitsHead, EmitsEvaluation, EmitsFull};
ghost use Rattle.ash_compile.specs.EmittedStatements.{EmitsEvaluations, Tests};

use crate::bodies::{Branch, Condition, branch_to};
use crate::builder::CodeBuilder;
use crate::operators::comparison_of;
use ash_code::instruction::Instruction;
use ash_host::Word;
use ash_integers::{Comparison, word_from};
use ash_typed::{Expr, ExprKind, Head, Initialization, Operand, VarType};
use std::alloc::AllocError;

/// What a variable has that begins with nothing.
fn zero_word(of: VarType) -> Word
    ensures word { result ≡ zero_of of }
{
    match of {
        VarType::Bool => Word::Bool(false),
        VarType::Integer(int_type) => word_from(int_type, 0),
        VarType::Object(_) | VarType::Handle(_) => Word::Null,
    }
}

/// A line, as instructions have it.
pub(crate) fn line_of(line: usize) -> Result<u32, AllocError>
    ensures same { IfOk result (λ same. same ≡ line) }
{
    u32::try_from(line).map_err(|_| AllocError)
}

/// The next local, or the next place.
pub(crate) fn one_more(locals: usize) -> Result<usize, AllocError>
    ensures more { IfOk result (λ more. more ≡ locals + 1) }
{
    locals.checked_add(1).ok_or(AllocError)
}

impl CodeBuilder {
    /// A tick at a line.
    pub(crate) fn tick(&mut self, line: usize, slot: usize) -> Result<(), AllocError>
        ensures puts { IfOk result (λ u. Puts self.old self.new slot (i.Tick line)) }
    {
        let line = line_of(line)?;
        self.put(slot, Instruction::Tick { line })
    }

    /// An expression that is evaluated for what it does, as a full expression.
    pub(crate) fn evaluation(&mut self, expr: &Expr, slot: usize) -> Result<(), AllocError>
        ensures emits { IfOk result (λ u. EmitsEvaluation self.old self.new (expr_of expr.now) slot) }
    {
        self.effect(expr, slot)?;
        self.put(slot, Instruction::EndExpression)
    }

    /// An expression that is evaluated as a full expression. Its value stays in the slot.
    pub(crate) fn full_value(&mut self, expr: &Expr, slot: usize) -> Result<(), AllocError>
        ensures emits { IfOk result (λ u. EmitsFull self.old self.new (expr_of expr.now) slot) }
    {
        self.expression(expr, slot)?;
        self.put(slot, Instruction::EndExpression)
    }

    /// Full expressions, one after the other.
    pub(crate) fn evaluations(&mut self, exprs: &[Expr], slot: usize) -> Result<(), AllocError>
        ensures emits { IfOk result (λ u. EmitsEvaluations self.old self.new (map expr_of exprs.now) slot) }
    {
        for expr in exprs {
            self.evaluation(expr, slot)?;
        }
        Ok(())
    }

    /// A condition. Its branch is returned: where that leads if the condition is not met is written later.
    pub(crate) fn condition(&mut self, expr: &Expr, slot: usize) -> Result<Branch, AllocError>
        ensures emits { IfOk result (λ branch. Tests self.old self.new (expr_of expr.now) slot branch) }
    {
        match &*expr.kind {
            ExprKind::Chain { first, operands } => self.chain_condition(first, operands, slot),
            _ => {
                self.expression(expr, slot)?;
                self.truth(slot)
            }
        }
    }

    /// A condition whose last operator may compare integers.
    fn chain_condition(
        &mut self,
        first: &Expr,
        operands: &[Operand],
        slot: usize,
    ) -> Result<Branch, AllocError>
        ensures emits { IfOk result (λ branch. Tests self.old self.new
            (all_chained (expr_of first.now) operands.now) slot branch) }
    {
        match operands.split_last() {
            None => {
                self.expression(first, slot)?;
                self.truth(slot)
            }
            Some((last, before)) => match comparison_of(last.operation) {
                Some(comparison) => self.comparing(first, before, last, comparison, slot),
                None => {
                    self.chain(first, operands, slot, slot)?;
                    self.truth(slot)
                }
            },
        }
    }

    /// A condition that compares integers.
    fn comparing(
        &mut self,
        first: &Expr,
        before: &[Operand],
        last: &Operand,
        comparison: Comparison,
        slot: usize,
    ) -> Result<Branch, AllocError>
        ensures emits { IfOk result (λ branch. Compares last.now.operation comparison
            → Tests self.old self.new (chained (all_chained (expr_of first.now) before.now) last.now) slot branch) }
    {
        let left = self.row(first, before, &last.value, slot)?;
        let left = self.conversion_before(last.before, left, slot)?;
        let next = one_more(slot)?;
        let right = self.value(&last.value, next)?;
        let condition = Condition::Comparison {
            comparison,
            left,
            right,
        };
        let at = self.here();
        let past = self.behind();
        self.put(slot, branch_to(condition, past))?;
        Ok(Branch { at, condition })
    }

    /// The branch of a condition that has its truth value in a slot.
    fn truth(&mut self, slot: usize) -> Result<Branch, AllocError>
        ensures emits { IfOk result (λ branch. (start : Written) (e : ExprData) → Emits start self.old e slot
            → Tests start self.new e slot branch) }
    {
        let condition = Condition::Truth { slot };
        let at = self.here();
        let past = self.behind();
        self.put(slot, branch_to(condition, past))?;
        Ok(Branch { at, condition })
    }

    /// A variable, which becomes the local in this slot.
    fn variable_begins(&mut self, value: &Initialization, slot: usize) -> Result<(), AllocError>
        ensures emits { IfOk result (λ u. EmitsVariable self.old self.new (value_of value.now) slot) }
    {
        match &value.value {
            None => {
                let word = zero_word(value.of);
                self.put(slot, Instruction::Load { word, to: slot })?;
                self.put(slot, Instruction::Declare)
            }
            Some(expr) => {
                self.expression(expr, slot)?;
                self.put(slot, Instruction::DeclareAndEnd)
            }
        }
    }

    /// Variables, which become the locals from this slot on. How many locals there are then is returned.
    pub(crate) fn variables(
        &mut self,
        values: &[Initialization],
        locals: usize,
    ) -> Result<usize, AllocError>
        ensures emits { IfOk result (λ more. EmitsVariables self.old self.new (map value_of values.now) locals more) }
    {
        let mut locals = locals;
        for value in values {
            self.variable_begins(value, locals)?;
            locals = one_more(locals)?;
        }
        Ok(locals)
    }

    /// The head of a `for`. How many locals there are after it is returned.
    pub(crate) fn head(&mut self, head: &Head, locals: usize) -> Result<usize, AllocError>
        ensures emits { IfOk result (λ more. EmitsHead self.old self.new (head_of head.now) locals more) }
    {
        match head {
            Head::Empty => Ok(locals),
            Head::Declare(values) => self.variables(values, locals),
            Head::Evaluate(expr) => {
                self.evaluation(expr, locals)?;
                Ok(locals)
            }
        }
    }
}
