//! The code of loops.
//!
//! A loop has the tick of its first turn, or a jump to its body if the condition comes last. Then come the condition,
//! the body, the steps, and the tick of the next turn, which leads back to the condition, or to the body if two locals
//! are as the condition wants. A `continue` leads to a
//! release point before the steps, a `break` to one behind the loop. A body without `continue` needs none.

ghost use Rattle.std.specs.Prelude.{◌≡◌, ◌<◌, ◌≤◌, IfOk, option_map, IfSome, Some};
ghost use Rattle.ash_typed.specs.TypedTreeViews.{expr_of};
ghost use Rattle.ash_typed.specs.BodyViews.{stmt_of, loop_of, head_of};
ghost use Rattle.ash_typed.specs.StatementTree.{Repeat, For};
ghost use Rattle.ash_compile.specs.Emission.{end_of};
ghost use Rattle.ash_compile.specs.EmittedStatements.{AreBelow, draft, EmitsStatement, EmitsLoop, EmitsLoopBody};
ghost use Rattle.ash_compile.specs.EmittedStatements.{MayTest, MayLead, Landing, EndsBody, NextTurn, loop_entry};

use crate::blocks::line_of;
use crate::bodies::{Branch, Jumps, Scope, branch_to};
use crate::builder::CodeBuilder;
use crate::continues::has_no_continue;
use crate::operators::local_comparison;
use ash_code::instruction::Instruction;
use ash_typed::{Expr, Head, Loop, Stmt, Test};
use std::alloc::AllocError;
use std::mem;

/// What a loop begins with: the tick of its first turn, or a jump to its body.
fn entry_of(test: Test, line: u32, body: usize) -> Instruction
    ensures entry { result ≡ loop_entry test line body }
{
    match test {
        Test::First => Instruction::Tick { line },
        Test::Last => Instruction::Jump { to: body },
    }
}

/// What takes the tick of the next turn: it leads back to the condition, or compares two locals again.
fn next_turn(condition: &Option<Expr>, line: u32, head: usize, body: usize) -> Instruction
    ensures next { NextTurn (option_map expr_of condition.now) line head body result }
{
    match condition {
        None => Instruction::Loop { line, to: head },
        Some(condition) => next_test(condition, line, head, body),
    }
}

/// The same, if there is a condition.
fn next_test(condition: &Expr, line: u32, head: usize, body: usize) -> Instruction
    ensures next { NextTurn (Some (expr_of condition.now)) line head body result }
{
    match local_comparison(condition) {
        None => Instruction::Loop { line, to: head },
        Some(compared) => Instruction::LoopWhile {
            line,
            comparison: compared.comparison,
            left: compared.left,
            right: compared.right,
            to: body,
        },
    }
}

impl CodeBuilder {
    /// `while` and `do`
    #[cycle(statements)]
    pub(crate) fn repeat(
        &mut self,
        line: usize,
        inside: &Loop,
        scope: Scope,
        jumps: &mut Jumps,
    ) -> Result<(), AllocError>
        ensures emits { IfOk result (λ u. EmitsStatement (draft self.old jumps.old)
            (draft self.new jumps.new) (Repeat line (loop_of inside.now)) scope) }
    {
        self.tick(line, scope.locals)?;
        let outer = mem::replace(&mut jumps.breaks, Vec::new(jumps.alloc));
        let broken = scope.locals;
        self.turns(line, inside, Scope { broken, ..scope }, jumps)?;
        self.landing(&jumps.breaks, scope.locals)?;
        jumps.breaks = outer;
        Ok(())
    }

    /// `for`: the head and the loop inside it are a block. Its end is where a `break` leads.
    #[cycle(statements)]
    pub(crate) fn for_loop(
        &mut self,
        line: usize,
        head: &Head,
        inside: &Loop,
        scope: Scope,
        jumps: &mut Jumps,
    ) -> Result<(), AllocError>
        ensures emits { IfOk result (λ u. EmitsStatement (draft self.old jumps.old)
            (draft self.new jumps.new) (For line (head_of head.now) (loop_of inside.now)) scope) }
    {
        self.tick(line, scope.locals)?;
        let locals = self.head(head, scope.locals)?;
        let outer = mem::replace(&mut jumps.breaks, Vec::new(jumps.alloc));
        let inner = Scope {
            locals,
            broken: scope.locals,
            ..scope
        };
        self.turns(line, inside, inner, jumps)?;
        self.put(
            scope.locals,
            Instruction::LeaveBlocks {
                count: scope.locals,
            },
        )?;
        let end = self.here();
        self.put(scope.locals, Instruction::Release)?;
        self.lead_all(&jumps.breaks, end);
        jumps.breaks = outer;
        Ok(())
    }

    /// What is repeated, from its first tick or its jump to the body on.
    #[cycle(statements)]
    fn turns(
        &mut self,
        line: usize,
        inside: &Loop,
        scope: Scope,
        jumps: &mut Jumps,
    ) -> Result<(), AllocError>
        ensures emits { IfOk result (λ u. EmitsLoop (draft self.old jumps.old)
            (draft self.new jumps.new) line (loop_of inside.now) scope) }
    {
        let slot = scope.locals;
        let line = line_of(line)?;
        let entry = self.here();
        let past = self.behind();
        self.put(slot, entry_of(inside.test, line, past))?;
        let head = self.here();
        let branch = self.turn_condition(&inside.condition, slot)?;
        let body = self.here();
        self.lead(entry, entry_of(inside.test, line, body));
        self.loop_body(&inside.body, scope, jumps)?;
        self.evaluations(&inside.steps, slot)?;
        self.put(slot, next_turn(&inside.condition, line, head, body))?;
        let end = self.here();
        self.lead_out(branch, end);
        Ok(())
    }

    /// The condition of a loop, if it has one. Its branch is returned.
    fn turn_condition(
        &mut self,
        condition: &Option<Expr>,
        slot: usize,
    ) -> Result<Option<Branch>, AllocError>
        ensures tests { IfOk result (λ branch. MayTest self.old self.new (option_map expr_of condition.now) slot branch) }
    {
        match condition {
            None => Ok(None),
            Some(condition) => {
                let branch = self.condition(condition, slot)?;
                Ok(Some(branch))
            }
        }
    }

    /// The branch of a condition, if there is one, leads to a place.
    fn lead_out(&mut self, branch: Option<Branch>, to: usize)
        requires before { IfSome branch (λ branch. branch.at < to) }
        requires within { to ≤ end_of self.old }
        ensures leads { MayLead self.old self.new branch to }
    {
        if let Some(branch) = branch {
            self.lead(branch.at, branch_to(branch.condition, to));
        }
    }

    /// The body of a loop, with the release point where its `continue` leads.
    #[cycle(statements)]
    fn loop_body(&mut self, body: &Stmt, scope: Scope, jumps: &mut Jumps) -> Result<(), AllocError>
        ensures emits { IfOk result (λ u. EmitsLoopBody (draft self.old jumps.old)
            (draft self.new jumps.new) (stmt_of body.now) scope) }
    {
        let outer = mem::replace(&mut jumps.continues, Vec::new(jumps.alloc));
        let continued = scope.locals;
        self.statement(body, Scope { continued, ..scope }, jumps)?;
        self.body_end(body, &jumps.continues, scope.locals)?;
        jumps.continues = outer;
        Ok(())
    }

    /// Where the `continue` of a body leads: a release point, if it has one.
    fn body_end(&mut self, body: &Stmt, places: &[usize], slot: usize) -> Result<(), AllocError>
        requires there { AreBelow (end_of self.old) places.now }
        ensures ends { IfOk result (λ u. EndsBody self.old self.new places.now (stmt_of body.now)) }
    {
        if has_no_continue(body) {
            let end = self.here();
            self.lead_all(places, end);
            return Ok(());
        }
        self.landing(places, slot)
    }

    /// A release point where jumps lead. Code that comes here goes on behind it.
    pub(crate) fn landing(&mut self, places: &[usize], slot: usize) -> Result<(), AllocError>
        requires there { AreBelow (end_of self.old) places.now }
        ensures lands { IfOk result (λ u. Landing self.old self.new places.now) }
    {
        let jump = self.here();
        let past = self.behind();
        self.put(slot, Instruction::Jump { to: past })?;
        let release = self.here();
        self.put(slot, Instruction::Release)?;
        self.lead_all(places, release);
        let end = self.here();
        self.lead(jump, Instruction::Jump { to: end });
        Ok(())
    }
}
