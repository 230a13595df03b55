//! The code of statements.
//!
//! A statement leaves as many locals as it found, except that a declaration in a list of statements leaves its
//! variables. What is computed uses the slots behind the locals. A `break` or a `continue` leaves the locals of blocks
//! and jumps to a release point, where those blocks end. That place is not known yet when the jump is appended: the
//! statement that it leads out of writes the jump again.

ghost use Rattle.std.specs.Prelude.{◌≡◌, ◌≤◌, ℕ, List, IfOk, map, option_map};
ghost use Rattle.ash_typed.specs.TypedTreeViews.{expr_of};
ghost use Rattle.ash_typed.specs.BodyViews.{stmt_of, body_of, value_of};
ghost use Rattle.ash_typed.specs.StatementTree.{Declare, Evaluate, Block, If, no_branch, branch, Break, Continue, Return};
ghost use Rattle.ash_compile.specs.Emission.{end_of};
ghost use Rattle.ash_compile.specs.EmittedStatements.{AreBelow, LeadsAll, draft, with_jumps, EmitsStatement};
ghost use Rattle.ash_compile.specs.EmittedStatements.{EmitsListed, EmitsStatements, EmitsBody};
ghost use Rattle.ash_compile.specs.EmittedStatements.{LeavesBlocks, frame_end, branch_on};

use crate::builder::CodeBuilder;
use ash_code::instruction::Instruction;
use ash_integers::Comparison;
use ash_typed::{Expr, Initialization, Stmt, StmtKind};
use std::alloc::{AllocError, Global};

/// What a statement is in.
#[derive(Clone, Copy)]
pub struct Scope {
    /// How many locals there are.
    pub locals: usize,
    /// How many of them a `break` keeps.
    pub broken: usize,
    /// How many of them a `continue` keeps.
    pub continued: usize,
    /// Whether the function constructs an object: a `return` gives that.
    pub constructs: bool,
}

/// The places of jumps whose targets are not known yet.
#[derive(Drop)]
pub struct Jumps {
    pub alloc: Global,
    /// Jumps of `break`.
    pub breaks: Vec<usize>,
    /// Jumps of `continue`.
    pub continues: Vec<usize>,
}

/// How a function is left without a value.
pub(crate) fn function_end(constructs: bool) -> Instruction
    ensures end { result ≡ frame_end constructs }
{
    if constructs {
        Instruction::ReturnThis
    } else {
        Instruction::ReturnNothing
    }
}

/// How a condition is tested.
#[derive(Clone, Copy)]
pub enum Condition {
    /// By the truth value of a slot.
    Truth {
        slot: usize,
    },
    /// By a comparison of the integers of two slots.
    Comparison {
        comparison: Comparison,
        left: usize,
        right: usize,
    },
}

/// The branch of a condition, whose target is not known yet.
#[derive(Clone, Copy)]
pub struct Branch {
    pub at: usize,
    pub condition: Condition,
}

/// A branch to a place, if a condition is not met.
pub(crate) fn branch_to(condition: Condition, to: usize) -> Instruction
    ensures branch { result ≡ branch_on condition to }
{
    match condition {
        Condition::Truth { slot } => Instruction::Branch {
            condition: slot,
            to,
        },
        Condition::Comparison {
            comparison,
            left,
            right,
        } => Instruction::BranchUnless {
            comparison,
            left,
            right,
            to,
        },
    }
}

impl CodeBuilder {
    /// Appends the code of the statements of a function, which has so many locals before them.
    ///
    /// # Errors
    ///
    /// If there is no memory, or there are no more slots.
    pub fn body(
        &mut self,
        alloc: Global,
        stmts: &[Stmt],
        locals: usize,
        constructs: bool,
    ) -> Result<(), AllocError>
        ensures emits { IfOk result (λ u. EmitsBody self.old self.new (body_of stmts.now) locals constructs) }
    {
        let scope = Scope {
            locals,
            broken: locals,
            continued: locals,
            constructs,
        };
        let mut jumps = Jumps {
            alloc,
            breaks: Vec::new(alloc),
            continues: Vec::new(alloc),
        };
        self.statements(stmts, scope, &mut jumps)?;
        let end = self.here();
        self.lead_all(&jumps.breaks, end);
        self.lead_all(&jumps.continues, end);
        Ok(())
    }

    /// Appends the code of a statement.
    ///
    /// # Errors
    ///
    /// If there is no memory, or there are no more slots.
    #[cycle(statements)]
    pub(crate) fn statement(
        &mut self,
        stmt: &Stmt,
        scope: Scope,
        jumps: &mut Jumps,
    ) -> Result<(), AllocError>
        ensures emits { IfOk result (λ u. EmitsStatement (draft self.old jumps.old)
            (draft self.new jumps.new) (stmt_of stmt.now) scope) }
    {
        let line = stmt.line;
        match &stmt.kind {
            StmtKind::Empty => self.tick(line, scope.locals),
            StmtKind::Declare(values) => self.declared(line, values, scope),
            StmtKind::Evaluate(expr) => self.evaluated(line, expr, scope),
            StmtKind::Block(stmts) => self.block(line, stmts, scope, jumps),
            StmtKind::If {
                condition,
                then,
                otherwise,
            } => match otherwise {
                None => self.if_only(line, condition, then, scope, jumps),
                Some(otherwise) => self.if_else(line, condition, then, otherwise, scope, jumps),
            },
            StmtKind::Repeat(inside) => self.repeat(line, inside, scope, jumps),
            StmtKind::For { head, inside } => self.for_loop(line, head, inside, scope, jumps),
            StmtKind::Switch { of, value, cases } => {
                self.switch(line, *of, value, cases, scope, jumps)
            }
            StmtKind::Break => self.break_out(line, scope, jumps),
            StmtKind::Continue => self.continue_on(line, scope, jumps),
            StmtKind::Return(value) => self.returning(line, value, scope),
        }
    }

    /// Variables, with their tick. How many locals there are then is returned.
    fn declaration(
        &mut self,
        line: usize,
        values: &[Initialization],
        scope: Scope,
    ) -> Result<usize, AllocError>
        ensures emits { IfOk result (λ more. (breaks continues : List ℕ) → EmitsListed
            (with_jumps self.old breaks continues) (with_jumps self.new breaks continues)
            (Declare line (map value_of values.now)) scope more) }
    {
        self.tick(line, scope.locals)?;
        self.variables(values, scope.locals)
    }

    /// Variables of no list of statements. No sound statement declares them.
    fn declared(
        &mut self,
        line: usize,
        values: &[Initialization],
        scope: Scope,
    ) -> Result<(), AllocError>
        ensures emits { IfOk result (λ u. (breaks continues : List ℕ) → EmitsStatement
            (with_jumps self.old breaks continues) (with_jumps self.new breaks continues)
            (Declare line (map value_of values.now)) scope) }
    {
        self.declaration(line, values, scope)?;
        Ok(())
    }

    /// An expression that is evaluated.
    fn evaluated(&mut self, line: usize, expr: &Expr, scope: Scope) -> Result<(), AllocError>
        ensures emits { IfOk result (λ u. (breaks continues : List ℕ) → EmitsStatement
            (with_jumps self.old breaks continues) (with_jumps self.new breaks continues)
            (Evaluate line (expr_of expr.now)) scope) }
    {
        self.tick(line, scope.locals)?;
        self.evaluation(expr, scope.locals)
    }

    /// A statement of a list. How many locals there are after it is returned.
    #[cycle(statements)]
    fn listed(&mut self, stmt: &Stmt, scope: Scope, jumps: &mut Jumps) -> Result<usize, AllocError>
        ensures emits { IfOk result (λ locals. EmitsListed (draft self.old jumps.old)
            (draft self.new jumps.new) (stmt_of stmt.now) scope locals) }
    {
        match &stmt.kind {
            StmtKind::Declare(values) => self.declaration(stmt.line, values, scope),
            _ => {
                self.statement(stmt, scope, jumps)?;
                Ok(scope.locals)
            }
        }
    }

    /// A list of statements, each of which sees the variables that those before it declare.
    #[cycle(statements)]
    pub(crate) fn statements(
        &mut self,
        stmts: &[Stmt],
        scope: Scope,
        jumps: &mut Jumps,
    ) -> Result<(), AllocError>
        ensures emits { IfOk result (λ u. EmitsStatements (draft self.old jumps.old)
            (draft self.new jumps.new) (body_of stmts.now) scope) }
    {
        let mut locals = scope.locals;
        for stmt in stmts {
            locals = self.listed(stmt, Scope { locals, ..scope }, jumps)?;
        }
        Ok(())
    }

    /// A block. Its end is a release point.
    #[cycle(statements)]
    fn block(
        &mut self,
        line: usize,
        stmts: &[Stmt],
        scope: Scope,
        jumps: &mut Jumps,
    ) -> Result<(), AllocError>
        ensures emits { IfOk result (λ u. EmitsStatement (draft self.old jumps.old)
            (draft self.new jumps.new) (Block line (body_of stmts.now)) scope) }
    {
        self.statements(stmts, scope, jumps)?;
        self.put(
            scope.locals,
            Instruction::EndBlock {
                count: scope.locals,
            },
        )
    }

    /// `if` without `else`
    #[cycle(statements)]
    fn if_only(
        &mut self,
        line: usize,
        condition: &Expr,
        then: &Stmt,
        scope: Scope,
        jumps: &mut Jumps,
    ) -> Result<(), AllocError>
        ensures emits { IfOk result (λ u. EmitsStatement (draft self.old jumps.old) (draft self.new jumps.new)
            (If line (expr_of condition.now) (stmt_of then.now) no_branch) scope) }
    {
        self.tick(line, scope.locals)?;
        let branch = self.condition(condition, scope.locals)?;
        self.statement(then, scope, jumps)?;
        let end = self.here();
        self.lead(branch.at, branch_to(branch.condition, end));
        Ok(())
    }

    /// `if` and `else`
    #[cycle(statements)]
    fn if_else(
        &mut self,
        line: usize,
        condition: &Expr,
        then: &Stmt,
        otherwise: &Stmt,
        scope: Scope,
        jumps: &mut Jumps,
    ) -> Result<(), AllocError>
        ensures emits { IfOk result (λ u. EmitsStatement (draft self.old jumps.old) (draft self.new jumps.new)
            (If line (expr_of condition.now) (stmt_of then.now) (branch (stmt_of otherwise.now))) scope) }
    {
        self.tick(line, scope.locals)?;
        let test = self.condition(condition, scope.locals)?;
        self.statement(then, scope, jumps)?;
        let back = self.here();
        let past = self.behind();
        self.put(scope.locals, Instruction::Jump { to: past })?;
        let other = self.here();
        self.statement(otherwise, scope, jumps)?;
        let end = self.here();
        self.lead(test.at, branch_to(test.condition, other));
        self.lead(back, Instruction::Jump { to: end });
        Ok(())
    }

    /// Writes jumps again, once their target is known.
    pub(crate) fn lead_all(&mut self, places: &[usize], to: usize)
        requires before { AreBelow to places.now }
        requires within { to ≤ end_of self.old }
        ensures leads { LeadsAll self.old self.new places.now to }
    {
        for at in places {
            self.lead(*at, Instruction::Jump { to });
        }
    }

    /// `break`
    fn break_out(&mut self, line: usize, scope: Scope, jumps: &mut Jumps) -> Result<(), AllocError>
        ensures emits { IfOk result (λ u. EmitsStatement (draft self.old jumps.old)
            (draft self.new jumps.new) (Break line) scope) }
    {
        let jump = self.leave(line, scope.broken, scope.locals)?;
        jumps.breaks.push(jump)?;
        Ok(())
    }

    /// `continue`
    fn continue_on(
        &mut self,
        line: usize,
        scope: Scope,
        jumps: &mut Jumps,
    ) -> Result<(), AllocError>
        ensures emits { IfOk result (λ u. EmitsStatement (draft self.old jumps.old)
            (draft self.new jumps.new) (Continue line) scope) }
    {
        let jump = self.leave(line, scope.continued, scope.locals)?;
        jumps.continues.push(jump)?;
        Ok(())
    }

    /// Leaves blocks. The place of the jump is returned.
    fn leave(&mut self, line: usize, count: usize, slot: usize) -> Result<usize, AllocError>
        ensures leaves { IfOk result (λ jump. LeavesBlocks self.old self.new line count slot jump) }
    {
        self.tick(line, slot)?;
        self.put(slot, Instruction::LeaveBlocks { count })?;
        let jump = self.here();
        let past = self.behind();
        self.put(slot, Instruction::Jump { to: past })?;
        Ok(jump)
    }

    /// `return`
    fn returning(
        &mut self,
        line: usize,
        value: &Option<Expr>,
        scope: Scope,
    ) -> Result<(), AllocError>
        ensures emits { IfOk result (λ u. (breaks continues : List ℕ) → EmitsStatement
            (with_jumps self.old breaks continues) (with_jumps self.new breaks continues)
            (Return line (option_map expr_of value.now)) scope) }
    {
        self.tick(line, scope.locals)?;
        match value {
            None => self.put(scope.locals, function_end(scope.constructs)),
            Some(expr) => {
                self.expression(expr, scope.locals)?;
                self.put(scope.locals, Instruction::Return { from: scope.locals })
            }
        }
    }
}
