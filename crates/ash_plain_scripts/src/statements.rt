//! What statements do. A tick comes before each that is no block.

ghost use Rattle.std.specs.Prelude.{map, option_map};
ghost use Rattle.ash_typed.specs.BodyViews.{stmt_of, body_of, case_of, loop_of, head_of, value_of};
ghost use Rattle.ash_typed.specs.StatementTree.{Declare, Switch, cases as case_list};
ghost use Rattle.ash_typed.specs.TypedTreeViews.{expr_of};
ghost use Rattle.ash_meaning.specs.StatementMeaning.{statement, statements, in_block, loop, turns};
ghost use Rattle.ash_plain_data.specs.CallRuns.{RunsAs};
ghost use Rattle.ash_plain_world.specs.ActivityViews.{activity_seen};
ghost use Rattle.ash_plain_world.specs.FlowViews.{flow_seen};
ghost use Rattle.ash_plain_scripts.specs.EvaluatorViews.{calls_seen};
ghost use Rattle.ash_walked_phrases.specs.WalkedPhrases.{fall_run, for_run, turn_seen, turn_run, next_turn};
ghost use Rattle.ash_plain_scripts.specs.Bodies.{RunsBodies};

use crate::evaluator::Evaluator;
use crate::switches::chosen;
use ash_host::Word;
use ash_integers::number;
use ash_plain_data::classes::ModuleCallee;
use ash_plain_data::run_error::{RunError, RunResult};
use ash_plain_world::activity::Activity;
use ash_plain_world::flow::Flow;
use ash_typed::{Case, Expr, Head, Initialization, IntType, Loop, Stmt, StmtKind, Test};

impl<F: Fn(&mut Activity, ModuleCallee) -> RunResult<Option<Word>> + Drop> Evaluator<'_, '_, F> {
    #[cycle(statements)]
    pub(crate) fn statement(&self, activity: &mut Activity, stmt: &Stmt) -> RunResult<Flow>
        requires callable { F.IsAlwaysCallable self.now.body }
        requires bodies { RunsBodies F.Fn self.now }
        ensures run { RunsAs flow_seen result (activity_seen activity.new) (statement
            (calls_seen self.now) self.now.depth (stmt_of stmt.now) (activity_seen activity.old)) }
    {
        let line = stmt.line;
        match &stmt.kind {
            StmtKind::Empty => {
                activity.tick(line)?;
                Ok(Flow::On)
            }
            StmtKind::Declare(variables) => self.declaration(activity, line, variables),
            StmtKind::Evaluate(expr) => {
                activity.tick(line)?;
                self.evaluate(activity, expr)?;
                Ok(Flow::On)
            }
            StmtKind::Block(body) => self.block(activity, body),
            StmtKind::If {
                condition,
                then,
                otherwise,
            } => {
                activity.tick(line)?;
                if self.condition(activity, condition)? {
                    return self.statement(activity, then);
                }
                match otherwise {
                    Some(otherwise) => self.statement(activity, otherwise),
                    None => Ok(Flow::On),
                }
            }
            StmtKind::Repeat(inside) => {
                activity.tick(line)?;
                let flow = self.repeat(activity, line, inside)?;
                activity.after_break(flow)
            }
            StmtKind::For { head, inside } => {
                activity.tick(line)?;
                let flow = self.for_loop(activity, line, head, inside)?;
                activity.after_break(flow)
            }
            StmtKind::Switch { of, value, cases } => {
                self.switch(activity, line, *of, value, cases)
            }
            StmtKind::Break => {
                activity.tick(line)?;
                Ok(Flow::Broke)
            }
            StmtKind::Continue => {
                activity.tick(line)?;
                Ok(Flow::Continued)
            }
            StmtKind::Return(value) => {
                activity.tick(line)?;
                self.return_value(activity, value)
            }
        }
    }

    /// Variables, which are added to those of the block.
    fn declaration(
        &self,
        activity: &mut Activity,
        line: usize,
        variables: &[Initialization],
    ) -> RunResult<Flow>
        requires callable { F.IsAlwaysCallable self.now.body }
        requires bodies { RunsBodies F.Fn self.now }
        ensures run { RunsAs flow_seen result (activity_seen activity.new)
            (statement (calls_seen self.now) self.now.depth
            (Declare line (map value_of variables.now)) (activity_seen activity.old)) }
    {
        activity.tick(line)?;
        self.declare_all(activity, variables)?;
        Ok(Flow::On)
    }

    /// Statements in order, up to one that does not go on.
    #[cycle(statements)]
    pub(crate) fn statements(&self, activity: &mut Activity, body: &[Stmt]) -> RunResult<Flow>
        requires callable { F.IsAlwaysCallable self.now.body }
        requires bodies { RunsBodies F.Fn self.now }
        ensures run { RunsAs flow_seen result (activity_seen activity.new)
            (statements (calls_seen self.now) self.now.depth (body_of body.now)
            (activity_seen activity.old)) }
    {
        for stmt in body {
            match self.statement(activity, stmt)? {
                Flow::On => {}
                flow => return Ok(flow),
            }
        }
        Ok(Flow::On)
    }

    #[cycle(statements)]
    fn block(&self, activity: &mut Activity, body: &[Stmt]) -> RunResult<Flow>
        requires callable { F.IsAlwaysCallable self.now.body }
        requires bodies { RunsBodies F.Fn self.now }
        ensures run { RunsAs flow_seen result (activity_seen activity.new)
            (in_block (statements (calls_seen self.now) self.now.depth (body_of body.now))
            (activity_seen activity.old)) }
    {
        let outer = activity.count_locals();
        let flow = self.statements(activity, body)?;
        activity.leave_blocks(outer);
        activity.end_block(flow)
    }

    /// The head and the loop are a block.
    #[cycle(statements)]
    fn for_loop(
        &self,
        activity: &mut Activity,
        line: usize,
        head: &Head,
        inside: &Loop,
    ) -> RunResult<Flow>
        requires callable { F.IsAlwaysCallable self.now.body }
        requires bodies { RunsBodies F.Fn self.now }
        ensures run { RunsAs flow_seen result (activity_seen activity.new)
            (for_run (calls_seen self.now) self.now.depth line (head_of head.now)
            (loop_of inside.now) (activity_seen activity.old)) }
    {
        let outer = activity.count_locals();
        self.begin(activity, head)?;
        let flow = self.repeat(activity, line, inside)?;
        activity.leave_blocks(outer);
        activity.end_block(flow)
    }

    #[cycle(statements)]
    fn repeat(&self, activity: &mut Activity, line: usize, inside: &Loop) -> RunResult<Flow>
        requires callable { F.IsAlwaysCallable self.now.body }
        requires bodies { RunsBodies F.Fn self.now }
        ensures run { RunsAs flow_seen result (activity_seen activity.new)
            (loop (calls_seen self.now) self.now.depth line (loop_of inside.now)
            (activity_seen activity.old)) }
    {
        if let Test::Last = inside.test {
            if let Some(flow) = self.turn(activity, line, inside)? {
                return Ok(flow);
            }
        }
        self.turns(activity, line, inside)
    }

    /// Falls through from the label that is gone to.
    #[cycle(statements)]
    fn fall_through(&self, activity: &mut Activity, cases: &[Case]) -> RunResult<Flow>
        requires callable { F.IsAlwaysCallable self.now.body }
        requires bodies { RunsBodies F.Fn self.now }
        ensures run { RunsAs flow_seen result (activity_seen activity.new)
            (fall_run (calls_seen self.now) self.now.depth cases.now (activity_seen activity.old)) }
    {
        for case in cases {
            match self.statements(activity, &case.body)? {
                Flow::On => {}
                flow => return Ok(flow),
            }
        }
        Ok(Flow::On)
    }

    #[cycle(statements)]
    fn switch(
        &self,
        activity: &mut Activity,
        line: usize,
        of: IntType,
        value: &Expr,
        cases: &[Case],
    ) -> RunResult<Flow>
        requires callable { F.IsAlwaysCallable self.now.body }
        requires bodies { RunsBodies F.Fn self.now }
        ensures run { RunsAs flow_seen result (activity_seen activity.new)
            (statement (calls_seen self.now) self.now.depth
            (Switch line of (expr_of value.now) (case_list (map case_of cases.now)))
            (activity_seen activity.old)) }
    {
        activity.tick(line)?;
        let word = self.expression(activity, value)?;
        activity.end_expression()?;
        let flow = self.fall_through(activity, chosen(cases, number(word)))?;
        activity.after_break(flow)
    }

    /// A loop from its condition on.
    #[cycle(statements)]
    fn turns(&self, activity: &mut Activity, line: usize, inside: &Loop) -> RunResult<Flow>
        requires callable { F.IsAlwaysCallable self.now.body }
        requires bodies { RunsBodies F.Fn self.now }
        ensures run { RunsAs flow_seen result (activity_seen activity.new)
            (turns self.now.depth (turn_seen (calls_seen self.now) self.now.depth line inside.now)
            (activity_seen activity.old)) }
    {
        for _ in 0..self.depth {
            if let Some(flow) = self.next_turn(activity, line, inside)? {
                return Ok(flow);
            }
        }
        activity.tick(line)?;
        Err(RunError::OutOfTicks)
    }

    /// A turn with the tick and the condition before it. It is left, or the next one follows.
    #[cycle(statements)]
    fn next_turn(
        &self,
        activity: &mut Activity,
        line: usize,
        inside: &Loop,
    ) -> RunResult<Option<Flow>>
        requires callable { F.IsAlwaysCallable self.now.body }
        requires bodies { RunsBodies F.Fn self.now }
        ensures run { RunsAs (option_map flow_seen) result (activity_seen activity.new)
            (next_turn (turn_seen (calls_seen self.now) self.now.depth line inside.now)
            (activity_seen activity.old)) }
    {
        activity.tick(line)?;
        if self.condition_or_true(activity, &inside.condition)? {
            self.turn(activity, line, inside)
        } else {
            Ok(Some(Flow::On))
        }
    }

    /// The body, then the steps.
    #[cycle(statements)]
    fn turn(&self, activity: &mut Activity, line: usize, inside: &Loop) -> RunResult<Option<Flow>>
        requires callable { F.IsAlwaysCallable self.now.body }
        requires bodies { RunsBodies F.Fn self.now }
        ensures run { RunsAs (option_map flow_seen) result (activity_seen activity.new)
            (turn_run (turn_seen (calls_seen self.now) self.now.depth line inside.now)
            (activity_seen activity.old)) }
    {
        match self.statement(activity, &inside.body)? {
            Flow::On => {}
            Flow::Continued => activity.release()?,
            flow => return Ok(Some(flow)),
        }
        self.evaluate_all(activity, &inside.steps)?;
        Ok(None)
    }
}
