//! Full expressions of statements: what is done with a value before the expression ends.

ghost use Rattle.std.specs.Prelude.{map, option_map};
ghost use Rattle.ash_typed.specs.TypedTreeViews.{expr_of};
ghost use Rattle.ash_typed.specs.BodyViews.{value_of, head_of};
ghost use Rattle.ash_meaning.specs.StatementMeaning.{declare_one, declare_all, evaluate};
ghost use Rattle.ash_meaning.specs.StatementMeaning.{evaluate_all, condition};
ghost use Rattle.ash_meaning.specs.StatementMeaning.{condition_or_true, begin, return_value};
ghost use Rattle.ash_plain_data.specs.CallRuns.{RunsAs};
ghost use Rattle.ash_plain_world.specs.ActivityViews.{activity_seen};
ghost use Rattle.ash_plain_world.specs.FlowViews.{flow_seen};
ghost use Rattle.ash_plain_scripts.specs.EvaluatorViews.{calls_seen};
ghost use Rattle.ash_plain_scripts.specs.Bodies.{RunsBodies};

use crate::evaluator::Evaluator;
use ash_host::Word;
use ash_plain_data::classes::ModuleCallee;
use ash_plain_data::operators::{is_true, zero_of};
use ash_plain_data::run_error::RunResult;
use ash_plain_world::activity::Activity;
use ash_plain_world::flow::Flow;
use ash_typed::{Expr, Head, Initialization};

impl<F: Fn(&mut Activity, ModuleCallee) -> RunResult<Option<Word>> + Drop> Evaluator<'_, '_, F> {
    /// A variable is zero, `false` or null, or has a value, which it gets before the full expression ends.
    fn declare_one(&self, activity: &mut Activity, variable: &Initialization) -> RunResult<()>
        requires callable { F.IsAlwaysCallable self.now.body }
        requires bodies { RunsBodies F.Fn self.now }
        ensures run { RunsAs (λ _. tt) result (activity_seen activity.new)
            (declare_one (calls_seen self.now) (value_of variable.now)
            (activity_seen activity.old)) }
    {
        match &variable.value {
            None => {
                activity.declare(zero_of(variable.of))?;
                Ok(())
            }
            Some(value) => {
                let word = self.expression(activity, value)?;
                activity.declare(word)?;
                activity.end_expression()
            }
        }
    }

    pub(crate) fn declare_all(
        &self,
        activity: &mut Activity,
        variables: &[Initialization],
    ) -> RunResult<()>
        requires callable { F.IsAlwaysCallable self.now.body }
        requires bodies { RunsBodies F.Fn self.now }
        ensures run { RunsAs (λ _. tt) result (activity_seen activity.new)
            (declare_all (calls_seen self.now) (map value_of variables.now)
            (activity_seen activity.old)) }
    {
        for variable in variables {
            self.declare_one(activity, variable)?;
        }
        Ok(())
    }

    pub(crate) fn evaluate(&self, activity: &mut Activity, expr: &Expr) -> RunResult<()>
        requires callable { F.IsAlwaysCallable self.now.body }
        requires bodies { RunsBodies F.Fn self.now }
        ensures run { RunsAs (λ _. tt) result (activity_seen activity.new)
            (evaluate (calls_seen self.now) (expr_of expr.now) (activity_seen activity.old)) }
    {
        self.expression(activity, expr)?;
        activity.end_expression()
    }

    pub(crate) fn evaluate_all(&self, activity: &mut Activity, exprs: &[Expr]) -> RunResult<()>
        requires callable { F.IsAlwaysCallable self.now.body }
        requires bodies { RunsBodies F.Fn self.now }
        ensures run { RunsAs (λ _. tt) result (activity_seen activity.new)
            (evaluate_all (calls_seen self.now) (map expr_of exprs.now)
            (activity_seen activity.old)) }
    {
        for expr in exprs {
            self.evaluate(activity, expr)?;
        }
        Ok(())
    }

    pub(crate) fn condition(&self, activity: &mut Activity, expr: &Expr) -> RunResult<bool>
        requires callable { F.IsAlwaysCallable self.now.body }
        requires bodies { RunsBodies F.Fn self.now }
        ensures run { RunsAs (λ b. b) result (activity_seen activity.new)
            (condition (calls_seen self.now) (expr_of expr.now) (activity_seen activity.old)) }
    {
        let word = self.expression(activity, expr)?;
        activity.end_expression()?;
        Ok(is_true(word))
    }

    /// An absent condition is `true`.
    pub(crate) fn condition_or_true(
        &self,
        activity: &mut Activity,
        expr: &Option<Expr>,
    ) -> RunResult<bool>
        requires callable { F.IsAlwaysCallable self.now.body }
        requires bodies { RunsBodies F.Fn self.now }
        ensures run { RunsAs (λ b. b) result (activity_seen activity.new)
            (condition_or_true (calls_seen self.now) (option_map expr_of expr.now)
            (activity_seen activity.old)) }
    {
        match expr {
            None => Ok(true),
            Some(expr) => self.condition(activity, expr),
        }
    }

    /// The head of a `for`, whose parts take no tick.
    pub(crate) fn begin(&self, activity: &mut Activity, head: &Head) -> RunResult<()>
        requires callable { F.IsAlwaysCallable self.now.body }
        requires bodies { RunsBodies F.Fn self.now }
        ensures run { RunsAs (λ _. tt) result (activity_seen activity.new)
            (begin (calls_seen self.now) (head_of head.now) (activity_seen activity.old)) }
    {
        match head {
            Head::Empty => Ok(()),
            Head::Declare(variables) => self.declare_all(activity, variables),
            Head::Evaluate(expr) => self.evaluate(activity, expr),
        }
    }

    /// A returned value is not the end of its full expression: it ends with the frame.
    pub(crate) fn return_value(
        &self,
        activity: &mut Activity,
        expr: &Option<Expr>,
    ) -> RunResult<Flow>
        requires callable { F.IsAlwaysCallable self.now.body }
        requires bodies { RunsBodies F.Fn self.now }
        ensures run { RunsAs flow_seen result (activity_seen activity.new)
            (return_value (calls_seen self.now) (option_map expr_of expr.now)
            (activity_seen activity.old)) }
    {
        match expr {
            None => Ok(Flow::Returned(None)),
            Some(expr) => {
                let word = self.expression(activity, expr)?;
                Ok(Flow::Returned(Some(word)))
            }
        }
    }
}
