//! What expressions and places do. Operands and arguments go from left to right.

ghost use Rattle.std.specs.Prelude.{map};
ghost use Rattle.ash_typed.specs.TypedTree.{exprs, Conditional, Update};
ghost use Rattle.ash_typed.specs.TypedTreeViews.{expr_of, place_of};
ghost use Rattle.ash_meaning.specs.OperatorMeaning.{is_true};
ghost use Rattle.ash_meaning.specs.ExpressionMeaning.{expression, location, arguments, lazily};
ghost use Rattle.ash_plain_data.specs.CallRuns.{RunsAs};
ghost use Rattle.ash_plain_world.specs.ActivityViews.{activity_seen};
ghost use Rattle.ash_plain_world.specs.LocationViews.{location_seen};
ghost use Rattle.ash_plain_scripts.specs.EvaluatorViews.{calls_seen};
ghost use Rattle.ash_walked_phrases.specs.WalkedPhrases.{operand_run, operands_run, link_run};
ghost use Rattle.ash_walked_phrases.specs.WalkedPhrases.{links_run, lazies_run, path_run};
ghost use Rattle.ash_walked_phrases.specs.WalkedPhrases.{chain_run, lazy_run, target_run, invocation_run};
ghost use Rattle.ash_plain_scripts.specs.Bodies.{RunsBodies};

use crate::evaluator::Evaluator;
use ash_host::Word;
use ash_plain_data::classes::ModuleCallee;
use ash_plain_data::operators::{altered, converted_by, converted_to, is_true, numeral};
use ash_plain_data::run_error::RunResult;
use ash_plain_world::activity::Activity;
use ash_plain_world::locations::{Location, location_of_member, location_of_variable};
use ash_typed::{
    Calculation, CallTarget, Expr, ExprKind, IntType, Lazy, Link, Method, Operand, Place,
};

impl<F: Fn(&mut Activity, ModuleCallee) -> RunResult<Option<Word>> + Drop> Evaluator<'_, '_, F> {
    #[cycle(expressions)]
    pub(crate) fn expression(&self, activity: &mut Activity, expr: &Expr) -> RunResult<Word>
        requires callable { F.IsAlwaysCallable self.now.body }
        requires bodies { RunsBodies F.Fn self.now }
        ensures run { RunsAs (λ w. w) result (activity_seen activity.new)
            (expression (calls_seen self.now) (expr_of expr.now) (activity_seen activity.old)) }
    {
        match &*expr.kind {
            ExprKind::Number { of, value } => Ok(numeral(*of, *value)),
            ExprKind::Bool(value) => Ok(Word::Bool(*value)),
            ExprKind::Null => Ok(Word::Null),
            ExprKind::This(_) => activity.this_held(),
            ExprKind::Variable(variable) => activity.read_held(location_of_variable(*variable)),
            ExprKind::Path { base, links } => self.path(activity, base, links),
            ExprKind::Convert { conversion, value } => {
                let word = self.expression(activity, value)?;
                Ok(converted_to(conversion.to, word))
            }
            ExprKind::Cast { to, value } => {
                let word = self.expression(activity, value)?;
                Ok(self.cast(activity, *to, word))
            }
            ExprKind::Change { change, operand } => {
                let word = self.expression(activity, operand)?;
                Ok(altered(*change, word))
            }
            ExprKind::Chain { first, operands } => self.chain(activity, first, operands),
            ExprKind::Lazy {
                operator,
                first,
                others,
            } => self.lazy_row(activity, *operator, first, others),
            ExprKind::Conditional {
                condition,
                then,
                otherwise,
            } => self.conditional(activity, condition, then, otherwise),
            ExprKind::Assign { place, value } => {
                let word = self.expression(activity, value)?;
                let location = self.location(activity, place)?;
                activity.store(word, location)
            }
            ExprKind::Update {
                place,
                of,
                calculation,
                value,
            } => self.update(activity, place, *of, *calculation, value),
            ExprKind::Step { place, of, step } => {
                let location = self.location(activity, place)?;
                activity.count_at(*of, *step, location)
            }
            ExprKind::Call {
                target,
                arguments,
                ..
            } => self.target_call(activity, *target, arguments),
        }
    }

    #[cycle(expressions)]
    fn conditional(
        &self,
        activity: &mut Activity,
        condition: &Expr,
        then: &Expr,
        otherwise: &Expr,
    ) -> RunResult<Word>
        requires callable { F.IsAlwaysCallable self.now.body }
        requires bodies { RunsBodies F.Fn self.now }
        ensures run { RunsAs (λ w. w) result (activity_seen activity.new)
            (expression (calls_seen self.now)
            (Conditional (expr_of condition.now) (expr_of then.now) (expr_of otherwise.now))
            (activity_seen activity.old)) }
    {
        let word = self.expression(activity, condition)?;
        if is_true(word) {
            self.expression(activity, then)
        } else {
            self.expression(activity, otherwise)
        }
    }

    /// `place op= value`: the value comes before the place.
    #[cycle(expressions)]
    fn update(
        &self,
        activity: &mut Activity,
        place: &Place,
        of: IntType,
        calculation: Calculation,
        value: &Expr,
    ) -> RunResult<Word>
        requires callable { F.IsAlwaysCallable self.now.body }
        requires bodies { RunsBodies F.Fn self.now }
        ensures run { RunsAs (λ w. w) result (activity_seen activity.new)
            (expression (calls_seen self.now)
            (Update (place_of place.now) of calculation (expr_of value.now))
            (activity_seen activity.old)) }
    {
        let right = self.expression(activity, value)?;
        let location = self.location(activity, place)?;
        activity.update(of, calculation, right, location)
    }

    /// What links make of a value, one after the other.
    #[cycle(expressions)]
    fn links(&self, activity: &mut Activity, base: Word, links: &[Link]) -> RunResult<Word>
        requires callable { F.IsAlwaysCallable self.now.body }
        requires bodies { RunsBodies F.Fn self.now }
        ensures run { RunsAs (λ w. w) result (activity_seen activity.new)
            (links_run (calls_seen self.now) links.now base (activity_seen activity.old)) }
    {
        let mut handle = base;
        for link in links {
            handle = self.link(activity, handle, link)?;
        }
        Ok(handle)
    }

    #[cycle(expressions)]
    fn link(&self, activity: &mut Activity, handle: Word, link: &Link) -> RunResult<Word>
        requires callable { F.IsAlwaysCallable self.now.body }
        requires bodies { RunsBodies F.Fn self.now }
        ensures run { RunsAs (λ w. w) result (activity_seen activity.new)
            (link_run (calls_seen self.now) link.now handle (activity_seen activity.old)) }
    {
        match link {
            Link::Member(member) => {
                let number = activity.object_of(handle)?;
                activity.read_held(location_of_member(*member, number))
            }
            Link::Index { index, .. } => {
                let index = self.expression(activity, index)?;
                let location = activity.element_at(handle, index)?;
                activity.read_held(location)
            }
            Link::Invoke {
                method,
                arguments,
                ..
            } => self.invocation(activity, handle, *method, arguments),
        }
    }

    /// What operators make of a value, one after the other.
    #[cycle(expressions)]
    fn operands(
        &self,
        activity: &mut Activity,
        first: Word,
        operands: &[Operand],
    ) -> RunResult<Word>
        requires callable { F.IsAlwaysCallable self.now.body }
        requires bodies { RunsBodies F.Fn self.now }
        ensures run { RunsAs (λ w. w) result (activity_seen activity.new)
            (operands_run (calls_seen self.now) operands.now first (activity_seen activity.old)) }
    {
        let mut left = first;
        for operand in operands {
            left = self.operand(activity, left, operand)?;
        }
        Ok(left)
    }

    #[cycle(expressions)]
    fn operand(&self, activity: &mut Activity, left: Word, operand: &Operand) -> RunResult<Word>
        requires callable { F.IsAlwaysCallable self.now.body }
        requires bodies { RunsBodies F.Fn self.now }
        ensures run { RunsAs (λ w. w) result (activity_seen activity.new)
            (operand_run (calls_seen self.now) operand.now left (activity_seen activity.old)) }
    {
        let right = self.expression(activity, &operand.value)?;
        let left = converted_by(operand.before, left);
        activity.operate(operand.operation, left, right)
    }

    /// What further operands of a lazy operator make of the value of those before them.
    #[cycle(expressions)]
    fn lazies(
        &self,
        activity: &mut Activity,
        operator: Lazy,
        first: Word,
        others: &[Expr],
    ) -> RunResult<Word>
        requires callable { F.IsAlwaysCallable self.now.body }
        requires bodies { RunsBodies F.Fn self.now }
        ensures run { RunsAs (λ w. w) result (activity_seen activity.new)
            (lazies_run (calls_seen self.now) operator others.now first
            (activity_seen activity.old)) }
    {
        let mut left = first;
        for other in others {
            left = self.lazily(activity, operator, left, other)?;
        }
        Ok(left)
    }

    #[cycle(expressions)]
    fn lazily(
        &self,
        activity: &mut Activity,
        operator: Lazy,
        left: Word,
        right: &Expr,
    ) -> RunResult<Word>
        requires callable { F.IsAlwaysCallable self.now.body }
        requires bodies { RunsBodies F.Fn self.now }
        ensures run { RunsAs (λ w. w) result (activity_seen activity.new)
            (lazily operator (is_true left) (expression (calls_seen self.now) (expr_of right.now))
            (activity_seen activity.old)) }
    {
        match (operator, is_true(left)) {
            (Lazy::And, true) | (Lazy::Or, false) => self.expression(activity, right),
            (Lazy::And, false) => Ok(Word::Bool(false)),
            (Lazy::Or, true) => Ok(Word::Bool(true)),
        }
    }

    /// The object of a member is tested as soon as it is computed; that of an element after the index.
    #[cycle(expressions)]
    fn location(&self, activity: &mut Activity, place: &Place) -> RunResult<Location>
        requires callable { F.IsAlwaysCallable self.now.body }
        requires bodies { RunsBodies F.Fn self.now }
        ensures run { RunsAs location_seen result (activity_seen activity.new)
            (location (calls_seen self.now) (place_of place.now) (activity_seen activity.old)) }
    {
        match place {
            Place::Variable(variable) => Ok(location_of_variable(*variable)),
            Place::Member { object, member } => {
                let handle = self.expression(activity, object)?;
                let number = activity.object_of(handle)?;
                Ok(location_of_member(*member, number))
            }
            Place::Element { array, index, .. } => {
                let handle = self.expression(activity, array)?;
                let index = self.expression(activity, index)?;
                activity.element_at(handle, index)
            }
        }
    }

    /// Arguments go from left to right.
    #[cycle(expressions)]
    fn arguments(&self, activity: &mut Activity, all: &[Expr]) -> RunResult<Vec<Word>>
        requires callable { F.IsAlwaysCallable self.now.body }
        requires bodies { RunsBodies F.Fn self.now }
        ensures run { RunsAs (λ words. words.items) result (activity_seen activity.new)
            (arguments (calls_seen self.now) (exprs (map expr_of all.now))
            (activity_seen activity.old)) }
    {
        let mut words = Vec::with_capacity(self.program.alloc, all.len())?;
        for expr in all {
            let word = self.expression(activity, expr)?;
            words.push(word)?;
        }
        Ok(words)
    }

    /// What links make of the value of an expression.
    #[cycle(expressions)]
    fn path(&self, activity: &mut Activity, base: &Expr, links: &[Link]) -> RunResult<Word>
        requires callable { F.IsAlwaysCallable self.now.body }
        requires bodies { RunsBodies F.Fn self.now }
        ensures run { RunsAs (λ w. w) result (activity_seen activity.new)
            (path_run (calls_seen self.now) (expr_of base.now) links.now
            (activity_seen activity.old)) }
    {
        let handle = self.expression(activity, base)?;
        self.links(activity, handle, links)
    }

    /// What operators make of the value of an expression.
    #[cycle(expressions)]
    fn chain(&self, activity: &mut Activity, first: &Expr, operands: &[Operand]) -> RunResult<Word>
        requires callable { F.IsAlwaysCallable self.now.body }
        requires bodies { RunsBodies F.Fn self.now }
        ensures run { RunsAs (λ w. w) result (activity_seen activity.new)
            (chain_run (calls_seen self.now) (expr_of first.now) operands.now
            (activity_seen activity.old)) }
    {
        let left = self.expression(activity, first)?;
        self.operands(activity, left, operands)
    }

    /// What a lazy operator makes of a row of operands.
    #[cycle(expressions)]
    fn lazy_row(
        &self,
        activity: &mut Activity,
        operator: Lazy,
        first: &Expr,
        others: &[Expr],
    ) -> RunResult<Word>
        requires callable { F.IsAlwaysCallable self.now.body }
        requires bodies { RunsBodies F.Fn self.now }
        ensures run { RunsAs (λ w. w) result (activity_seen activity.new)
            (lazy_run (calls_seen self.now) operator (expr_of first.now) others.now
            (activity_seen activity.old)) }
    {
        let left = self.expression(activity, first)?;
        self.lazies(activity, operator, left, others)
    }

    /// A call, after its arguments.
    #[cycle(expressions)]
    fn target_call(
        &self,
        activity: &mut Activity,
        target: CallTarget,
        exprs: &[Expr],
    ) -> RunResult<Word>
        requires callable { F.IsAlwaysCallable self.now.body }
        requires bodies { RunsBodies F.Fn self.now }
        ensures run { RunsAs (λ w. w) result (activity_seen activity.new)
            (target_run (calls_seen self.now) target exprs.now (activity_seen activity.old)) }
    {
        let args = self.arguments(activity, exprs)?;
        self.call_target(activity, target, args)
    }

    /// A call of a method: the object is tested after the arguments.
    #[cycle(expressions)]
    fn invocation(
        &self,
        activity: &mut Activity,
        handle: Word,
        method: Method,
        exprs: &[Expr],
    ) -> RunResult<Word>
        requires callable { F.IsAlwaysCallable self.now.body }
        requires bodies { RunsBodies F.Fn self.now }
        ensures run { RunsAs (λ w. w) result (activity_seen activity.new)
            (invocation_run (calls_seen self.now) handle method exprs.now
            (activity_seen activity.old)) }
    {
        let args = self.arguments(activity, exprs)?;
        let number = activity.object_of(handle)?;
        self.invoke(activity, method, number, args)
    }
}
