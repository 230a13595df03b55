//! Calls: of functions, of methods, and of what is constructed.

ghost use Rattle.std.specs.Prelude.{◌≡◌};
ghost use Rattle.ash_meaning.specs.Runs.{Done};
ghost use Rattle.ash_meaning.specs.CallMeaning.{call, construct, class_at, call_through};
ghost use Rattle.ash_meaning.specs.CallMeaning.{invoke, call_target, cast};
ghost use Rattle.ash_plain_data.specs.ClassViews.{program_seen, callee_seen};
ghost use Rattle.ash_plain_data.specs.CallRuns.{RunsAs};
ghost use Rattle.ash_plain_world.specs.ActivityViews.{activity_seen};
ghost use Rattle.ash_plain_scripts.specs.EvaluatorViews.{calls_seen};
ghost use Rattle.ash_plain_scripts.specs.Bodies.{RunsBodies, body_of_callee};
ghost use Rattle.ash_plain_scripts.specs.Entering.{construction_run};

use crate::evaluator::Evaluator;
use ash_host::{Target as HostTarget, Word};
use ash_plain_data::classes::{ModuleCallee, entry_of, implemented};
use ash_plain_data::run_error::{RunError, RunResult};
use ash_plain_world::activity::Activity;
use ash_typed::{CallTarget, Method, ObjectType};

impl<F: Fn(&mut Activity, ModuleCallee) -> RunResult<Option<Word>> + Drop> Evaluator<'_, '_, F> {
    /// What the frame of a call does after the tick of its entry.
    #[tactic(auto, unfolding(crate::specs::Bodies::RunsBodies))]
    fn run_body(&self, activity: &mut Activity, callee: ModuleCallee) -> RunResult<Option<Word>>
        requires callable { F.IsAlwaysCallable self.now.body }
        requires bodies { RunsBodies F.Fn self.now }
        ensures run { RunsAs (λ v. v) result (activity_seen activity.new)
            (body_of_callee (program_seen self.now.program.now) self.now.depth (callee_seen callee)
            (activity_seen activity.old)) }
    {
        (self.body)(activity, callee)
    }

    /// Calls a function, or a method of an object.
    #[tactic(auto, unfolding(crate::specs::EvaluatorViews::calls_seen))]
    pub(crate) fn call(
        &self,
        activity: &mut Activity,
        callee: ModuleCallee,
        this: Word,
        args: Vec<Word>,
    ) -> RunResult<Word>
        requires callable { F.IsAlwaysCallable self.now.body }
        requires bodies { RunsBodies F.Fn self.now }
        ensures run { RunsAs (λ w. w) result (activity_seen activity.new)
            (call (calls_seen self.now) (callee_seen callee) this args.items
            (activity_seen activity.old)) }
    {
        let Some(entry) = entry_of(self.program.alloc, self.program.tree, callee)? else {
            return Err(RunError::NoStep);
        };
        activity.demand_frame()?;
        activity.enter(entry.name, entry.line, this, args)?;
        activity.tick(entry.line)?;
        let value = self.run_body(activity, callee)?;
        activity.leave(value.unwrap_or(Word::Null))
    }

    /// The frame that constructs an object of a class, once the object is made.
    #[tactic(auto, unfolding(crate::specs::EvaluatorViews::calls_seen))]
    fn construct_in(
        &self,
        activity: &mut Activity,
        class: usize,
        number: u64,
        args: Vec<Word>,
    ) -> RunResult<Word>
        requires callable { F.IsAlwaysCallable self.now.body }
        requires bodies { RunsBodies F.Fn self.now }
        ensures run { RunsAs (λ w. w) result (activity_seen activity.new)
            (construction_run (calls_seen self.now) class number args.items
            (activity_seen activity.old)) }
    {
        let callee = ModuleCallee::Construction(class);
        let Some(entry) = entry_of(self.program.alloc, self.program.tree, callee)? else {
            return Err(RunError::NoStep);
        };
        let this = Word::Object(number);
        activity.enter(entry.name, entry.line, this, args)?;
        activity.tick(entry.line)?;
        self.run_body(activity, callee)?;
        activity.leave(this)
    }

    /// Constructs an object of a class, whose frame has it as `this`, and gives it.
    #[tactic(auto, using(crate::proofs::Calling::construct_is, crate::proofs::Calling::no_class), unfolding(crate::specs::EvaluatorViews::calls_seen))]
    fn construct(&self, activity: &mut Activity, class: usize, args: Vec<Word>) -> RunResult<Word>
        requires callable { F.IsAlwaysCallable self.now.body }
        requires bodies { RunsBodies F.Fn self.now }
        ensures run { RunsAs (λ w. w) result (activity_seen activity.new)
            (construct (calls_seen self.now) class args.items (activity_seen activity.old)) }
    {
        let Some(constructed) = self.program.tree.classes.get(class) else {
            return Err(RunError::NoStep);
        };
        activity.demand_frame()?;
        activity.demand_number()?;
        let object = self.program.blank(class, constructed)?;
        let number = activity.make(object)?;
        self.construct_in(activity, class, number, args)
    }

    /// The class of an object.
    #[tactic(auto, unfolding(crate::specs::EvaluatorViews::calls_seen, ash_plain_world::specs::ActivityViews::activity_seen))]
    fn class_at(&self, activity: &Activity, number: u64) -> RunResult<usize>
        ensures run { RunsAs (λ class. class) result (activity_seen activity.now)
            (class_at (calls_seen self.now) number (activity_seen activity.now)) }
    {
        let Some(object) = activity.world.objects.get(number) else {
            return Err(RunError::NoStep);
        };
        self.program.class_of(object).ok_or(RunError::NoStep)
    }

    /// Calls the object's own method for one that an interface declares.
    #[tactic(auto, unfolding(crate::specs::EvaluatorViews::calls_seen))]
    fn call_through(
        &self,
        activity: &mut Activity,
        interface: usize,
        method: usize,
        number: u64,
        args: Vec<Word>,
    ) -> RunResult<Word>
        requires callable { F.IsAlwaysCallable self.now.body }
        requires bodies { RunsBodies F.Fn self.now }
        ensures run { RunsAs (λ w. w) result (activity_seen activity.new)
            (call_through (calls_seen self.now) interface method number args.items
            (activity_seen activity.old)) }
    {
        let class = self.class_at(activity, number)?;
        let Some(place) = implemented(self.program.tree, interface, method, class) else {
            return Err(RunError::NoStep);
        };
        self.call(
            activity,
            ModuleCallee::Method { class, place },
            Word::Object(number),
            args,
        )
    }

    /// Calls a method of an object.
    pub(crate) fn invoke(
        &self,
        activity: &mut Activity,
        method: Method,
        number: u64,
        args: Vec<Word>,
    ) -> RunResult<Word>
        requires callable { F.IsAlwaysCallable self.now.body }
        requires bodies { RunsBodies F.Fn self.now }
        ensures run { RunsAs (λ w. w) result (activity_seen activity.new)
            (invoke (calls_seen self.now) method number args.items (activity_seen activity.old)) }
    {
        match method {
            Method::Script { class, method, .. } => {
                let callee = ModuleCallee::Method {
                    class,
                    place: method,
                };
                self.call(activity, callee, Word::Object(number), args)
            }
            Method::Interface {
                interface,
                method,
                ..
            } => self.call_through(activity, interface, method, number, args),
            Method::Host { id, result: of } => {
                activity.invoke_host(HostTarget::Object(number), id, of, args)
            }
            Method::Array(method) => activity.invoke_array(method, number, &args),
        }
    }

    /// Calls what is named: a function, a service, or a construction.
    #[tactic(auto, unfolding(crate::specs::EvaluatorViews::calls_seen))]
    pub(crate) fn call_target(
        &self,
        activity: &mut Activity,
        target: CallTarget,
        args: Vec<Word>,
    ) -> RunResult<Word>
        requires callable { F.IsAlwaysCallable self.now.body }
        requires bodies { RunsBodies F.Fn self.now }
        ensures run { RunsAs (λ w. w) result (activity_seen activity.new)
            (call_target (calls_seen self.now) target args.items (activity_seen activity.old)) }
    {
        match target {
            CallTarget::Function { function, .. } => {
                self.call(activity, ModuleCallee::Function(function), Word::Null, args)
            }
            CallTarget::Service {
                service,
                id,
                result: of,
            } => activity.invoke_host(HostTarget::Service(service), id, of, args),
            CallTarget::Class(class) => self.construct(activity, class, args),
            CallTarget::Host(kind) => activity.construct_host(kind, args),
            CallTarget::Array(of) => {
                let of = self.program.element_of(of)?;
                activity.construct_array(of, &args)
            }
        }
    }

    /// A cast gives the object where it is of the type, and else null.
    #[tactic(auto, unfolding(crate::specs::EvaluatorViews::calls_seen, ash_plain_world::specs::ActivityViews::activity_seen))]
    pub(crate) fn cast(&self, activity: &Activity, to: ObjectType, word: Word) -> Word
        ensures value { cast (calls_seen self.now).program to word (activity_seen activity.now)
            ≡ Done result (activity_seen activity.now) }
    {
        let Word::Object(number) = word else {
            return Word::Null;
        };
        match activity.world.objects.get(number) {
            Some(object) if self.program.is_object_of(to, object) => word,
            _ => Word::Null,
        }
    }
}
