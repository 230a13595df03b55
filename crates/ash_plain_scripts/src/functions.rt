//! What frames do after the tick of their entry: constructions and bodies of functions, and the initializers of a
//! module.

ghost use Rattle.std.specs.Prelude.{map};
ghost use Rattle.ash_typed.specs.BodyViews.{value_of as variable_of};
ghost use Rattle.ash_typed.specs.Modules.{variables_of};
ghost use Rattle.ash_meaning.specs.Functions.{initialize_field, initialize_fields};
ghost use Rattle.ash_meaning.specs.Functions.{initialize_global};
ghost use Rattle.ash_meaning.specs.Functions.{initialize_globals, initialize_module};
ghost use Rattle.ash_meaning.specs.MeaningLaws.{initialized};
ghost use Rattle.ash_plain_data.specs.ClassViews.{program_seen, callee_seen};
ghost use Rattle.ash_plain_data.specs.CallRuns.{RunsAs};
ghost use Rattle.ash_plain_world.specs.ActivityViews.{activity_seen};
ghost use Rattle.ash_plain_scripts.specs.EvaluatorViews.{calls_seen};
ghost use Rattle.ash_plain_scripts.specs.Bodies.{RunsBodies, body_of_callee};
ghost use Rattle.ash_plain_scripts.specs.Entering.{entry_run};

use crate::evaluator::Evaluator;
use ash_host::Word;
use ash_plain_data::classes::{ModuleCallee, Program, entry_of};
use ash_plain_data::run_error::{RunError, RunResult};
use ash_plain_world::activity::Activity;
use ash_plain_world::locations::Location;
use ash_typed::{Initialization, Variables};

impl<F: Fn(&mut Activity, ModuleCallee) -> RunResult<Option<Word>> + Drop> Evaluator<'_, '_, F> {
    /// A field that has no initializer stays as it is.
    fn initialize_field(
        &self,
        activity: &mut Activity,
        place: usize,
        field: &Initialization,
    ) -> RunResult<()>
        requires callable { F.IsAlwaysCallable self.now.body }
        requires bodies { RunsBodies F.Fn self.now }
        ensures run { RunsAs (λ _. tt) result (activity_seen activity.new)
            (initialize_field (calls_seen self.now) place (variable_of field.now)
            (activity_seen activity.old)) }
    {
        match &field.value {
            None => Ok(()),
            Some(value) => {
                let word = self.expression(activity, value)?;
                activity.write_field(place, word)?;
                activity.end_expression()
            }
        }
    }

    fn initialize_fields(&self, activity: &mut Activity, fields: &[Initialization]) -> RunResult<()>
        requires callable { F.IsAlwaysCallable self.now.body }
        requires bodies { RunsBodies F.Fn self.now }
        ensures run { RunsAs (λ _. tt) result (activity_seen activity.new)
            (initialize_fields (calls_seen self.now) 0 (map variable_of fields.now)
            (activity_seen activity.old)) }
    {
        for (place, field) in fields.iter().enumerate() {
            self.initialize_field(activity, place, field)?;
        }
        Ok(())
    }

    /// What a frame does after the tick of its entry.
    pub(crate) fn run_entry(
        &self,
        activity: &mut Activity,
        callee: ModuleCallee,
    ) -> RunResult<Option<Word>>
        requires callable { F.IsAlwaysCallable self.now.body }
        requires bodies { RunsBodies F.Fn self.now }
        ensures run { RunsAs (λ v. v) result (activity_seen activity.new)
            (entry_run (program_seen self.now.program.now) (calls_seen self.now) self.now.depth
            (callee_seen callee) (activity_seen activity.old)) }
    {
        let Some(entry) = entry_of(self.program.alloc, self.program.tree, callee)? else {
            return Err(RunError::NoStep);
        };
        self.initialize_fields(activity, entry.fields)?;
        let flow = self.statements(activity, entry.body)?;
        Ok(flow.value())
    }

    /// A global that has no initializer stays as it is.
    fn initialize_global(
        &self,
        activity: &mut Activity,
        place: usize,
        global: &Initialization,
    ) -> RunResult<()>
        requires callable { F.IsAlwaysCallable self.now.body }
        requires bodies { RunsBodies F.Fn self.now }
        ensures run { RunsAs (λ _. tt) result (activity_seen activity.new)
            (initialize_global (calls_seen self.now) place (variable_of global.now)
            (activity_seen activity.old)) }
    {
        match &global.value {
            None => Ok(()),
            Some(value) => {
                let word = self.expression(activity, value)?;
                activity.write(Location::Global(place), word)?;
                activity.end_expression()
            }
        }
    }

    /// The globals of one declaration, from a place on.
    fn initialize_globals(
        &self,
        activity: &mut Activity,
        first: usize,
        globals: &[Initialization],
    ) -> RunResult<()>
        requires callable { F.IsAlwaysCallable self.now.body }
        requires bodies { RunsBodies F.Fn self.now }
        ensures run { RunsAs (λ _. tt) result (activity_seen activity.new)
            (initialize_globals (calls_seen self.now) first (map variable_of globals.now)
            (activity_seen activity.old)) }
    {
        let mut place = first;
        for global in globals {
            self.initialize_global(activity, place, global)?;
            // No memory holds so many globals that the next place is too great.
            place = place.checked_add(1).ok_or(RunError::NoMemory)?;
        }
        Ok(())
    }

    /// The globals of a module, with a tick for each declaration.
    fn initialize_module(
        &self,
        activity: &mut Activity,
        declarations: &[Variables],
    ) -> RunResult<()>
        requires callable { F.IsAlwaysCallable self.now.body }
        requires bodies { RunsBodies F.Fn self.now }
        ensures run { RunsAs (λ _. tt) result (activity_seen activity.new)
            (initialize_module (calls_seen self.now) 0 (map variables_of declarations.now)
            (activity_seen activity.old)) }
    {
        let mut place = 0usize;
        for declaration in declarations {
            activity.tick(declaration.line)?;
            self.initialize_globals(activity, place, &declaration.initializations)?;
            place = place
                .checked_add(declaration.initializations.len())
                .ok_or(RunError::NoMemory)?;
        }
        Ok(())
    }
}

/// What the frame of a call does after the tick of its entry, where calls go so deep at most.
#[tactic(auto, using(crate::proofs::Calling::body_deeper, crate::proofs::Calling::body_deepest, crate::proofs::Calling::no_body), unfolding(crate::specs::Bodies::RunsBodies, crate::specs::EvaluatorViews::calls_seen))]
pub(crate) fn body(
    program: &Program<'_>,
    depth: u64,
    activity: &mut Activity,
    callee: ModuleCallee,
) -> RunResult<Option<Word>>
    ensures run { RunsAs (λ v. v) result (activity_seen activity.new)
        (body_of_callee (program_seen program.now) depth (callee_seen callee)
        (activity_seen activity.old)) }
{
    let Some(below) = depth.checked_sub(1) else {
        return match entry_of(program.alloc, program.tree, callee)? {
            Some(_) => Err(RunError::OutOfTicks),
            None => Err(RunError::NoStep),
        };
    };
    let enter = |inside: &mut Activity, called: ModuleCallee| -> RunResult<Option<Word>>
        ensures run { RunsAs (λ v. v) result (activity_seen inside.new)
            (body_of_callee (program_seen program.entry.now) below (callee_seen called)
            (activity_seen inside.old)) }
    { body(program, below, inside, called) };
    let evaluator = Evaluator {
        program: &*program,
        depth: below,
        body: enter,
    };
    evaluator.run_entry(activity, callee)
}

/// The initializers of a module, where calls go so deep at most.
#[tactic(auto, unfolding(crate::specs::Bodies::RunsBodies, crate::specs::EvaluatorViews::calls_seen))]
pub(crate) fn initialize(
    program: &Program<'_>,
    depth: u64,
    activity: &mut Activity,
) -> RunResult<()>
    ensures run { RunsAs (λ _. tt) result (activity_seen activity.new)
        (initialized (program_seen program.now) depth (activity_seen activity.old)) }
{
    let enter = |inside: &mut Activity, called: ModuleCallee| -> RunResult<Option<Word>>
        ensures run { RunsAs (λ v. v) result (activity_seen inside.new)
            (body_of_callee (program_seen program.entry.now) depth (callee_seen called)
            (activity_seen inside.old)) }
    { body(program, depth, inside, called) };
    let evaluator = Evaluator {
        program: &*program,
        depth,
        body: enter,
    };
    evaluator.initialize_module(activity, &program.tree.globals)
}
