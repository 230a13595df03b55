//! A module that the machine runs.
ghost use Rattle.std.specs.Prelude.{◌≡◌, [], IsTrue};
ghost use Rattle.ash_host.specs.Objects.{handles};

use ash_code::code::Code;
use ash_compile::module::compile;
use ash_context::context::{Context, Left};
use ash_context::outcome::{Outcome, RunFault};
use ash_host::{HostObject, NoMemory, Word};
use ash_objects::Objects;
use ash_plain_data::operators::zero_of;
use ash_run_steps::beginning::Parts;
use ash_typed::{Module, Variables};
use std::alloc::{AllocError, Global};
use std::marker::Model;

/// The slot of the module in the table of objects.
pub const SLOT: u8 = 3;

/// A module with its code, a machine, and what its runs find: each object of the table is held as often as the globals
/// hold it.
#[derive(Drop)]
pub struct Machine<B: HostObject> {
    alloc: Global,
    code: Code,
    context: Context,
    parts: Parts<B>,
}

impl<B: HostObject> Model for Machine<B> {
    ghost use Rattle.std.specs.Prelude.{◌++◌};
    ghost use Rattle.ash_host.specs.Objects.{handles};
    ghost use Rattle.ash_objects.specs.Table.{Table};
    ghost use Rattle.ash_run_steps.specs.RunStates.{HoldsRoots};

    ghost Value = { Table B };

    ghost view = { λ m. m.parts.table };

    ghost invariant = { λ m. HoldsRoots m.parts.table (m.parts.outside.items ++ handles m.parts.globals.items) };
}

/// A machine, and how its last run ended.
pub type Ran<B> = (Machine<B>, Result<Outcome, RunFault>);

fn push_zeros(words: &mut Vec<Word>, declared: &Variables) -> Result<(), AllocError> {
    for global in &declared.initializations {
        words.push(zero_of(global.of))?;
    }
    Ok(())
}

/// What the globals of a module are before its initializers run.
fn zeros(alloc: Global, tree: &Module) -> Result<Vec<Word>, AllocError> {
    let mut words = Vec::new(alloc);
    for declared in &tree.globals {
        push_zeros(&mut words, declared)?;
    }
    Ok(words)
}

/// Whether none of these words is a handle of an object.
fn are_plain(words: &[Word]) -> bool
    ensures none { IsTrue result → handles words.now ≡ [] }
{
    for word in words {
        if let Word::Object(_) = word {
            return false;
        }
    }
    true
}

impl<B: HostObject> Machine<B> {
    /// The machine of a module whose initializers have not run yet, over a table without objects.
    pub fn new(alloc: Global, tree: &Module, table: Objects<B>) -> Result<Machine<B>, NoMemory> {
        let code = compile(alloc, tree, SLOT)?;
        let context = Context::new(alloc, &code)?;
        let globals = zeros(alloc, tree)?;
        if table.len() != 0 || !are_plain(&globals) {
            return Err(NoMemory);
        }
        let parts = Parts {
            table,
            globals,
            outside: Vec::new(alloc),
            events: Vec::new(alloc),
        };
        Ok(Machine {
            alloc,
            code,
            context,
            parts,
        })
    }

    /// Runs a function with arguments that are no handles; behind the last function are the initializers. The events
    /// are those of this run.
    pub fn run(self, function: usize, args: &[Word], budget: u64) -> Ran<B> {
        if !are_plain(args) {
            return (self, Err(RunFault::NotBegun));
        }
        let Machine {
            alloc,
            code,
            mut context,
            mut parts,
        } = self;
        parts.events = Vec::new(alloc);
        let Left { parts, outcome } = context.run(&code, parts, function, args, budget);
        let machine = Machine {
            alloc,
            code,
            context,
            parts,
        };
        (machine, outcome)
    }

    /// Runs the initializers.
    pub fn load(self, budget: u64) -> Ran<B> {
        let init = self.code.parts().functions.len();
        self.run(init, &[], budget)
    }

    /// How many instructions the last run did.
    pub fn steps(&self) -> u128 {
        self.context.steps()
    }

    /// What the last run left.
    pub fn parts(&self) -> &Parts<B> {
        &self.parts
    }
}
