//! How statements are left.

ghost use Rattle.std.specs.Prelude.{◌≡◌};
ghost use Rattle.ash_meaning.specs.StatementMeaning.{end_block, after_break};
ghost use Rattle.ash_meaning.specs.Functions.{value_of};
ghost use Rattle.ash_plain_data.specs.CallRuns.{RunsAs};
ghost use Rattle.ash_plain_world.specs.ActivityViews.{activity_seen};
ghost use Rattle.ash_plain_world.specs.FlowViews.{flow_seen};

use crate::activity::Activity;
use ash_host::Word;
use ash_plain_data::run_error::RunResult;

/// How a statement is left: on to the next, out of a loop or a `switch`, to the next turn of a loop, or out of the
/// function, with its value where it has one.
#[derive(Clone, Copy)]
pub enum Flow {
    /// On to the next statement.
    On,
    /// Out of a loop or a `switch`.
    Broke,
    /// To the next turn of a loop.
    Continued,
    /// Out of the function, with its value.
    Returned(Option<Word>),
}

impl Flow {
    /// The value of a function; one that comes to the end of its body has none.
    pub fn value(self) -> Option<Word>
        ensures returned { result ≡ value_of (flow_seen self) }
    {
        match self {
            Flow::Returned(value) => value,
            Flow::On | Flow::Broke | Flow::Continued => None,
        }
    }
}

impl Activity {
    /// A block that ends by itself is a release point. Those that are left by a jump end together, where the jump
    /// leads.
    pub fn end_block(&mut self, flow: Flow) -> RunResult<Flow>
        ensures ended { RunsAs flow_seen result (activity_seen self.new)
            (end_block (flow_seen flow) (activity_seen self.old)) }
    {
        if let Flow::On = flow {
            self.release()?;
        }
        Ok(flow)
    }

    /// A `break` leads past the loop or the `switch`, where the blocks that it leaves end together.
    pub fn after_break(&mut self, flow: Flow) -> RunResult<Flow>
        ensures passed { RunsAs flow_seen result (activity_seen self.new)
            (after_break (flow_seen flow) (activity_seen self.old)) }
    {
        if let Flow::Broke = flow {
            self.release()?;
            return Ok(Flow::On);
        }
        Ok(flow)
    }
}
