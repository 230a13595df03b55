//! Operators on values, and what is stored at a location.

ghost use Rattle.std.specs.Prelude.{◌≡◌};
ghost use Rattle.ash_meaning.specs.OperatorMeaning.{calculate, operate};
ghost use Rattle.ash_meaning.specs.ExpressionMeaning.{store, update, count_at};
ghost use Rattle.ash_meaning.specs.Functions.{write_field};
ghost use Rattle.ash_plain_data.specs.CallRuns.{RunsAs};
ghost use Rattle.ash_plain_world.specs.ActivityViews.{activity_seen};
ghost use Rattle.ash_plain_world.specs.LocationViews.{location_seen};

use crate::activity::Activity;
use crate::locations::Location;
use ash_host::Word;
use ash_integers::DivisionFault;
use ash_meaning::Exception;
use ash_plain_data::operators::{calculated_by, converted_to, counted, given_by, holds};
use ash_plain_data::run_error::{RunError, RunResult};
use ash_typed::{Calculation, IncrementOp, IntType, Operation};

impl Activity {
    /// What an operator that makes an integer of two gives. A quotient that is refused is an exception.
    pub(crate) fn calculate(
        &self,
        calculation: Calculation,
        left: Word,
        right: Word,
    ) -> RunResult<Word>
        ensures run { RunsAs (λ w. w) result (activity_seen self.now)
            (calculate calculation left right (activity_seen self.now)) }
    {
        match calculated_by(calculation.operator, calculation.of, left, right) {
            Ok(word) => Ok(word),
            Err(DivisionFault::ByZero) => Err(RunError::Raising(Exception::DivideByZero)),
            Err(DivisionFault::Overflow) => Err(RunError::Raising(Exception::DivideOverflow)),
        }
    }

    /// What an operator makes of two operands.
    pub fn operate(&self, operation: Operation, left: Word, right: Word) -> RunResult<Word>
        ensures operated { RunsAs (λ w. w) result (activity_seen self.now)
            (operate operation left right (activity_seen self.now)) }
    {
        match operation {
            Operation::Calculate(calculation) => self.calculate(calculation, left, right),
            Operation::Compare(comparator, of) => Ok(Word::Bool(holds(
                comparator, of, left, right,
            ))),
        }
    }

    /// Stores a value, and gives it.
    pub fn store(&mut self, word: Word, location: Location) -> RunResult<Word>
        ensures stored { RunsAs (λ w. w) result (activity_seen self.new)
            (store word (location_seen location) (activity_seen self.old)) }
    {
        self.write(location, word)?;
        Ok(word)
    }

    /// Stores what an operator makes of what a location holds, converted to its type.
    pub fn update(
        &mut self,
        int_type: IntType,
        calculation: Calculation,
        right: Word,
        location: Location,
    ) -> RunResult<Word>
        ensures updated { RunsAs (λ w. w) result (activity_seen self.new)
            (update int_type calculation right (location_seen location) (activity_seen self.old)) }
    {
        let left = self.read(location)?;
        let word = self.calculate(calculation, converted_to(calculation.of, left), right)?;
        self.store(converted_to(int_type, word), location)
    }

    /// `++` or `--` at a location.
    pub fn count_at(
        &mut self,
        int_type: IntType,
        step: IncrementOp,
        location: Location,
    ) -> RunResult<Word>
        ensures stepped { RunsAs (λ w. w) result (activity_seen self.new)
            (count_at int_type step (location_seen location) (activity_seen self.old)) }
    {
        let old = self.read(location)?;
        let new = counted(step, int_type, old);
        self.write(location, new)?;
        Ok(given_by(step, old, new))
    }

    /// Writes a field of the object whose method runs.
    pub fn write_field(&mut self, place: usize, word: Word) -> RunResult<()>
        ensures written { RunsAs (λ _. tt) result (activity_seen self.new)
            (write_field place word (activity_seen self.old)) }
    {
        let this = self.this();
        let number = self.object_of(this)?;
        self.write(Location::Part { number, place }, word)
    }
}
