//! How a run ends.

use ash_host::Word;
use ash_meaning::Exception;

/// How a run ends: at its end, or by an exception or a refused tick, with the function and the line of the innermost
/// frame.
#[derive(Drop)]
pub enum Outcome {
    /// At its end, with the value of the function.
    Finished(Option<Word>),
    /// By an exception.
    Exception {
        code: Exception,
        function: String,
        line: usize,
    },
    /// By a refused tick.
    Aborted {
        function: String,
        line: usize,
    },
}
