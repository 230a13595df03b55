//! What is wrong with a source, as a person reads it: the file, the line and the column, a sentence, the line of the
//! source with a mark under the token at fault, and what helps.
//!
//! It promises that there is a report on a source exactly if it is refused, and that the report is on its first fault,
//! by `check_source`; and that a position is the line and the column of a byte. The sentences beside the code are
//! guesses from the tokens around it, by `ash_outline`, and no contract speaks of them.
//!
//! In reading order: `position`, where a byte is in a text; `finding`, a sentence and its help; `lexical`, `syntactic`
//! and `checked`, with `members`, `arguments`, `mismatch` and `nearest`, the sentences for each fault; `render`, the lines that are
//! printed; `report`, all of it for one source.
#![tactic(auto)]

mod arguments;
mod checked;
mod finding;
mod lexical;
mod members;
mod mismatch;
mod nearest;
pub mod position;
mod render;
pub mod report;
mod syntactic;
