//! What the two files of a store hold, for people who look at it, also if it is damaged. It uses `ash_journal`, which
//! reads a file, and `ash_replay`, which reads the state that it leads to, over files in memory. Nothing here writes.
//! It promises which file is current, and that what is reported of each is what it holds: its generation, its whole
//! records, and a state to which the first of them lead. If no damage is reported, the file is whole, and the state is
//! that of all its records; and damage that is reported is there. Of what lies behind a closed gate, of the findings and
//! of files of the system it promises nothing.
//!
//! In reading order: `store` (both files), `report` (one of them), `hidden` (what lies behind its last gate), `header`,
//! `generation`, `reading` and `known` (what they are made of), `finding` (what is to be said of a store), `folder`
//! (the files of a folder), `file_fault`. The words of the clauses are in `specs/Reports`, `specs/Files` and
//! `specs/Known`.
#![tactic(auto)]

mod file_fault;
mod finding;
mod folder;
mod generation;
mod header;
mod hidden;
mod known;
mod reading;
mod report;
mod store;

pub use file_fault::FileFault;
pub use finding::{Finding, any_is_damage, findings, is_damaged};
pub use folder::{FILE_LIMIT, FolderFault, StoreFiles, read_store};
pub use generation::{Generation, read_generation};
pub use header::{Header, header_of, marked_behind};
pub use hidden::{Hidden, answers_of, hidden_in};
pub use known::{KnownState, last_known};
pub use reading::{Reading, read_open};
pub use report::{Damage, FileReport, OpenFile, report_of};
pub use store::{Current, Side, StoreReport, current_of, inspect};
