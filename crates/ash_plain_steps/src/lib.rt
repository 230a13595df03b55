//! The plain program of states and requests: `plain_step` is proved to come to the step that the definitions of
//! `ash_requests` have.
//!
//! A state has its modules by ascending name, each with the typed tree of its source, and the objects that live. How a
//! source is read is left to the embedding program, by the trait `SourceReader` of `ash_requests`. Each function is
//! proved to give what the definition gives that its contract names, and each type to represent what the definitions
//! speak of, by the functions of `specs/` whose names end in `_seen`; `AreConsistent` says what is known of the modules
//! of a state. Where memory is refused before the state changes, a request is refused and all is as it was. Where it is
//! refused later, in a load, a call or a removal, there is neither a step nor a state.
//!
//! In reading order: `state`, `step` (what a request comes to), `task` (what a request asks for); `name`, `arguments`,
//! `modules`, `functions` (what a request names, and is handed), `shown` (objects as replies show them);
//! `calls` and `refusals` (what each request asks for, or why it is refused); `runs` (what the tasks do that change the
//! state), `steps`.
#![tactic(auto)]

mod arguments;
mod calls;
mod functions;
pub mod modules;
mod name;
pub mod refusals;
mod runs;
pub mod shown;
pub mod state;
pub mod step;
pub mod steps;
pub mod task;
