//! Tests of states: what requests make of them, and the bytes that store them. They are apart from the crates with the
//! code, which need not wait for them.
//!
//! Of requests there are the worked rows of `ash_script_rows`: the replies as the program writes them, the events, and
//! the state that is left.
//!
//! `calls` has what host objects and services answer, as `Counter` and `Tally` do; `registered` what is registered;
//! `requests`, `replies` and `states` the texts of a row; `rows` runs them, and `worked` names them. `stored` has the
//! images of whole states.
#![tactic(auto)]

#[cfg(test)]
mod calls;
#[cfg(test)]
mod registered;
#[cfg(test)]
mod replies;
#[cfg(test)]
mod requests;
#[cfg(test)]
mod rows;
#[cfg(test)]
mod states;
#[cfg(test)]
mod stored;
#[cfg(test)]
mod worked;
