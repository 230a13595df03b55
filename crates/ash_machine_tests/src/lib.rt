//! Tests of the machine: scripts that are compiled, and run over the table of objects with real boxes.
//!
//! `checks` compares texts. `rows` runs the worked rows of `ash_script_rows`, and `worked` names them. `beside` runs
//! scripts beside the plain evaluator, with every budget. `counts` has how many instructions runs do, and counts of
//! objects, `limits` what runs out, at and past each limit, `drops` in which order boxes go, `refusals` what is left if
//! memory is refused once.
#![tactic(auto)]

#[cfg(test)]
mod beside;
#[cfg(test)]
mod checks;
#[cfg(test)]
mod counts;
#[cfg(test)]
mod drops;
#[cfg(test)]
mod limits;
#[cfg(test)]
mod refusals;
#[cfg(test)]
mod rows;
#[cfg(test)]
mod worked;
