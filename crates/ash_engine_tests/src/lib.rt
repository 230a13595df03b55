//! Tests of the engine: sessions of requests that it and the plain evaluator handle side by side, over boxes of host
//! objects that note what they are asked. The plain evaluator is handed what the boxes answered. After each request the
//! replies, the events, the boxes that went, and the states are the same. So is the state to which the records lead of
//! what each request changed.
//!
//! `texts` has replies and states as texts, `boxes` the boxes of a session. `both` is an engine beside the plain
//! evaluator, `kept` what a store keeps of the engine, `sessions` what is asked of both, and openings by what is kept.
//! `rows` has the worked rows of `ash_script_rows`; `seeds`, `phrases`, `scripts` and `generated` make scripts and
//! sessions by seeds, and run them.
#![tactic(auto)]

#[cfg(test)]
mod both;
#[cfg(test)]
mod boxes;
#[cfg(test)]
mod generated;
#[cfg(test)]
mod kept;
#[cfg(test)]
mod phrases;
#[cfg(test)]
mod rows;
#[cfg(test)]
mod scripts;
#[cfg(test)]
mod seeds;
#[cfg(test)]
mod sessions;
#[cfg(test)]
mod texts;
