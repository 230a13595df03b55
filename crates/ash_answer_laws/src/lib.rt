//! A run takes the first of the answers of hosts, and what is behind those is no part of it: with other answers behind
//! those that it takes, or with none, a phrase, a run, a step or a list of requests comes to the same, and leaves them.
//!
//! So a run can be told from the answers that it took alone, and requests that each took answers of their own are one
//! run over all of them. The definitions are in `specs/`: `TakenAnswers` (which answers a run takes),
//! `ChainedRequests` (requests with a list of answers each). The crate has laws and no code.
#![tactic(auto)]

pub mod laws;
