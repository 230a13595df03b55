//! Phrases in the form in which code walks them: typed trees nest, and code goes over lists.
//!
//! `a + b + c` is an operator in an operator in its tree, and one list of operands where it is walked; so are the links
//! of a path, the operands of `&&`, arguments, turns of a loop and labels of a `switch`. The definitions are in
//! `specs/`: `WalkedPhrases` (what the rest of such a list does, after what came before it) and `WalkedLaws` (that this
//! is what the tree means). An evaluator and a compiler both go by them. The crate has laws and no code.
#![tactic(auto)]

pub mod laws;
