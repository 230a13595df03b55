//! Compiled code of scripts: its instructions, what each does, and which code is valid.
//!
//! A function's code runs in a frame of slots. The locals come first, what is computed comes after them, so that no
//! instruction moves a stack pointer. A local that is declared is the next slot becoming a local. A function that is
//! called has the slots of its caller from its arguments on.
//!
//! `specs/Performing.antt` has a line for each instruction, made of the meaning's own named steps: those lines are what
//! a machine does. `specs/Running.antt` says what is left of a run at a place in the code. The code of a phrase is
//! right if what is left at its place is the phrase and then what is left behind it.
//!
//! Valid code comes to an end: it jumps back only by an instruction that takes a tick, and each function that is called
//! begins with one. It names slots, instructions and functions that are there. A machine still looks: a slot past the
//! last reads null and is not written, as its line says. What depends on how many locals there are is part of the lines
//! too: that the arguments of a call come after the locals, and that there is a slot to declare.
//!
//! Beside its instructions each function has ops, one at each place: the same instructions, small, for the inner loop of
//! a machine.
//!
//! In reading order: `instruction`, `op`, `code`, `sizes`.
#![tactic(auto)]

pub mod code;
pub mod instruction;
pub mod op;
pub mod sizes;
