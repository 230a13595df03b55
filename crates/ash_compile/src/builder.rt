//! The code of a function while it is written.
//!
//! What is written is valid all along: each instruction leads to a place of the code or to its end, back only by a
//! tick, and enters a function that the layout has. A jump whose target is not known yet leads behind itself. How many
//! slots a frame needs is counted as instructions are written.

ghost use Rattle.std.specs.Prelude.{◌≡◌, ◌<◌, ◌≤◌, ◌+◌, ◌^◌, [], IfOk, IfSome};
ghost use Rattle.ash_compile.specs.Emission.{code_of, end_of, Puts, Leads};
ghost use Rattle.ash_compile.specs.EmittedFrames.{IsFinished};
ghost use Rattle.ash_compile.specs.ValidCode.{MayStand, IsEnd, IsValidCode, highest_used};
ghost use Rattle.ash_compile.specs.declared.builder.Written.{Written as WrittenData};

use crate::layout::Layout;
use crate::named_slots::{highest_argument, highest_slot};
use ash_code::code::FunctionCode;
use ash_code::instruction::Instruction;
use std::alloc::{AllocError, Global};
use std::marker::Model;
use std::mem;

/// Code that is written, as far as it is known what it does.
#[derive(Drop)]
pub struct Written {
    pub instructions: Vec<Instruction>,
    /// How many slots the phrases use.
    pub slots: usize,
    /// Where the code of what it calls stands.
    pub layout: Layout,
}

/// Code that is being written. Instructions are appended; only the target of a jump is written later.
#[derive(Drop)]
pub struct CodeBuilder {
    written: Written,
    /// The highest slot that an instruction names, or that an argument of it is in.
    highest: usize,
}

impl Model for CodeBuilder {
    ghost use Rattle.ash_compile.specs.declared.builder.Written.{Written};

    ghost Value = { Written };

    ghost use Rattle.ash_compile.specs.ValidCode.{AllPlaced};

    ghost view = { λ b. b.written };

    ghost invariant = { λ b. AllPlaced b.written b.highest };
}

/// How many slots a frame has, if phrases use so many and this is the highest one that an instruction names.
fn slots_from(used: usize, highest: usize) -> Result<usize, AllocError>
    ensures used { IfOk result (λ slots. used ≤ slots) }
    ensures named { IfOk result (λ slots. (highest < slots) × (slots < 2 ^ 64)) }
{
    let named = highest.checked_add(1).ok_or(AllocError)?;
    Ok(used.max(named))
}

/// The highest slot that an instruction needs.
fn highest_used(layout: &Layout, instruction: Instruction) -> usize
    ensures highest { result ≡ highest_used layout.now instruction }
{
    highest_slot(instruction).max(highest_argument(layout, instruction))
}

impl CodeBuilder {
    /// No code yet, of a module with this layout.
    pub fn new(alloc: Global, layout: Layout) -> CodeBuilder
        ensures layout { result.layout ≡ layout }
    {
        CodeBuilder {
            written: Written {
                instructions: Vec::new(alloc),
                slots: 0,
                layout,
            },
            highest: 0,
        }
    }

    /// Where the code of what it calls stands.
    pub fn layout(&self) -> &Layout
        ensures layout { result.now ≡ self.now.layout }
    {
        &self.written.layout
    }

    /// Appends an instruction that uses a slot.
    ///
    /// # Errors
    ///
    /// If there is no memory, or no slot after this one.
    pub fn put(&mut self, slot: usize, instruction: Instruction) -> Result<(), AllocError>
        requires stands { MayStand self.old.layout (end_of self.old + 1) (end_of self.old) instruction }
        ensures puts { IfOk result (λ u. Puts self.old self.new slot instruction) }
    {
        let slots = slot.checked_add(1).ok_or(AllocError)?;
        let highest = highest_used(&self.written.layout, instruction);
        self.written.instructions.push(instruction)?;
        self.written.slots = self.written.slots.max(slots);
        self.highest = self.highest.max(highest);
        Ok(())
    }

    /// The place of the next instruction.
    pub fn here(&self) -> usize
        ensures place { result ≡ end_of self.now }
    {
        self.written.instructions.len()
    }

    /// The place behind the next instruction. A jump leads there until its target is known.
    pub fn behind(&self) -> usize
        ensures place { result ≡ end_of self.now + 1 }
    {
        self.written.instructions.len() + 1
    }

    /// Writes a jump again, once its target is known.
    pub fn lead(&mut self, at: usize, jump: Instruction)
        requires there { at < end_of self.old }
        requires stands { MayStand self.old.layout (end_of self.old) at jump }
        ensures leads { Leads self.old self.new at jump }
    {
        let highest = highest_used(&self.written.layout, jump);
        self.written.instructions[at] = jump;
        self.highest = self.highest.max(highest);
    }

    /// Begins the code of another function.
    pub(crate) fn clear(&mut self, alloc: Global)
        ensures empty { code_of self.new ≡ [] }
        ensures layout { self.new.layout ≡ self.old.layout }
    {
        self.written.instructions = Vec::new(alloc);
        self.written.slots = 0;
        self.highest = 0;
    }

    /// Ends the code that is written, and takes it.
    ///
    /// # Errors
    ///
    /// If there is no memory, or there are too many slots.
    pub(crate) fn finish(
        &mut self,
        alloc: Global,
        line: u32,
        parameters: usize,
        end: Instruction,
    ) -> Result<FunctionCode, AllocError>
        requires ends { IsEnd end }
        requires stands { MayStand self.old.layout (end_of self.old + 1) (end_of self.old) end }
        ensures finished { IfOk result (λ code. (last : WrittenData) × Puts self.old last parameters end
            × IsFinished last line parameters code) }
        ensures valid { IfOk result (λ code. IsValidCode self.old.layout code) }
        ensures layout { IfOk result (λ code. self.new.layout ≡ self.old.layout) }
    {
        let _ = &self.highest;
        self.put(parameters, end)?;
        let slots = slots_from(self.written.slots, self.highest)?;
        let instructions = mem::replace(&mut self.written.instructions, Vec::new(alloc));
        Ok(FunctionCode {
            line,
            parameters,
            slots,
            instructions,
        })
    }
}
