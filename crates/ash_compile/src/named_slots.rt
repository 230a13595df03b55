//! Which slots instructions need, and whether what they enter is there.

ghost use Rattle.std.specs.Prelude.{◌≡◌};
ghost use Rattle.ash_compile.specs.ValidCode as valid;

use crate::layout::Layout;
use ash_code::instruction::Instruction;

/// The highest slot of a row of so many, or the first one of none. A number that is too high stays the highest one.
fn highest_in_row(at: usize, count: usize) -> usize
    ensures highest { result ≡ valid.highest_in_row at count }
{
    at.saturating_add(count.saturating_sub(1))
}

/// The highest slot that an instruction names.
pub(crate) fn highest_slot(instruction: Instruction) -> usize
    ensures highest { result ≡ valid.highest_slot instruction }
{
    match instruction {
        Instruction::Load { to, .. }
        | Instruction::This { to }
        | Instruction::ReadGlobal { to, .. }
        | Instruction::ConstructArray { to, .. } => to,
        Instruction::Move { from, to }
        | Instruction::Hold { from, to }
        | Instruction::Alter { from, to, .. }
        | Instruction::Count { from, to, .. }
        | Instruction::Convert { from, to, .. }
        | Instruction::Cast { from, to, .. } => from.max(to),
        Instruction::AddNumber { left, to, .. } => left.max(to),
        Instruction::Calculate {
            left,
            right,
            to,
            ..
        }
        | Instruction::AddInt { left, right, to }
        | Instruction::SubtractInt { left, right, to }
        | Instruction::Compare {
            left,
            right,
            to,
            ..
        } => left.max(right).max(to),
        Instruction::WriteGlobal { from, .. }
        | Instruction::WriteOwnField { from, .. }
        | Instruction::Return { from }
        | Instruction::JumpIfNumber { from, .. } => from,
        Instruction::ReadField { object, to, .. } | Instruction::GetProperty { object, to, .. } => {
            object.max(to)
        }
        Instruction::WriteField { object, from, .. }
        | Instruction::SetProperty { object, from, .. } => object.max(from),
        Instruction::ReadElement { array, index, to } => array.max(index).max(to),
        Instruction::WriteElement { array, index, from } => array.max(index).max(from),
        Instruction::Call { at, .. } | Instruction::Construct { at, .. } => at,
        Instruction::CallMethod { object, at, .. }
        | Instruction::CallInterface { object, at, .. } => object.max(at),
        Instruction::ConstructArrayOf { len, to, .. } => len.max(to),
        Instruction::Length { array, to }
        | Instruction::IsEmpty { array, to }
        | Instruction::RemoveLast { array, to } => array.max(to),
        Instruction::Resize { array, len, to } => array.max(len).max(to),
        Instruction::InsertLast { array, from, to } => array.max(from).max(to),
        Instruction::ConstructHost { at, count, .. } | Instruction::CallService { at, count, .. } =>
            highest_in_row(at, count),
        Instruction::CallHost {
            object,
            at,
            count,
            ..
        } => object.max(highest_in_row(at, count)),
        Instruction::JumpIf { condition, .. }
        | Instruction::JumpUnless { condition, .. }
        | Instruction::Branch { condition, .. } => condition,
        Instruction::BranchUnless { left, right, .. }
        | Instruction::LoopWhile { left, right, .. } => left.max(right),
        Instruction::ReturnNothing
        | Instruction::ReturnThis
        | Instruction::Tick { .. }
        | Instruction::EndExpression
        | Instruction::EndAndTick { .. }
        | Instruction::Declare
        | Instruction::DeclareAndEnd
        | Instruction::LeaveBlocks { .. }
        | Instruction::Release
        | Instruction::EndBlock { .. }
        | Instruction::Jump { .. }
        | Instruction::Loop { .. } => 0,
    }
}

/// Whether the layout has the function or the class whose code an instruction enters, if it enters any.
pub(crate) fn has_callee(layout: &Layout, instruction: Instruction) -> bool
    ensures has { result ≡ valid.has_callee layout.now instruction }
{
    match instruction {
        Instruction::Call { function, .. } | Instruction::CallMethod { function, .. } => {
            function < layout.parameters.len()
        }
        Instruction::Construct { class, .. } => class < layout.constructors.len(),
        _ => true,
    }
}

/// The number of a place, or zero.
fn count_at(counts: &[usize], place: usize) -> usize
    ensures count { result ≡ valid.count_at counts.now place }
{
    counts.get(place).copied().unwrap_or(0)
}

/// The highest slot of the arguments of the function that an instruction enters.
pub(crate) fn highest_argument(layout: &Layout, instruction: Instruction) -> usize
    ensures highest { result ≡ valid.highest_argument layout.now instruction }
{
    match instruction {
        Instruction::Call { function, at } | Instruction::CallMethod { function, at, .. } => {
            highest_in_row(at, count_at(&layout.parameters, function))
        }
        Instruction::Construct { class, at } => {
            highest_in_row(at, count_at(&layout.constructors, class))
        }
        _ => 0,
    }
}
