//! The C functions for edits by number and for marks. Each has the effect of the command of the same name.
ghost use Rattle.std.specs.Prelude.{◌≡◌, None, Some};
ghost use Rattle.rewriter.specs.Commands.{Begin, Commit, Erase, Replace, Rollback, SetOperand};
ghost use Rattle.mlir_work_c.specs.Calls.{IsHeld};
ghost use Rattle.mlir_work_c.specs.Edits.{EditGoes, MoveGoes};
ghost use Rattle.mlir_work_c_read.specs.Numbers.{value_of as show_value};
ghost use Rattle.mlir_work_c.specs.Numbers.{point_of_numbers};

use crate::answer::{Answer, closed, refused};
use crate::edits;
use crate::handle::Handle;
use crate::numbers::{InsertionPointNumbers, point_of};
use ir_event::types::ids::OpId;
use ir_event::types::refusal::Refusal;
use mlir_work_c_read::numbers::{ValueNumbers, value_of};
use std::alloc::Global;

/// `set-operand`: sets an operand of an operation.
#[unsafe(no_mangle)]
pub extern "C" fn mlir_work_set_operand(
    alloc: Global,
    held: &mut Handle,
    operation: u32,
    operand: u32,
    value: &ValueNumbers,
    answer: &mut Answer,
)
    requires kept { IsHeld held.old.slot.value }
    ensures goes { EditGoes held.old.slot.value (SetOperand operation operand (show_value value.now)) answer.new held.new.slot.value }
    ensures kept { IsHeld held.new.slot.value }
{
    if !held.is_open() {
        *answer = closed();
        return;
    }
    let found = held.slot.as_mut();
    let op = OpId::new(operation);
    *answer = edits::set_operand(alloc, found, op, operand, value_of(value));
}

/// `replace`: replaces all uses of `old` by `new`.
#[unsafe(no_mangle)]
pub extern "C" fn mlir_work_replace(
    alloc: Global,
    held: &mut Handle,
    old: &ValueNumbers,
    new: &ValueNumbers,
    answer: &mut Answer,
)
    requires kept { IsHeld held.old.slot.value }
    ensures goes { EditGoes held.old.slot.value (Replace (show_value old.now) (show_value new.now)) answer.new held.new.slot.value }
    ensures kept { IsHeld held.new.slot.value }
{
    if !held.is_open() {
        *answer = closed();
        return;
    }
    let found = held.slot.as_mut();
    *answer = edits::replace(alloc, found, value_of(old), value_of(new));
}

/// `erase`: erases an operation and everything inside it.
#[unsafe(no_mangle)]
pub extern "C" fn mlir_work_erase(
    alloc: Global,
    held: &mut Handle,
    operation: u32,
    answer: &mut Answer,
)
    requires kept { IsHeld held.old.slot.value }
    ensures goes { EditGoes held.old.slot.value (Erase operation) answer.new held.new.slot.value }
    ensures kept { IsHeld held.new.slot.value }
{
    if !held.is_open() {
        *answer = closed();
        return;
    }
    let found = held.slot.as_mut();
    *answer = edits::erase(alloc, found, OpId::new(operation));
}

/// `move`: moves an operation and everything inside it. An insertion point of unknown kind is refused as a bad
/// command.
#[unsafe(no_mangle)]
pub extern "C" fn mlir_work_move(
    alloc: Global,
    held: &mut Handle,
    operation: u32,
    point: &InsertionPointNumbers,
    answer: &mut Answer,
)
    requires kept { IsHeld held.old.slot.value }
    ensures goes { MoveGoes held.old.slot.value operation (point_of_numbers point.now) answer.new held.new.slot.value }
    ensures kept { IsHeld held.new.slot.value }
{
    if !held.is_open() {
        *answer = closed();
        return;
    }
    let found = held.slot.as_mut();
    let Some(point) = point_of(point) else {
        *answer = refused(Refusal::BadCommand);
        return;
    };
    *answer = edits::move_op(alloc, found, OpId::new(operation), point);
}

/// `begin`: makes a mark of the module.
#[unsafe(no_mangle)]
pub extern "C" fn mlir_work_begin(alloc: Global, held: &mut Handle, answer: &mut Answer)
    requires kept { IsHeld held.old.slot.value }
    ensures goes { EditGoes held.old.slot.value Begin answer.new held.new.slot.value }
    ensures kept { IsHeld held.new.slot.value }
{
    if !held.is_open() {
        *answer = closed();
        return;
    }
    let found = held.slot.as_mut();
    *answer = edits::begin(alloc, found);
}

/// `commit`: drops the newest mark and keeps the edits since it.
#[unsafe(no_mangle)]
pub extern "C" fn mlir_work_commit(alloc: Global, held: &mut Handle, answer: &mut Answer)
    requires kept { IsHeld held.old.slot.value }
    ensures goes { EditGoes held.old.slot.value Commit answer.new held.new.slot.value }
    ensures kept { IsHeld held.new.slot.value }
{
    if !held.is_open() {
        *answer = closed();
        return;
    }
    let found = held.slot.as_mut();
    *answer = edits::commit(alloc, found);
}

/// `rollback`: undoes all edits since the newest mark, and drops the mark.
#[unsafe(no_mangle)]
pub extern "C" fn mlir_work_rollback(alloc: Global, held: &mut Handle, answer: &mut Answer)
    requires kept { IsHeld held.old.slot.value }
    ensures goes { EditGoes held.old.slot.value Rollback answer.new held.new.slot.value }
    ensures kept { IsHeld held.new.slot.value }
{
    if !held.is_open() {
        *answer = closed();
        return;
    }
    let found = held.slot.as_mut();
    *answer = edits::rollback(alloc, found);
}
