//! The C functions for queries by number. They read or write no text and change nothing.
ghost use Rattle.std.specs.Prelude.{◌≡◌, None, Some};
ghost use Rattle.mlir_work_c.specs.Calls.{IsHeld};
ghost use Rattle.mlir_work_c.specs.Requested.{requested, first_in, has_in, is_requested, last_in, next_in, operand_in, parent_in, prev_in, root_in, IsOptionalValue, WritesUse, uses_in};
ghost use Rattle.mlir_work_c_read.specs.Numbers.{number_of as reported, value_of as show_value};

use crate::handle::Handle;
use ir_event::types::ids::OpId;
use mlir_work_c_read::numbers::{
    UseNumbers, ValueNumbers, no_number, number_of, numbers_of, value_of,
};
use mlir_work_c_read::queries;

/// Returns whether an operation is in the module.
#[unsafe(no_mangle)]
pub extern "C" fn mlir_work_has(held: &mut Handle, operation: u32) -> bool
    requires kept { IsHeld held.old.slot.value }
    ensures same { held.new.slot.value ≡ held.old.slot.value }
    ensures reported { result ≡ is_requested (has_in operation) held.old.slot.value }
{
    if !held.is_open() {
        return false;
    }
    let found = held.slot.as_mut();
    queries::has(found.bench.world(), OpId::new(operation))
}

/// Returns the root operation of the module.
#[unsafe(no_mangle)]
pub extern "C" fn mlir_work_root(held: &mut Handle) -> u64
    requires kept { IsHeld held.old.slot.value }
    ensures same { held.new.slot.value ≡ held.old.slot.value }
    ensures reported { result ≡ reported (requested root_in held.old.slot.value) }
{
    if !held.is_open() {
        return no_number();
    }
    let found = held.slot.as_mut();
    let op = queries::root(found.bench.world());
    number_of(Some(op))
}

/// Returns the parent of an operation.
#[unsafe(no_mangle)]
pub extern "C" fn mlir_work_parent(held: &mut Handle, operation: u32) -> u64
    requires kept { IsHeld held.old.slot.value }
    ensures same { held.new.slot.value ≡ held.old.slot.value }
    ensures reported { result ≡ reported (requested (parent_in operation) held.old.slot.value) }
{
    if !held.is_open() {
        return no_number();
    }
    let found = held.slot.as_mut();
    number_of(queries::parent(found.bench.world(), OpId::new(operation)))
}

/// Returns the next operation in the block.
#[unsafe(no_mangle)]
pub extern "C" fn mlir_work_next(held: &mut Handle, operation: u32) -> u64
    requires kept { IsHeld held.old.slot.value }
    ensures same { held.new.slot.value ≡ held.old.slot.value }
    ensures reported { result ≡ reported (requested (next_in operation) held.old.slot.value) }
{
    if !held.is_open() {
        return no_number();
    }
    let found = held.slot.as_mut();
    number_of(queries::next(found.bench.world(), OpId::new(operation)))
}

/// Returns the previous operation in the block.
#[unsafe(no_mangle)]
pub extern "C" fn mlir_work_previous(held: &mut Handle, operation: u32) -> u64
    requires kept { IsHeld held.old.slot.value }
    ensures same { held.new.slot.value ≡ held.old.slot.value }
    ensures reported { result ≡ reported (requested (prev_in operation) held.old.slot.value) }
{
    if !held.is_open() {
        return no_number();
    }
    let found = held.slot.as_mut();
    number_of(queries::previous(found.bench.world(), OpId::new(operation)))
}

/// Returns the first operation of the block of a region.
#[unsafe(no_mangle)]
pub extern "C" fn mlir_work_first(held: &mut Handle, operation: u32, region: u32) -> u64
    requires kept { IsHeld held.old.slot.value }
    ensures same { held.new.slot.value ≡ held.old.slot.value }
    ensures reported { result ≡ reported (requested (first_in operation region) held.old.slot.value) }
{
    if !held.is_open() {
        return no_number();
    }
    let found = held.slot.as_mut();
    number_of(queries::first(found.bench.world(), OpId::new(operation), region))
}

/// Returns the last operation of the block of a region.
#[unsafe(no_mangle)]
pub extern "C" fn mlir_work_last(held: &mut Handle, operation: u32, region: u32) -> u64
    requires kept { IsHeld held.old.slot.value }
    ensures same { held.new.slot.value ≡ held.old.slot.value }
    ensures reported { result ≡ reported (requested (last_in operation region) held.old.slot.value) }
{
    if !held.is_open() {
        return no_number();
    }
    let found = held.slot.as_mut();
    number_of(queries::last(found.bench.world(), OpId::new(operation), region))
}

/// Gets an operand of an operation. Returns whether the operand exists.
#[unsafe(no_mangle)]
pub extern "C" fn mlir_work_operand(
    held: &mut Handle,
    operation: u32,
    operand: usize,
    value: &mut ValueNumbers,
) -> bool
    requires kept { IsHeld held.old.slot.value }
    ensures same { held.new.slot.value ≡ held.old.slot.value }
    ensures reported { IsOptionalValue (requested (operand_in operation operand) held.old.slot.value) value.old value.new result }
{
    if !held.is_open() {
        return false;
    }
    let found = held.slot.as_mut();
    let operand = queries::operand(found.bench.world(), OpId::new(operation), operand);
    let Some(operand) = operand else {
        return false;
    };
    *value = numbers_of(operand);
    true
}

/// Gets one of the uses of a value. Returns whether there is one.
#[unsafe(no_mangle)]
pub extern "C" fn mlir_work_first_use(
    held: &mut Handle,
    value: &ValueNumbers,
    user: &mut UseNumbers,
) -> bool
    requires kept { IsHeld held.old.slot.value }
    ensures same { held.new.slot.value ≡ held.old.slot.value }
    ensures reported { WritesUse (uses_in (show_value value.now) held.old.slot.value) user.old user.new result }
{
    if !held.is_open() {
        return false;
    }
    let found = held.slot.as_mut();
    let reported = queries::first_use(found.bench.world(), value_of(value));
    let Some((op, operand)) = reported else {
        return false;
    };
    *user = UseNumbers {
        operation: op.number(),
        operand,
    };
    true
}
