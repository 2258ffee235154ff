//! Writes values and predicates in the reason why a user pattern doesn't match.
ghost use Rattle.std.specs.Prelude.{◌≡◌, ◌++◌, OnOk};
ghost use Rattle.ir_event.specs.Modules.{module_in};
ghost use Rattle.greedy.specs.own.Numbers.{predicate_at};
ghost use Rattle.mlir_work_script_base.specs.Values.{value_text};
ghost use Rattle.mlir_work_transforms.specs.WhyPattern.{definition_text, header_at, name_text, number_word, predicate_word, result_text, value_or_nothing};

use crate::pattern_sites::node_of;
use crate::trace_lines::write_op;
use greedy::own::predicates::predicate;
use ir_event::trees::value::Value;
use ir_event::types::ids::OpId;
use ir_event::types::things::name_of;
use ir_event::world::World;
use mlir_work_script_base::cells;
use std::alloc::AllocError;

fn number_word(number: u128) -> &'static [u8]
    ensures { result.now ≡ number_word number }
{
    if number == 0 {
        b"eq"
    } else if number == 1 {
        b"ne"
    } else if number == 2 {
        b"slt"
    } else if number == 3 {
        b"sle"
    } else if number == 4 {
        b"sgt"
    } else if number == 5 {
        b"sge"
    } else if number == 6 {
        b"ult"
    } else if number == 7 {
        b"ule"
    } else if number == 8 {
        b"ugt"
    } else if number == 9 {
        b"uge"
    } else {
        b"none"
    }
}

/// Returns the word of a predicate by its number.
pub(crate) fn predicate_word(number: Option<u128>) -> &'static [u8]
    ensures { result.now ≡ predicate_word number }
{
    match number {
        Some(number) => number_word(number),
        None => b"none",
    }
}

/// Returns the predicate of the operation that defines a value.
pub(crate) fn predicate_of(world: &World, value: &Option<Value>) -> Option<u128>
    ensures { result ≡ predicate_at (module_in world.now).tree value.now }
{
    match node_of(world, value) {
        Some(node) => predicate(&world.ctx, &node),
        None => None,
    }
}

/// Appends a value: `%v3.0`.
pub(crate) fn write_value(text: &mut Vec<u8>, value: Value) -> Result<(), AllocError>
    ensures { OnOk result (text.new.items ≡ text.old.items ++ value_text value) }
{
    cells::write_value(text, value).map_err(|_| AllocError)
}

/// Appends a value, if there is one.
pub(crate) fn write_optional_value(
    text: &mut Vec<u8>,
    value: &Option<Value>,
) -> Result<(), AllocError>
    ensures { OnOk result (text.new.items ≡ text.old.items ++ value_or_nothing value.now) }
{
    match value {
        Some(value) => write_value(text, *value),
        None => Ok(()),
    }
}

/// Appends the name of the operation that defines a value, and a space.
fn write_name(text: &mut Vec<u8>, world: &World, value: &Option<Value>) -> Result<(), AllocError>
    ensures { OnOk result (text.new.items ≡ text.old.items ++ name_text (header_at (module_in world.now).tree value.now)) }
{
    let Some(node) = node_of(world, value) else {
        return Ok(());
    };
    text.extend_from_slice(name_of(&world.ctx, node.name()))?;
    text.extend_from_slice(b" ")
}

/// Appends a first result by its operation, `arith.addi #3`, and another result as a value.
fn write_result(text: &mut Vec<u8>, world: &World, op: OpId, index: u32) -> Result<(), AllocError>
    ensures { OnOk result (text.new.items ≡ text.old.items ++ result_text (module_in world.now).tree op index) }
{
    if index == 0 {
        write_name(text, world, &Some(Value::Result(op, index)))?;
        write_op(text, op)
    } else {
        write_value(text, Value::Result(op, index))
    }
}

/// Appends a value by the operation that defines it, `arith.addi #3`, if the value is a first result.
pub(crate) fn write_definition(
    text: &mut Vec<u8>,
    world: &World,
    value: &Option<Value>,
) -> Result<(), AllocError>
    ensures { OnOk result (text.new.items ≡ text.old.items ++ definition_text (module_in world.now).tree value.now) }
{
    match value {
        Some(Value::Result(op, index)) => write_result(text, world, *op, *index),
        Some(Value::Arg(op, region, index)) => {
            write_value(text, Value::Arg(*op, *region, *index))
        }
        None => Ok(()),
    }
}
