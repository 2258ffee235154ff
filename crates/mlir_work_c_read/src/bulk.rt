//! Reads of many operations, or of many values, by one call. Each writes as many items as there is space for, and returns
//! how many it wrote.
ghost use Rattle.std.specs.Prelude.{◌≡◌, ◌≤◌, ◌+◌, length, map, min};
ghost use Rattle.mlir_work_c_read.specs.Filled.{over, over_from};
ghost use Rattle.mlir_work_c_read.specs.Numbers.{numbers_of};
ghost use Rattle.mlir_work_c_read.specs.Operations.{tree_in};
ghost use Rattle.mlir_work_c_read.specs.Bulk.{WritesFirst, WritesValueUses, all_operands, head_of, operands_of, type_number, use_of};

use crate::numbers::{
    Counts, Head, ValueNumbers, ValueUse, no_number, number_or_none, numbers_of, value_of,
};
use crate::operations::{counts_in, type_of};
use ir_event::store::uses::UsesOf;
use ir_event::trees::value::Value;
use ir_event::types::ids::OpId;
use ir_event::world::World;

/// Writes the names and the counts of operations.
pub fn write_heads(world: &World, ops: &[u32], into: &mut [Head]) -> usize
    ensures { WritesFirst (map (head_of (tree_in world.now)) ops.now) into.old into.new result }
{
    let count = ops.len().min(into.len());
    write_each_head(world, ops, into);
    count
}

/// Writes the names and the counts of operations, as many as there is space for.
fn write_each_head(world: &World, ops: &[u32], into: &mut [Head])
    ensures { into.new ≡ over (map (head_of (tree_in world.now)) ops.now) into.old }
{
    let mut rest = ops;
    for head in into {
        let [op, tail @ ..] = rest else {
            return;
        };
        *head = head_of(world, OpId::new(*op));
        rest = tail;
    }
}

/// Returns the name and the counts of an operation.
fn head_of(world: &World, op: OpId) -> Head
    ensures { result ≡ head_of (tree_in world.now) op }
{
    let Some(node) = world.shown(op) else {
        return Head {
            name: no_number(),
            counts: Counts {
                operands: 0,
                results: 0,
                properties: 0,
                attributes: 0,
                regions: 0,
            },
        };
    };
    Head {
        name: u64::from(node.name().number()),
        counts: counts_in(&node),
    }
}

/// Writes the operands of operations, one operation after the other.
pub fn write_operands(world: &World, ops: &[u32], into: &mut [ValueNumbers]) -> usize
    ensures { WritesFirst (all_operands (tree_in world.now) ops.now) into.old into.new result }
{
    let mut at = 0;
    let mut rest = ops;
    'ops: while let [op, tail @ ..] = rest {
        at = write_operands_of(world, OpId::new(*op), into, at);
        rest = tail;
    }
    at
}

/// Writes the operands of an operation from a place on, and returns the place after the last one.
fn write_operands_of(world: &World, op: OpId, into: &mut [ValueNumbers], at: usize) -> usize
    requires { at ≤ length into.old }
    ensures written { into.new ≡ over_from at (operands_of (tree_in world.now) op) into.old }
    ensures count { result ≡ min (at + length (operands_of (tree_in world.now) op)) (length into.old) }
{
    let Some(node) = world.shown(op) else {
        return at;
    };
    write_values(node.operands(), into, at)
}

/// Writes values from a place on, and returns the place after the last one.
fn write_values(values: &[Value], into: &mut [ValueNumbers], at: usize) -> usize
    requires { at ≤ length into.old }
    ensures written { into.new ≡ over_from at (map numbers_of values.now) into.old }
    ensures count { result ≡ min (at + length values.now) (length into.old) }
{
    let count = values.len().min(into.len() - at);
    write_each_value(values, &mut into[at..]);
    at + count
}

/// Writes values as numbers, as many as there is space for.
fn write_each_value(values: &[Value], into: &mut [ValueNumbers])
    ensures { into.new ≡ over (map numbers_of values.now) into.old }
{
    let mut rest = values;
    for numbers in into {
        let [value, tail @ ..] = rest else {
            return;
        };
        *numbers = numbers_of(*value);
        rest = tail;
    }
}

/// Writes the types of values: their numbers, and 2^64 - 1 for a value that the module doesn't have.
pub fn write_types(world: &World, values: &[ValueNumbers], into: &mut [u64]) -> usize
    ensures { WritesFirst (map (type_number (tree_in world.now)) values.now) into.old into.new result }
{
    let count = values.len().min(into.len());
    write_each_type(world, values, into);
    count
}

/// Writes the types of values, as many as there is space for.
fn write_each_type(world: &World, values: &[ValueNumbers], into: &mut [u64])
    ensures { into.new ≡ over (map (type_number (tree_in world.now)) values.now) into.old }
{
    let mut rest = values;
    for number in into {
        let [value, tail @ ..] = rest else {
            return;
        };
        *number = number_or_none(type_of(world, value_of(value)));
        rest = tail;
    }
}

/// Writes the uses of values, one value after the other; those of one value in any order.
pub fn write_value_uses(world: &World, values: &[ValueNumbers], into: &mut [ValueUse]) -> usize
    ensures { WritesValueUses values.now (tree_in world.now) into.old into.new result }
{
    let mut at = 0;
    let mut index = 0;
    let mut rest = values;
    'values: while let [value, tail @ ..] = rest {
        at = write_uses_of(world.store.uses(value_of(value)), index, into, at);
        index += 1;
        rest = tail;
    }
    at
}

/// Writes the uses of the value of an index from a place on, and returns the place after the last one.
fn write_uses_of(uses: UsesOf<'_>, index: usize, into: &mut [ValueUse], at: usize) -> usize
    requires { at ≤ length into.old }
    ensures written { into.new ≡ over_from at (map (use_of index) uses.entry) into.old }
    ensures count { result ≡ min (at + length uses.entry) (length into.old) }
{
    let count = uses.len().min(into.len() - at);
    write_each_use(uses, index, &mut into[at..]);
    at + count
}

/// Writes the uses of the value of an index, as many as there is space for.
fn write_each_use(uses: UsesOf<'_>, index: usize, into: &mut [ValueUse])
    ensures { into.new ≡ over (map (use_of index) uses.entry) into.old }
{
    let mut rest = uses;
    for entry in into {
        let Some((op, operand)) = rest.next() else {
            return;
        };
        *entry = ValueUse {
            value: index,
            operation: op.number(),
            operand,
        };
    }
}
