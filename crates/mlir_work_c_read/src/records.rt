//! Reads of operations, each with its operands and with the types and the uses of its results, by one call for many
//! operations.
ghost use Rattle.std.specs.Prelude.{◌≡◌, ◌≤◌, ◌∷◌, [], length, map, min};
ghost use Rattle.ir_event.specs.trees.Limits.{most_items};
ghost use Rattle.mlir_work_c_read.specs.Filled.{over_from, WritesFrom};
ghost use Rattle.mlir_work_c_read.specs.Operations.{tree_in};
ghost use Rattle.mlir_work_c_read.specs.Records.{WritesRecord, WritesRecords, operand_item, result_item, result_items, use_item};

use crate::numbers::RecordItem;
use ir_event::store::result_uses::ResultUses;
use ir_event::store::uses::UsesOf;
use ir_event::trees::value::Value;
use ir_event::types::ids::{NameId, OpId, TypeId};
use ir_event::world::World;

/// Writes the records of operations, one operation after the other, as many items as there is space for. Returns how
/// many items it wrote.
pub fn write_records(world: &World, ops: &[u32], into: &mut [RecordItem]) -> usize
    ensures { WritesRecords ops.now (tree_in world.now) into.old into.new result }
{
    let mut at = 0;
    let mut rest = ops;
    'ops: while let [op, tail @ ..] = rest {
        at = write_record(world, OpId::new(*op), into, at);
        rest = tail;
    }
    at
}

/// Writes the record of an operation from a place on, and returns the place after its last item.
#[inline(always)]
fn write_record(world: &World, op: OpId, into: &mut [RecordItem], at: usize) -> usize
    requires { at ≤ length into.old }
    ensures { WritesRecord op (tree_in world.now) at into.old into.new result }
{
    let Some(found) = world.store.op_record(op) else {
        let absent = RecordItem {
            first: 4294967295,
            second: 0,
            third: 0,
        };
        return write_item(absent, into, at);
    };
    let head = item_of(found.name, found.operands.len(), found.results.len());
    let after_head = write_item(head, into, at);
    let after_operands = write_operands(found.operands, into, after_head);
    write_results(&found.uses, found.results, into, after_operands)
}

/// Returns the item of an operation with this name and these counts.
fn item_of(name: NameId, operands: usize, results: usize) -> RecordItem
    requires operands { operands ≤ most_items }
    requires results { results ≤ most_items }
    ensures { result ≡ record { first = name; second = operands; third = results } }
{
    RecordItem {
        first: name.number(),
        second: operands as u32,
        third: results as u32,
    }
}

/// Writes an item to a place, if there is space for it, and returns the place after it.
#[inline(always)]
fn write_item(item: RecordItem, into: &mut [RecordItem], at: usize) -> usize
    requires { at ≤ length into.old }
    ensures { WritesFrom (item ∷ []) at into.old into.new result }
{
    if at >= into.len() {
        return at;
    }
    into[at] = item;
    at + 1
}

/// Writes operands from a place on, and returns the place after the last one.
#[inline(always)]
fn write_operands(operands: &[Value], into: &mut [RecordItem], at: usize) -> usize
    requires { at ≤ length into.old }
    ensures { WritesFrom (map operand_item operands.now) at into.old into.new result }
{
    let mut place = at;
    let mut rest = operands;
    'operands: while let [operand, tail @ ..] = rest {
        place = write_item(operand_item(*operand), into, place);
        rest = tail;
    }
    place
}

/// Returns the item of an operand.
fn operand_item(operand: Value) -> RecordItem
    ensures { result ≡ operand_item operand }
{
    match operand {
        Value::Result(op, place) => RecordItem {
            first: op.number(),
            second: 4294967295,
            third: place,
        },
        Value::Arg(op, region, place) => RecordItem {
            first: op.number(),
            second: region,
            third: place,
        },
    }
}

/// Writes the results of an operation from a place on, by their types and uses: each result, and then its uses. Returns
/// the place after the last use.
#[inline(always)]
fn write_results(
    all: &ResultUses<'_>,
    types: &[TypeId],
    into: &mut [RecordItem],
    at: usize,
) -> usize
    requires at { at ≤ length into.old }
    requires few { length types.now ≤ most_items }
    requires uses { length all.now ≡ length types.now }
    ensures { WritesFrom (result_items all.now 0 types.now) at into.old into.new result }
{
    let mut place = at;
    let mut index = 0;
    let mut rest = types;
    'results: while let [ty, tail @ ..] = rest {
        place = write_result(all.of(index), *ty, into, place);
        index += 1;
        rest = tail;
    }
    place
}

/// Writes a result of this type to a place, and then its uses. Returns the place after the last use.
#[inline(always)]
fn write_result(uses: UsesOf<'_>, ty: TypeId, into: &mut [RecordItem], at: usize) -> usize
    requires { at ≤ length into.old }
    ensures { WritesFrom (result_item ty (length uses.entry) ∷ map use_item uses.entry) at into.old into.new result }
{
    if at >= into.len() {
        return at;
    }
    let place = at + 1;
    let space = into.len() - place;
    let count = write_uses(uses, into, place);
    into[at] = RecordItem {
        first: ty.number(),
        second: count.min(4294967295) as u32,
        third: 0,
    };
    place + count.min(space)
}

/// Writes uses from a place on, as many as there is space for. Returns how many there are, or 2^64 - 1 if there are more.
#[inline(always)]
fn write_uses(uses: UsesOf<'_>, into: &mut [RecordItem], at: usize) -> usize
    requires { at ≤ length into.old }
    ensures written { into.new ≡ over_from at (map use_item uses.entry) into.old }
    ensures size { length into.new ≡ length into.old }
    ensures count { result ≡ min (length uses.entry) 18446744073709551615 }
{
    let mut place = at;
    let mut count = 0;
    let mut rest = uses;
    'uses: while place < into.len() {
        let Some((op, operand)) = rest.next() else {
            return count;
        };
        into[place] = RecordItem {
            first: op.number(),
            second: operand,
            third: 0,
        };
        place += 1;
        count += 1;
    }
    rest.len().saturating_add(count)
}
