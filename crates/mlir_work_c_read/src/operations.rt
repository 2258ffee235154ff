//! Reads of operations.
ghost use Rattle.std.specs.Prelude.{◌≡◌};
ghost use Rattle.ir_event.specs.tree_laws.Values.{type_of_value};
ghost use Rattle.mlir_work_c_read.specs.Filled.{over};
ghost use Rattle.mlir_work_c_read.specs.Operations.{argument_count, counts_of, name_of, node_counts, region_of, tree_in, WritesAll};

use crate::numbers::Counts;
use ir_event::store::node::Node;
use ir_event::trees::value::Value;
use ir_event::types::ids::OpId;
use ir_event::types::refusal::Refusal;
use ir_event::world::World;

/// Returns the number of the name of an operation of the module, or `None` if the module has no such operation.
pub fn name_of(world: &World, op: OpId) -> Option<u32>
    ensures { result ≡ name_of op (tree_in world.now) }
{
    let Some(node) = world.shown(op) else {
        return None;
    };
    Some(node.name().number())
}

/// Returns the counts of an operation of the module, or `None` if the module has no such operation.
pub fn counts_of(world: &World, op: OpId) -> Option<Counts>
    ensures { result ≡ counts_of op (tree_in world.now) }
{
    let Some(node) = world.shown(op) else {
        return None;
    };
    Some(counts_in(&node))
}

/// Returns the counts of an operation.
pub(crate) fn counts_in(node: &Node<'_>) -> Counts
    ensures { result ≡ node_counts node.now }
{
    Counts {
        operands: node.operands().len(),
        results: node.results().len(),
        properties: node.properties().len(),
        attributes: node.attributes().len(),
        regions: node.region_count(),
    }
}

/// Returns the number of arguments of the block of a region, or `None` if there is no such block.
pub fn argument_count(world: &World, op: OpId, region: u32) -> Option<usize>
    ensures { result ≡ argument_count op region (tree_in world.now) }
{
    let Some(node) = world.shown(op) else {
        return None;
    };
    let Some(arguments) = node.arguments(region as usize) else {
        return None;
    };
    Some(arguments.len())
}

/// Returns the region of its parent in which an operation is, or `None` if the operation is the root or isn't in the
/// module.
pub fn region_of(world: &World, op: OpId) -> Option<u32>
    ensures { result ≡ region_of op (tree_in world.now) }
{
    let Some(place) = world.store.place(op) else {
        return None;
    };
    Some(place.region)
}

/// Returns the number of the type of a value, or `None` if the module has no such value.
pub fn type_of(world: &World, value: Value) -> Option<u32>
    ensures { result ≡ type_of_value value (tree_in world.now) }
{
    match world.store.value_type(value) {
        Some(ty) => Some(ty.number()),
        None => None,
    }
}

/// Writes the operations of the module in pre-order, as many as there is space for, and returns how many the module
/// has.
///
/// Refusals: `Memory`, and nothing is written. To count takes no memory.
pub fn write_operations(world: &World, into: &mut [u32]) -> Result<usize, Refusal>
    ensures { WritesAll world.now into.old into.new result }
{
    if into.is_empty() {
        return Ok(world.store.op_count() as usize);
    }
    let ops = match world.store.operations() {
        Ok(ops) => ops,
        Err(refusal) => return Err(refusal),
    };
    write_ids(&ops, into);
    Ok(ops.len())
}

/// Writes ids as numbers, as many as there is space for.
fn write_ids(ids: &[OpId], into: &mut [u32])
    ensures { into.new ≡ over ids.now into.old }
{
    let mut rest = ids;
    for number in into {
        let [id, tail @ ..] = rest else {
            return;
        };
        *number = id.number();
        rest = tail;
    }
}
