//! The report rows about one operation or one value. They come from the module, which lists the uses of each value, so
//! they take no time for the uses of other values.
ghost use Rattle.std.specs.Prelude.{◌≡◌, ◌++◌, ◌∷◌, [], map, option_and_then, option_map, slice_get, IfOk, OnOk};
ghost use Rattle.ir_event.specs.declared.row.Row.{Row as Line};
ghost use Rattle.ir_event.specs.store.Nodes.{node_of};
ghost use Rattle.ir_event.specs.trees.Ids.{find};
ghost use Rattle.ir_event.specs.trees.declared.value.Value.TheVariants as value;
ghost use Rattle.listeners.specs.About.{AreSortedUses, PushesAllUses, PushesUses, about, argument_count, arguments_from};
ghost use Rattle.listeners.specs.About.{region_arguments, results_from, use_with, values_about, values_found, values_of};
ghost use Rattle.listeners.specs.Keys.{key_cells, key_of, keys_of};
ghost use Rattle.listeners.specs.Uses.{all_uses};

use crate::gather::key;
use crate::key::{Use, UseKey};
use crate::report::rows_of_keys;
use ir_event::row::Row;
use ir_event::store::node::Node;
use ir_event::store::uses::UsesOf;
use ir_event::subject::Subject;
use ir_event::trees::value::Value;
use ir_event::types::ids::OpId;
use ir_event::world::World;
use std::alloc::{AllocError, Global};

/// Appends a result of an operation.
fn push_result(op: OpId, place: usize, values: &mut Vec<Value>) -> Result<(), AllocError>
    ensures { OnOk result (values.new.items ≡ values.old.items ++ value.Result op place ∷ []) }
{
    // An operation of a module has at most 256 results.
    let Ok(number) = u32::try_from(place) else {
        return Err(AllocError);
    };
    values.push(Value::Result(op, number))?;
    Ok(())
}

/// Appends the results of an operation, given their number.
fn push_results(op: OpId, count: usize, values: &mut Vec<Value>) -> Result<(), AllocError>
    ensures { OnOk result (values.new.items ≡ values.old.items ++ results_from op 0 count) }
{
    let mut place = 0;
    'results: while place < count {
        push_result(op, place, values)?;
        place += 1;
    }
    Ok(())
}

/// Appends an argument of a region's block.
fn push_argument(
    op: OpId,
    region: usize,
    place: usize,
    values: &mut Vec<Value>,
) -> Result<(), AllocError>
    ensures { OnOk result (values.new.items ≡ values.old.items ++ value.Arg op region place ∷ []) }
{
    // An operation of a module has at most 16 regions, and a block at most 256 arguments.
    let Ok(outer) = u32::try_from(region) else {
        return Err(AllocError);
    };
    let Ok(number) = u32::try_from(place) else {
        return Err(AllocError);
    };
    values.push(Value::Arg(op, outer, number))?;
    Ok(())
}

/// Appends the arguments of a region's block, given their number.
fn push_arguments(
    op: OpId,
    region: usize,
    count: usize,
    values: &mut Vec<Value>,
) -> Result<(), AllocError>
    ensures { OnOk result (values.new.items ≡ values.old.items ++ arguments_from op region 0 count) }
{
    let mut place = 0;
    'arguments: while place < count {
        push_argument(op, region, place, values)?;
        place += 1;
    }
    Ok(())
}

/// Appends the arguments of the block of a region of an operation, if it has one.
fn push_arguments_of(
    op: OpId,
    node: &Node<'_>,
    region: usize,
    values: &mut Vec<Value>,
) -> Result<(), AllocError>
    ensures { OnOk result (values.new.items ≡ values.old.items
        ++ arguments_from op region 0 (argument_count (option_and_then (λ a. a) (slice_get node.now.arguments region)))) }
{
    match node.arguments(region) {
        None => Ok(()),
        Some(types) => push_arguments(op, region, types.len(), values),
    }
}

/// Appends the arguments of an operation's blocks.
fn push_region_arguments(
    op: OpId,
    node: &Node<'_>,
    values: &mut Vec<Value>,
) -> Result<(), AllocError>
    ensures { OnOk result (values.new.items ≡ values.old.items ++ region_arguments op 0 node.now.arguments) }
{
    let count = node.region_count();
    let mut region = 0;
    'regions: while region < count {
        push_arguments_of(op, node, region, values)?;
        region += 1;
    }
    Ok(())
}

/// Appends the results and block arguments of an operation.
fn push_values(op: OpId, node: &Node<'_>, values: &mut Vec<Value>) -> Result<(), AllocError>
    ensures { OnOk result (values.new.items ≡ values.old.items ++ values_of op node.now) }
{
    push_results(op, node.results().len(), values)?;
    push_region_arguments(op, node, values)?;
    Ok(())
}

/// Returns the values that a report is about: the value, or the results and block arguments of the operation.
fn values_about(alloc: Global, world: &World, subject: &Subject) -> Result<Vec<Value>, AllocError>
    ensures { IfOk result (λ values. values.items ≡ values_about subject.now world.now.store.module_of.tree) }
{
    match subject {
        Subject::Op(op) => values_of_op(alloc, world, *op),
        Subject::Val(value) => [*value].to_vec(alloc),
    }
}

/// Returns the results and block arguments of an operation, if it is in the module.
fn values_of_op(alloc: Global, world: &World, op: OpId) -> Result<Vec<Value>, AllocError>
    ensures { IfOk result (λ values. values.items
        ≡ values_found op (option_map node_of (find op world.now.store.module_of.tree))) }
{
    match world.shown(op) {
        None => Ok(Vec::new(alloc)),
        Some(node) => values_of(alloc, op, &node),
    }
}

/// Returns the results and block arguments of an operation.
fn values_of(alloc: Global, op: OpId, node: &Node<'_>) -> Result<Vec<Value>, AllocError>
    ensures { IfOk result (λ values. values.items ≡ values_of op node.now) }
{
    let mut values = Vec::new(alloc);
    push_values(op, node, &mut values)?;
    Ok(values)
}

/// Appends the key of the use of a value by an operand.
fn push_use(
    value: &Value,
    user: OpId,
    operand: u32,
    keys: &mut Vec<UseKey>,
) -> Result<(), AllocError>
    ensures { OnOk result (keys.new.items ≡ keys.old.items ++ key_of (use_with value.now (user, operand)) ∷ []) }
{
    keys.push(key(&Use {
        value: *value,
        user,
        operand,
    }))?;
    Ok(())
}

/// Appends the keys of uses of a value.
fn push_each_use(uses: UsesOf<'_>, value: &Value, keys: &mut Vec<UseKey>) -> Result<(), AllocError>
    ensures { OnOk result (keys.new.items ≡ keys.old.items ++ keys_of (map (use_with value.now) uses.entry)) }
{
    for (user, operand) in uses {
        push_use(value, user, operand, keys)?;
    }
    Ok(())
}

/// Appends the keys of the uses of a value.
fn push_uses(world: &World, value: &Value, keys: &mut Vec<UseKey>) -> Result<(), AllocError>
    ensures { OnOk result (PushesUses value.now world.now.store.module_of.tree keys.old.items keys.new.items) }
{
    push_each_use(world.store.uses(*value), value, keys)?;
    Ok(())
}

/// Appends the keys of the uses of values.
fn push_all_uses(world: &World, values: &[Value], keys: &mut Vec<UseKey>) -> Result<(), AllocError>
    ensures { OnOk result (PushesAllUses values.now world.now.store.module_of.tree keys.old.items keys.new.items) }
{
    let mut left = values;
    'values: while let [value, more @ ..] = left {
        push_uses(world, value, keys)?;
        left = more;
    }
    Ok(())
}

/// Returns the sorted keys of the uses of values.
fn sorted_uses(alloc: Global, world: &World, values: &[Value]) -> Result<Vec<UseKey>, AllocError>
    ensures { IfOk result (λ keys. AreSortedUses values.now world.now.store.module_of.tree keys.items) }
{
    let mut keys = Vec::new(alloc);
    push_all_uses(world, values, &mut keys)?;
    keys.sort_unstable();
    Ok(keys)
}

/// Returns the rows about an operation or a value, in order.
pub(crate) fn rows_about(
    alloc: Global,
    world: &World,
    subject: &Subject,
) -> Result<Vec<Row>, AllocError>
    ensures { IfOk result (λ rows. map (λ (r : Line). r.cells.items) rows.items
        ≡ map key_cells (keys_of (about subject.now (all_uses world.now.store.module_of.tree)))) }
{
    let values = values_about(alloc, world, subject)?;
    let keys = sorted_uses(alloc, world, &values)?;
    rows_of_keys(alloc, &keys)
}
