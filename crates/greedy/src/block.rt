//! Lists the operations that end blocks, and the parents of such operations.
ghost use Rattle.std.specs.Prelude.{◌≡◌, OnOk, true, Some};
ghost use Rattle.ir_event.specs.tree_laws.Reads.{last_at};
ghost use Rattle.greedy.specs.Reached.{at_end, ends};
ghost use Rattle.greedy.specs.Adding.{Adds, OneOf};
ghost use Rattle.greedy.specs.Parts.{IsAround, IsOrAtEnd, IsOrEnds};

use crate::push::push;
use ir_event::store::store::Store;
use ir_event::trees::place::Place;
use ir_event::types::ids::OpId;
use ir_event::world::World;
use std::alloc::AllocError;

/// Pushes the parent of `op` if `op` ends its block.
fn push_around(world: &World, ops: &mut Vec<OpId>, op: OpId) -> Result<(), AllocError>
    ensures { OnOk result (Adds (IsAround world.now.store.module_of.tree op) ops.old.items ops.new.items) }
{
    let Some(place) = world.store.place(op) else {
        return Ok(());
    };
    match place.before {
        Some(_) => Ok(()),
        None => push(ops, place.parent),
    }
}

/// Pushes the parent of each listed operation that ends its block.
pub(crate) fn push_around_listed(world: &World, ops: &mut Vec<OpId>) -> Result<(), AllocError>
    ensures { OnOk result (Adds
        (OneOf (IsAround world.now.store.module_of.tree) ops.old.items) ops.old.items ops.new.items) }
{
    let count = ops.len();
    let mut place = 0;
    'listed: while place < count {
        let op = ops[place];
        push_around(world, ops, op)?;
        place += 1;
    }
    Ok(())
}

/// Pushes the last operation of the block of a region.
fn push_last(store: &Store, ops: &mut Vec<OpId>, op: OpId, region: u32) -> Result<(), AllocError>
    ensures { OnOk result (Adds
        (λ x. last_at op region store.now.module_of.tree ≡ Some x) ops.old.items ops.new.items) }
{
    match store.last(op, region) {
        Some(last) => push(ops, last),
        None => Ok(()),
    }
}

/// Pushes the last operation of each block of `op`.
fn push_lasts(world: &World, ops: &mut Vec<OpId>, op: OpId) -> Result<(), AllocError>
    ensures { OnOk result (Adds (λ x. ends op x world.now.store.module_of.tree ≡ true) ops.old.items ops.new.items) }
{
    let Some(node) = world.shown(op) else {
        return Ok(());
    };
    let count = node.region_count() as u32;
    let mut region = 0;
    'regions: while region < count {
        push_last(&world.store, ops, op, region)?;
        region += 1;
    }
    Ok(())
}

/// Pushes `op` and the last operation of each of its blocks.
pub(crate) fn push_with_lasts(
    world: &World,
    ops: &mut Vec<OpId>,
    op: OpId,
) -> Result<(), AllocError>
    ensures { OnOk result (Adds (IsOrEnds op world.now.store.module_of.tree) ops.old.items ops.new.items) }
{
    push(ops, op)?;
    push_lasts(world, ops, op)
}

/// If `place` is the end of a block, pushes the parent of that block and the last operation of each block of the
/// parent.
fn push_end(world: &World, ops: &mut Vec<OpId>, place: &Place) -> Result<(), AllocError>
    ensures { OnOk result (Adds
        (λ x. at_end place.now x world.now.store.module_of.tree ≡ true) ops.old.items ops.new.items) }
{
    match place.before {
        Some(_) => Ok(()),
        None => push_with_lasts(world, ops, place.parent),
    }
}

/// Pushes an operation that left `place`. If `place` is the end of a block, also pushes the parent of that block and
/// the last operation of each block of the parent.
pub(crate) fn push_former_neighbours(
    world: &World,
    ops: &mut Vec<OpId>,
    op: OpId,
    place: &Place,
) -> Result<(), AllocError>
    ensures { OnOk result (Adds (IsOrAtEnd op place.now world.now.store.module_of.tree) ops.old.items ops.new.items) }
{
    push(ops, op)?;
    push_end(world, ops, place)
}
