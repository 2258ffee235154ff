//! Builds the table of a module by inserting each of its operations.
ghost use Rattle.std.specs.Prelude.{◌≡◌, None, []};
ghost use Rattle.std.specs.Bool.{OnTrue};
ghost use Rattle.effects.specs.Points.{points};
ghost use Rattle.effects.specs.Walks.{row_at};
ghost use Rattle.effects.specs.Effects.{own_by};
ghost use Rattle.effects.specs.Following.{PutAll};
ghost use Rattle.effects.specs.Found.{head_at, parent_at, points_by, with_point};

use crate::effect_rows::EffectRows;
use crate::own::own;
use crate::table::insert_leaf;
use ir_event::types::ids::OpId;
use ir_event::world::World;

/// Inserts all operations of the module. Returns `false` if memory ran out.
pub(crate) fn insert_module(world: &World, rows: &mut EffectRows) -> bool
    ensures { OnTrue result (PutAll (points (own_by world.now.ctx) None world.now.store.module_of.tree) (row_at rows.old)
        (row_at rows.new)) }
{
    let Ok(ops) = world.store.operations() else {
        return false;
    };
    insert_all(world, &ops, rows)
}

/// Inserts the operations, parents before their children. Returns `false` if memory ran out.
fn insert_all(world: &World, ops: &[OpId], rows: &mut EffectRows) -> bool
    ensures { OnTrue result (PutAll
        (points_by (own_by world.now.ctx) (parent_at world.now.store) (head_at world.now.store) ops.now)
        (row_at rows.old) (row_at rows.new)) }
{
    for op in ops {
        if !insert_found(world, *op, rows) {
            return false;
        }
    }
    true
}

/// Inserts the operation if it is in the module. Returns `false` if memory ran out.
fn insert_found(world: &World, op: OpId, rows: &mut EffectRows) -> bool
    ensures { OnTrue result (PutAll
        (with_point (own_by world.now.ctx) op (parent_at world.now.store op) (head_at world.now.store op) [])
        (row_at rows.old) (row_at rows.new)) }
{
    let Some(node) = world.store.node(op) else {
        return true;
    };
    let own = own(&world.ctx, &world.registry, node.name());
    insert_leaf(
        rows,
        op,
        world.store.parent(op),
        &own,
        node.region_count() > 0,
    )
}
