//! Queries on a module: the operations near an operation, its operands, and one use of a value.
ghost use Rattle.std.specs.Prelude.{◌≡◌, [], MatchOption, true};
ghost use Rattle.ir_event.specs.store.Using.{is_use};
ghost use Rattle.ir_event.specs.trees.Ids.{has_id};
ghost use Rattle.ir_event.specs.trees.Tree.{head};
ghost use Rattle.ir_event.specs.trees.Uses.{uses_of};
ghost use Rattle.ir_event.specs.tree_laws.Changes.{operand_at};
ghost use Rattle.ir_event.specs.tree_laws.Reads.{first_at, last_at, next_of, parent_of, prev_of};
ghost use Rattle.mlir_work_c_read.specs.Operations.{tree_in};

use ir_event::trees::value::Value;
use ir_event::types::ids::OpId;
use ir_event::world::World;

/// Returns whether an operation is in the module.
pub fn has(world: &World, op: OpId) -> bool
    ensures { result ≡ has_id op (tree_in world.now) }
{
    world.store.in_tree(op)
}

/// Returns the root operation of the module.
pub fn root(world: &World) -> OpId
    ensures { result ≡ (head (tree_in world.now)).id }
{
    world.store.root()
}

/// Returns the parent of an operation, or `None` if it is the root or isn't in the module.
pub fn parent(world: &World, op: OpId) -> Option<OpId>
    ensures { result ≡ parent_of op (tree_in world.now) }
{
    world.store.parent(op)
}

/// Returns the next operation in the block, or `None` if there is none.
pub fn next(world: &World, op: OpId) -> Option<OpId>
    ensures { result ≡ next_of op (tree_in world.now) }
{
    world.store.next(op)
}

/// Returns the previous operation in the block, or `None` if there is none.
pub fn previous(world: &World, op: OpId) -> Option<OpId>
    ensures { result ≡ prev_of op (tree_in world.now) }
{
    world.store.prev(op)
}

/// Returns the first operation of the block of a region, or `None` if there is none.
pub fn first(world: &World, op: OpId, region: u32) -> Option<OpId>
    ensures { result ≡ first_at op region (tree_in world.now) }
{
    world.store.first(op, region)
}

/// Returns the last operation of the block of a region, or `None` if there is none.
pub fn last(world: &World, op: OpId, region: u32) -> Option<OpId>
    ensures { result ≡ last_at op region (tree_in world.now) }
{
    world.store.last(op, region)
}

/// Returns an operand of an operation, or `None` if there is none at this index.
pub fn operand(world: &World, op: OpId, place: usize) -> Option<Value>
    ensures { result ≡ operand_at op place (tree_in world.now) }
{
    let Some(node) = world.shown(op) else {
        return None;
    };
    match node.operands().get(place) {
        Some(value) => Some(*value),
        None => None,
    }
}

/// Returns one of the uses of a value, or `None` if it has no use.
pub fn first_use(world: &World, value: Value) -> Option<(OpId, u32)>
    ensures { MatchOption result (uses_of value (tree_in world.now) ≡ []) (λ u. is_use u.0 u.1 (uses_of value (tree_in world.now)) ≡ true) }
{
    world.store.first_use(value)
}
