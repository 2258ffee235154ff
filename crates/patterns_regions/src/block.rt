//! Reads blocks of operations' regions.
ghost use Rattle.std.specs.Prelude.{◌≡◌, IfOk, IfSome, is_some, map, option_map};
ghost use Rattle.ir_event.specs.types.Things.{ContextModel};
ghost use Rattle.ir_event.specs.types.Terms.{type_term};
ghost use Rattle.ir_event.specs.trees.Tree.{regions};
ghost use Rattle.ir_event.specs.trees.Ids.{find};
ghost use Rattle.ir_event.specs.trees.Meaning.{Operation};
ghost use Rattle.ir_event.specs.tree_laws.Values.{arguments_at, region_at};
ghost use Rattle.ir_event.specs.store.Nodes.{node_of};
ghost use Rattle.ir_event.specs.Modules.{NodeIsOf, module_in, node_meaning};
ghost use Rattle.patterns_regions.specs.Blocks.{Shows, before_at, body_at, ended_in, ended_with, is_block};

use ir_event::store::node::Node;
use ir_event::types::ids::{OpId, TypeId};
use ir_event::world::World;
use patterns_plans::reads::nodes::op_node;
use patterns_plans::reads::verified::is_verified;
use std::alloc::{AllocError, Global};

/// The operations of a block whose last operation is verified.
#[derive(Drop)]
pub struct BlockBody<'a> {
    /// The operations before the last, in order.
    pub before: Vec<OpId>,
    /// The last operation.
    pub last: OpId,
    /// What the store shows of the last operation.
    pub node: Node<'a>,
}

/// Returns the node of an operation of the module, with the types of its block arguments.
pub fn node_at(world: &World, op: OpId) -> Option<Node<'_>>
    ensures node { option_map (node_meaning world.now.ctx) result
        ≡ option_map (λ o. node_of o) (find op (module_in world.now).tree) }
    ensures of { IfSome result (NodeIsOf world.now.ctx) }
{
    world.shown(op)
}

/// Returns whether a region of a node's operation has a block, or `None` if there is no such region.
pub fn has_block(node: &Node<'_>, region: u32) -> Option<bool>
    ensures { (c : ContextModel) (o : Operation) → Shows c node.now o
        → result ≡ option_map is_block (region_at region (regions o)) }
{
    if region as usize >= node.region_count() {
        return None;
    }
    Some(node.arguments(region as usize).is_some())
}

/// Returns the types of the block arguments of a region of a node's operation, or `None` if the region has no block.
pub fn block_arguments<'a>(node: &'a Node<'_>, region: u32) -> Option<&'a [TypeId]>
    ensures { (c : ContextModel) (o : Operation) → Shows c node.now o
        → option_map (λ a. map (type_term c) a.now) result ≡ arguments_at region o }
{
    node.arguments(region as usize)
}

/// Returns the operations of a block except the last, in order.
fn before(alloc: Global, world: &World, op: OpId, region: u32) -> Result<Vec<OpId>, AllocError>
    ensures { IfOk result (λ v. v.items ≡ before_at op region world.now.store.module_of.tree) }
{
    let mut ops = Vec::new(alloc);
    let Some(first) = world.store.first(op, region) else {
        return Ok(ops);
    };
    let mut at = first;
    'ops: while let Some(next) = world.store.next(at) {
        ops.push(at)?;
        at = next;
    }
    Ok(ops)
}

/// Returns the last operation of the block of a region, with what the store shows of it, or `None` unless it is
/// verified.
fn verified_last<'a>(
    alloc: Global,
    world: &'a World,
    op: OpId,
    region: u32,
) -> Result<Option<(OpId, Node<'a>)>, AllocError>
    ensures last { IfOk result (λ l. option_map (ended_with world.now op region) l
        ≡ body_at op region (module_in world.now).tree) }
    ensures of { IfOk result (λ l. IfSome l (λ l. NodeIsOf world.now.ctx l.1)) }
{
    let Some(last) = world.store.last(op, region) else {
        return Ok(None);
    };
    let Some(node) = op_node(world, last) else {
        return Ok(None);
    };
    if !is_verified(alloc, world, last, &node)? {
        return Ok(None);
    }
    Ok(Some((last, node)))
}

/// Returns whether a region has a block whose last operation is verified.
pub(crate) fn has_body(
    alloc: Global,
    world: &World,
    op: OpId,
    region: u32,
) -> Result<bool, AllocError>
    ensures { IfOk result (λ b. b ≡ is_some (body_at op region (module_in world.now).tree)) }
{
    let last = verified_last(alloc, world, op, region)?;
    Ok(last.is_some())
}

/// Returns the operations of the block of a region, or `None` unless the last one is verified. It allocates memory for
/// the other operations, and reads them, only if the last one is verified.
pub fn body_of<'a>(
    alloc: Global,
    world: &'a World,
    op: OpId,
    region: u32,
) -> Result<Option<BlockBody<'a>>, AllocError>
    ensures body { IfOk result (λ b. option_map (ended_in world.now.ctx) b
        ≡ body_at op region (module_in world.now).tree) }
    ensures of { IfOk result (λ b. IfSome b (λ e. NodeIsOf world.now.ctx e.node)) }
{
    let Some((last, node)) = verified_last(alloc, world, op, region)? else {
        return Ok(None);
    };
    let before = before(alloc, world, op, region)?;
    Ok(Some(BlockBody { before, last, node }))
}
