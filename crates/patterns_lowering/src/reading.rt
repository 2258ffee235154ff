//! Reads operations that may be lowered.
ghost use Rattle.std.specs.Prelude.{◌≡◌, ◌||◌, IfOk, Some, option_map};
ghost use Rattle.ir_event.specs.trees.Ids.{find};
ghost use Rattle.ir_event.specs.store.Nodes.{node_of};
ghost use Rattle.ir_event.specs.Modules.{module_in};
ghost use Rattle.patterns_regions.specs.Blocks.{body_at};
ghost use Rattle.patterns_lowering.specs.Planned.{AreTaken, IsReadOf};

use crate::bare::bare;
use crate::index::{index_values, indices};
use crate::plan::{Indexed, MovedOps};
use ir_event::store::node::Node;
use ir_event::types::ids::OpId;
use ir_event::world::World;
use patterns_regions::block::{BlockBody, body_of};
use std::alloc::{AllocError, Global};

/// Returns an operation of the module without the operations inside its blocks, with its index operands and results
/// marked. `node` is what the store shows of it.
pub(crate) fn read(
    alloc: Global,
    world: &World,
    op: OpId,
    node: &Node<'_>,
) -> Result<Indexed, AllocError>
    requires { Some node.now ≡ option_map node_of (find op world.now.store.module_of.tree) }
    ensures { IfOk result (IsReadOf world.now op) }
{
    let index_operands = index_values(alloc, world, node.operands())?;
    let index_results = indices(alloc, &world.ctx, node.results())?;
    let op = bare(alloc, op, node)?;
    Ok(Indexed {
        op,
        index_operands,
        index_results,
    })
}

/// Returns the operations of the block of a region, or `None` unless the last one is verified.
pub(crate) fn take(
    alloc: Global,
    world: &World,
    op: OpId,
    region: u32,
) -> Result<Option<MovedOps>, AllocError>
    ensures { IfOk result (AreTaken (body_at op region (module_in world.now).tree)) }
{
    let Some(body) = body_of(alloc, world, op, region)? else {
        return Ok(None);
    };
    let BlockBody { before, last, node } = body;
    let handed = Vec::from_slice(alloc, node.operands())?;
    Ok(Some(MovedOps {
        before,
        last,
        handed,
    }))
}
