//! Reads operations without the operations inside their blocks.
ghost use Rattle.std.specs.Prelude.{◌≡◌, ◌≤◌, IfOk, length, map, option_map};
ghost use Rattle.ir_event.specs.trees.Limits.{most_regions};
ghost use Rattle.ir_event.specs.trees.View.{region_view};
ghost use Rattle.patterns_lowering.specs.Bare.{bare_read, region_with};

use ir_event::store::node::Node;
use ir_event::trees::tree::{TreeOp, TreeRegion};
use ir_event::types::ids::{OpId, TypeId};
use std::alloc::{AllocError, Global};

/// Returns a region whose block has these arguments, or a region without a block for `None`.
fn bare_region(alloc: Global, arguments: Option<&[TypeId]>) -> Result<TreeRegion, AllocError>
    ensures { IfOk result (λ r. region_view r ≡ region_with (option_map (λ a. a.now) arguments.entry)) }
{
    match arguments {
        Some(arguments) => Ok(TreeRegion::Block {
            args: Vec::from_slice(alloc, arguments)?,
            ops: Vec::new(alloc),
        }),
        None => Ok(TreeRegion::Empty),
    }
}

/// Returns the regions of a node, without operations.
fn bare_regions(alloc: Global, node: &Node<'_>) -> Result<Vec<TreeRegion>, AllocError>
    requires { length node.now.arguments ≤ most_regions }
    ensures { IfOk result (λ rs. map region_view rs.items ≡ map region_with node.now.arguments) }
{
    let mut regions = Vec::new(alloc);
    let count = node.region_count() as u32;
    'regions: for number in 0..count {
        let region = bare_region(alloc, node.arguments(number as usize))?;
        regions.push(region)?;
    }
    Ok(regions)
}

/// Returns the operation of a node, without the operations inside its blocks.
pub(crate) fn bare(alloc: Global, op: OpId, node: &Node<'_>) -> Result<TreeOp, AllocError>
    requires { length node.now.arguments ≤ most_regions }
    ensures { IfOk result (λ o. o ≡ bare_read op node.now) }
{
    let regions = bare_regions(alloc, node)?;
    Ok(TreeOp {
        id: op,
        name: node.name(),
        operands: Vec::from_slice(alloc, node.operands())?,
        results: Vec::from_slice(alloc, node.results())?,
        props: Vec::from_slice(alloc, node.properties())?,
        attrs: Vec::from_slice(alloc, node.attributes())?,
        regions,
    })
}
