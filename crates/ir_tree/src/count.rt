//! The number of operations of a tree, and its depth.
ghost use Rattle.std.specs.Prelude.{◌≡◌, ◌-◌, ◌^◌, min};
ghost use Rattle.std.specs.Prelude.{◌+◌};
ghost use Rattle.std.specs.Prelude.{length};
ghost use Rattle.ir_tree.specs.Ids.{op_count as count_of, region_ids};
ghost use Rattle.ir_tree.specs.Limits.{depth as depth_of, region_depth};
ghost use Rattle.ir_tree.specs.View.{region_view};

use crate::tree::{TreeOp, TreeRegion};

/// Returns the number of operations, the root included. Saturates at `u64::MAX`.
#[cycle(count)]
pub fn op_count(root: &TreeOp) -> u64
    ensures { result ≡ min (count_of root.now) (2 ^ 64 - 1) }
{
    let mut count: u64 = 1;
    for region in &root.regions {
        count = count.saturating_add(region_op_count(region));
    }
    count
}

/// Returns the number of operations in a region, at every depth. Saturates at `u64::MAX`.
#[cycle(count)]
fn region_op_count(region: &TreeRegion) -> u64
    ensures { result ≡ min (length (region_ids (region_view region.now))) (2 ^ 64 - 1) }
{
    let mut count: u64 = 0;
    if let TreeRegion::Block { ops, .. } = region {
        for op in ops {
            count = count.saturating_add(op_count(op));
        }
    }
    count
}

/// Returns the greatest nesting depth in the tree: 0 if the root has no operations inside it. Saturates at `u64::MAX`.
#[cycle(depth)]
pub fn depth(root: &TreeOp) -> u64
    ensures { result ≡ min (depth_of root.now) (2 ^ 64 - 1) }
{
    let mut most: u64 = 0;
    for region in &root.regions {
        most = most.max(depth_of_region(region));
    }
    most
}

/// Returns the greatest nesting depth in a region; its operations have depth 1. Saturates at `u64::MAX`.
#[cycle(depth)]
fn depth_of_region(region: &TreeRegion) -> u64
    ensures { result ≡ min (region_depth (region_view region.now)) (2 ^ 64 - 1) }
{
    let mut most: u64 = 0;
    if let TreeRegion::Block { ops, .. } = region {
        for op in ops {
            most = most.max(depth(op).saturating_add(1));
        }
    }
    most
}
