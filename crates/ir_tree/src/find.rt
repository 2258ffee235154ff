//! Finds an operation, and lists a tree's ids.
ghost use Rattle.std.specs.Prelude.{◌≡◌, ◌++◌, OnOk, IfOk, option_map};
ghost use Rattle.ir_tree.specs.Ids.{find as the_first, region_find, ids as ids_of, region_ids};
ghost use Rattle.ir_tree.specs.View.{region_view};

use crate::tree::{TreeOp, TreeRegion};
use ir_types::ids::OpId;
use std::alloc::{AllocError, Global};

/// Returns the first operation with an id, in pre-order, or `None` if there is none.
#[cycle(find)]
pub fn find(root: &TreeOp, id: OpId) -> Option<&TreeOp>
    ensures { option_map (λ o. o.now) result ≡ the_first id root.now }
{
    if root.id == id {
        return Some(root);
    }
    for region in &root.regions {
        let found = find_in_region(region, id);
        if found.is_some() {
            return found;
        }
    }
    None
}

/// Returns the first operation with an id in a region, in pre-order, or `None` if there is none.
#[cycle(find)]
fn find_in_region(region: &TreeRegion, id: OpId) -> Option<&TreeOp>
    ensures { option_map (λ o. o.now) result ≡ region_find id (region_view region.now) }
{
    if let TreeRegion::Block { ops, .. } = region {
        for op in ops {
            let found = find(op, id);
            if found.is_some() {
                return found;
            }
        }
    }
    None
}

/// Returns the ids of a tree, in pre-order.
pub fn list_ids(alloc: Global, root: &TreeOp) -> Result<Vec<OpId>, AllocError>
    ensures { IfOk result (λ v. v.items ≡ ids_of root.now) }
{
    let mut out = Vec::new(alloc);
    push_ids(root, &mut out)?;
    Ok(out)
}

/// Appends the ids of a tree, in pre-order.
#[cycle(ids)]
fn push_ids(root: &TreeOp, out: &mut Vec<OpId>) -> Result<(), AllocError>
    ensures { OnOk result (out.new.items ≡ out.old.items ++ ids_of root.now) }
{
    out.push(root.id)?;
    for region in &root.regions {
        push_region_ids(region, out)?;
    }
    Ok(())
}

/// Appends the ids of the operations in a region, in pre-order.
#[cycle(ids)]
fn push_region_ids(region: &TreeRegion, out: &mut Vec<OpId>) -> Result<(), AllocError>
    ensures { OnOk result (out.new.items ≡ out.old.items ++ region_ids (region_view region.now)) }
{
    if let TreeRegion::Block { ops, .. } = region {
        for op in ops {
            push_ids(op, out)?;
        }
    }
    Ok(())
}
