//! Splits an operation into headers: the operation and each one inside it, without the operations in its blocks, with
//! its place.
ghost use Rattle.std.specs.Prelude.{◌≡◌, ◌++◌, IfOk, OnOk, map};
ghost use Rattle.ir_event.specs.trees.Tree.{regions_of};
ghost use Rattle.ir_event.specs.trees.View.{region_view};
ghost use Rattle.rewriter_machine.specs.Inserting.{bare, bare_region as bare_one, bare_regions as bare_all};
ghost use Rattle.rewriter_machine.specs.Inserting.{end_of as last_place, headers, region_headers, regions_headers};

use ir_event::trees::place::Place;
use ir_event::trees::tree::{TreeOp, TreeRegion};
use ir_event::types::ids::OpId;
use std::alloc::{AllocError, Global};

/// Copies a region without the operations in its block.
fn bare_region(alloc: Global, region: &TreeRegion) -> Result<TreeRegion, AllocError>
    ensures { IfOk result (λ r. region_view r ≡ bare_one (region_view region.now)) }
{
    match region {
        TreeRegion::Empty => Ok(TreeRegion::Empty),
        TreeRegion::Block { args, .. } => Ok(TreeRegion::Block {
            args: Vec::from_slice(alloc, args)?,
            ops: Vec::new(alloc),
        }),
    }
}

/// Copies regions without the operations in their blocks.
fn bare_regions(alloc: Global, regions: &Vec<TreeRegion>) -> Result<Vec<TreeRegion>, AllocError>
    ensures { IfOk result (λ v. regions_of (map region_view v.items)
        ≡ bare_all (regions_of (map region_view regions.now.items))) }
{
    let mut copies = Vec::with_capacity(alloc, regions.len())?;
    for region in regions {
        copies.push(bare_region(alloc, region)?)?;
    }
    Ok(copies)
}

/// Copies an operation without the operations inside it.
fn bare_of(alloc: Global, op: &TreeOp) -> Result<TreeOp, AllocError>
    ensures { IfOk result (λ t. t ≡ bare op.now) }
{
    let regions = bare_regions(alloc, &op.regions)?;
    Ok(TreeOp {
        id: op.id,
        name: op.name,
        operands: Vec::from_slice(alloc, &op.operands)?,
        results: Vec::from_slice(alloc, &op.results)?,
        props: Vec::from_slice(alloc, &op.props)?,
        attrs: Vec::from_slice(alloc, &op.attrs)?,
        regions,
    })
}

/// Returns the header of an operation to be inserted at `place`, followed by the headers of the operations inside it,
/// in pre-order.
pub(crate) fn headers_of(
    alloc: Global,
    place: Place,
    tree: &TreeOp,
) -> Result<Vec<(Place, TreeOp)>, AllocError>
    ensures { IfOk result (λ v. v.items ≡ headers place tree.now) }
{
    let mut out = Vec::new(alloc);
    push_headers(alloc, &mut out, place, tree)?;
    Ok(out)
}

/// Returns the end of the block of a region.
fn end_of(parent: OpId, region: u32) -> Place
    ensures { result ≡ last_place parent region }
{
    Place {
        parent,
        region,
        before: None,
    }
}

#[cycle(headers)]
fn push_headers(
    alloc: Global,
    out: &mut Vec<(Place, TreeOp)>,
    place: Place,
    op: &TreeOp,
) -> Result<(), AllocError>
    ensures { OnOk result (out.new.items ≡ out.old.items ++ headers place op.now) }
{
    out.push((place, bare_of(alloc, op)?))?;
    push_inner_headers(alloc, out, op.id, &op.regions)
}

#[cycle(headers)]
fn push_inner_headers(
    alloc: Global,
    out: &mut Vec<(Place, TreeOp)>,
    parent: OpId,
    regions: &Vec<TreeRegion>,
) -> Result<(), AllocError>
    ensures { OnOk result (out.new.items
        ≡ out.old.items ++ regions_headers parent 0 (regions_of (map region_view regions.now.items))) }
{
    let mut number = 0;
    for region in regions {
        push_region_headers(alloc, out, parent, number, region)?;
        number = match number.checked_add(1) {
            None => return Err(AllocError),
            Some(number) => number,
        };
    }
    Ok(())
}

#[cycle(headers)]
fn push_region_headers(
    alloc: Global,
    out: &mut Vec<(Place, TreeOp)>,
    parent: OpId,
    number: u32,
    region: &TreeRegion,
) -> Result<(), AllocError>
    ensures { OnOk result (out.new.items ≡ out.old.items ++ region_headers parent number (region_view region.now)) }
{
    if let TreeRegion::Block { ops, .. } = region {
        for op in ops {
            push_headers(alloc, out, end_of(parent, number), op)?;
        }
    }
    Ok(())
}
