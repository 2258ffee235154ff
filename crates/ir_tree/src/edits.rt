//! Edits of a tree that rebuild the whole tree.
ghost use Rattle.std.specs.Prelude.{◌≡◌, ℕ, IfOk, OnOk, map};
ghost use Rattle.ir_tree.specs.Tree.{Head, Ops, op, block, head, regions_of, ops_of};
ghost use Rattle.ir_tree.specs.Edits.{with_head};
ghost use Rattle.ir_tree.specs.Edited.{edited as edited_by, regions_edited, region_edited};
ghost use Rattle.ir_tree.specs.View.{region_view};

use crate::tree::{TreeOp, TreeRegion};
use ir_types::ids::{OpId, TypeId};
use std::alloc::{AllocError, Global};

/// An edit of an operation's head: everything except its regions.
pub trait HeadEdit {
    /// The head after the edit.
    ghost gives: { Self → Head → Head };

    /// Edits one operation.
    fn apply(&self, op: &mut TreeOp) -> Result<(), AllocError>
        ensures { OnOk result (op.new ≡ with_head (gives self.now) op.old) };
}

/// An edit of the list of operations of a block.
pub trait ListEdit {
    /// The list after the edit, for the operation that has the block and the index of its region.
    ghost gives: { Self → ℕ → ℕ → Ops → Ops };

    /// Edits one list.
    fn apply(&self, owner: OpId, region: usize, ops: &mut Vec<TreeOp>) -> Result<(), AllocError>
        ensures { OnOk result (ops_of ops.new.items ≡ gives self.now owner region (ops_of ops.old.items)) };
}

/// The edit that changes nothing.
#[derive(Drop)]
pub struct NoEdit;

impl HeadEdit for NoEdit {
    ghost gives = { λ _ h. h };

    /// Leaves the operation unchanged.
    fn apply(&self, _op: &mut TreeOp) -> Result<(), AllocError> {
        Ok(())
    }
}

impl ListEdit for NoEdit {
    ghost gives = { λ _ p r os. os };

    /// Leaves the list unchanged.
    fn apply(
        &self,
        _owner: OpId,
        _region: usize,
        _ops: &mut Vec<TreeOp>,
    ) -> Result<(), AllocError> {
        Ok(())
    }
}

/// Returns a copy of the tree with the edits made at each operation and at each list, innermost first.
#[cycle(edit)]
pub fn edited<H: HeadEdit, L: ListEdit>(
    alloc: Global,
    root: &TreeOp,
    heads: &H,
    lists: &L,
) -> Result<TreeOp, AllocError>
    ensures { IfOk result (λ t. t ≡ edited_by (H.gives heads.now) (L.gives lists.now) root.now) }
{
    let regions = edited_regions(alloc, root.id, &root.regions, heads, lists)?;
    op_of(alloc, root, regions, heads)
}

/// Returns copies of the regions of `owner`, with the edits made inside them.
#[cycle(edit)]
fn edited_regions<H: HeadEdit, L: ListEdit>(
    alloc: Global,
    owner: OpId,
    regions: &Vec<TreeRegion>,
    heads: &H,
    lists: &L,
) -> Result<Vec<TreeRegion>, AllocError>
    ensures { IfOk result (λ v. regions_of (map region_view v.items) ≡ regions_edited (H.gives heads.now) (L.gives lists.now) owner 0 (regions_of (map region_view regions.now.items))) }
{
    let mut copies = Vec::with_capacity(alloc, regions.len())?;
    for (number, region) in regions.iter().enumerate() {
        copies.push(edited_region(alloc, owner, number, region, heads, lists)?)?;
    }
    Ok(copies)
}

/// Returns a copy of region `number` of `owner`, with the edits made inside it.
#[cycle(edit)]
fn edited_region<H: HeadEdit, L: ListEdit>(
    alloc: Global,
    owner: OpId,
    number: usize,
    region: &TreeRegion,
    heads: &H,
    lists: &L,
) -> Result<TreeRegion, AllocError>
    ensures { IfOk result (λ r. region_view r ≡ region_edited (H.gives heads.now) (L.gives lists.now) owner number (region_view region.now)) }
{
    match region {
        TreeRegion::Empty => Ok(TreeRegion::Empty),
        TreeRegion::Block { args, ops } => {
            let mut copies = Vec::with_capacity(alloc, ops.len())?;
            for op in ops {
                copies.push(edited(alloc, op, heads, lists)?)?;
            }
            block_of(alloc, owner, number, args, copies, lists)
        }
    }
}

/// Returns an operation with an edited copy of another operation's head, and with these regions.
fn op_of<H: HeadEdit>(
    alloc: Global,
    root: &TreeOp,
    regions: Vec<TreeRegion>,
    heads: &H,
) -> Result<TreeOp, AllocError>
    ensures { IfOk result (λ t. t ≡ op (H.gives heads.now (head root.now)) (regions_of (map region_view regions.items))) }
{
    let mut copy = with_regions(alloc, root, regions)?;
    heads.apply(&mut copy)?;
    Ok(copy)
}

/// Returns an operation with a copy of another operation's head, and with these regions.
fn with_regions(
    alloc: Global,
    root: &TreeOp,
    regions: Vec<TreeRegion>,
) -> Result<TreeOp, AllocError>
    ensures { IfOk result (λ t. t ≡ op (head root.now) (regions_of (map region_view regions.items))) }
{
    Ok(TreeOp {
        id: root.id,
        name: root.name,
        operands: Vec::from_slice(alloc, &root.operands)?,
        results: Vec::from_slice(alloc, &root.results)?,
        props: Vec::from_slice(alloc, &root.props)?,
        attrs: Vec::from_slice(alloc, &root.attrs)?,
        regions,
    })
}

/// Returns a region whose block has a copy of the arguments, and these operations, edited as a list.
fn block_of<L: ListEdit>(
    alloc: Global,
    owner: OpId,
    number: usize,
    args: &Vec<TypeId>,
    ops: Vec<TreeOp>,
    lists: &L,
) -> Result<TreeRegion, AllocError>
    ensures { IfOk result (λ r. region_view r ≡ block args.now.items (L.gives lists.now owner number (ops_of ops.items))) }
{
    let mut ops = ops;
    lists.apply(owner, number, &mut ops)?;
    Ok(TreeRegion::Block {
        args: Vec::from_slice(alloc, args)?,
        ops,
    })
}
