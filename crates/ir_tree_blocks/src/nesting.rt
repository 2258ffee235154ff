//! Nests the blocks of a region: each becomes a scope below its parent.
ghost use Rattle.std.specs.Prelude.{◌≡◌, ◌+◌, ◌++◌, ◌∷◌, [], false, eqb, length, map, if◌then◌else◌, true, IsTrue, IfOk, IfSome, OnOk};
ghost use Rattle.ir_types.specs.Things.{ContextModel};
ghost use Rattle.ir_types.specs.Terms.{IntegerOf, attr_term, name_term, type_term};
ghost use Rattle.ir_tree.specs.Meaning.{meaning};
ghost use Rattle.ir_tree.specs.Tree.{block as block_of, no_regions, op as op_of, op_list, region as region_of};
ghost use Rattle.ir_tree_blocks.specs.Scopes.{i32, scope_head};
ghost use Rattle.ir_tree_blocks.specs.Nesting.{followed_by, nested_at, scope_of, scopes_of};
ghost use Rattle.ir_tree_blocks.specs.Read.{ops_meaning, region_meaning};
ghost use Rattle.ir_tree_blocks.specs.Form.{placed_blocks};
ghost use Rattle.ir_tree_blocks.specs.Whole.{has_good_labels};
ghost use Rattle.ir_tree_blocks.specs.Nested as nested;
ghost use Rattle.ir_tree_blocks.specs.Nested.{layout_below, layout_inside, nested_view};

use crate::conditions::has_good_labels;
use crate::placement::placed_blocks as blocks_of;
use crate::readings::{has_bytes, number};
use ir_tree::copy::copy;
use ir_tree::tree::{TreeOp, TreeRegion};
use ir_types::context::Context;
use ir_types::ids::{AttrId, NameId, OpId, TypeId};
use std::alloc::{AllocError, AllocFailed, Global};

/// The limit of scopes around a block.
pub const MOST_SCOPES: u64 = 1024;

/// The reason for which blocks aren't nested.
#[derive(Clone, Copy, PartialEq, Eq)]
pub enum NestFault {
    /// A block is inside more than 1,024 scopes.
    TooDeep,
    /// There is no block with a label.
    UnknownLabel,
    /// A block isn't below the entry, or a label is out of sight or occurs twice.
    BadParents,
    /// A name isn't that of scopes or of their labels, or an attribute isn't the label of its block.
    WrongName,
    /// Memory ran out.
    Memory,
}

impl From<AllocError> for NestFault {
    /// Returns `Memory`.
    fn from(_error: AllocError) -> NestFault {
        NestFault::Memory
    }
}

impl<T: Drop> From<AllocFailed<T>> for NestFault {
    /// Returns `Memory`.
    fn from(_error: AllocFailed<T>) -> NestFault {
        NestFault::Memory
    }
}

/// A block of a region, with nested operations.
#[derive(Drop)]
pub struct BlockToNest {
    /// The id of its scope.
    pub id: OpId,
    /// The label.
    pub label: u128,
    /// The label as an attribute.
    pub order: AttrId,
    /// The label of the block that its scope is in, 0 for the entry.
    pub parent: u128,
    /// The types of the arguments.
    pub args: Vec<TypeId>,
    /// The operations.
    pub ops: Vec<TreeOp>,
}

/// What nesting needs: a context, the names of scopes and of the attribute for labels, and the blocks.
pub struct ToNest<'a> {
    pub ctx: &'a Context,
    pub scope: NameId,
    pub order: NameId,
    pub blocks: &'a Vec<BlockToNest>,
}

/// Returns the region whose entry has these arguments and operations, and in which each block is a scope in its parent.
/// Its labels are distinct and lexical, and it has as many further blocks as were given.
///
/// Faults: `TooDeep`, `UnknownLabel`, `WrongName`, `BadParents`, `Memory`.
pub fn nest(
    all: &ToNest<'_>,
    args: Vec<TypeId>,
    entry: Vec<TreeOp>,
) -> Result<TreeRegion, NestFault>
    ensures region { IfOk result (λ g. region_meaning all.now.ctx.now g ≡ block_of (map (type_term all.now.ctx.now) args.items)
        (followed_by (ops_meaning all.now.ctx.now entry.items)
        (scopes_of (map (nested_view all.now.ctx.now) all.now.blocks.now.items) (layout_below all.now.blocks.now.items 1024 0)))) }
    ensures labels { IfOk result (λ g. has_good_labels (region_meaning all.now.ctx.now g) ≡ true) }
    ensures each { IfOk result (λ g. length (placed_blocks (region_meaning all.now.ctx.now g)) ≡ length all.now.blocks.now.items + 1) }
{
    let region = unchecked_nest(all, args, entry)?;
    if !is_nested(all, &region)? {
        return Err(NestFault::BadParents);
    }
    Ok(region)
}

/// Returns whether the labels of a region are distinct and lexical, and it has as many further blocks as were given.
fn is_nested(all: &ToNest<'_>, region: &TreeRegion) -> Result<bool, AllocError>
    ensures { IfOk result (λ b. IsTrue b → (has_good_labels (region_meaning all.now.ctx.now region.now) ≡ true)
        × (length (placed_blocks (region_meaning all.now.ctx.now region.now)) ≡ length all.now.blocks.now.items + 1)) }
{
    let alloc = *all.blocks.allocator();
    let count = count_blocks(alloc, all.ctx, region)?;
    if count != all.blocks.len() + 1 {
        return Ok(false);
    }
    let good = has_good_labels(alloc, all.ctx, region)?;
    Ok(good)
}

/// Returns the number of blocks of a region.
fn count_blocks(alloc: Global, ctx: &Context, region: &TreeRegion) -> Result<usize, AllocError>
    ensures { IfOk result (λ n. n ≡ length (placed_blocks (region_meaning ctx.now region.now))) }
{
    let placed = blocks_of(alloc, ctx, region)?;
    Ok(placed.len())
}

/// Returns the region, whose labels aren't tested.
fn unchecked_nest(
    all: &ToNest<'_>,
    args: Vec<TypeId>,
    entry: Vec<TreeOp>,
) -> Result<TreeRegion, NestFault>
    ensures { IfOk result (λ g. region_meaning all.now.ctx.now g ≡ block_of (map (type_term all.now.ctx.now) args.items)
        (followed_by (ops_meaning all.now.ctx.now entry.items)
        (scopes_of (map (nested_view all.now.ctx.now) all.now.blocks.now.items) (layout_below all.now.blocks.now.items 1024 0)))) }
{
    let mut ops = entry;
    push_below(all, 0, MOST_SCOPES, &mut ops)?;
    Ok(TreeRegion::Block { args, ops })
}

/// Adds the scopes of the blocks whose parent is this block, at most `spare` levels deep.
#[cycle(nest)]
fn push_below(
    all: &ToNest<'_>,
    parent: u128,
    spare: u64,
    out: &mut Vec<TreeOp>,
) -> Result<(), NestFault>
    ensures { OnOk result (map (meaning all.now.ctx.now) out.new.items ≡ map (meaning all.now.ctx.now) out.old.items
        ++ op_list (scopes_of (map (nested_view all.now.ctx.now) all.now.blocks.now.items) (layout_below all.now.blocks.now.items spare parent))) }
{
    for block in all.blocks {
        push_if_below(all, block, parent, spare, out)?;
    }
    Ok(())
}

/// Adds the scope of a block if its parent is this block.
#[cycle(nest)]
fn push_if_below(
    all: &ToNest<'_>,
    block: &BlockToNest,
    parent: u128,
    spare: u64,
    out: &mut Vec<TreeOp>,
) -> Result<(), NestFault>
    ensures { OnOk result (map (meaning all.now.ctx.now) out.new.items ≡ map (meaning all.now.ctx.now) out.old.items
        ++ (if eqb block.now.parent parent then scope_of (nested_at (map (nested_view all.now.ctx.now) all.now.blocks.now.items) block.now.label) false
        (scopes_of (map (nested_view all.now.ctx.now) all.now.blocks.now.items) (layout_inside all.now.blocks.now.items spare block.now.label)) ∷ [] else [])) }
{
    if block.parent != parent {
        return Ok(());
    }
    push_scope(all, block.label, spare, out)
}

/// Adds the scope of the block with a label.
#[cycle(nest)]
fn push_scope(
    all: &ToNest<'_>,
    label: u128,
    spare: u64,
    out: &mut Vec<TreeOp>,
) -> Result<(), NestFault>
    ensures { OnOk result (map (meaning all.now.ctx.now) out.new.items ≡ map (meaning all.now.ctx.now) out.old.items
        ++ scope_of (nested_at (map (nested_view all.now.ctx.now) all.now.blocks.now.items) label) false
        (scopes_of (map (nested_view all.now.ctx.now) all.now.blocks.now.items) (layout_inside all.now.blocks.now.items spare label)) ∷ []) }
{
    if spare == 0 {
        return Err(NestFault::TooDeep);
    }
    let Some(block) = block_at(all.blocks, label) else {
        return Err(NestFault::UnknownLabel);
    };
    let scope = scope_below(all, block, spare - 1)?;
    out.push(scope)?;
    Ok(())
}

/// Returns the scope of a block, with the scopes below the block, at most `spare` levels deep.
#[cycle(nest)]
fn scope_below(all: &ToNest<'_>, block: &BlockToNest, spare: u64) -> Result<TreeOp, NestFault>
    ensures { IfOk result (λ o. meaning all.now.ctx.now o ≡ scope_of (nested_view all.now.ctx.now block.now) false
        (scopes_of (map (nested_view all.now.ctx.now) all.now.blocks.now.items) (layout_below all.now.blocks.now.items spare block.now.label))) }
{
    let mut ops = copies(*block.ops.allocator(), &block.ops)?;
    push_below(all, block.label, spare, &mut ops)?;
    scope(all, block, ops)
}

/// Returns the first block with a label.
fn block_at(blocks: &Vec<BlockToNest>, label: u128) -> Option<&BlockToNest>
    ensures { IfSome result (λ b. (b.now.label ≡ label) × ((c : ContextModel) → nested_view c b.now ≡ nested_at (map (nested_view c) blocks.now.items) label)) }
{
    for block in blocks {
        if block.label == label {
            return Some(block);
        }
    }
    None
}

/// Returns copies of operations.
fn copies(alloc: Global, ops: &Vec<TreeOp>) -> Result<Vec<TreeOp>, AllocError>
    ensures { IfOk result (λ v. v.items ≡ ops.now.items) }
{
    let mut copies = Vec::with_capacity(alloc, ops.len())?;
    for op in ops {
        copies.push(copy(op)?)?;
    }
    Ok(copies)
}

/// Returns the scope of a block, with these operations.
fn scope(all: &ToNest<'_>, block: &BlockToNest, ops: Vec<TreeOp>) -> Result<TreeOp, NestFault>
    ensures { IfOk result (λ o. meaning all.now.ctx.now o ≡ op_of (scope_head block.now.id block.now.label false)
        (region_of (block_of (map (type_term all.now.ctx.now) block.now.args.items) (ops_meaning all.now.ctx.now ops.items)) no_regions)) }
{
    if !is_name(all.ctx, all.scope, b"cf.block") {
        return Err(NestFault::WrongName);
    }
    if !is_name(all.ctx, all.order, b"order") {
        return Err(NestFault::WrongName);
    }
    if !is_label(all.ctx, block.order, block.label) {
        return Err(NestFault::WrongName);
    }
    let scope = unchecked_scope(all, block, ops)?;
    Ok(scope)
}

/// Returns whether a name has these bytes.
fn is_name(ctx: &Context, name: NameId, bytes: &[u8]) -> bool
    ensures { IsTrue result → name_term ctx.now name ≡ bytes.now }
{
    has_bytes(ctx, name, bytes)
}

/// Returns whether an attribute is a label.
fn is_label(ctx: &Context, attr: AttrId, label: u128) -> bool
    ensures { IsTrue result → attr_term ctx.now attr ≡ IntegerOf i32 label }
{
    match number(ctx, attr) {
        Some(number) => number == label,
        None => false,
    }
}

/// Returns the scope of a block, with these operations, whose names aren't checked.
fn unchecked_scope(
    all: &ToNest<'_>,
    block: &BlockToNest,
    ops: Vec<TreeOp>,
) -> Result<TreeOp, AllocError>
    ensures { IfOk result (λ o. o ≡ nested.unchecked_scope all.now.scope all.now.order block.now ops.items) }
{
    let alloc = *ops.allocator();
    let args = Vec::from_slice(alloc, &block.args)?;
    let mut attrs = Vec::with_capacity(alloc, 1)?;
    attrs.push((all.order, block.order))?;
    let mut regions = Vec::with_capacity(alloc, 1)?;
    regions.push(TreeRegion::Block { args, ops })?;
    Ok(TreeOp {
        id: block.id,
        name: all.scope,
        operands: Vec::new(alloc),
        results: Vec::new(alloc),
        props: Vec::new(alloc),
        attrs,
        regions,
    })
}
