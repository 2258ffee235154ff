//! Lists the blocks of a region, with the blocks around each.
ghost use Rattle.std.specs.Prelude.{◌≡◌, ◌++◌, ◌∷◌, ◌||◌, [], false, if◌then◌else◌, map, unsigned_abs, IfOk, OnOk};
ghost use Rattle.ir_tree.specs.Meaning.{meaning};
ghost use Rattle.ir_tree.specs.Tree.{head};
ghost use Rattle.ir_tree_blocks.specs.Scopes as scopes;
ghost use Rattle.ir_tree_blocks.specs.Form as form;
ghost use Rattle.ir_tree_blocks.specs.Form.{named_in, placed_in, placed_in_region};
ghost use Rattle.ir_tree_blocks.specs.Read.{ops_meaning, region_meaning};
ghost use Rattle.ir_tree_blocks.specs.Views.{placed_view};

use crate::readings::{is_scope, is_unreachable, label, successors};
use ir_tree::tree::{TreeOp, TreeRegion};
use ir_types::context::Context;
use std::alloc::{AllocError, Global};

/// A block of a region.
#[derive(Drop)]
pub struct Placed {
    /// The label of the block, 0 for the entry.
    pub label: u128,
    /// The labels of the blocks around it, innermost first.
    pub around: Vec<u128>,
    /// Whether it is inside a scope that is marked as unreachable.
    pub unreachable: bool,
    /// The labels that its operations name as successors.
    pub names: Vec<u128>,
}

/// Returns the blocks of a region, the entry first.
pub fn placed_blocks(
    alloc: Global,
    ctx: &Context,
    region: &TreeRegion,
) -> Result<Vec<Placed>, AllocError>
    ensures { IfOk result (λ v. map placed_view v.items ≡ form.placed_blocks (region_meaning ctx.now region.now)) }
{
    let mut out = Vec::new(alloc);
    let around = Vec::new(alloc);
    push_region(ctx, region, 0, &around, false, &mut out)?;
    Ok(out)
}

/// Adds the block of a scope and the blocks inside it, with these blocks around them. Adds nothing for an operation that
/// is no scope.
#[cycle(place)]
fn push_scope(
    ctx: &Context,
    op: &TreeOp,
    around: &Vec<u128>,
    unreachable: bool,
    out: &mut Vec<Placed>,
) -> Result<(), AllocError>
    ensures { OnOk result (map placed_view out.new.items ≡ map placed_view out.old.items
        ++ (if scopes.is_scope (head (meaning ctx.now op.now)) then placed_in around.now.items unreachable (meaning ctx.now op.now) else [])) }
{
    if !is_scope(ctx, op) {
        return Ok(());
    }
    let [region, ..] = op.regions.as_slice() else {
        return Ok(());
    };
    let own = label(ctx, op);
    let inside = is_inside_unreachable(ctx, op, unreachable);
    push_region(ctx, region, own, around, inside, out)
}

/// Adds the block of a region, which has this label, and the blocks inside it.
#[cycle(place)]
fn push_region(
    ctx: &Context,
    region: &TreeRegion,
    own: u128,
    around: &Vec<u128>,
    unreachable: bool,
    out: &mut Vec<Placed>,
) -> Result<(), AllocError>
    ensures { OnOk result (map placed_view out.new.items ≡ map placed_view out.old.items
        ++ placed_in_region own around.now.items unreachable (region_meaning ctx.now region.now)) }
{
    if let TreeRegion::Block { ops, .. } = region {
        let inner = push_block(ctx, own, around, unreachable, ops, out)?;
        for op in ops {
            push_scope(ctx, op, &inner, unreachable, out)?;
        }
    }
    Ok(())
}

/// Returns whether the inside of a scope can't be reached: outside can't, or the scope is marked so.
fn is_inside_unreachable(ctx: &Context, op: &TreeOp, outside: bool) -> bool
    ensures { result ≡ (outside || scopes.is_unreachable (head (meaning ctx.now op.now))) }
{
    outside || is_unreachable(ctx, op)
}

/// Adds one block, and returns the labels around the blocks right inside it.
#[tactic(auto, using(crate::proofs::Listing::one_more))]
fn push_block(
    ctx: &Context,
    own: u128,
    around: &Vec<u128>,
    unreachable: bool,
    ops: &Vec<TreeOp>,
    out: &mut Vec<Placed>,
) -> Result<Vec<u128>, AllocError>
    ensures inner { IfOk result (λ v. v.items ≡ own ∷ around.now.items) }
    ensures pushed { OnOk result (map placed_view out.new.items ≡ map placed_view out.old.items
        ++ record { label = own; around = around.now.items; unreachable = unreachable; names = named_in (ops_meaning ctx.now ops.now.items) } ∷ []) }
{
    let alloc = *out.allocator();
    let block = new_block(alloc, own, around, unreachable, named(alloc, ctx, ops)?)?;
    out.push(block)?;
    with_label(alloc, own, around)
}

/// Returns a block with a copy of the labels around it.
fn new_block(
    alloc: Global,
    own: u128,
    around: &Vec<u128>,
    unreachable: bool,
    names: Vec<u128>,
) -> Result<Placed, AllocError>
    ensures { IfOk result (λ b. placed_view b ≡ record { label = own; around = around.now.items; unreachable = unreachable; names = names.items }) }
{
    Ok(Placed {
        label: own,
        around: Vec::from_slice(alloc, around)?,
        unreachable,
        names,
    })
}

/// Returns a label, followed by others.
fn with_label(alloc: Global, own: u128, around: &Vec<u128>) -> Result<Vec<u128>, AllocError>
    ensures { IfOk result (λ v. v.items ≡ own ∷ around.now.items) }
{
    let mut inner = Vec::with_capacity(alloc, 1)?;
    inner.push(own)?;
    inner.extend_from_slice(around)?;
    Ok(inner)
}

/// Returns the labels that the operations of a block name as successors, without those of scopes.
fn named(alloc: Global, ctx: &Context, ops: &Vec<TreeOp>) -> Result<Vec<u128>, AllocError>
    ensures { IfOk result (λ v. v.items ≡ named_in (ops_meaning ctx.now ops.now.items)) }
{
    let mut names = Vec::new(alloc);
    for op in ops {
        push_named(ctx, op, &mut names)?;
    }
    Ok(names)
}

/// Adds the labels that an operation names as successors. Adds nothing for a scope.
#[tactic(auto, using(crate::proofs::Listing::magnitudes, crate::proofs::Listing::nothing_more))]
fn push_named(ctx: &Context, op: &TreeOp, out: &mut Vec<u128>) -> Result<(), AllocError>
    ensures { OnOk result (out.new.items ≡ out.old.items
        ++ (if scopes.is_scope (head (meaning ctx.now op.now)) then [] else scopes.successors_of (head (meaning ctx.now op.now)))) }
{
    if is_scope(ctx, op) {
        return Ok(());
    }
    push_magnitudes(successors(ctx, op), out)
}

/// Adds the magnitudes of integers.
fn push_magnitudes(numbers: &[i64], out: &mut Vec<u128>) -> Result<(), AllocError>
    ensures { OnOk result (out.new.items ≡ out.old.items ++ map unsigned_abs numbers.now) }
{
    let mut rest = numbers;
    'numbers: while let [number, tail @ ..] = rest {
        out.push(u128::from(number.unsigned_abs()))?;
        rest = tail;
    }
    Ok(())
}
