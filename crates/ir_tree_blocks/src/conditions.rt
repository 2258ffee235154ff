//! Tests the form of nested trees.
ghost use Rattle.std.specs.Prelude.{◌≡◌, ◌∷◌, ◌&&◌, ◌↔◌, IsTrue, IfOk, map, eqb};
ghost use Rattle.std.specs.List.{list_any, list_all};
ghost use Rattle.ir_tree.specs.Limits.{every, region_every, regions_every};
ghost use Rattle.ir_tree.specs.Meaning.{meaning};
ghost use Rattle.ir_tree_blocks.specs.Nesting.{all_differ};
ghost use Rattle.ir_tree_blocks.specs.Form as form;
ghost use Rattle.ir_tree_blocks.specs.Form.{all_regions};
ghost use Rattle.ir_tree_blocks.specs.Whole as whole;
ghost use Rattle.ir_tree_blocks.specs.Whole.{IsNested};
ghost use Rattle.ir_tree_blocks.specs.Read.{region_meaning, regions_meaning};
ghost use Rattle.ir_tree_blocks.specs.Views.{placed_view};

use crate::placement::{Placed, placed_blocks};
use crate::readings::is_scope;
use crate::shapes::FormTest;
use ir_tree::every::every_op;
use ir_tree::tree::{TreeOp, TreeRegion};
use ir_types::context::Context;
use std::alloc::{AllocError, Global};
use std::collections::HashSet;

/// Returns whether a nested tree is in form. Takes memory for the blocks of one region.
pub fn is_in_form(alloc: Global, ctx: &Context, root: &TreeOp) -> Result<bool, AllocError>
    ensures { IfOk result (λ b. IsTrue b ↔ IsNested (meaning ctx.now root.now)) }
{
    let passes = passes(alloc, ctx, root)?;
    Ok(passes)
}

/// Returns whether a nested tree passes all tests of the form.
fn passes(alloc: Global, ctx: &Context, root: &TreeOp) -> Result<bool, AllocError>
    ensures { IfOk result (λ b. b ≡ whole.is_nested (meaning ctx.now root.now)) }
{
    if !is_formed(ctx, root) {
        return Ok(false);
    }
    labels_are_good(alloc, ctx, root)
}

/// Returns whether the root is no scope, and each operation has its shape and its lists in order.
fn is_formed(ctx: &Context, root: &TreeOp) -> bool
    ensures { result ≡ whole.is_each_formed (meaning ctx.now root.now) }
{
    !is_scope(ctx, root) && each_is_formed(ctx, root)
}

/// Returns whether each operation has its shape and its lists in order.
fn each_is_formed(ctx: &Context, root: &TreeOp) -> bool
    ensures { result ≡ every whole.is_formed (meaning ctx.now root.now) }
{
    every_op(root, &FormTest { ctx })
}

/// Returns whether the labels of each region of each operation that isn't a scope are distinct and lexical.
#[cycle(labels)]
fn labels_are_good(alloc: Global, ctx: &Context, op: &TreeOp) -> Result<bool, AllocError>
    ensures { IfOk result (λ b. b ≡ every whole.has_good_regions (meaning ctx.now op.now)) }
{
    if !own_labels_are_good(alloc, ctx, op)? {
        return Ok(false);
    }
    labels_in_regions_are_good(alloc, ctx, &op.regions)
}

/// Returns whether the same holds for the operations in some regions.
#[cycle(labels)]
fn labels_in_regions_are_good(
    alloc: Global,
    ctx: &Context,
    regions: &Vec<TreeRegion>,
) -> Result<bool, AllocError>
    ensures { IfOk result (λ b. b ≡ regions_every whole.has_good_regions (regions_meaning ctx.now regions.now.items)) }
{
    for region in regions {
        if !labels_inside_are_good(alloc, ctx, region)? {
            return Ok(false);
        }
    }
    Ok(true)
}

/// Returns whether the same holds for the operations of a region.
#[cycle(labels)]
fn labels_inside_are_good(
    alloc: Global,
    ctx: &Context,
    region: &TreeRegion,
) -> Result<bool, AllocError>
    ensures { IfOk result (λ b. b ≡ region_every whole.has_good_regions (region_meaning ctx.now region.now)) }
{
    if let TreeRegion::Block { ops, .. } = region {
        for op in ops {
            if !labels_are_good(alloc, ctx, op)? {
                return Ok(false);
            }
        }
    }
    Ok(true)
}

/// Returns whether an operation is a scope, or the labels of each of its regions are distinct and lexical.
fn own_labels_are_good(alloc: Global, ctx: &Context, op: &TreeOp) -> Result<bool, AllocError>
    ensures { IfOk result (λ b. b ≡ whole.has_good_regions (meaning ctx.now op.now)) }
{
    if is_scope(ctx, op) {
        return Ok(true);
    }
    regions_are_good(alloc, ctx, &op.regions)
}

/// Returns whether the labels of each of some regions are distinct and lexical.
fn regions_are_good(
    alloc: Global,
    ctx: &Context,
    regions: &Vec<TreeRegion>,
) -> Result<bool, AllocError>
    ensures { IfOk result (λ b. b ≡ all_regions whole.has_good_labels (regions_meaning ctx.now regions.now.items)) }
{
    for region in regions {
        if !has_good_labels(alloc, ctx, region)? {
            return Ok(false);
        }
    }
    Ok(true)
}

/// Returns whether the labels of a region are distinct and lexical.
pub fn has_good_labels(
    alloc: Global,
    ctx: &Context,
    region: &TreeRegion,
) -> Result<bool, AllocError>
    ensures { IfOk result (λ b. b ≡ whole.has_good_labels (region_meaning ctx.now region.now)) }
{
    let placed = placed_blocks(alloc, ctx, region)?;
    if !labels_differ(alloc, &placed)? {
        return Ok(false);
    }
    Ok(is_lexical(&placed))
}

/// Returns whether no two blocks have one label.
fn labels_differ(alloc: Global, placed: &Vec<Placed>) -> Result<bool, AllocError>
    ensures { IfOk result (λ b. b ≡ all_differ (map (λ c. c.label) (map placed_view placed.now.items))) }
{
    let labels = labels(alloc, placed)?;
    are_distinct(alloc, &labels)
}

/// Returns the labels of blocks.
fn labels(alloc: Global, placed: &Vec<Placed>) -> Result<Vec<u128>, AllocError>
    ensures { IfOk result (λ v. v.items ≡ map (λ c. c.label) placed.now.items) }
{
    placed.iter().map(|block| block.label).collect(alloc)
}

/// Returns whether no number occurs twice.
fn are_distinct(alloc: Global, numbers: &Vec<u128>) -> Result<bool, AllocError>
    ensures { IfOk result (λ b. b ≡ all_differ numbers.now.items) }
{
    let different: HashSet<u128> = numbers.iter().map(|number| *number).collect(alloc)?;
    Ok(different.len() == numbers.len())
}

/// Returns whether each label that a block names is that of a block that it may name.
fn is_lexical(placed: &Vec<Placed>) -> bool
    ensures { result ≡ list_all (form.names_in_sight (map placed_view placed.now.items)) (map placed_view placed.now.items) }
{
    all_name_in_sight(placed)
}

/// Returns whether each block names only blocks that it may name.
fn all_name_in_sight(placed: &Vec<Placed>) -> bool
    ensures { result ≡ list_all (λ b. form.names_in_sight (map placed_view placed.now.items) (placed_view b)) placed.now.items }
{
    placed.iter().all(|block| names_in_sight(placed, block))
}

/// Returns whether each label that one block names is that of a block that it may name.
fn names_in_sight(placed: &Vec<Placed>, block: &Placed) -> bool
    ensures { result ≡ form.names_in_sight (map placed_view placed.now.items) (placed_view block.now) }
{
    block
        .names
        .iter()
        .all(|name| may_name(placed, block, *name))
}

/// Returns whether a label is that of a block that this block may name.
fn may_name(placed: &Vec<Placed>, block: &Placed, name: u128) -> bool
    ensures { result ≡ list_any (λ c. eqb c.label name && form.can_name (placed_view block.now) c) (map placed_view placed.now.items) }
{
    may_name_one_of(placed, block, name)
}

/// Returns whether one of some blocks has a label and may be named.
fn may_name_one_of(placed: &Vec<Placed>, block: &Placed, name: u128) -> bool
    ensures { result ≡ list_any (λ c. eqb c.label name && form.can_name (placed_view block.now) (placed_view c)) placed.now.items }
{
    placed
        .iter()
        .any(|other| other.label == name && can_name(block, other))
}

/// Returns whether a block may name another.
fn can_name(block: &Placed, other: &Placed) -> bool
    ensures { result ≡ form.can_name (placed_view block.now) (placed_view other.now) }
{
    let [parent, ..] = other.around.as_slice() else {
        return false;
    };
    block.unreachable || (!other.unreachable && is_own_or_around(block, *parent))
}

/// Returns whether a label is that of a block or of a block around it.
fn is_own_or_around(block: &Placed, label: u128) -> bool
    ensures { result ≡ list_any (eqb label) (block.now.label ∷ block.now.around.items) }
{
    label == block.label || is_around(block, label)
}

/// Returns whether a label is that of a block around another.
fn is_around(block: &Placed, label: u128) -> bool
    ensures { result ≡ list_any (eqb label) block.now.around.items }
{
    block.around.iter().any(|around| label == *around)
}
