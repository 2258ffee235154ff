//! Lists the scopes of a region in the order of the text.
ghost use Rattle.std.specs.Prelude.{◌≡◌, ◌++◌, [], true, map, if◌then◌else◌, IfOk, OnOk, IsPermutation};
ghost use Rattle.std.specs.List.Sorted.{IsNonDecreasingBy};
ghost use Rattle.ir_tree.specs.Meaning.{meaning};
ghost use Rattle.ir_tree.specs.Tree.{head};
ghost use Rattle.ir_tree_blocks.specs.Scopes as heads;
ghost use Rattle.ir_tree_blocks.specs.Flattening.{blocks_in, blocks_under, sorted_blocks};
ghost use Rattle.ir_tree_blocks.specs.Nesting.{all_differ};
ghost use Rattle.ir_tree_blocks.specs.Inside.{inside_of, under_region};
ghost use Rattle.ir_tree_blocks.specs.Read.{ops_meaning, region_meaning};

use crate::readings::{is_scope, label};
use crate::shapes::is_block;
use ir_tree::tree::{TreeOp, TreeRegion};
use ir_types::context::Context;
use std::alloc::{AllocError, Global};

/// Returns the scopes in a region, those inside scopes too, in rising order of their labels. If no label occurs twice,
/// their blocks are the further blocks of the region in the order of the text.
pub fn scopes_in_text_order<'a>(
    alloc: Global,
    ctx: &Context,
    region: &'a TreeRegion,
) -> Result<Vec<&'a TreeOp>, AllocError>
    ensures { IfOk result (λ v. all_differ (map (λ b. b.label) (under_region (region_meaning ctx.now region.now))) ≡ true
        → map (λ o. inside_of (meaning ctx.now o.now)) v.items ≡ sorted_blocks (under_region (region_meaning ctx.now region.now))) }
{
    let mut scopes = scopes_in(alloc, ctx, region)?;
    sort(ctx, &mut scopes)?;
    Ok(scopes)
}

/// Returns the scopes in a region, in pre-order.
fn scopes_in<'a>(
    alloc: Global,
    ctx: &Context,
    region: &'a TreeRegion,
) -> Result<Vec<&'a TreeOp>, AllocError>
    ensures { IfOk result (λ v. map (λ o. inside_of (meaning ctx.now o.now)) v.items ≡ under_region (region_meaning ctx.now region.now)) }
{
    let mut scopes = Vec::new(alloc);
    push_region(ctx, region, &mut scopes)?;
    Ok(scopes)
}

/// Sorts scopes by their labels.
fn sort<'a>(ctx: &Context, scopes: &mut Vec<&'a TreeOp>) -> Result<(), AllocError>
    ensures moved { IsPermutation scopes.old.items scopes.new.items }
    ensures rising { OnOk result (IsNonDecreasingBy (λ o. heads.label_of (head (meaning ctx.now o.now))) scopes.new.items) }
{
    scopes.sort_by_key(|scope| label(ctx, scope))?;
    Ok(())
}

/// Adds a scope, if it has a block, and the scopes inside it. Adds nothing for an operation that is no scope.
#[cycle(under)]
fn push_scope<'a>(
    ctx: &Context,
    op: &'a TreeOp,
    out: &mut Vec<&'a TreeOp>,
) -> Result<(), AllocError>
    ensures { OnOk result (map (λ o. inside_of (meaning ctx.now o.now)) out.new.items ≡ map (λ o. inside_of (meaning ctx.now o.now)) out.old.items
        ++ (if heads.is_scope (head (meaning ctx.now op.now)) then blocks_in (meaning ctx.now op.now) else [])) }
{
    if !is_scope(ctx, op) {
        return Ok(());
    }
    let [region, ..] = op.regions.as_slice() else {
        return Ok(());
    };
    if !is_block(region) {
        return Ok(());
    }
    out.push(op)?;
    push_region(ctx, region, out)
}

/// Adds the scopes in a region, and those inside them.
#[cycle(under)]
fn push_region<'a>(
    ctx: &Context,
    region: &'a TreeRegion,
    out: &mut Vec<&'a TreeOp>,
) -> Result<(), AllocError>
    ensures { OnOk result (map (λ o. inside_of (meaning ctx.now o.now)) out.new.items ≡ map (λ o. inside_of (meaning ctx.now o.now)) out.old.items ++ under_region (region_meaning ctx.now region.now)) }
{
    if let TreeRegion::Block { ops, .. } = region {
        for op in ops {
            push_scope(ctx, op, out)?;
        }
    }
    Ok(())
}
