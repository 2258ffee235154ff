//! Copies operations without the operations inside their blocks, with i64 for index.
ghost use Rattle.std.specs.Prelude.{◌≡◌, IfOk, true, map};
ghost use Rattle.std.specs.List.{list_all};
ghost use Rattle.ir_event.specs.types.Things.{IsType};
ghost use Rattle.ir_event.specs.trees.Limits.{all_arguments_pass, arguments_pass};
ghost use Rattle.ir_event.specs.trees.Meaning.{IsSoundIn, is_type};
ghost use Rattle.ir_event.specs.trees.Tree.{regions_of};
ghost use Rattle.ir_event.specs.trees.View.{region_view};
ghost use Rattle.patterns_lowering.specs.Numbers.{op_lowered, region_lowered, regions_lowered, type_lowered};

use crate::index::is_index;
use ir_event::trees::tree::{TreeOp, TreeRegion};
use ir_event::trees::value::Value;
use ir_event::types::context::Context;
use ir_event::types::ids::{AttrId, NameId, TypeId};
use std::alloc::{AllocError, Global};

/// Returns `wide` for index, and any other type unchanged.
fn lowered_type(ctx: &Context, wide: TypeId, ty: TypeId) -> TypeId
    requires { IsType ctx.now ty }
    ensures { result ≡ type_lowered ctx.now wide ty }
{
    if is_index(ctx, ty) { wide } else { ty }
}

/// Returns the types, with `wide` for index.
fn lowered_types(
    alloc: Global,
    ctx: &Context,
    wide: TypeId,
    types: &[TypeId],
) -> Result<Vec<TypeId>, AllocError>
    requires { list_all (is_type ctx.now) types.now ≡ true }
    ensures { IfOk result (λ ts. ts.items ≡ map (type_lowered ctx.now wide) types.now) }
{
    let mut lowered = Vec::new(alloc);
    let mut rest = types;
    'types: while let [ty, tail @ ..] = rest {
        lowered.push(lowered_type(ctx, wide, *ty))?;
        rest = tail;
    }
    Ok(lowered)
}

/// Returns a region with an empty block and with `wide` for index.
fn lowered_region(
    alloc: Global,
    ctx: &Context,
    wide: TypeId,
    region: &TreeRegion,
) -> Result<TreeRegion, AllocError>
    requires { arguments_pass (list_all (is_type ctx.now)) (region_view region.now) ≡ true }
    ensures { IfOk result (λ r. region_view r ≡ region_lowered ctx.now wide (region_view region.now)) }
{
    match region {
        TreeRegion::Empty => Ok(TreeRegion::Empty),
        TreeRegion::Block { args, .. } => Ok(TreeRegion::Block {
            args: lowered_types(alloc, ctx, wide, args)?,
            ops: Vec::new(alloc),
        }),
    }
}

/// Returns the regions with empty blocks and with `wide` for index.
fn lowered_regions(
    alloc: Global,
    ctx: &Context,
    wide: TypeId,
    regions: &[TreeRegion],
) -> Result<Vec<TreeRegion>, AllocError>
    requires { all_arguments_pass (list_all (is_type ctx.now)) (regions_of (map region_view regions.now)) ≡ true }
    ensures { IfOk result (λ rs. regions_of (map region_view rs.items)
        ≡ regions_lowered ctx.now wide (regions_of (map region_view regions.now))) }
{
    let mut lowered = Vec::new(alloc);
    'regions: for region in regions {
        lowered.push(lowered_region(alloc, ctx, wide, region)?)?;
    }
    Ok(lowered)
}

/// Returns an operation with the given properties and operands, and with `wide` for index.
pub(crate) fn lowered(
    alloc: Global,
    ctx: &Context,
    wide: TypeId,
    properties: Vec<(NameId, AttrId)>,
    operands: Vec<Value>,
    op: &TreeOp,
) -> Result<TreeOp, AllocError>
    requires { IsSoundIn ctx.now op.now }
    ensures { IfOk result (λ o. o ≡ op_lowered ctx.now wide properties.items operands.items op.now) }
{
    let results = lowered_types(alloc, ctx, wide, &op.results)?;
    let regions = lowered_regions(alloc, ctx, wide, &op.regions)?;
    Ok(TreeOp {
        id: op.id,
        name: op.name,
        operands,
        results,
        props: properties,
        attrs: Vec::from_slice(alloc, &op.attrs)?,
        regions,
    })
}
