//! `lower-index`: an operation on index becomes one on i64, with casts around it.
ghost use Rattle.std.specs.Prelude.{◌≡◌, ◌≤◌, ◌+◌, IfOk, OnOk, ◌++◌, ◌∷◌, []};
ghost use Rattle.ir_event.specs.trees.Limits.{most_next};
ghost use Rattle.ir_event.specs.trees.Tree.{head};
ghost use Rattle.patterns_soundness.specs.base.Lowering.{crossed, marked};
ghost use Rattle.patterns_soundness.specs.base.declared.edit.Edit.TheVariants.{Make};
ghost use Rattle.patterns_lowering.specs.Numbers.{op_lowered, operation_edits};
ghost use Rattle.patterns_lowering.specs.Plans.{IsIndexed};

use crate::give::push_given;
use crate::lists::{crossed, push_bridges, push_edit};
use crate::lower::lowered;
use crate::marks::marked;
use crate::numbers::{Casts, Numbers, casts_at};
use crate::plan::Indexed;
use ir_event::trees::place::Place;
use ir_event::types::context::Context;
use ir_event::types::ids::{AttrId, NameId, OpId};
use patterns_soundness::base::edit::Edit;
use std::alloc::{AllocError, Global};

/// Appends casts of the operands and the operation on i64 after them.
pub(crate) fn push_made(
    alloc: Global,
    ctx: &Context,
    edits: &mut Vec<Edit>,
    casts: &Casts,
    properties: Vec<(NameId, AttrId)>,
    of: &Indexed,
) -> Result<(), AllocError>
    requires of { IsIndexed ctx.now of.now }
    requires headroom { casts.now.first + marked of.now.index_operands.items ≤ most_next }
    ensures { OnOk result (edits.new.items ≡ edits.old.items
        ++ Make casts.now.place (op_lowered ctx.now casts.now.ty properties.items
        (crossed casts.now.first of.now.index_operands.items (head of.now.op).operands) of.now.op) ∷ []) }
{
    let operands = crossed(alloc, casts.first, &of.index_operands, &of.op.operands)?;
    let op = lowered(alloc, ctx, casts.ty, properties, operands, &of.op)?;
    push_edit(
        edits,
        Edit::Make {
            place: casts.place,
            op,
        },
    )
}

/// Returns the edits that lower an `arith` operation, with the interned numbers that they need.
pub(crate) fn operation_edits(
    alloc: Global,
    ctx: &Context,
    numbers: Numbers,
    next: u32,
    point: &Place,
    of: &Indexed,
) -> Result<Vec<Edit>, AllocError>
    requires of { IsIndexed ctx.now of.now }
    requires headroom { next + marked of.now.index_operands.items + 1 + marked of.now.index_results.items ≤ most_next }
    ensures { IfOk result (λ es. es.items
        ≡ operation_edits ctx.now numbers.wide numbers.index numbers.properties.items next point.now
        of.now.index_operands.items of.now.index_results.items of.now.op) }
{
    let Numbers {
        wide,
        index,
        properties,
    } = numbers;
    let mut edits = Vec::new(alloc);
    let casts = casts_at(wide, point, next);
    push_bridges(
        alloc,
        &mut edits,
        wide,
        point,
        &of.index_operands,
        &of.op.operands,
    )?;
    push_made(alloc, ctx, &mut edits, &casts, properties, of)?;
    let id = next + marked(&of.index_operands);
    let given = casts_at(index, point, id + 1);
    push_given(
        alloc,
        &mut edits,
        &given,
        &of.index_results,
        &of.op,
        OpId::new(id),
    )?;
    Ok(edits)
}
