//! `lower-choice`: a choice with index results becomes one with i64 results, with casts in its blocks and after it.
ghost use Rattle.std.specs.Prelude.{◌≡◌, ◌≤◌, ◌+◌, IfOk, OnOk, ◌++◌, length};
ghost use Rattle.ir_event.specs.trees.Limits.{most_next};
ghost use Rattle.patterns_soundness.specs.base.Lowering.{marked};
ghost use Rattle.patterns_lowering.specs.declared.plan.Lowering.TheVariants.{Choice};
ghost use Rattle.patterns_lowering.specs.Numbers.{choice_edits, side_edits};
ghost use Rattle.patterns_lowering.specs.Plans.{IsIndexedChoice, lowering_makes};

use crate::give::push_given;
use crate::marks::marked;
use crate::numbers::{Numbers, before, casts_at};
use crate::operation::push_made;
use crate::over::{push_handed, push_over};
use crate::plan::{IndexedChoice, MovedOps};
use ir_event::trees::place::Place;
use ir_event::types::context::Context;
use ir_event::types::ids::{OpId, TypeId};
use patterns_soundness::base::edit::Edit;
use std::alloc::{AllocError, Global};

/// The target of a moved block: an operation and its region, and the type and first id of the casts of the
/// terminator's operands.
#[derive(Clone, Copy)]
pub(crate) struct Branch {
    /// The operation that the block moves into.
    pub(crate) op: OpId,
    /// The region that the block moves into.
    pub(crate) region: u32,
    /// The type of the casts, i64.
    pub(crate) wide: TypeId,
    /// The id of the first cast.
    pub(crate) first: u32,
}

/// Appends the edits that move the operations of a block into another one and route its terminator's operands through
/// casts.
fn push_side(
    alloc: Global,
    edits: &mut Vec<Edit>,
    point: &Place,
    side: &Branch,
    marks: &[bool],
    block: &MovedOps,
) -> Result<(), AllocError>
    requires few { length marks.now ≤ 256 }
    requires headroom { side.now.first + marked marks.now ≤ most_next }
    ensures { OnOk result (edits.new.items ≡ edits.old.items
        ++ side_edits side.now.wide point.now side.now.op side.now.region side.now.first marks.now block.now) }
{
    push_over(edits, point, side.op, side.region, block)?;
    let place = before(side.op, side.region, block.last);
    let casts = casts_at(side.wide, &place, side.first);
    push_handed(alloc, edits, &casts, block.last, marks, &block.handed)
}

/// Returns the edits that lower a choice, with the interned numbers that they need.
pub(crate) fn choice_edits(
    alloc: Global,
    ctx: &Context,
    numbers: Numbers,
    next: u32,
    point: &Place,
    of: &IndexedChoice,
) -> Result<Vec<Edit>, AllocError>
    requires of { IsIndexedChoice ctx.now of.now }
    requires headroom { next + lowering_makes (Choice of.now) ≤ most_next }
    ensures { IfOk result (λ es. es.items
        ≡ choice_edits ctx.now numbers.wide numbers.index numbers.properties.items next point.now of.now) }
{
    let Numbers {
        wide,
        index,
        properties,
    } = numbers;
    let mut edits = Vec::new(alloc);
    let casts = casts_at(wide, point, next);
    push_made(alloc, ctx, &mut edits, &casts, properties, &of.of)?;
    let marks = &of.of.index_results;
    let id = next + marked(&of.of.index_operands);
    let op = OpId::new(id);
    let first = Branch {
        op,
        region: 0,
        wide,
        first: id + 1,
    };
    push_side(alloc, &mut edits, point, &first, marks, &of.first)?;
    let second = Branch {
        op,
        region: 1,
        wide,
        first: id + 1 + marked(marks),
    };
    push_side(alloc, &mut edits, point, &second, marks, &of.second)?;
    let given = casts_at(index, point, second.first + marked(marks));
    push_given(alloc, &mut edits, &given, marks, &of.of.op, op)?;
    Ok(edits)
}
