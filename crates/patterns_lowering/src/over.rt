//! Moves the operations of a block to another operation, and routes the terminator's operands through casts.
ghost use Rattle.std.specs.Prelude.{◌≡◌, ◌≤◌, ◌+◌, IfOk, OnOk, List, ◌++◌, ◌∷◌, [], length, map, reverse, Bool};
ghost use Rattle.ir_event.specs.trees.Limits.{most_next};
ghost use Rattle.patterns_soundness.specs.base.Makes.{arguments_from};
ghost use Rattle.patterns_soundness.specs.base.Lowering.{marked};
ghost use Rattle.patterns_regions.specs.Opened.{argument_replacement};
ghost use Rattle.patterns_lowering.specs.Numbers.{crossing_edits, gather_edits, handed_edits, move_edits, over_edits};

use crate::lists::{push_bridges, push_edit};
use crate::numbers::Casts;
use crate::plan::MovedOps;
use ir_event::trees::place::Place;
use ir_event::trees::value::Value;
use ir_event::types::ids::{OpId, TypeId};
use patterns_regions::inlined::substitution;
use patterns_soundness::base::edit::Edit;
use std::alloc::{AllocError, Global};

/// Appends the moves of some operations to a place.
fn push_moved(edits: &mut Vec<Edit>, place: &Place, ops: &[OpId]) -> Result<(), AllocError>
    ensures { OnOk result (edits.new.items ≡ edits.old.items ++ move_edits place.now ops.now) }
{
    let mut rest = ops;
    'ops: while let [op, tail @ ..] = rest {
        push_edit(
            edits,
            Edit::Move {
                op: *op,
                place: *place,
            },
        )?;
        rest = tail;
    }
    Ok(())
}

/// Appends the moves of a block's operations, except the last, into a region of `op`, from the last to the first. Each
/// one moves before the one moved last.
#[tactic(auto, using(crate::proofs::Gathered::gathered_more, crate::proofs::Gathered::gathered_all))]
fn push_gathered(
    edits: &mut Vec<Edit>,
    op: OpId,
    region: u32,
    block: &MovedOps,
) -> Result<(), AllocError>
    ensures { OnOk result (edits.new.items ≡ edits.old.items
        ++ gather_edits op region block.now.last (reverse block.now.before.items)) }
{
    let mut next = block.last;
    let mut left = block.before.len();
    'ops: while left > 0 {
        left -= 1;
        let moved = block.before[left];
        push_edit(
            edits,
            Edit::Move {
                op: moved,
                place: Place {
                    parent: op,
                    region,
                    before: Some(next),
                },
            },
        )?;
        next = moved;
    }
    Ok(())
}

/// Appends the moves of a block's operations before operation `op`, and from there into a block of it. So at each step
/// the operands of every operation dominate it.
pub(crate) fn push_over(
    edits: &mut Vec<Edit>,
    point: &Place,
    op: OpId,
    region: u32,
    block: &MovedOps,
) -> Result<(), AllocError>
    ensures { OnOk result (edits.new.items ≡ edits.old.items ++ over_edits point.now op region block.now) }
{
    let next_to = Place {
        parent: point.parent,
        region: point.region,
        before: Some(op),
    };
    push_moved(edits, &next_to, &block.before)?;
    push_edit(
        edits,
        Edit::Move {
            op: block.last,
            place: next_to,
        },
    )?;
    push_edit(
        edits,
        Edit::Move {
            op: block.last,
            place: Place {
                parent: op,
                region,
                before: None,
            },
        },
    )?;
    push_gathered(edits, op, region, block)
}

/// Appends an edit that sets an operand to a cast, if the operand is marked. Returns the id of the next cast.
fn push_cross(
    edits: &mut Vec<Edit>,
    op: OpId,
    operand: u32,
    next: u32,
    mark: bool,
) -> Result<u32, AllocError>
    requires { next + marked (mark ∷ []) ≤ most_next }
    ensures edits { IfOk result (λ n. (ms : List Bool)
        → edits.new.items ++ crossing_edits op (operand + 1) n ms ≡ edits.old.items
        ++ crossing_edits op operand next (mark ∷ ms)) }
    ensures next { IfOk result (λ n. (ms : List Bool) → n + marked ms ≡ next + marked (mark ∷ ms)) }
{
    if !mark {
        return Ok(next);
    }
    push_edit(
        edits,
        Edit::SetOperand {
            op,
            operand,
            value: Value::Result(OpId::new(next), 0),
        },
    )?;
    Ok(next + 1)
}

/// Appends the edits that set each marked operand to its cast. The ids of the casts begin with `first`.
fn push_crossing(
    edits: &mut Vec<Edit>,
    op: OpId,
    first: u32,
    marks: &[bool],
) -> Result<(), AllocError>
    requires few { length marks.now ≤ 256 }
    requires headroom { first + marked marks.now ≤ most_next }
    ensures { OnOk result (edits.new.items ≡ edits.old.items ++ crossing_edits op 0 first marks.now) }
{
    let mut next = first;
    let mut operand = 0;
    let mut rest = marks;
    'marks: while let [mark, tail @ ..] = rest {
        next = push_cross(edits, op, operand, next, *mark)?;
        operand += 1;
        rest = tail;
    }
    Ok(())
}

/// Appends casts of the marked operands of a block's last operation, and the edits that set these operands.
pub(crate) fn push_handed(
    alloc: Global,
    edits: &mut Vec<Edit>,
    casts: &Casts,
    last: OpId,
    marks: &[bool],
    handed: &[Value],
) -> Result<(), AllocError>
    requires few { length marks.now ≤ 256 }
    requires headroom { casts.now.first + marked marks.now ≤ most_next }
    ensures { OnOk result (edits.new.items ≡ edits.old.items
        ++ handed_edits casts.now.ty casts.now.place casts.now.first last marks.now handed.now) }
{
    push_bridges(alloc, edits, casts.ty, &casts.place, marks, handed)?;
    push_crossing(edits, last, casts.first, marks)
}

/// Returns the arguments of the block of region 0, one for each type.
pub(crate) fn arguments_of(
    alloc: Global,
    op: OpId,
    types: &[TypeId],
) -> Result<Vec<Value>, AllocError>
    requires { length types.now ≤ 256 }
    ensures { IfOk result (λ vs. vs.items ≡ arguments_from op 0 types.now) }
{
    let mut values = Vec::new(alloc);
    let mut number = 0;
    let mut rest = types;
    'types: while let [_, tail @ ..] = rest {
        values.push(Value::Arg(op, 0, number))?;
        number += 1;
        rest = tail;
    }
    Ok(values)
}

/// Returns the values after the arguments of block 0 of `op` are replaced by `news`.
pub(crate) fn all_put(
    alloc: Global,
    op: OpId,
    news: &[Value],
    values: &[Value],
) -> Result<Vec<Value>, AllocError>
    ensures { IfOk result (λ vs. vs.items ≡ map (argument_replacement op news.now) values.now) }
{
    let mut kept = Vec::new(alloc);
    let mut rest = values;
    'values: while let [value, tail @ ..] = rest {
        kept.push(substitution(op, news, value))?;
        rest = tail;
    }
    Ok(kept)
}
