//! `lower-loop`: a loop over index becomes one over i64, with casts around it and in its block.
ghost use Rattle.std.specs.Prelude.{◌≡◌, ◌≤◌, ◌+◌, IfOk, OnOk, ◌++◌, length, map};
ghost use Rattle.ir_event.specs.trees.Limits.{most_next};
ghost use Rattle.ir_event.specs.trees.Tree.{head};
ghost use Rattle.patterns_soundness.specs.base.Lowering.{marked};
ghost use Rattle.patterns_lowering.specs.declared.plan.Lowering.TheVariants.{Loop};
ghost use Rattle.patterns_lowering.specs.Numbers.{give_edits, handed_edits, held_edits, inside_edits};
ghost use Rattle.patterns_lowering.specs.Numbers.{loop_edits, loop_ids};
ghost use Rattle.patterns_regions.specs.Opened.{argument_replacement};
ghost use Rattle.patterns_lowering.specs.Plans.{IsIndexedLoop, lowering_makes};

use crate::give::push_given;
use crate::holders::{first_results, ids_from, push_erased, push_holders};
use crate::lists::{crossed, push_bridges, push_replaced};
use crate::marks::marked;
use crate::numbers::{Casts, Numbers, before, casts_at};
use crate::operation::push_made;
use crate::over::{all_put, arguments_of, push_handed, push_over};
use crate::plan::IndexedLoop;
use ir_event::trees::place::Place;
use ir_event::trees::value::Value;
use ir_event::types::context::Context;
use ir_event::types::ids::{OpId, TypeId};
use patterns_soundness::base::edit::Edit;
use std::alloc::{AllocError, Global};

/// The ids of the operations that replace a loop.
#[derive(Clone, Copy)]
pub(crate) struct LoopIds {
    /// The first placeholder of the loop's arguments.
    pub(crate) holders: u32,
    /// The new loop.
    pub(crate) op: u32,
    /// The first cast of the new loop's arguments.
    pub(crate) arguments: u32,
    /// The first cast of the terminator's operands.
    pub(crate) handed: u32,
    /// The first cast of the loop's results.
    pub(crate) results: u32,
}

/// Returns the ids of the operations that replace a loop, from the id `next` on.
fn loop_ids(ctx: &Context, next: u32, of: &IndexedLoop) -> LoopIds
    requires of { IsIndexedLoop ctx.now of.now }
    requires headroom { next + lowering_makes (Loop of.now) ≤ most_next }
    ensures { result ≡ loop_ids next of.now }
{
    let holders = next + marked(&of.of.index_operands);
    let op = holders + of.arguments.len() as u32;
    let arguments = op + 1;
    let handed = arguments + marked(&of.index_arguments);
    let results = handed + marked(&of.of.index_results);
    LoopIds {
        holders,
        op,
        arguments,
        handed,
        results,
    }
}

/// The new loop with the placeholders of its arguments, its new arguments and their casts.
#[derive(Drop)]
pub(crate) struct LoopParts {
    /// The new loop.
    pub(crate) op: OpId,
    /// The placeholder operations.
    pub(crate) ids: Vec<OpId>,
    /// The results of the placeholders.
    pub(crate) holders: Vec<Value>,
    /// The block arguments of the new loop.
    pub(crate) arguments: Vec<Value>,
    /// The values that replace the placeholders: the new arguments or their casts.
    pub(crate) news: Vec<Value>,
}

/// Appends the edits before the new loop: casts of the operands, and placeholders that replace the old arguments.
fn push_held(
    alloc: Global,
    edits: &mut Vec<Edit>,
    wide: TypeId,
    point: &Place,
    holders: &[Value],
    of: &IndexedLoop,
) -> Result<(), AllocError>
    requires { length of.now.arguments.items ≤ 256 }
    ensures { OnOk result (edits.new.items ≡ edits.old.items ++ held_edits wide point.now holders.now of.now) }
{
    push_bridges(
        alloc,
        edits,
        wide,
        point,
        &of.of.index_operands,
        &of.of.op.operands,
    )?;
    push_holders(alloc, edits, point, &of.arguments)?;
    let olds = arguments_of(alloc, of.of.op.id, &of.arguments)?;
    push_replaced(edits, &olds, holders)
}

/// Appends the edits in the block of the new loop: casts of the new arguments, the moved operations, and the
/// replacement and erasure of the placeholders.
fn push_inside(
    alloc: Global,
    edits: &mut Vec<Edit>,
    index: TypeId,
    point: &Place,
    parts: &LoopParts,
    of: &IndexedLoop,
) -> Result<(), AllocError>
    ensures { OnOk result (edits.new.items ≡ edits.old.items
        ++ inside_edits index point.now parts.now.op parts.now.ids.items parts.now.holders.items
        parts.now.arguments.items parts.now.news.items of.now) }
{
    let end = Place {
        parent: parts.op,
        region: 0,
        before: None,
    };
    push_bridges(
        alloc,
        edits,
        index,
        &end,
        &of.index_arguments,
        &parts.arguments,
    )?;
    push_over(edits, point, parts.op, 0, &of.body)?;
    push_replaced(edits, &parts.holders, &parts.news)?;
    push_erased(edits, &parts.ids)
}

/// Appends the edits after that: casts of the terminator's operands, and casts of the results, which replace the old
/// results.
fn push_after(
    alloc: Global,
    edits: &mut Vec<Edit>,
    handed: &Casts,
    given: &Casts,
    parts: &LoopParts,
    of: &IndexedLoop,
) -> Result<(), AllocError>
    requires few { length of.now.of.index_results.items ≤ 256 }
    requires all { length (head of.now.of.op).results ≤ 256 }
    requires handed { handed.now.first + marked of.now.of.index_results.items ≤ most_next }
    requires given { given.now.first + marked of.now.of.index_results.items ≤ most_next }
    ensures { OnOk result (edits.new.items ≡ edits.old.items
        ++ (handed_edits handed.now.ty handed.now.place handed.now.first of.now.body.last of.now.of.index_results.items
        (map (argument_replacement (head of.now.of.op).id parts.now.news.items) of.now.body.handed.items)
        ++ give_edits given.now.ty given.now.place of.now.of.index_results.items of.now.of.op parts.now.op
        given.now.first)) }
{
    let marks = &of.of.index_results;
    let values = all_put(alloc, of.of.op.id, &parts.news, &of.body.handed)?;
    push_handed(alloc, edits, handed, of.body.last, marks, &values)?;
    push_given(alloc, edits, given, marks, &of.of.op, parts.op)
}

/// Returns the edits that lower a loop, with the interned numbers that they need.
pub(crate) fn loop_edits(
    alloc: Global,
    ctx: &Context,
    numbers: Numbers,
    next: u32,
    point: &Place,
    of: &IndexedLoop,
) -> Result<Vec<Edit>, AllocError>
    requires of { IsIndexedLoop ctx.now of.now }
    requires headroom { next + lowering_makes (Loop of.now) ≤ most_next }
    ensures { IfOk result (λ es. es.items
        ≡ loop_edits ctx.now numbers.wide numbers.index numbers.properties.items next point.now of.now) }
{
    let Numbers {
        wide,
        index,
        properties,
    } = numbers;
    let ids = loop_ids(ctx, next, of);
    let op = OpId::new(ids.op);
    let holder_ids = ids_from(alloc, ids.holders, &of.arguments)?;
    let holders = first_results(alloc, &holder_ids)?;
    let arguments = arguments_of(alloc, op, &of.arguments)?;
    let news = crossed(alloc, ids.arguments, &of.index_arguments, &arguments)?;
    let parts = LoopParts {
        op,
        ids: holder_ids,
        holders,
        arguments,
        news,
    };
    let casts = casts_at(wide, point, next);
    let handed = casts_at(wide, &before(op, 0, of.body.last), ids.handed);
    let given = casts_at(index, point, ids.results);
    let mut edits = Vec::new(alloc);
    push_held(alloc, &mut edits, wide, point, &parts.holders, of)?;
    push_made(alloc, ctx, &mut edits, &casts, properties, &of.of)?;
    push_inside(alloc, &mut edits, index, point, &parts, of)?;
    push_after(alloc, &mut edits, &handed, &given, &parts, of)?;
    Ok(edits)
}
