//! Lists the operations that events reach.
ghost use Rattle.std.specs.Prelude.{◌≡◌, OnOk};
ghost use Rattle.greedy.specs.Adding.{Adds, OneOf};
ghost use Rattle.greedy.specs.Parts.{IsOrEnds, IsReachedUpTo, UpTo};

use crate::block::{push_former_neighbours, push_with_lasts};
use crate::push::push;
use crate::users::push_over;
use crate::walk::precedes;
use ir_event::event::Event;
use ir_event::types::ids::OpId;
use ir_event::world::World;
use std::alloc::AllocError;

/// Pushes an inserted operation, unless it comes after `passed` in pre-order.
fn push_inserted(
    world: &World,
    ops: &mut Vec<OpId>,
    passed: OpId,
    op: OpId,
) -> Result<(), AllocError>
    ensures { OnOk result (Adds (UpTo world.now.store.module_of.tree passed (λ x. x ≡ op)) ops.old.items ops.new.items) }
{
    if precedes(&world.store, passed, op) {
        return push_over(world, ops, op);
    }
    push(ops, op)
}

/// Pushes an operation whose header changed, and the last operation of each of its blocks, unless they come after
/// `passed` in pre-order.
fn push_changed(
    world: &World,
    ops: &mut Vec<OpId>,
    passed: OpId,
    op: OpId,
) -> Result<(), AllocError>
    ensures { OnOk result (Adds (UpTo world.now.store.module_of.tree passed (IsOrEnds op world.now.store.module_of.tree)) ops.old.items ops.new.items) }
{
    if precedes(&world.store, passed, op) {
        return push_over(world, ops, op);
    }
    push_with_lasts(world, ops, op)
}

/// Pushes the operations that an event reaches, except inserted and changed operations after `passed`. Of these, it
/// pushes the parent if rules at the parent read them. The event must not insert at the end of a block.
fn push_reached(
    world: &World,
    ops: &mut Vec<OpId>,
    passed: OpId,
    event: &Event,
) -> Result<(), AllocError>
    ensures { OnOk result (Adds (IsReachedUpTo world.now.store.module_of.tree passed event.now) ops.old.items ops.new.items) }
{
    match event {
        Event::Put { op, .. } => push_inserted(world, ops, passed, *op),
        Event::Take { op, place, .. } => push_former_neighbours(world, ops, *op, place),
        Event::SetOperand { op, .. } => push_changed(world, ops, passed, *op),
        Event::SetEntry { op, .. } => push_changed(world, ops, passed, *op),
        Event::Shift { op, old, .. } => push_former_neighbours(world, ops, *op, old),
    }
}

/// Pushes the operations that the events reach, as `push_reached` does. No event may insert at the end of a block.
pub(crate) fn push_all_reached(
    world: &World,
    ops: &mut Vec<OpId>,
    passed: OpId,
    events: &[Event],
) -> Result<(), AllocError>
    ensures { OnOk result (Adds
        (OneOf (IsReachedUpTo world.now.store.module_of.tree passed) events.now) ops.old.items ops.new.items) }
{
    let mut rest = events;
    'events: while let [event, tail @ ..] = rest {
        push_reached(world, ops, passed, event)?;
        rest = tail;
    }
    Ok(())
}
