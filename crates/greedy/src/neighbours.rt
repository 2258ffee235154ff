//! Lists the operations next to events: the defining operations of values that gain a use or lose their last use, and
//! the operations around the places of the events.
ghost use Rattle.std.specs.Prelude.{OnOk, ◌≡◌, ◌⊎◌, ℕ, true};
ghost use Rattle.greedy.specs.Adding.{Adds, OneOf};
ghost use Rattle.greedy.specs.LocalContext.{is_listed};
ghost use Rattle.greedy.specs.Parts.{Gives, GivesMoved, GivesUnused, IsNextTo};
ghost use Rattle.greedy.specs.Shown.{shown_operands};

use crate::parents::push_parents;
use crate::push::{is_last, push};
use ir_event::event::Event;
use ir_event::store::store::Store;
use ir_event::trees::value::Value;
use ir_event::types::ids::OpId;
use ir_event::world::World;
use std::alloc::AllocError;

/// Pushes the defining operation of `value`, if it has one.
fn push_defining_op(ops: &mut Vec<OpId>, value: &Value) -> Result<(), AllocError>
    ensures { OnOk result (Adds (Gives value.now) ops.old.items ops.new.items) }
{
    match value {
        Value::Result(op, _) => push(ops, *op),
        Value::Arg(..) => Ok(()),
    }
}

/// Returns whether `value` has no defining operation, or the last entry of the list is that operation.
fn is_listed_last(ops: &[OpId], value: &Value) -> bool
    ensures { result ≡ true → (x : ℕ) → Gives value.now x → is_listed x ops.now ≡ true }
{
    match value {
        Value::Result(op, _) => is_last(ops, *op),
        Value::Arg(..) => true,
    }
}

/// Pushes the defining operation of `value`, if it has one and `value` has no uses. The uses are looked up only if the
/// operation isn't already the last entry.
fn push_unused(store: &Store, ops: &mut Vec<OpId>, value: &Value) -> Result<(), AllocError>
    ensures { OnOk result (Adds (GivesUnused store.now.module_of.tree value.now) ops.old.items ops.new.items) }
{
    if is_listed_last(ops, value) {
        return Ok(());
    }
    if store.is_used(*value) {
        return Ok(());
    }
    push_defining_op(ops, value)
}

/// Pushes the defining operations of the values without uses.
fn push_all_unused(store: &Store, ops: &mut Vec<OpId>, values: &[Value]) -> Result<(), AllocError>
    ensures { OnOk result (Adds (OneOf (GivesUnused store.now.module_of.tree) values.now) ops.old.items ops.new.items) }
{
    let mut rest = values;
    'values: while let [value, tail @ ..] = rest {
        push_unused(store, ops, value)?;
        rest = tail;
    }
    Ok(())
}

/// Pushes the defining operations of the values without uses among the operands that the store shows for `op`.
fn push_shown_unused(store: &Store, ops: &mut Vec<OpId>, op: OpId) -> Result<(), AllocError>
    ensures { OnOk result (Adds (OneOf (GivesUnused store.now.module_of.tree) (shown_operands store.now op)) ops.old.items ops.new.items) }
{
    match store.node(op) {
        Some(node) => push_all_unused(store, ops, node.operands()),
        None => Ok(()),
    }
}

/// Pushes the defining operation of `old`, if `old` has no uses, and that of `new`.
fn push_replaced(
    store: &Store,
    ops: &mut Vec<OpId>,
    old: &Value,
    new: &Value,
) -> Result<(), AllocError>
    ensures { OnOk result (Adds (λ x. GivesUnused store.now.module_of.tree old.now x ⊎ Gives new.now x) ops.old.items ops.new.items) }
{
    push_unused(store, ops, old)?;
    push_defining_op(ops, new)
}

/// Pushes the defining operations of some values.
fn push_defining_ops(ops: &mut Vec<OpId>, values: &[Value]) -> Result<(), AllocError>
    ensures { OnOk result (Adds (OneOf Gives values.now) ops.old.items ops.new.items) }
{
    let mut rest = values;
    'values: while let [value, tail @ ..] = rest {
        push_defining_op(ops, value)?;
        rest = tail;
    }
    Ok(())
}

/// Pushes the defining operations of the operands that the store shows for `op`.
fn push_shown(store: &Store, ops: &mut Vec<OpId>, op: OpId) -> Result<(), AllocError>
    ensures { OnOk result (Adds (OneOf Gives (shown_operands store.now op)) ops.old.items ops.new.items) }
{
    match store.node(op) {
        Some(node) => push_defining_ops(ops, node.operands()),
        None => Ok(()),
    }
}

/// Pushes the defining operations of the values that gain a use in an event, and of those that lose one and have no
/// uses left.
fn push_moved(world: &World, ops: &mut Vec<OpId>, event: &Event) -> Result<(), AllocError>
    ensures { OnOk result (Adds (GivesMoved world.now event.now) ops.old.items ops.new.items) }
{
    match event {
        Event::Put { op, .. } => push_shown(&world.store, ops, *op),
        Event::Take { op, .. } => push_shown_unused(&world.store, ops, *op),
        Event::SetOperand { old, new, .. } => push_replaced(&world.store, ops, old, new),
        Event::SetEntry { .. } => Ok(()),
        Event::Shift { .. } => Ok(()),
    }
}

/// Pushes the defining operations of the values that gain a use or lose their last use in an event, and the operations
/// around its places.
fn push_next_to(world: &World, ops: &mut Vec<OpId>, event: &Event) -> Result<(), AllocError>
    ensures { OnOk result (Adds (IsNextTo world.now event.now) ops.old.items ops.new.items) }
{
    push_moved(world, ops, event)?;
    push_parents(world, ops, event)
}

/// Pushes the neighbours of each event: the defining operations of values that gain a use or lose their last use, and
/// the operations around the places of the event.
pub(crate) fn push_neighbours(
    world: &World,
    ops: &mut Vec<OpId>,
    events: &[Event],
) -> Result<(), AllocError>
    ensures { OnOk result (Adds (OneOf (IsNextTo world.now) events.now) ops.old.items ops.new.items) }
{
    let mut rest = events;
    'events: while let [event, tail @ ..] = rest {
        push_next_to(world, ops, event)?;
        rest = tail;
    }
    Ok(())
}
