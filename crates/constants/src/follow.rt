//! Updates the table after an event.
ghost use Rattle.std.specs.Prelude.{◌≡◌, ◌≤◌, ◌+◌, true};
ghost use Rattle.ir_event.specs.Modules.{module_in};
ghost use Rattle.constants.specs.Facts.{value};
ghost use Rattle.dialects_int.specs.Folds.{known_of};
ghost use Rattle.constants.specs.Trails.{IsThere};
ghost use Rattle.constants.specs.Tables.{known_in, look_in, teaches_nothing, Updated, FactsFollowed, LooksRenewed};
ghost use Rattle.constants.specs.Tables.{LooksWithin, LooksFollowed, OperandFollowed};

use crate::forget::forget_from;
use crate::learn::learn_from;
use crate::packed::PackedBits;
use crate::table::{drop_fact, fact, value_fact};
use crate::users::folded;
use ir_event::event::Event;
use ir_event::trees::value::Value;
use ir_event::types::bits::Bits;
use ir_event::types::ids::OpId;
use ir_event::view::View;
use listeners_support::IdMap;
use std::alloc::Global;

/// Returns whether both values are unknown, or both are known and equal.
fn are_same(one: &Option<Bits>, other: &Option<Bits>) -> bool
    ensures { result ≡ true → known_of one.now ≡ known_of other.now }
{
    match (one, other) {
        (None, None) => true,
        (Some(one), Some(other)) => one.kind == other.kind && one.value == other.value,
        _ => false,
    }
}

/// Returns whether the known value of an operation's result is still its fold. `false` may also mean that memory ran
/// out.
fn is_settled(alloc: Global, view: &mut View<'_>, table: &IdMap<PackedBits>, op: OpId) -> bool
    ensures settled { result ≡ true → IsThere (look_in view.old.world.now) op
        → known_in table.now op ≡ value (look_in view.old.world.now) (known_in table.now) op }
    ensures looks { view.new.looks ≤ view.old.looks + 1 }
    ensures world { view.new.world.now ≡ view.old.world.now }
{
    let Ok(found) = folded(alloc, view, table, op) else {
        return false;
    };
    are_same(&fact(table, op), &found)
}

/// Forgets the values that may have changed with an operation, then learns the values that can be known. Returns
/// `false` if memory ran out.
fn renew(alloc: Global, table: &mut IdMap<PackedBits>, view: &mut View<'_>, op: OpId) -> bool
    ensures updated { Updated (result ≡ true) (look_in view.old.world.now) op (known_in table.old)
        (known_in table.new) }
    ensures looks { LooksRenewed (module_in view.old.world.now).tree op
        (known_in table.old) view.old.looks view.new.looks }
    ensures world { view.new.world.now ≡ view.old.world.now }
{
    let mut forgotten = Vec::new(alloc);
    if !forget_from(view, table, op, &mut forgotten) {
        return false;
    }
    learn_from(alloc, view, table, op, &forgotten)
}

/// Updates the table after a change of one operation. If the operation still folds to its known value, nothing changes.
/// Returns `false` if memory ran out.
fn update(alloc: Global, table: &mut IdMap<PackedBits>, view: &mut View<'_>, op: OpId) -> bool
    ensures updated { Updated (result ≡ true) (look_in view.old.world.now) op (known_in table.old)
        (known_in table.new) }
    ensures looks { LooksWithin (module_in view.old.world.now).tree op
        (known_in table.old) view.old.looks view.new.looks }
    ensures world { view.new.world.now ≡ view.old.world.now }
{
    if is_settled(alloc, view, table, op) {
        return true;
    }
    renew(alloc, table, view, op)
}

/// Updates the table after an operand was set. If both values are unknown, or known and equal, nothing changes. Returns
/// `false` if memory ran out.
fn update_operand(
    alloc: Global,
    table: &mut IdMap<PackedBits>,
    view: &mut View<'_>,
    op: OpId,
    old: &Value,
    new: &Value,
) -> bool
    ensures followed { OperandFollowed (result ≡ true) (look_in view.old.world.now) op old.now new.now
        (known_in table.old) (known_in table.new) }
    ensures looks { LooksWithin (module_in view.old.world.now).tree op
        (known_in table.old) view.old.looks view.new.looks }
    ensures world { view.new.world.now ≡ view.old.world.now }
{
    if are_same(&value_fact(table, old), &value_fact(table, new)) {
        return true;
    }
    update(alloc, table, view, op)
}

/// Updates the table after an event. Returns `false` if memory ran out. An operation that is removed or moved needs
/// none.
pub(crate) fn follow(
    alloc: Global,
    table: &mut IdMap<PackedBits>,
    view: &mut View<'_>,
    event: &Event,
) -> bool
    ensures followed { FactsFollowed (result ≡ true) (look_in view.old.world.now) event.now (known_in table.old)
        (known_in table.new) }
    ensures looks { LooksFollowed (module_in view.old.world.now).tree event.now
        (known_in table.old) view.old.looks view.new.looks }
    ensures grown { teaches_nothing event.now ≡ true → result ≡ true }
    ensures world { view.new.world.now ≡ view.old.world.now }
{
    match event {
        Event::Put { op, .. } => update(alloc, table, view, *op),
        Event::Take { op, .. } => {
            drop_fact(table, *op);
            true
        }
        Event::SetOperand { op, old, new, .. } => {
            update_operand(alloc, table, view, *op, old, new)
        }
        Event::SetEntry { op, .. } => update(alloc, table, view, *op),
        Event::Shift { .. } => true,
    }
}
