//! Updates the table of uses after an event.
ghost use Rattle.std.specs.Prelude.{◌≡◌, ◌≤◌, ◌+◌, List, Some, true};
ghost use Rattle.std.specs.Bool.{OnTrue};
ghost use Rattle.ir_event.specs.trees.declared.value.Value.{Value as TreeValue};
ghost use Rattle.ir_event.specs.Looks.{one_more};
ghost use Rattle.listeners.specs.Tables.{table_uses};
ghost use Rattle.listeners.specs.Following.{IsFollowed, HasNow, adds_no_use, operands_in};

use crate::table::UseTable;
use ir_event::event::Event;
use ir_event::types::ids::OpId;
use ir_event::view::View;
use std::alloc::Global;

/// Sets the operands of an operation to those that the view shows. Returns `false` if memory ran out or the view
/// doesn't show the operation.
fn insert_operands(alloc: Global, table: &mut UseTable, view: &mut View<'_>, op: OpId) -> bool
    ensures followed { (vs : List TreeValue) → operands_in view.old.world.now.store op ≡ Some vs
        → OnTrue result (HasNow op vs (table_uses table.old) (table_uses table.new)) }
    ensures world { view.new.world.now ≡ view.old.world.now }
    ensures looks { view.new.looks ≡ one_more view.old.looks }
{
    let Some(node) = view.node(op) else {
        return false;
    };
    table.set_operands(alloc, op, node.operands())
}

/// Updates the table after an event. Looks once if an operation was inserted or an operand was set. Returns `false` if
/// memory ran out, which only these two events need.
pub(crate) fn follow(
    alloc: Global,
    table: &mut UseTable,
    view: &mut View<'_>,
    event: &Event,
) -> bool
    ensures followed { OnTrue result
        (IsFollowed (operands_in view.old.world.now.store) event.now (table_uses table.old) (table_uses table.new)) }
    ensures grown { adds_no_use event.now ≡ true → result ≡ true }
    ensures looks { view.new.looks ≤ view.old.looks + 1 }
    ensures world { view.new.world.now ≡ view.old.world.now }
{
    match event {
        Event::Put { op, .. } => insert_operands(alloc, table, view, *op),
        Event::Take { op, .. } => {
            table.take(*op);
            true
        }
        Event::SetOperand { op, .. } => insert_operands(alloc, table, view, *op),
        Event::SetEntry { .. } => true,
        Event::Shift { .. } => true,
    }
}
