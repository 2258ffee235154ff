//! Updates the use counts after an event.
ghost use Rattle.std.specs.Prelude.{◌≡◌, ◌≤◌, ◌+◌, Some, true};
ghost use Rattle.std.specs.Bool.{OnTrue};
ghost use Rattle.ir_event.specs.Looks.{one_more};
ghost use Rattle.ir_event.specs.Modules.{Node as Shown, node_of_op};
ghost use Rattle.ir_event.specs.Bounds.{op_of};
ghost use Rattle.ir_event.specs.Listener.{is_take};
ghost use Rattle.effects.specs.Dead.{stays};
ghost use Rattle.effects.specs.Counts.{counts_in, EnteredWith, LeftWith, CountsFollowed};

use crate::counts::{exchange, insert_unused, take};
use crate::tally::stays;
use crate::use_counts::UseCounts;
use ir_event::event::Event;
use ir_event::types::ids::OpId;
use ir_event::view::View;

/// Inserts an operation that the view shows. Returns `false` if the view doesn't show it or memory ran out.
fn put_shown(counts: &mut UseCounts, view: &mut View<'_>, op: OpId) -> bool
    ensures put { OnTrue result
        ((n : Shown) → node_of_op view.old.world.now op ≡ Some n
        → EnteredWith op (stays n.head.name) n.head.operands (counts_in counts.old) (counts_in counts.new)) }
    ensures world { view.new.world.now ≡ view.old.world.now }
    ensures looks { view.new.looks ≡ one_more view.old.looks }
{
    let Some(node) = view.node(op) else {
        return false;
    };
    let kept = stays(view.context(), view.registry(), node.name());
    insert_unused(counts, op, kept, node.operands())
}

/// Removes an operation that the view shows. Returns `false` if the view doesn't show it.
fn take_shown(counts: &mut UseCounts, view: &mut View<'_>, op: OpId) -> bool
    ensures taken { OnTrue result
        ((n : Shown) → node_of_op view.old.world.now op ≡ Some n
        → LeftWith op n.head.operands (counts_in counts.old) (counts_in counts.new)) }
    ensures shown { (n : Shown) → node_of_op view.old.world.now op ≡ Some n → result ≡ true }
    ensures world { view.new.world.now ≡ view.old.world.now }
    ensures looks { view.new.looks ≡ one_more view.old.looks }
{
    let Some(node) = view.node(op) else {
        return false;
    };
    take(counts, op, node.operands());
    true
}

/// Updates the counts after an event. Returns `false` if memory ran out, or the view doesn't show an inserted or
/// removed operation.
pub(crate) fn follow_counts(counts: &mut UseCounts, view: &mut View<'_>, event: &Event) -> bool
    ensures followed { OnTrue result
        (CountsFollowed (node_of_op view.old.world.now) event.now (counts_in counts.old) (counts_in counts.new)) }
    ensures world { view.new.world.now ≡ view.old.world.now }
    ensures looks { view.new.looks ≤ view.old.looks + 1 }
    ensures take { (n : Shown) → is_take event.now ≡ true → node_of_op view.old.world.now (op_of event.now) ≡ Some n
        → result ≡ true }
{
    match event {
        Event::Put { op, .. } => put_shown(counts, view, *op),
        Event::Take { op, .. } => take_shown(counts, view, *op),
        Event::SetOperand { old, new, .. } => exchange(counts, old, new),
        Event::SetEntry { .. } => true,
        Event::Shift { .. } => true,
    }
}
