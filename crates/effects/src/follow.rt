//! Updates the table of effects after an event.
ghost use Rattle.std.specs.Prelude.{◌≡◌, ◌≤◌, ◌+◌, option_map, true};
ghost use Rattle.std.specs.Bool.{OnTrue};
ghost use Rattle.op_registry.specs.Registry.{own_of};
ghost use Rattle.ir_event.specs.Looks.{one_more};
ghost use Rattle.ir_event.specs.Modules.{node_of_op};
ghost use Rattle.ir_event.specs.Listener.{is_take};
ghost use Rattle.effects.specs.Walks.{row_at};
ghost use Rattle.effects.specs.Following.{Followed};

use crate::effect_rows::EffectRows;
use crate::own::own;
use crate::table::{insert_leaf, shift, take};
use ir_event::event::Event;
use ir_event::types::ids::OpId;
use ir_event::view::View;
use op_registry::own::Own;

/// Returns the own effects of an operation that the view shows, and whether it has regions.
fn own_at(view: &mut View<'_>, op: OpId) -> Option<(Own, bool)>
    ensures own { option_map (λ p. p.0) result ≡ option_map (λ n. own_of n.head.name) (node_of_op view.old.world.now op) }
    ensures world { view.new.world.now ≡ view.old.world.now }
    ensures looks { view.new.looks ≡ one_more view.old.looks }
{
    let node = view.node(op)?;
    let own = own(view.context(), view.registry(), node.name());
    Some((own, node.region_count() > 0))
}

/// Updates the table after an event. Returns `false` if memory ran out, or the view doesn't show an inserted operation.
pub(crate) fn follow(rows: &mut EffectRows, view: &mut View<'_>, event: &Event) -> bool
    ensures followed { OnTrue result
        (Followed (node_of_op view.old.world.now) event.now (row_at rows.old) (row_at rows.new)) }
    ensures world { view.new.world.now ≡ view.old.world.now }
    ensures looks { view.new.looks ≤ view.old.looks + 1 }
    ensures take { is_take event.now ≡ true → result ≡ true }
{
    match event {
        Event::Put { op, place, .. } => {
            let Some((own, inner)) = own_at(view, *op) else {
                return false;
            };
            insert_leaf(rows, *op, Some(place.parent), &own, inner)
        }
        Event::Take { op, .. } => {
            take(rows, *op);
            true
        }
        Event::SetOperand { .. } => true,
        Event::SetEntry { .. } => true,
        Event::Shift { op, new, .. } => shift(rows, *op, new.parent),
    }
}
