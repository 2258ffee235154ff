//! Inserts operations into an IR state without checks.
ghost use Rattle.std.specs.Prelude.{◌≡◌, None, Some, true, IfOk, IfErr, OnOk, OnErr};
ghost use Rattle.std.specs.FinMap as finmap;
ghost use Rattle.ir_event.specs.types.declared.refusal.Refusal.TheVariants.{Memory};
ghost use Rattle.ir_event.specs.trees.Meaning.{IsSoundIn, isolated_in};
ghost use Rattle.ir_event.specs.tree_laws.Reasons.{holds_none, put_reason};
ghost use Rattle.ir_event.specs.store.Calls.{after_put};
ghost use Rattle.ir_event.specs.store.Puts.{put_fault};
ghost use Rattle.ir_event.specs.declared.event.Event.TheVariants.{Put};
ghost use Rattle.ir_event.specs.Edits.{IsPutStep};
ghost use Rattle.ir_event.specs.Modules.{context_model, module_in};

use ir_event::event::Event;
use ir_event::step_laws::edits_are_steps;
use ir_event::store::store::Store;
use ir_event::trees::place::Place;
use ir_event::trees::tree::TreeOp;
use ir_event::types::refusal::Refusal;
use ir_event::world::World;

/// Inserts an operation like `header` at `place` and returns the event. The insertion has no reason for a refusal, so
/// nothing is checked.
///
/// Refusals: `Memory`.
pub(crate) fn put_unchecked(
    world: &mut World,
    place: Place,
    header: &TreeOp,
) -> Result<Event, Refusal>
    requires sound { IsSoundIn world.old.ctx header.now }
    requires bare { holds_none (Some header.now) ≡ true }
    requires unheld { finmap.get world.old.store.held world.old.store.module_of.next ≡ None }
    requires free { put_reason (isolated_in world.old.ctx) place header.now world.old.store.module_of.next
        world.old.store.module_of.tree ≡ None }
    ensures step { IfOk result
        (λ e. IsPutStep place e (context_model world.old) (module_in world.old) (module_in world.new)) }
    ensures store { OnOk result (world.new.store ≡ after_put place header.now world.old.store) }
    ensures ctx { world.new.ctx ≡ world.old.ctx }
    ensures refused { IfErr result (λ e. e ≡ Memory) }
    ensures err { OnErr result (world.new.store ≡ world.old.store) }
{
    edits_are_steps();
    insert_in(&mut world.store, &place, header)
}

/// Inserts an operation into a store's module without checks and returns the event. The operation's operands are
/// visible at `place`.
///
/// Refusals: `Memory`.
fn insert_in(store: &mut Store, place: &Place, header: &TreeOp) -> Result<Event, Refusal>
    requires fault { put_fault place.now header.now store.old.module_of.next store.old.module_of.tree ≡ None }
    requires bare { holds_none (Some header.now) ≡ true }
    requires unheld { finmap.get store.old.held store.old.module_of.next ≡ None }
    ensures ok { IfOk result (λ e. (e ≡ Put store.old.module_of.next place.now true)
        × (store.new ≡ after_put place.now header.now store.old)) }
    ensures refused { IfErr result (λ e. e ≡ Memory) }
    ensures err { OnErr result (store.new ≡ store.old) }
{
    match store.insert_unchecked(*place, header) {
        Ok(op) => Ok(Event::Put {
            op,
            place: *place,
            fresh: true,
        }),
        Err(_) => Err(Refusal::Memory),
    }
}
