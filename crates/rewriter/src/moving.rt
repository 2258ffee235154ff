//! Moves operations of an IR state without checks.
ghost use Rattle.std.specs.Prelude.{◌≡◌, None, IfOk, IsOk, OnOk, OnErr};
ghost use Rattle.ir_event.specs.types.Terms.{name_term};
ghost use Rattle.ir_event.specs.types.Words.{is_table};
ghost use Rattle.ir_event.specs.trees.Meaning.{isolated_in};
ghost use Rattle.ir_event.specs.trees.WellFormed.{IsWellFormed};
ghost use Rattle.ir_event.specs.tree_laws.Reasons.{shift_reason};
ghost use Rattle.ir_event.specs.store.Calls.{after_shift};
ghost use Rattle.ir_event.specs.Edits.{IsShiftEvent, IsShiftStep};
ghost use Rattle.ir_event.specs.Modules.{context_model, module_in};

use ir_event::event::Event;
use ir_event::store::store::Store;
use ir_event::trees::place::Place;
use ir_event::types::context::Context;
use ir_event::types::ids::OpId;
use ir_event::types::refusal::Refusal;
use ir_event::world::World;

/// Moves `op`, with everything inside it, to `place` and returns the event. The move has no reason for a refusal, so
/// nothing is checked, and the call succeeds. It needs no memory.
pub(crate) fn shift_unchecked(world: &mut World, op: OpId, place: Place) -> Result<Event, Refusal>
    requires { shift_reason (isolated_in world.old.ctx) (λ n. is_table (name_term world.old.ctx n)) op place world.old.store.module_of.tree
        ≡ None }
    ensures step { IfOk result (λ e. IsShiftStep op place e (context_model world.old) (module_in world.old) (module_in world.new)) }
    ensures store { OnOk result (world.new.store ≡ after_shift op place world.old.store) }
    ensures ctx { world.new.ctx ≡ world.old.ctx }
    ensures done { IsOk result }
    ensures err { OnErr result (world.new.store ≡ world.old.store) }
{
    move_in(&world.ctx, &mut world.store, op, &place)
}

/// Moves an operation of a store's module without checks and returns the event. The move has no reason for a refusal.
fn move_in(ctx: &Context, store: &mut Store, op: OpId, place: &Place) -> Result<Event, Refusal>
    requires wellformed { IsWellFormed (isolated_in ctx.now) store.old.module_of }
    requires free { shift_reason (isolated_in ctx.now) (λ n. is_table (name_term ctx.now n)) op place.now store.old.module_of.tree ≡ None }
    ensures event { IfOk result (λ e. IsShiftEvent op place.now store.old.module_of.tree e) }
    ensures store { OnOk result (store.new ≡ after_shift op place.now store.old) }
    ensures done { IsOk result }
    ensures err { OnErr result (store.new ≡ store.old) }
{
    let Some(old) = store.place(op) else {
        return Err(Refusal::NoSuchOp);
    };
    store.move_unchecked(op, *place);
    Ok(Event::Shift {
        op,
        old,
        new: *place,
    })
}
