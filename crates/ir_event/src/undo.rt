//! Undoes events.
ghost use Rattle.std.specs.Prelude.{◌≡◌};
ghost use Rattle.ir_event.specs.Listener.{ShowsTaken};
ghost use Rattle.ir_event.specs.Modules.{Module, context_model, module_in, node_of_op};
ghost use Rattle.ir_event.specs.Step.{Step, inverse_of};
ghost use Rattle.ir_event.specs.Undoing.{CameFrom, MayUndo, undone};

use crate::event::Event;
use crate::world::World;
use ir_store::store::Store;
use op_registry::types::context::Context;

impl World {
    /// Undoes an event that led to the current module, by a step back: an inserted operation is taken out, a removed
    /// one is inserted again under its id, an operand or entry is set back, and a moved operation is moved back. Needs
    /// no memory.
    pub fn undo(&mut self, event: &Event)
        requires { (p : Module) × CameFrom (context_model self.old) event.now p self.old.store }
        ensures back { (p : Module) → CameFrom (context_model self.old) event.now p self.old.store → module_in self.new ≡ p }
        ensures step { Step (context_model self.old) (inverse_of event.now) (module_in self.old) (module_in self.new) }
        ensures shown { ShowsTaken (inverse_of event.now) (module_in self.old) (node_of_op self.new) }
        ensures store { self.new.store ≡ undone (context_model self.old) event.now self.old.store }
        ensures ctx { self.new.ctx ≡ self.old.ctx }
    {
        self.ctx.sound();
        undo_in(&self.ctx, &mut self.store, event);
    }
}

/// Undoes an event in a store.
fn undo_in(ctx: &Context, store: &mut Store, event: &Event)
    requires { MayUndo ctx.now event.now store.old }
    ensures { store.new ≡ undone ctx.now event.now store.old }
{
    match *event {
        Event::Put { op, fresh, .. } => store.undo_insert(op, fresh),
        Event::Take { op, place, fresh } => store.restore(op, place, fresh),
        Event::SetOperand { op, k, old, .. } => match store.set_operand(ctx, op, k, old) {
            Ok(_) => {}
            Err(_) => {}
        },
        Event::SetEntry {
            op,
            part,
            key,
            old,
            ..
        } => store.revert_entry(ctx, op, part, key, old),
        Event::Shift { op, old, .. } => store.move_unchecked(op, old),
    }
}
