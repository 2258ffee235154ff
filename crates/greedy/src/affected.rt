//! Computes the operations at which a rule may apply differently after some events.
ghost use Rattle.std.specs.Prelude.{◌≡◌, IfOk, IfErr, OnOk, false};
ghost use Rattle.ir_event.specs.types.declared.refusal.Refusal.TheVariants.{Memory as NoMemory};
ghost use Rattle.ir_event.specs.Modules.{Module, module_in};
ghost use Rattle.greedy.specs.Listing.{ListsUpTo, Touched, TouchedUpTo};
ghost use Rattle.greedy.specs.Near.{Leads};
ghost use Rattle.greedy.specs.Parts.{puts_last, any_puts_last};
ghost use Rattle.greedy.specs.Shown.{shown_operands};

use crate::block::push_around_listed;
use crate::neighbours::push_neighbours;
use crate::reach::push_all_reached;
use crate::users::push_seers_from;
use ir_event::event::Event;
use ir_event::types::ids::OpId;
use ir_event::types::refusal::Refusal;
use ir_event::world::World;
use std::alloc::AllocError;

/// Returns whether an event inserts an operation at the end of a block.
fn puts_last(event: &Event) -> bool
    ensures { result ≡ puts_last event.now }
{
    match event {
        Event::Put { place, .. } => place.before.is_none(),
        Event::Take { .. } => false,
        Event::SetOperand { .. } => false,
        Event::SetEntry { .. } => false,
        Event::Shift { new, .. } => new.before.is_none(),
    }
}

/// Returns whether any of the events inserts an operation at the end of a block.
fn any_puts_last(events: &[Event]) -> bool
    ensures { result ≡ any_puts_last events.now }
{
    let mut rest = events;
    'events: while let [event, tail @ ..] = rest {
        if puts_last(event) {
            return true;
        }
        rest = tail;
    }
    false
}

/// Replaces `ops` with the operations near the events. Those after `passed` in pre-order may be left out. If an event
/// inserts an operation at the end of a block, the list is unspecified.
fn near(
    world: &World,
    events: &[Event],
    passed: OpId,
    ops: &mut Vec<OpId>,
) -> Result<(), AllocError>
    ensures { OnOk result (any_puts_last events.now ≡ false
        → ListsUpTo passed (shown_operands world.now.store) events.now ops.new.items (module_in world.now).tree) }
{
    ops.clear();
    push_all_reached(world, ops, passed, events)?;
    let reached = ops.len();
    push_seers_from(world, ops, passed, 0)?;
    push_around_listed(world, ops)?;
    push_seers_from(world, ops, passed, reached)?;
    push_neighbours(world, ops, events)
}

/// Returns all operations of a world's module. A rule applies at no other operation, whatever events led to the
/// module.
///
/// Errors: `Memory` if memory runs out.
pub fn touched_all(world: &World) -> Result<Vec<OpId>, Refusal>
    ensures ok { IfOk result (λ v. (m : Module) → Touched m (module_in world.now) v.items) }
    ensures refused { IfErr result (λ e. e ≡ NoMemory) }
{
    world.store.operations()
}

/// Replaces `ops` with every operation of a world's module, up to `passed` in pre-order, at which a rule of
/// canonicalization may apply differently than before the events that led to that module. The list may hold other
/// operations too. Its length depends on what is near the events, not on the size of the module. If an event inserts an
/// operation at the end of a block, the list is every operation of the module. No rule makes such an event.
///
/// Errors: `Memory` if memory runs out. Then the contents of `ops` are unspecified.
pub fn touched_by(
    world: &World,
    events: &[Event],
    passed: OpId,
    ops: &mut Vec<OpId>,
) -> Result<(), Refusal>
    ensures ok { OnOk result
        ((m : Module) → Leads (shown_operands world.now.store) world.now.ctx events.now m (module_in world.now)
        → TouchedUpTo passed m (module_in world.now) ops.new.items) }
    ensures refused { IfErr result (λ e. e ≡ NoMemory) }
{
    if any_puts_last(events) {
        match touched_all(world) {
            Ok(all) => {
                *ops = all;
                return Ok(());
            }
            Err(refusal) => return Err(refusal),
        }
    }
    match near(world, events, passed, ops) {
        Ok(()) => Ok(()),
        Err(_) => Err(Refusal::Memory),
    }
}
