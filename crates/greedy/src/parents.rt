//! Lists the operations around places whose effects include the effects of the operations directly inside.
ghost use Rattle.std.specs.Prelude.{◌≡◌, ◌⊎◌, OnOk};
ghost use Rattle.effects.specs.Effects.{own_by, is_recursive};
ghost use Rattle.greedy.specs.Climbs.{recursive_at};
ghost use Rattle.greedy.specs.Adding.{Adds};
ghost use Rattle.greedy.specs.Parts.{IsClimbed, IsOuter};

use crate::push::push;
use ir_event::event::Event;
use ir_event::types::ids::{NameId, OpId};
use ir_event::world::World;
use op_registry::own::Own;
use std::alloc::AllocError;

/// Returns whether operations with this name have recursive memory effects: those of the operations directly inside.
fn is_recursive(world: &World, name: NameId) -> bool
    ensures { result ≡ is_recursive (own_by world.now.ctx name) }
{
    world.ctx.sound();
    matches!(world.registry.effects(name), Own::Recursive)
}

/// Returns whether `op` is in the module and has recursive memory effects.
fn is_recursive_at(world: &World, op: OpId) -> bool
    ensures { result ≡ recursive_at (own_by world.now.ctx) op world.now.store.module_of.tree }
{
    match world.shown(op) {
        None => false,
        Some(node) => is_recursive(world, node.name()),
    }
}

/// Pushes `op`. While the last pushed operation has recursive memory effects, pushes its parent too.
fn push_climb(world: &World, ops: &mut Vec<OpId>, op: OpId) -> Result<(), AllocError>
    ensures { OnOk result (Adds (IsClimbed world.now op) ops.old.items ops.new.items) }
{
    let mut at = op;
    'around: while is_recursive_at(world, at) {
        push(ops, at)?;
        let Some(place) = world.store.place(at) else {
            return Ok(());
        };
        at = place.parent;
    }
    Ok(())
}

/// Pushes two operations, each with its parents, like `push_climb`.
fn push_climbs(world: &World, ops: &mut Vec<OpId>, op: OpId, other: OpId) -> Result<(), AllocError>
    ensures { OnOk result (Adds
        (λ x. IsClimbed world.now op x ⊎ IsClimbed world.now other x) ops.old.items ops.new.items) }
{
    push_climb(world, ops, op)?;
    push_climb(world, ops, other)
}

/// Pushes the parents of the places of an event, like `push_climb`.
pub(crate) fn push_parents(
    world: &World,
    ops: &mut Vec<OpId>,
    event: &Event,
) -> Result<(), AllocError>
    ensures { OnOk result (Adds (IsOuter world.now event.now) ops.old.items ops.new.items) }
{
    match event {
        Event::Put { place, .. } => push_climb(world, ops, place.parent),
        Event::Take { place, .. } => push_climb(world, ops, place.parent),
        Event::SetOperand { .. } => Ok(()),
        Event::SetEntry { .. } => Ok(()),
        Event::Shift { old, new, .. } => push_climbs(world, ops, old.parent, new.parent),
    }
}
