//! Tests whether one operation is dead, without a listener and without memory.
ghost use Rattle.std.specs.Prelude.{◌≡◌, ◌≤◌, IfSome, option_map};
ghost use Rattle.ir_event.specs.trees.Tree.{region_count, head};
ghost use Rattle.ir_event.specs.trees.Ids.{find};
ghost use Rattle.ir_event.specs.store.Nodes.{node_of};
ghost use Rattle.ir_event.specs.Modules.{module_in};
ghost use Rattle.effects.specs.Dead.{dead_at, may_go};
ghost use Rattle.effects.specs.Effects.{own_by, own_kinds};
ghost use Rattle.effects.specs.Idle.{AreUnused, idle_at, idle_ops};
ghost use Rattle.effects.specs.Within.{list_at, regions_of};

use crate::effect_kinds::{EffectKinds, recursive};
use crate::own::own;
use crate::tally::is_kept;
use ir_event::trees::value::Value;
use ir_event::types::ids::OpId;
use ir_event::world::World;
use op_registry::own::Own;

/// Returns whether the own effects of an operation are only allocations and reads.
fn may_go(own: &Own) -> bool
    ensures { result ≡ may_go (own_kinds own.now) }
{
    let effect_kinds = EffectKinds::from_own(own);
    !(effect_kinds.unknown || effect_kinds.free || effect_kinds.write)
}

/// Returns the own effects of an operation and the number of its regions, or `None` if it isn't in the module.
fn own_at(world: &World, op: OpId) -> Option<(Own, u32)>
    ensures own { option_map (λ l. l.0) result
        ≡ option_map (λ o. own_by world.now.ctx (head o).name) (find op world.now.store.module_of.tree) }
    ensures regions { IfSome result (λ l. l.1 ≡ region_count (regions_of (find op world.now.store.module_of.tree))) }
{
    let Some(node) = world.shown(op) else {
        return None;
    };
    let own = own(&world.ctx, &world.registry, node.name());
    Some((own, node.region_count() as u32))
}

/// Returns whether an operation has only allocations and reads as effects. The answer is `true` if it isn't in the
/// module.
#[cycle(idle)]
fn is_idle(world: &World, op: OpId) -> bool
    ensures { result ≡ idle_at (own_by world.now.ctx) op world.now.store.module_of.tree }
{
    let Some((own, count)) = own_at(world, op) else {
        return true;
    };
    if !recursive(&own) {
        return may_go(&own);
    }
    let mut region = 0;
    'regions: while region < count {
        if !is_list_idle(world, op, region) {
            return false;
        }
        region += 1;
    }
    true
}

/// Returns whether all operations of the block of a region have only allocations and reads as effects.
#[cycle(idle)]
fn is_list_idle(world: &World, op: OpId, region: u32) -> bool
    ensures { result ≡ idle_ops (own_by world.now.ctx) (list_at op region world.now.store.module_of.tree) }
{
    let mut at = world.store.first(op, region);
    'ops: while let Some(inner) = at {
        if !is_idle(world, inner) {
            return false;
        }
        at = world.store.next(inner);
    }
    true
}

/// Returns whether the first `count` results of the operation have no uses.
fn is_unused(world: &World, op: OpId, count: u32) -> bool
    ensures { AreUnused op count world.now.store.module_of.tree result }
{
    let mut number = 0;
    'results: while number < count {
        if world.store.is_used(Value::Result(op, number)) {
            return false;
        }
        number += 1;
    }
    true
}

/// Returns whether the operation is in the module and dead: its results have no uses, it isn't a terminator, module or
/// function, and its effects are only allocations and reads (Operation Canonicalization, "General Design"). Needs no
/// memory.
pub fn dead_op(world: &World, op: OpId) -> bool
    ensures { result ≡ dead_at op (module_in world.now).tree }
{
    let Some(node) = world.shown(op) else {
        return false;
    };
    if !is_unused(world, op, node.results().len() as u32) {
        return false;
    }
    if is_kept(&world.ctx, &world.registry, node.name()) {
        return false;
    }
    is_idle(world, op)
}
