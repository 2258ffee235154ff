//! Counts the uses of a module in two passes: one gives each operation a count, and one counts the operands.
ghost use Rattle.std.specs.Prelude.{◌≡◌, []};
ghost use Rattle.std.specs.Bool.{OnTrue};
ghost use Rattle.ir_event.specs.types.Terms.{name_term};
ghost use Rattle.effects.specs.Dead.{is_kept, is_missed, stays};
ghost use Rattle.ir_event.specs.Heads.{all_operands};
ghost use Rattle.effects.specs.Found.{head_at, heads_by, with_head};
ghost use Rattle.effects.specs.Counts.{counts_in, kept_by, Raised, AllEntered};

use crate::counts::{enter, raise_all};
use crate::effect_kinds::{EffectKinds, recursive};
use crate::own::own;
use crate::use_counts::UseCounts;
use ir_event::store::store::Store;
use ir_event::types::context::Context;
use ir_event::types::ids::{NameId, OpId};
use ir_event::world::World;
use op_registry::definition::Trait;
use op_registry::own::Own;
use op_registry::registry::Registry;

/// Returns whether operations with that name are never dead: terminators, and operations that define symbols, which are
/// modules and functions.
#[tactic(auto, using(crate::proofs::Names::kept_is))]
pub(crate) fn is_kept(ctx: &Context, registry: &Registry, name: NameId) -> bool
    ensures { result ≡ is_kept (name_term ctx.now name) }
{
    ctx.sound();
    registry.has(name, Trait::Terminator) || registry.has(name, Trait::Symbol)
}

/// Returns whether the own effects are others than allocations and reads.
fn is_missed(own: &Own) -> bool
    ensures { result ≡ is_missed own.now }
{
    let effect_kinds = EffectKinds::from_own(own);
    !(recursive(own) || !(effect_kinds.unknown || effect_kinds.free || effect_kinds.write))
}

/// Returns whether operations with that name are never dead, because of the name or of their own effects.
pub(crate) fn stays(ctx: &Context, registry: &Registry, name: NameId) -> bool
    ensures { result ≡ stays (name_term ctx.now name) }
{
    is_kept(ctx, registry, name) || is_missed(&own(ctx, registry, name))
}

/// Gives each operation its initial count. Returns `false` if memory ran out.
pub(crate) fn enter_all(world: &World, ops: &[OpId], counts: &mut UseCounts) -> bool
    ensures { OnTrue result (AllEntered (kept_by world.now.ctx) (heads_by (head_at world.now.store) ops.now)
        (counts_in counts.old) (counts_in counts.new)) }
{
    for op in ops {
        if !enter_found(world, *op, counts) {
            return false;
        }
    }
    true
}

/// Gives an operation its initial count if it is in the module. Returns `false` if memory ran out.
fn enter_found(world: &World, op: OpId, counts: &mut UseCounts) -> bool
    ensures { OnTrue result (AllEntered (kept_by world.now.ctx) (with_head op (head_at world.now.store op) [])
        (counts_in counts.old) (counts_in counts.new)) }
{
    let Some(node) = world.store.node(op) else {
        return true;
    };
    let kept = stays(&world.ctx, &world.registry, node.name());
    enter(counts, op, kept)
}

/// Counts the operands of the operations. Returns `false` if a count overflows.
pub(crate) fn raise_each(store: &Store, ops: &[OpId], counts: &mut UseCounts) -> bool
    ensures { OnTrue result (Raised (all_operands (heads_by (head_at store.now) ops.now)) (counts_in counts.old)
        (counts_in counts.new)) }
{
    for op in ops {
        if !raise_found(store, *op, counts) {
            return false;
        }
    }
    true
}

/// Counts the operands of an operation if it is in the module. Returns `false` if a count overflows.
fn raise_found(store: &Store, op: OpId, counts: &mut UseCounts) -> bool
    ensures { OnTrue result (Raised (all_operands (with_head op (head_at store.now op) [])) (counts_in counts.old)
        (counts_in counts.new)) }
{
    let Some(node) = store.node(op) else {
        return true;
    };
    raise_all(counts, node.operands())
}
