//! The limits of a module under a rule.
ghost use Rattle.std.specs.Prelude.{◌≡◌};
ghost use Rattle.ir_event.specs.Modules.{module_in};
ghost use Rattle.patterns.specs.Applied.{limit_reason};

use ir_event::trees::limits::MOST_OPS;
use ir_event::types::refusal::Refusal;
use ir_event::world::World;

/// Returns the refusal if a module can't have `more` additional operations, because of their number or of their ids.
pub fn limit_reason(world: &World, more: u64) -> Option<Refusal>
    ensures { result ≡ limit_reason more (module_in world.now) }
{
    if world.store.op_count().saturating_add(more) > MOST_OPS {
        return Some(Refusal::Full);
    }
    if u64::from(world.store.next_id()).saturating_add(more) > 4_294_967_295 {
        return Some(Refusal::IdsExhausted);
    }
    None
}
