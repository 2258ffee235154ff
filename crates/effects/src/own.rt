//! The own effects of an operation, by its name.
ghost use Rattle.std.specs.Prelude.{◌≡◌};
ghost use Rattle.effects.specs.Effects.{own_by};

use ir_event::types::context::Context;
use ir_event::types::ids::NameId;
use op_registry::own::Own;
use op_registry::registry::Registry;

/// Returns the own effects of operations with that name.
pub(crate) fn own(ctx: &Context, registry: &Registry, name: NameId) -> Own
    ensures { result ≡ own_by ctx.now name }
{
    ctx.sound();
    registry.effects(name)
}
