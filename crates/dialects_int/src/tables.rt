//! The registry of the operation table.
ghost use Rattle.std.specs.Prelude.{IsOk};

use ir_types::context::Context;
use ir_types::refusal::Refusal;
use op_registry::registry::Registry;

/// Returns the registry, for the names of a context. Every context has the registered names at the same ids, so the
/// context isn't changed, and the call is never refused.
pub fn registry(_ctx: &Context) -> Result<Registry, Refusal>
    ensures { IsOk result }
{
    Ok(Registry::new())
}
