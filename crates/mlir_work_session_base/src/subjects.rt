//! Says whether an operation is in the module.
ghost use Rattle.std.specs.Prelude.{◌≡◌};
ghost use Rattle.ir_event.specs.Modules.{module_in};
ghost use Rattle.ir_event.specs.trees.Ids.{has_id};

use ir_event::types::ids::OpId;
use ir_event::world::World;

/// Returns whether an operation is in the module.
pub fn is_in(world: &World, op: OpId) -> bool
    ensures { result ≡ has_id op (module_in world.now).tree }
{
    world.store.in_tree(op)
}
