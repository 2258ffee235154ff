//! Releases held operations of an IR state.
ghost use Rattle.std.specs.Prelude.{◌≡◌};
ghost use Rattle.ir_event.specs.store.Calls.{Releases};

use ir_event::world::World;

/// Releases the held operations whose id is at least `from`. With `from` 0, also releases the slots of removed keys.
pub(crate) fn release(world: &mut World, from: u32)
    ensures store { Releases from world.old.store world.new.store }
    ensures ctx { world.new.ctx ≡ world.old.ctx }
{
    world.store.release(from);
}
