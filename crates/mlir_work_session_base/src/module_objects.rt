//! Writes the operations of a module as JSON objects.
ghost use Rattle.std.specs.Prelude.{◌≡◌, IfOk};
ghost use Rattle.ir_event.specs.Modules.{module_in};
ghost use Rattle.mlir_work_session_base.specs.OperationObjects.{all_objects_text, page_text};

use crate::operation_walk::{text_of_all, text_of_page};
use ir_event::types::ids::OpId;
use ir_event::types::refusal::Refusal;
use ir_event::world::World;
use std::alloc::Global;

/// Returns the lines of all operations of the module, in pre-order.
///
/// Errors: `Memory` if memory runs out.
pub fn text_of_module(alloc: Global, world: &World) -> Result<Vec<u8>, Refusal>
    ensures { IfOk result (λ text. text.items ≡ all_objects_text (module_in world.now).tree) }
{
    let Ok(tree) = world.store.tree() else {
        return Err(Refusal::Memory);
    };
    match text_of_all(alloc, &world.ctx, &tree) {
        Ok(text) => Ok(text),
        Err(_) => Err(Refusal::Memory),
    }
}

/// Returns the lines of at most `count` operations of the module, in pre-order from operation `op` on. Without the
/// operation in the module, there are no lines. Takes time for the whole module.
///
/// Errors: `Memory` if memory runs out.
pub fn text_from(alloc: Global, world: &World, op: OpId, count: u32) -> Result<Vec<u8>, Refusal>
    ensures { IfOk result (λ text. text.items ≡ page_text op count (module_in world.now).tree) }
{
    let Ok(tree) = world.store.tree() else {
        return Err(Refusal::Memory);
    };
    match text_of_page(alloc, &world.ctx, &tree, op, count) {
        Ok(text) => Ok(text),
        Err(_) => Err(Refusal::Memory),
    }
}
