//! Reads of the uses of a value.
ghost use Rattle.std.specs.Prelude.{◌≡◌, map};
ghost use Rattle.mlir_work_c_read.specs.Filled.{over};
ghost use Rattle.mlir_work_c_read.specs.Operations.{tree_in};
ghost use Rattle.mlir_work_c_read.specs.Uses.{WritesUses, use_numbers};

use crate::numbers::UseNumbers;
use ir_event::store::uses::UsesOf;
use ir_event::trees::value::Value;
use ir_event::world::World;

/// Writes the uses of a value, each once, as many as there is space for, and returns how many the value has. Takes time
/// proportional to the uses.
pub fn write_uses(world: &World, value: Value, into: &mut [UseNumbers]) -> usize
    ensures { WritesUses value (tree_in world.now) into.old into.new result }
{
    let uses = world.store.uses(value);
    let count = uses.len();
    write_all(uses, into);
    count
}

/// Writes uses as numbers, as many as there is space for.
fn write_all(uses: UsesOf<'_>, into: &mut [UseNumbers])
    ensures { into.new ≡ over (map use_numbers uses.entry) into.old }
{
    let mut rest = uses;
    for entry in into {
        let Some((op, operand)) = rest.next() else {
            return;
        };
        *entry = UseNumbers {
            operation: op.number(),
            operand,
        };
    }
}
