//! Builds the table of a module in one pass in pre-order.
ghost use Rattle.std.specs.Prelude.{◌≡◌, ℕ};
ghost use Rattle.std.specs.Bool.{OnTrue};
ghost use Rattle.ir_event.specs.trees.Ids.{ids};
ghost use Rattle.dialects_int.specs.Folds.{known_of};
ghost use Rattle.constants.specs.Facts.{value};
ghost use Rattle.constants.specs.Walk.{with_fact};
ghost use Rattle.constants.specs.Trails.{IsThere};
ghost use Rattle.constants.specs.Tables.{known_in, look_in, WalkedIds};

use crate::packed::PackedBits;
use crate::table::{drop_fact, note};
use crate::users::folded;
use ir_event::types::bits::Bits;
use ir_event::types::ids::OpId;
use ir_event::view::View;
use ir_event::world::World;
use listeners_support::IdMap;
use std::alloc::Global;

/// Writes the known value of an operation's result, or removes it. Returns `false` if memory ran out.
fn write_found(table: &mut IdMap<PackedBits>, op: OpId, found: &Option<Bits>) -> bool
    ensures { OnTrue result ((y : ℕ)
        → known_in table.new y ≡ with_fact op (known_of found.now) (known_in table.old) y) }
{
    match found {
        Some(bits) => note(table, op, bits),
        None => {
            drop_fact(table, op);
            true
        }
    }
}

/// Writes the fold of an operation, given the values known so far. Returns `false` if memory ran out.
fn enter(alloc: Global, world: &World, table: &mut IdMap<PackedBits>, op: OpId) -> bool
    ensures { OnTrue result (IsThere (look_in world.now) op → (y : ℕ) → known_in table.new y
        ≡ with_fact op (value (look_in world.now) (known_in table.old) op) (known_in table.old) y) }
{
    let mut view = View::new(world);
    match folded(alloc, &mut view, table, op) {
        Ok(found) => write_found(table, op, &found),
        Err(_) => false,
    }
}

/// Writes the folds of operations in order. Returns `false` if memory ran out.
fn enter_all(alloc: Global, world: &World, ops: &[OpId], table: &mut IdMap<PackedBits>) -> bool
    ensures { OnTrue result (WalkedIds (look_in world.now) ops.now (known_in table.old) (known_in table.new)) }
{
    for op in ops {
        if !enter(alloc, world, table, *op) {
            return false;
        }
    }
    true
}

/// Writes the folds of all operations of the module in order. Returns `false` if memory ran out.
pub(crate) fn enter_module(alloc: Global, world: &World, table: &mut IdMap<PackedBits>) -> bool
    ensures { OnTrue result (WalkedIds (look_in world.now) (ids world.now.store.module_of.tree) (known_in table.old)
        (known_in table.new)) }
{
    let Ok(ops) = world.store.operations() else {
        return false;
    };
    enter_all(alloc, world, &ops, table)
}
