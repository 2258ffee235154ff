//! The uses of the values of a slot.
ghost use Rattle.std.specs.Prelude.{◌≡◌, length};
ghost use Rattle.ir_store_slots.specs.Rows.{row_at};
ghost use Rattle.ir_store_slots.specs.Index.{cells_of};
ghost use Rattle.ir_store_slots.specs.Using.{use_in};

use ir_store_slots::Slots;
use ir_store_slots::row::UseNode;
use ir_store_slots::types::ids::OpId;
use ir_store_slots::use_lists::id_at;

/// Returns the heads of the use lists of a slot's results: the first one, and their number.
pub fn result_run(slots: &Slots, key: usize) -> (usize, usize)
    ensures { result ≡ ((row_at slots.now key).values, length (row_at slots.now key).head.results) }
{
    (slots.values(key), slots.results(key).len())
}

/// Returns the user of a node, and the index of the operand.
pub fn user_at(slots: &Slots, cells: &Vec<UseNode>, node: usize) -> (OpId, u32)
    ensures { result ≡ use_in slots.now (cells_of cells.now.items) node }
{
    match cells.get(node) {
        None => (id_at(slots, 0), 0),
        Some(cell) => (id_at(slots, cell.row as usize), cell.place),
    }
}
