//! Slots by ids.
ghost use Rattle.std.specs.Prelude.{◌≡◌, ◌<◌, ℕ, eqb, map, length, Some};
ghost use Rattle.std.specs.FinMap as finmap;
ghost use Rattle.std.specs.Ordering.{nat_cmp};
ghost use Rattle.ir_store_slots.specs.Rows.{row_at, live_slot, shape_of};
ghost use Rattle.ir_store_slots.specs.Plans.{AllHeads, all_bare, leaf_in, operand_in};
ghost use Rattle.ir_store_slots.specs.Right.{Live};

use crate::row::RegionData;
use ir_store_arena::Slots;
use ir_store_arena::types::ids::OpId;
use ir_store_arena::types::refusal::Refusal;
use ir_store_lists::{IdTable, OrderedLists};

/// The table from ids to slots.
pub type Keys = IdTable;

/// Returns the slot of an operation of the module or a held one, or `None` if the id has no slot.
pub fn slot(keys: &Keys, op: OpId) -> Option<usize>
    ensures { result ≡ finmap.get keys.now op }
{
    keys.get(op.number())
}

/// Returns the slot of an operation of the module, or `None` if it isn't in the module.
pub fn find(slots: &Slots, keys: &Keys, op: OpId) -> Option<usize>
    ensures { result ≡ live_slot slots.now (finmap.get keys.now) op }
{
    let key = slot(keys, op)?;
    if slots.is_live(key) { Some(key) } else { None }
}

/// Returns whether the blocks of an operation are empty.
pub fn is_bare(areas: &[RegionData], sibs: &OrderedLists) -> bool
    requires { AllHeads sibs.now.homes (map shape_of areas.now) }
    ensures { result ≡ all_bare sibs.now.lists (map shape_of areas.now) }
{
    let mut rest = areas;
    'areas: while let [area, tail @ ..] = rest {
        if let RegionData::Block { head, .. } = area {
            if sibs.first(*head).is_some() {
                return false;
            }
        }
        rest = tail;
    }
    true
}

/// Returns the slot of an operation that isn't the root and whose blocks are empty, or the reason that it isn't one.
pub fn find_leaf(
    slots: &Slots,
    keys: &Keys,
    sibs: &OrderedLists,
    root: usize,
    op: OpId,
) -> Result<usize, Refusal>
    requires { (k : ℕ) → Live slots.now k → AllHeads sibs.now.homes (row_at slots.now k).shapes }
    ensures { result ≡ leaf_in slots.now sibs.now.lists root (live_slot slots.now (finmap.get keys.now) op) }
{
    let Some(key) = find(slots, keys, op) else {
        return Err(Refusal::NoSuchOp);
    };
    if key == root {
        return Err(Refusal::IsRoot);
    }
    if is_bare(slots.areas(key), sibs) {
        Ok(key)
    } else {
        Err(Refusal::NotEmpty)
    }
}

/// Returns the slot of an operation of the module that has this operand, or the reason that there is none.
pub fn find_operand(slots: &Slots, keys: &Keys, op: OpId, place: usize) -> Result<usize, Refusal>
    ensures { result ≡ operand_in slots.now place (live_slot slots.now (finmap.get keys.now) op) }
{
    let Some(key) = find(slots, keys, op) else {
        return Err(Refusal::NoSuchOp);
    };
    if place < operand_count(slots, key) {
        Ok(key)
    } else {
        Err(Refusal::NoSuchIndex)
    }
}

/// Returns the number of operands of the operation in a slot.
fn operand_count(slots: &Slots, key: usize) -> usize
    ensures { result ≡ length (row_at slots.now key).head.operands }
{
    slots.operands(key).len()
}
