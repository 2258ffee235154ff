//! The blocks of operations, and the order of operations in a block.
ghost use Rattle.std.specs.Prelude.{◌≡◌, option_map};
ghost use Rattle.std.specs.FinMap as finmap;
ghost use Rattle.ir_store_slots.specs.Lists.{home_at, list_at};
ghost use Rattle.ir_store_slots.specs.Labels.{goes_before};
ghost use Rattle.ir_store_slots.specs.Rows.{live_slot};
ghost use Rattle.ir_store_slots.specs.Points.{id_in};
ghost use Rattle.ir_store_reads.specs.Heading.{block_in, CanBeItem};

use ir_store_slots::find::{Keys, find};
use ir_store_slots::insertion_point::block_head;
use ir_store_slots::types::ids::OpId;
use ir_store_slots::use_lists::id_at;
use ir_store_slots::{OrderedLists, Slots};

/// Returns the head of the list of the block of a region of an operation of the module, or `None` if there is no such
/// block.
pub fn find_block(slots: &Slots, keys: &Keys, op: OpId, region: u32) -> Option<usize>
    ensures { result ≡ block_in slots.now (live_slot slots.now (finmap.get keys.now)) op region }
{
    let key = find(slots, keys, op)?;
    block_head(slots.areas(key), region as usize)
}

/// Returns the id of the operation in a slot, if a slot is given.
pub fn id_of(slots: &Slots, key: Option<usize>) -> Option<OpId>
    ensures { result ≡ option_map (id_in slots.now) key }
{
    match key {
        None => None,
        Some(key) => Some(id_at(slots, key)),
    }
}

/// Returns whether a node is before another in the same list.
pub fn goes_before(sibs: &OrderedLists, node: usize, trailing: usize) -> bool
    requires node { CanBeItem sibs.now.homes node }
    requires trailing { CanBeItem sibs.now.homes trailing }
    ensures { result ≡ goes_before node trailing (list_at sibs.now.lists (home_at sibs.now.homes node)) }
{
    sibs.laws();
    let Some(home) = sibs.home(node) else {
        return false;
    };
    let Some(other) = sibs.home(trailing) else {
        return false;
    };
    if home == other {
        sibs.is_before(node, trailing)
    } else {
        false
    }
}
