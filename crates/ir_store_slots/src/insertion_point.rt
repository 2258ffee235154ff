//! Insertion points of operations, in slots.
ghost use Rattle.std.specs.Prelude.{◌≡◌, ◌<◌, eqb, length, map, slice_get, slice_set, option_and_then, IfSome, MatchOption, Some, is_some, ◌&&◌, false};
ghost use Rattle.std.specs.FinMap as finmap;
ghost use Rattle.std.specs.Ordering.{nat_cmp};
ghost use Rattle.ir_store_lists.specs.Lists.{IsFree, IsHead};
ghost use Rattle.ir_store_slots.specs.Rows.{shape_of, head_in, held_slot};
ghost use Rattle.ir_store_slots.specs.Points.{point_in, joined, stands, IsNodeIn};

use crate::find::{Keys, find, slot};
use crate::row::RegionData;
use ir_store_arena::Slots;
use ir_store_arena::trees::place::Place;
use ir_store_arena::types::ids::OpId;
use ir_store_lists::OrderedLists;

/// Returns the slot of a held operation, or `None` if the operation isn't held.
pub fn find_held(slots: &Slots, keys: &Keys, op: OpId) -> Option<usize>
    ensures { result ≡ held_slot slots.now (finmap.get keys.now) op }
{
    let key = slot(keys, op)?;
    if slots.is_used(key) && !slots.is_live(key) {
        Some(key)
    } else {
        None
    }
}

/// Returns the head of the list of a region's block, or `None` if there is no block.
pub fn block_head(areas: &[RegionData], region: usize) -> Option<usize>
    ensures { result ≡ option_and_then head_in (slice_get (map shape_of areas.now) region) }
{
    match areas.get(region)? {
        RegionData::Empty => None,
        RegionData::Block { head, .. } => Some(*head),
    }
}

/// Returns the head of the list of a place, and the slot of the next operation there; `None` if there is no such place.
pub fn find_insertion_point(
    slots: &Slots,
    keys: &Keys,
    sibs: &OrderedLists,
    place: Place,
) -> Option<(usize, Option<usize>)>
    requires { length slots.now ≡ length sibs.now.homes }
    ensures { result ≡ point_in slots.now (finmap.get keys.now) sibs.now.homes place }
{
    let parent = find(slots, keys, place.parent)?;
    let head = block_head(slots.areas(parent), place.region as usize)?;
    match place.before {
        None => Some((head, None)),
        Some(before) => {
            let at = find(slots, keys, before)?;
            if is_node_in_list(sibs, at, head) {
                Some((head, Some(at)))
            } else {
                None
            }
        }
    }
}

/// Returns whether a node is in the list of a head.
fn is_node_in_list(sibs: &OrderedLists, node: usize, head: usize) -> bool
    requires { node < length sibs.now.homes }
    ensures { result ≡ stands sibs.now.homes head node }
{
    match sibs.home(node) {
        None => false,
        Some(home) => home == head,
    }
}

/// Inserts a free node into the list of a head, before another node or at the end.
pub fn link(sibs: &mut OrderedLists, node: usize, head: usize, before: Option<usize>)
    requires free { IsFree sibs.old.homes node }
    requires head { IsHead sibs.old.homes head }
    requires before { IfSome before (λ at. IsNodeIn sibs.old.homes head at) }
    ensures lists { sibs.new.lists ≡ joined node head before sibs.old.lists }
    ensures homes { sibs.new.homes ≡ slice_set sibs.old.homes node head }
{
    match before {
        None => sibs.push_back(node, head),
        Some(at) => sibs.insert_before(node, at),
    }
}

/// Returns the slot of a held operation, and its insertion point.
pub fn find_insertion(
    slots: &Slots,
    keys: &Keys,
    sibs: &OrderedLists,
    op: OpId,
    place: Place,
) -> Option<(usize, usize, Option<usize>)>
    requires { length slots.now ≡ length sibs.now.homes }
    ensures { MatchOption result ((is_some (held_slot slots.now (finmap.get keys.now) op) && is_some (point_in slots.now (finmap.get keys.now) sibs.now.homes place)) ≡ false)
        (λ p. (Some p.0 ≡ held_slot slots.now (finmap.get keys.now) op) × (Some (p.1, p.2) ≡ point_in slots.now (finmap.get keys.now) sibs.now.homes place)) }
{
    let key = find_held(slots, keys, op)?;
    let (head, before) = find_insertion_point(slots, keys, sibs, place)?;
    Some((key, head, before))
}
