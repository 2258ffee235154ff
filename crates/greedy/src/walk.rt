//! Pre-order steps from an operation.
ghost use Rattle.std.specs.Prelude.{◌≡◌, ◌≤◌, ◌<◌, ◌+◌, true, IfSome, IfNone};
ghost use Rattle.ir_event.specs.trees.Ids.{HasDistinctIds, find as the_first, has_id};
ghost use Rattle.ir_event.specs.trees.Tree.{head};
ghost use Rattle.ir_event.specs.tree_laws.Reads.{precedes};
ghost use Rattle.greedy.specs.Orders.{IsBeyond};
ghost use Rattle.greedy.specs.Following.{HasFewRegions, count_of, first_inside, following as after};

use ir_event::store::store::Store;
use ir_event::types::ids::OpId;

/// Returns the number of regions of an operation of the module.
fn count_regions(store: &Store, op: OpId) -> usize
    requires there { has_id op store.now.module_of.tree ≡ true }
    requires distinct { HasDistinctIds store.now.module_of.tree }
    requires few { HasFewRegions store.now.module_of.tree }
    ensures count { result ≡ count_of (the_first op store.now.module_of.tree) }
    ensures few { result ≤ 16 }
{
    match store.node(op) {
        None => 0,
        Some(node) => node.region_count(),
    }
}

/// Returns the first operation inside the regions of `op`, from region `from` on.
fn first_from(store: &Store, op: OpId, from: u32) -> Option<OpId>
    requires there { has_id op store.now.module_of.tree ≡ true }
    requires distinct { HasDistinctIds store.now.module_of.tree }
    requires few { HasFewRegions store.now.module_of.tree }
    ensures { result ≡ first_inside from (the_first op store.now.module_of.tree) }
{
    let count = count_regions(store, op);
    let mut region = from;
    'regions: while (region as usize) < count {
        if let Some(first) = store.first(op, region) {
            return Some(first);
        }
        region += 1;
    }
    None
}

/// Returns the operation after `op` in pre-order, or `None` if `op` is the last.
pub(crate) fn following(store: &Store, op: OpId) -> Option<OpId>
    requires there { has_id op store.now.module_of.tree ≡ true }
    requires distinct { HasDistinctIds store.now.module_of.tree }
    requires few { HasFewRegions store.now.module_of.tree }
    ensures { result ≡ after op store.now.module_of.tree }
{
    if let Some(first) = first_from(store, op, 0) {
        return Some(first);
    }
    if let Some(next) = store.next(op) {
        return Some(next);
    }
    let mut at = op;
    'around: while let Some(place) = store.place(at) {
        if let Some(next) = place.before {
            return Some(next);
        }
        if let Some(first) = first_from(store, place.parent, place.region + 1) {
            return Some(first);
        }
        at = place.parent;
    }
    None
}

/// Returns an operation that comes before `op` in pre-order: the previous operation in its block, or else its parent.
/// Returns `None` for the root.
pub(crate) fn preceding(store: &Store, op: OpId) -> Option<OpId>
    requires there { has_id op store.now.module_of.tree ≡ true }
    requires distinct { HasDistinctIds store.now.module_of.tree }
    ensures some { IfSome result (λ p. precedes p op store.now.module_of.tree ≡ true) }
    ensures none { IfNone result (op ≡ (head store.now.module_of.tree).id) }
{
    if let Some(prev) = store.prev(op) {
        return Some(prev);
    }
    let Some(parent) = store.parent(op) else {
        return None;
    };
    Some(parent)
}

/// Returns whether `other` comes after `op` and everything inside `op` in pre-order.
pub(crate) fn is_beyond(store: &Store, op: OpId, other: OpId) -> bool
    requires distinct { HasDistinctIds store.now.module_of.tree }
    ensures { result ≡ true → IsBeyond op other store.now.module_of.tree }
{
    let Some(last) = store.last_within(op) else {
        return true;
    };
    precedes(store, last, other)
}

/// Returns whether `op` comes before `other` in pre-order. Checks first whether they are in the same block, the common
/// case.
pub(crate) fn precedes(store: &Store, op: OpId, other: OpId) -> bool
    requires distinct { HasDistinctIds store.now.module_of.tree }
    ensures { result ≡ precedes op other store.now.module_of.tree }
{
    if store.is_before(op, other) {
        return true;
    }
    if store.is_before(other, op) {
        return false;
    }
    store.precedes(op, other)
}
