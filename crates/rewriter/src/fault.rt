//! Reasons against inserting an operation with everything inside it, apart from dominance.
ghost use Rattle.std.specs.Prelude.{◌≡◌, ◌+◌, ◌<◌, ◌-◌, ◌^◌, nat_le, true, ◌&&◌};
ghost use Rattle.ir_event.specs.trees.Ids.{has_id, op_count as count_of};
ghost use Rattle.ir_event.specs.trees.Limits.{depth as depth_of, every, most_ops, op_fits};
ghost use Rattle.ir_event.specs.tree_laws.Reads.{around};
ghost use Rattle.ir_event.specs.tree_laws.Reasons.{fits_around};
ghost use Rattle.rewriter_machine.specs.Inserting.{insert_fault as fault_of};

use ir_event::store::store::Store;
use ir_event::trees::count::{depth, op_count};
use ir_event::trees::limits::{MOST_OPS, counts_are_within};
use ir_event::trees::place::Place;
use ir_event::trees::tree::TreeOp;
use ir_event::types::ids::OpId;
use ir_event::types::refusal::Refusal;
use ir_event::world::World;

/// Returns whether the operations of `tree` and `others` more are at most `most`.
fn fits_next_to(others: u64, tree: &TreeOp, most: u64) -> bool
    requires { most < 2 ^ 64 - 1 }
    ensures { result ≡ nat_le (others + count_of tree.now) most }
{
    others.saturating_add(op_count(tree)) <= most
}

/// Returns whether inserting `tree` into the module exceeds no limit of counts.
fn fits_limits(store: &Store, tree: &TreeOp) -> bool
    ensures { result ≡ (nat_le (count_of store.now.module_of.tree + count_of tree.now) most_ops
        && every op_fits tree.now) }
{
    fits_next_to(store.op_count(), tree, MOST_OPS) && counts_are_within(tree)
}

/// Returns whether `tree`, inserted into `parent`, keeps within the depth limit.
fn fits_inside(store: &Store, parent: OpId, tree: &TreeOp) -> bool
    requires { has_id parent store.now.module_of.tree ≡ true }
    ensures { result ≡ fits_around (depth_of tree.now) (around parent store.now.module_of.tree) }
{
    // A tree with more levels than a u8 can count exceeds the depth limit everywhere.
    let levels = u32::from(u8::try_from(depth(tree)).unwrap_or(u8::MAX));
    store.fits_around(parent, levels)
}

/// Returns the reason that `tree` can't be inserted at `place`, or `None`. Dominance isn't checked.
pub(crate) fn insert_fault(world: &World, place: &Place, tree: &TreeOp) -> Option<Refusal>
    ensures { result ≡ fault_of place.now tree.now world.now.store.module_of.next world.now.store.module_of.tree }
{
    let store = &world.store;
    if !store.in_tree(place.parent) {
        return Some(Refusal::NoSuchOp);
    }
    if !store.has_place(place) {
        return Some(Refusal::NoSuchIndex);
    }
    if !fits_limits(store, tree) {
        return Some(Refusal::Full);
    }
    if !fits_next_to(u64::from(store.next_id()), tree, u64::from(u32::MAX)) {
        return Some(Refusal::IdsExhausted);
    }
    if !fits_inside(store, place.parent, tree) {
        return Some(Refusal::TooDeepHere);
    }
    None
}
