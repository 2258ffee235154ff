//! Checks of the preconditions of calls.
ghost use Rattle.std.specs.Prelude.{◌≡◌, ◌<◌, ℕ, true, false, None, Some, IfOk, IfSome, is_some, map, eqb, option_and_then};
ghost use Rattle.std.specs.FinMap as finmap;
ghost use Rattle.std.specs.List.{list_all, list_any};
ghost use Rattle.ir_types.specs.Things.{IsName, IsAttr};
ghost use Rattle.ir_tree.specs.Tree.{Op, head, regions_of, ops_of};
ghost use Rattle.ir_tree.specs.View.{region_view};
ghost use Rattle.ir_tree.specs.Limits.{most_next};
ghost use Rattle.ir_tree.specs.Meaning.{IsSoundIn};
ghost use Rattle.ir_tree_laws.specs.Reads.{ops_in};
ghost use Rattle.ir_tree_laws.specs.Reasons.{has_place, holds_none, is_in_list};
ghost use Rattle.ir_tree_laws.specs.Values.{has_value, region_at};
ghost use Rattle.ir_store_arena.specs.Slots.{has_key};
ghost use Rattle.ir_store.specs.Stored.{has_entry};
ghost use Rattle.ir_store.specs.Calls.{CanRestore, CanRevert};

use ir_store::store::Store;
use ir_tree::count::op_count;
use ir_tree::find::find;
use ir_tree::place::{Part, Place};
use ir_tree::sound::sound;
use ir_tree::tree::{TreeOp, TreeRegion};
use ir_tree::value::Value;
use ir_types::context::Context;
use ir_types::ids::{AttrId, NameId, OpId};
use ir_types::refusal::Refusal;

/// Returns true only if the blocks of an operation are empty.
fn is_bare(header: &TreeOp) -> bool
    ensures { result ≡ true → holds_none (Some header.now) ≡ true }
{
    op_count(header) == 1
}

/// Returns true only if no operation is held under the next free id.
fn is_free(store: &Store) -> bool
    ensures { result ≡ true → finmap.get store.now.held store.now.module_of.next ≡ None }
{
    store.node(OpId::new(store.next_id())).is_none()
}

/// Returns true only if a header may be inserted into a module: it is sound, its blocks are empty, and no operation is
/// held under the next free id.
pub fn may_put(ctx: &Context, store: &Store, header: &TreeOp) -> bool
    ensures sound { result ≡ true → IsSoundIn ctx.now header.now }
    ensures bare { result ≡ true → holds_none (Some header.now) ≡ true }
    ensures unheld { result ≡ true → finmap.get store.now.held store.now.module_of.next ≡ None }
{
    sound(ctx, header) && is_bare(header) && is_free(store)
}

/// Returns whether a tree has a place.
fn has_point(tree: &TreeOp, place: &Place) -> bool
    ensures { result ≡ has_place place.now tree.now }
{
    match find(tree, place.parent) {
        Some(parent) => holds_point(&parent.regions, place.region as usize, place.before),
        None => false,
    }
}

/// Returns whether a region has a block, and the block has the next operation of a place, if the place names one.
fn holds_point(regions: &Vec<TreeRegion>, number: usize, before: Option<OpId>) -> bool
    ensures { result ≡ is_in_list before (option_and_then ops_in (region_at number (regions_of (map region_view regions.now.items)))) }
{
    let Some(region) = regions.get(number) else {
        return false;
    };
    region_holds(region, before)
}

/// Returns whether this region has a block, and the block has the next operation of a place, if the place names one.
fn region_holds(region: &TreeRegion, before: Option<OpId>) -> bool
    ensures { result ≡ is_in_list before (ops_in (region_view region.now)) }
{
    match region {
        TreeRegion::Empty => false,
        TreeRegion::Block { ops, .. } => is_among(ops, before),
    }
}

/// Returns whether a list has the next operation of a place, if the place names one.
#[tactic(auto, using(crate::proofs::Points::among_of))]
fn is_among(ops: &Vec<TreeOp>, before: Option<OpId>) -> bool
    ensures { result ≡ is_in_list before (Some (ops_of ops.now.items)) }
{
    match before {
        None => true,
        Some(id) => has_op(ops, id),
    }
}

/// Returns whether a list has an operation with this id.
fn has_op(ops: &Vec<TreeOp>, id: OpId) -> bool
    ensures { result ≡ list_any (λ o. eqb (head o).id id) ops.now.items }
{
    ops.iter().any(|op| op.id == id)
}

/// Returns whether a module has all of some values.
fn has_values(store: &Store, values: &[Value]) -> bool
    ensures { result ≡ list_all (λ v. has_value v store.now.module_of.tree) values.now }
{
    let mut rest = values;
    'values: while let [value, tail @ ..] = rest {
        if store.value_type(*value).is_none() {
            return false;
        }
        rest = tail;
    }
    true
}

/// Returns true only if an operation is held, and the module has its operands.
fn is_ready(store: &Store, op: OpId) -> bool
    ensures held { result ≡ true → is_some (finmap.get store.now.held op) ≡ true }
    ensures values { result ≡ true → (o : Op) → finmap.get store.now.held op ≡ Some o → list_all (λ v. has_value v store.now.module_of.tree) (head o).operands ≡ true }
{
    if store.in_tree(op) {
        return false;
    }
    match store.node(op) {
        None => false,
        Some(node) => has_values(store, node.operands()),
    }
}

/// Returns true only if an id is the next free one and can be given out, or is below the next free one.
fn fits_next(store: &Store, op: OpId, fresh: bool) -> bool
    ensures newest { result ≡ true → fresh ≡ true → store.now.module_of.next ≡ op }
    ensures headroom { result ≡ true → fresh ≡ true → op < most_next }
    ensures below { result ≡ true → fresh ≡ false → op < store.now.module_of.next }
{
    let next = store.next_id();
    if fresh {
        op.number() == next && next < u32::MAX
    } else {
        op.number() < next
    }
}

/// Returns whether a held operation may be inserted again at a place of a module.
pub fn may_restore(store: &Store, op: OpId, place: &Place, fresh: bool) -> Result<bool, Refusal>
    ensures { IfOk result (λ b. b ≡ true → CanRestore op place.now fresh store.now) }
{
    let tree = store.tree()?;
    Ok(is_ready(store, op) && has_point(&tree, place) && fits_next(store, op, fresh))
}

/// Returns whether a key and an attribute are of a context, and a module is sound in it.
pub fn may_set(
    ctx: &Context,
    store: &Store,
    key: NameId,
    value: Option<AttrId>,
) -> Result<bool, Refusal>
    ensures key { IfOk result (λ b. b ≡ true → IsName ctx.now key) }
    ensures value { IfOk result (λ b. b ≡ true → IfSome value (λ a. IsAttr ctx.now a)) }
    ensures sound { IfOk result (λ b. b ≡ true → IsSoundIn ctx.now store.now.module_of.tree) }
{
    let tree = store.tree()?;
    Ok(ctx.has_name(key) && has_some(ctx, value) && sound(ctx, &tree))
}

/// Returns true only if an optional attribute is of a context.
fn has_some(ctx: &Context, value: Option<AttrId>) -> bool
    ensures { result ≡ true → IfSome value (λ a. IsAttr ctx.now a) }
{
    match value {
        None => true,
        Some(attr) => ctx.has_attr(attr),
    }
}

/// Returns whether one dictionary of an operation has a key.
fn has_entry(store: &Store, op: OpId, part: Part, key: NameId) -> bool
    ensures { result ≡ has_entry op part key store.now }
{
    match store.node(op) {
        None => false,
        Some(node) => match part {
            Part::Props => has_key(node.properties(), key),
            Part::Attrs => has_key(node.attributes(), key),
        },
    }
}

/// Returns whether a dictionary has a key.
fn has_key(entries: &[(NameId, AttrId)], key: NameId) -> bool
    ensures { result ≡ has_key key entries.now }
{
    entries.iter().any(|entry| entry.0 == key)
}

/// Returns true only if a key of a dictionary may be set back, or removed again.
pub fn may_revert(store: &Store, op: OpId, part: Part, key: NameId, value: Option<AttrId>) -> bool
    ensures { result ≡ true → CanRevert op part key value store.now }
{
    store.in_tree(op)
        && store.has_slot(op, part, key)
        && (value.is_some() || has_entry(store, op, part, key))
}
