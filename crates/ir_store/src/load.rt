//! Loads a tree into a store, operation by operation.
ghost use Rattle.std.specs.Prelude.{◌≡◌, ◌⊎◌, ◌<◌, ◌∷◌, [], IfOk, IfErr, OnOk, Some, map, true};
ghost use Rattle.std.specs.List.{All, list_all};
ghost use Rattle.std.specs.FinMap as finmap;
ghost use Rattle.ir_store_reads.specs.trees.Ids.{HasDistinctIds, ids, regions_ids, region_ids};
ghost use Rattle.ir_store_reads.specs.trees.Tree.{head, regions_of};
ghost use Rattle.ir_store_reads.specs.trees.View.{region_view};
ghost use Rattle.ir_store_reads.specs.trees.Places.{put};
ghost use Rattle.ir_store_reads.specs.tree_laws.Restores.{MayPut};
ghost use Rattle.ir_store_reads.specs.tree_laws.Values.{has_value};
ghost use Rattle.ir_store_reads.specs.trees.Meaning.{isolated_in, IsSoundIn};
ghost use Rattle.ir_store_reads.specs.trees.WellFormed.{IsValidTree, IsWellFormed, fault};
ghost use Rattle.ir_store.specs.Calls.{Loaded};
ghost use Rattle.ir_store_reads.specs.Emptied.{emptied};
ghost use Rattle.ir_store.specs.Loads.{end_of, put_region, put_regions, MayRegion, MayRegions, Adds, AreBelow};

use crate::store::Store;
use ir_store_reads::capacity::capacity_for;
use ir_store_reads::trees::check::check;
use ir_store_reads::trees::place::Place;
use ir_store_reads::trees::tree::{TreeOp, TreeRegion};
use ir_store_reads::trees::value::Value;
use ir_store_reads::types::context::Context;
use ir_store_reads::types::ids::OpId;
use ir_store_reads::types::refusal::Refusal;
use std::alloc::{AllocError, Global};

impl Store {
    /// Returns whether the module has all of these values.
    pub(crate) fn has_values(&self, values: &[Value]) -> bool
        ensures { result ≡ list_all (λ v. has_value v self.now.module_of.tree) values.now }
    {
        let mut rest = values;
        'values: while let [value, tail @ ..] = rest {
            if self.value_type(*value).is_none() {
                return false;
            }
            rest = tail;
        }
        true
    }
}

/// Appends an operation to a block, without the operations in its own blocks.
fn load_head(store: &mut Store, owner: OpId, region: u32, op: &TreeOp) -> Result<(), AllocError>
    requires may { MayPut (end_of owner region) (emptied op.now) store.old.module_of.tree }
    requires held { store.old.held ≡ finmap.empty }
    requires below { (head op.now).id < store.old.module_of.next }
    ensures { OnOk result (Adds (put (end_of owner region) (emptied op.now) store.old.module_of.tree) ((head op.now).id ∷ []) store.old store.new) }
{
    if !store.has_values(&op.operands) {
        return Err(AllocError);
    }
    store.create(op.id, op)?;
    let place = Place {
        parent: owner,
        region,
        before: None,
    };
    store.restore(op.id, place, false);
    Ok(())
}

/// Appends an operation to a block, with all operations inside it.
#[cycle(load)]
fn load_op(store: &mut Store, owner: OpId, region: u32, op: &TreeOp) -> Result<(), AllocError>
    requires may { MayPut (end_of owner region) op.now store.old.module_of.tree }
    requires held { store.old.held ≡ finmap.empty }
    requires below { AreBelow store.old.module_of.next (ids op.now) }
    ensures { OnOk result (Adds (put (end_of owner region) op.now store.old.module_of.tree) (ids op.now) store.old store.new) }
{
    load_head(store, owner, region, op)?;
    load_regions(store, op.id, &op.regions)
}

/// Loads the operations in the regions of an operation.
#[cycle(load)]
pub(crate) fn load_regions(
    store: &mut Store,
    owner: OpId,
    regions: &Vec<TreeRegion>,
) -> Result<(), AllocError>
    requires may { MayRegions owner 0 (regions_of (map region_view regions.now.items)) store.old.module_of.tree }
    requires held { store.old.held ≡ finmap.empty }
    requires below { AreBelow store.old.module_of.next (regions_ids (regions_of (map region_view regions.now.items))) }
    ensures { OnOk result (Adds (put_regions owner 0 (regions_of (map region_view regions.now.items)) store.old.module_of.tree) (regions_ids (regions_of (map region_view regions.now.items))) store.old store.new) }
{
    let mut number = 0;
    for region in regions {
        load_region(store, owner, number, region)?;
        number = match number.checked_add(1) {
            None => return Err(AllocError),
            Some(number) => number,
        };
    }
    Ok(())
}

/// Loads the operations in the block of a region.
#[cycle(load)]
fn load_region(
    store: &mut Store,
    owner: OpId,
    number: u32,
    region: &TreeRegion,
) -> Result<(), AllocError>
    requires may { MayRegion owner number (region_view region.now) store.old.module_of.tree }
    requires held { store.old.held ≡ finmap.empty }
    requires below { AreBelow store.old.module_of.next (region_ids (region_view region.now)) }
    ensures { OnOk result (Adds (put_region owner number (region_view region.now) store.old.module_of.tree) (region_ids (region_view region.now)) store.old store.new) }
{
    match region {
        TreeRegion::Empty => Ok(()),
        TreeRegion::Block { ops, .. } => {
            for op in ops {
                load_op(store, owner, number, op)?;
            }
            Ok(())
        }
    }
}

/// Frees a tree. The lists of its functions are shrunk first: a large block that is freed as a whole makes the C library
/// keep later blocks of up to its size in one heap, in which lists that grow leave holes.
fn release(tree: TreeOp) {
    let mut tree = tree;
    shrink_functions(&mut tree.regions);
}

/// Shrinks the lists of the functions in these regions.
fn shrink_functions(regions: &mut [TreeRegion]) {
    for region in regions {
        if let TreeRegion::Block { ops, .. } = region {
            shrink_bodies(ops);
        }
    }
}

/// Shrinks the lists of these operations.
fn shrink_bodies(ops: &mut [TreeOp]) {
    for op in ops {
        shrink_lists(&mut op.regions);
    }
}

/// Drops all operations of these regions except the first of each, and shrinks the lists.
fn shrink_lists(regions: &mut [TreeRegion]) {
    for region in regions {
        if let TreeRegion::Block { ops, .. } = region {
            ops.truncate(1);
            ops.shrink_to_fit();
        }
    }
}

/// Returns the store of a tree whose root has no operands.
fn spread(alloc: Global, tree: &TreeOp, next: u32) -> Result<Store, AllocError>
    requires distinct { HasDistinctIds tree.now }
    requires below { AreBelow next (ids tree.now) }
    requires root { (head tree.now).operands ≡ [] }
    ensures { IfOk result (λ s. Loaded tree.now next s) }
{
    let headroom = capacity_for(tree);
    let mut store = Store::from_root(alloc, tree, next, &headroom)?;
    load_regions(&mut store, tree.id, &tree.regions)?;
    Ok(store)
}

impl Store {
    /// Returns the store of `tree`, in which every operand must be visible and no limit exceeded. `next` is the next
    /// free id.
    ///
    /// Refusals, in this order: `UnknownValue`, `TooDeep`, `TooMany`; and `Memory`.
    pub fn load(alloc: Global, ctx: &Context, tree: &TreeOp, next: u32) -> Result<Store, Refusal>
        requires sound { IsSoundIn ctx.now tree.now }
        requires distinct { HasDistinctIds tree.now }
        requires below { All (λ x. x < next) (ids tree.now) }
        ensures ok { IfOk result (λ s. Loaded tree.now next s) }
        ensures wellformed { IfOk result (λ s. IsWellFormed (isolated_in ctx.now) s.module_of) }
        ensures refused { IfErr result (λ e. (e ≡ Refusal.Memory) ⊎ (fault (isolated_in ctx.now) tree.now ≡ Some e)) }
    {
        match check(alloc, ctx, tree) {
            Ok(()) => {}
            Err(e) => return Err(e),
        }
        match spread(alloc, tree, next) {
            Ok(store) => Ok(store),
            Err(_) => Err(Refusal::Memory),
        }
    }

    /// Returns the store of a tree that is known to be well-formed, without checking it again. `next` is the next free
    /// id.
    ///
    /// Refusals: `Memory`.
    pub fn from_checked(
        alloc: Global,
        ctx: &Context,
        tree: TreeOp,
        next: u32,
    ) -> Result<Store, Refusal>
        requires sound { IsSoundIn ctx.now tree }
        requires distinct { HasDistinctIds tree }
        requires below { All (λ x. x < next) (ids tree) }
        requires wellformed { IsValidTree (isolated_in ctx.now) tree }
        ensures ok { IfOk result (λ s. Loaded tree next s) }
        ensures wellformed { IfOk result (λ s. IsWellFormed (isolated_in ctx.now) s.module_of) }
        ensures refused { IfErr result (λ e. e ≡ Refusal.Memory) }
    {
        let store = spread(alloc, &tree, next)?;
        release(tree);
        Ok(store)
    }
}
