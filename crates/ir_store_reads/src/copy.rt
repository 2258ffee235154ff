//! Copies the tree of a store.
ghost use Rattle.std.specs.Prelude.{◌≡◌, ◌∷◌, [], ℕ, IfOk, map};
ghost use Rattle.ir_store_slots.specs.Lists.{IsHead, list_at};
ghost use Rattle.ir_store_slots.specs.trees.Tree.{op, head, regions_of};
ghost use Rattle.ir_store_slots.specs.trees.View.{region_view};
ghost use Rattle.ir_store_slots.specs.Rows.{row_at, shape_of};
ghost use Rattle.ir_store_slots.specs.Plans.{AllHeads};
ghost use Rattle.ir_store_slots.specs.Right.{Live};
ghost use Rattle.ir_store_slots.specs.Spells.{SpellsOp, SpellsRegions, SpellsRegion};

use ir_store_slots::row::RegionData;
use ir_store_slots::trees::place::Part;
use ir_store_slots::trees::tree::{TreeOp, TreeRegion};
use ir_store_slots::{OrderedLists, Slots};
use std::alloc::{AllocError, Global};

/// Returns the operation of a slot with everything inside it. An `AllocError` if it has more levels than given.
#[cycle(copy)]
pub fn copy_op(
    alloc: Global,
    slots: &Slots,
    sibs: &OrderedLists,
    key: &usize,
    levels: u32,
) -> Result<TreeOp, AllocError>
    requires { (k : ℕ) → Live slots.now k → AllHeads sibs.now.homes (row_at slots.now k).shapes }
    ensures { IfOk result (λ t. SpellsOp slots.now sibs.now.lists key.now t) }
{
    if levels == 0 || !slots.is_live(*key) {
        return Err(AllocError);
    }
    let regions = copy_regions(alloc, slots, sibs, slots.areas(*key), levels - 1)?;
    tree_of(alloc, slots, *key, regions)
}

/// Returns the operation of a slot, with these regions.
fn tree_of(
    alloc: Global,
    slots: &Slots,
    key: usize,
    regions: Vec<TreeRegion>,
) -> Result<TreeOp, AllocError>
    ensures { IfOk result (λ t. t ≡ op (row_at slots.now key).head (regions_of (map region_view regions.items))) }
{
    Ok(TreeOp {
        id: slots.id(key),
        name: slots.name(key),
        operands: Vec::from_slice(alloc, slots.operands(key))?,
        results: Vec::from_slice(alloc, slots.results(key))?,
        props: Vec::from_slice(alloc, slots.entries(key, Part::Props))?,
        attrs: Vec::from_slice(alloc, slots.entries(key, Part::Attrs))?,
        regions,
    })
}

/// Returns regions with everything inside them.
#[cycle(copy)]
fn copy_regions(
    alloc: Global,
    slots: &Slots,
    sibs: &OrderedLists,
    areas: &[RegionData],
    levels: u32,
) -> Result<Vec<TreeRegion>, AllocError>
    requires slots { (k : ℕ) → Live slots.now k → AllHeads sibs.now.homes (row_at slots.now k).shapes }
    requires heads { AllHeads sibs.now.homes (map shape_of areas.now) }
    ensures { IfOk result (λ gs. SpellsRegions slots.now sibs.now.lists (map shape_of areas.now) (regions_of (map region_view gs.items))) }
{
    let mut regions = Vec::with_capacity(alloc, areas.len())?;
    for area in areas {
        let region = copy_region(alloc, slots, sibs, area, levels)?;
        regions.push(region)?;
    }
    Ok(regions)
}

/// Returns a region with everything inside it.
#[cycle(copy)]
fn copy_region(
    alloc: Global,
    slots: &Slots,
    sibs: &OrderedLists,
    area: &RegionData,
    levels: u32,
) -> Result<TreeRegion, AllocError>
    requires slots { (k : ℕ) → Live slots.now k → AllHeads sibs.now.homes (row_at slots.now k).shapes }
    requires heads { AllHeads sibs.now.homes (shape_of area.now ∷ []) }
    ensures { IfOk result (λ g. SpellsRegion slots.now sibs.now.lists (shape_of area.now) (region_view g)) }
{
    match area {
        RegionData::Empty => Ok(TreeRegion::Empty),
        RegionData::Block { args, head } => {
            let keys = list_of(alloc, sibs, *head)?;
            let mut ops = Vec::with_capacity(alloc, keys.len())?;
            for key in &keys {
                let op = copy_op(alloc, slots, sibs, key, levels)?;
                ops.push(op)?;
            }
            let args = Vec::from_slice(alloc, args)?;
            Ok(TreeRegion::Block { args, ops })
        }
    }
}

/// Returns the nodes in the list of a head.
fn list_of(alloc: Global, sibs: &OrderedLists, head: usize) -> Result<Vec<usize>, AllocError>
    requires { IsHead sibs.now.homes head }
    ensures { IfOk result (λ ks. ks.items ≡ list_at sibs.now.lists head) }
{
    let mut keys = Vec::new(alloc);
    sibs.nodes(head, &mut keys)?;
    Ok(keys)
}
